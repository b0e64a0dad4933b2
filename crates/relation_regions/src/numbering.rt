//! Regions, each of which has a number.
ghost use Rattle.std.specs.Prelude.{◌<◌, ◌≤◌, ◌^◌, All, length, IfOk};
ghost use Rattle.relation_regions.specs.Numbering.{IsRegionAt, AreRegionsOf, AreBelow};
ghost use Rattle.relation_regions.specs.Reading.{GetsNumber};

use node_table::NodeTable;
use relation_terms::predicate::OutlivesPredicate;
use relation_terms::terms::RegionKey;
use std::alloc::Global;
use std::hash::Hash;
use term_enums::OutOfMemory;

/// The number of a region, from 0 as they came. Where it has none yet, it gets the next one.
pub(crate) fn number<X: Copy + Eq + Hash>(
    table: &mut NodeTable<RegionKey<X>>,
    region: RegionKey<X>,
) -> Result<usize, OutOfMemory>
    ensures { IfOk result (GetsNumber (λ k l. X.eq k.0 l.0) region table.old table.new) }
{
    let number = table.intern(region)?;
    Ok(number as usize)
}

/// The region of a number.
pub(crate) fn region_at<X: Copy + Eq + Hash>(
    table: &NodeTable<RegionKey<X>>,
    number: usize,
) -> RegionKey<X>
    requires below { number < length table.now }
    requires fits { length table.now ≤ 2 ^ 32 }
    ensures { IsRegionAt table.now number result }
{
    *table.node(number as u32)
}

/// The regions of pairs of numbers.
pub(crate) fn regions_of<X: Copy + Eq + Hash>(
    alloc: Global,
    table: &NodeTable<RegionKey<X>>,
    pairs: &[(usize, usize)],
) -> Result<Vec<OutlivesPredicate<X, RegionKey<X>>>, OutOfMemory>
    requires below { All (AreBelow (length table.now)) pairs.now }
    requires fits { length table.now ≤ 2 ^ 32 }
    ensures { IfOk result (λ regions. AreRegionsOf table.now pairs.now regions.items) }
{
    let mut regions = Vec::new(alloc);
    for pair in pairs {
        let longer = region_at(table, pair.0);
        let shorter = region_at(table, pair.1);
        regions.push(OutlivesPredicate(longer, shorter))?;
    }
    Ok(regions)
}
