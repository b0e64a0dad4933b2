//! Maps and sets that let their first insertions go, over heaps in which growths are refused too.
use linked_list_allocator::LocalHeap;
use relation_terms::terms::OutOfMemory;
use relation_tools::delayed_map::{DelayedMap, DelayedSet};
use std::test::Fail;

// How many of 40 insertions into a set over a heap succeed, and whether one that is refused leaves out its value alone.
fn count_members(heap: &LocalHeap) -> (u32, bool) {
    let mut set = DelayedSet::new(heap);
    for k in 0..40u32 {
        if let Err(OutOfMemory) = set.insert(k) {
            return (k, !set.contains(&k) && (k <= 32 || set.contains(&32)));
        }
    }
    (40, set.contains(&39))
}

// How many of 40 insertions into a map over a heap succeed, and whether one that is refused leaves out its value alone.
fn count_values(heap: &LocalHeap) -> (u32, bool) {
    let mut map = DelayedMap::new(heap);
    for k in 0..40u32 {
        if let Err(OutOfMemory) = map.insert(k, k) {
            return (
                k,
                map.get(&k).is_none() && (k <= 32 || map.get(&32).is_some()),
            );
        }
    }
    (40, map.get(&39).is_some())
}

#[test]
fn a_refused_insertion_changes_nothing(rt: HostRuntime) -> Result<(), Fail> {
    let mut last = (0, 0);
    for units in 1..200usize {
        let heap = LocalHeap::new(rt.alloc(), units.saturating_mul(16))?;
        let (members, members_stand) = count_members(&heap);
        let (values, values_stand) = count_values(&heap);
        assert!(rt; members_stand && values_stand, "at {units}");
        assert!(rt; members >= 32 && values >= 32, "at {units}");
        last = (members, values);
    }
    assert!(rt; last == (40, 40));
    Ok(())
}
