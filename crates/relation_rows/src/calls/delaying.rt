//! What a map finds that lets its first insertions go.
use crate::running::RowFault;
use delayed_map::DelayedMap;
use std::alloc::Global;
use std::fmt::Write;

/// Writes what is found by a number where the numbers from 1 to 33 were inserted, each by itself.
pub(super) fn write_found<W: Write>(
    alloc: Global,
    number: u32,
    out: &mut W,
) -> Result<(), RowFault> {
    let mut map = DelayedMap::new(alloc);
    for one in 1..34u32 {
        let _ = map.insert(one, one)?;
    }
    match map.get(&number) {
        Some(found) => write!(out, "{found}")?,
        None => out.write_str("none")?,
    }
    Ok(())
}
