//! Numbers of 32 bits.
ghost use Rattle.std.specs.Prelude.{◌≡◌, ◌≤◌, ◌^◌, IfOk, OnErr};

use term_enums::OutOfMemory;

/// The number that comes after this many, which are numbered from zero.
///
/// # Errors
/// `OutOfMemory` after the last number of 32 bits.
#[inline(always)]
pub fn next_number(count: usize) -> Result<u32, OutOfMemory>
    ensures number { IfOk result (λ n. n ≡ count) }
    ensures refused { OnErr result (2 ^ 32 ≤ count) }
{
    u32::try_from(count).map_err(|_| OutOfMemory)
}
