//! Three columns of numbers that grow together.
ghost use Rattle.std.specs.Prelude.{◌≡◌, [], ◌∷◌, ◌++◌, OnOk};

use term_enums::OutOfMemory;

/// Puts a number at the end of each column. After `OutOfMemory` some may lack theirs.
pub(crate) fn push_row(
    first: &mut Vec<usize>,
    second: &mut Vec<usize>,
    third: &mut Vec<usize>,
    x: usize,
    y: usize,
    z: usize,
) -> Result<(), OutOfMemory>
    ensures first { OnOk result (first.new.items ≡ first.old.items ++ x ∷ []) }
    ensures second { OnOk result (second.new.items ≡ second.old.items ++ y ∷ []) }
    ensures third { OnOk result (third.new.items ≡ third.old.items ++ z ∷ []) }
{
    first.push(x)?;
    second.push(y)?;
    third.push(z)?;
    Ok(())
}
