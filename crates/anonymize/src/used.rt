//! The variables of a binder, and lists of them.
ghost use Rattle.std.specs.Prelude.{◌≡◌, ◌↔◌, IsTrue, OnOk, length};
ghost use Rattle.std.specs.List.{All};
ghost use Rattle.anonymize.specs.Anonymous.{same_var, place_in, one_more, StandsBelow};

use relation_terms::terms::OutOfMemory;

/// A variable of a binder: what it is, and its place in the binder's list.
#[derive(Clone, Copy)]
pub enum UsedVar {
    Ty(usize),
    Region(usize),
    Const(usize),
}

// Whether two variables are one.
fn is_same_var(var: &UsedVar, other: &UsedVar) -> bool
    ensures { result ≡ same_var var.now other.now }
{
    match (var, other) {
        (UsedVar::Ty(place), UsedVar::Ty(other)) => place == other,
        (UsedVar::Region(place), UsedVar::Region(other)) => place == other,
        (UsedVar::Const(place), UsedVar::Const(other)) => place == other,
        _ => false,
    }
}

/// The place of a variable in a list, if it is there: the first one.
pub fn place_of(vars: &[UsedVar], var: &UsedVar) -> Option<usize>
    ensures { result ≡ place_in vars.now var.now }
{
    for place in 0..vars.len() {
        let same = is_same_var(&vars[place], var);
        if same {
            return Some(place);
        }
    }
    None
}

/// Adds a variable to a list, if it is not there yet.
pub fn add(vars: &mut Vec<UsedVar>, var: UsedVar) -> Result<(), OutOfMemory>
    ensures { OnOk result (vars.new.items ≡ one_more vars.old.items var (place_in vars.old.items var)) }
{
    match place_of(vars, &var) {
        Some(_) => Ok(()),
        None => Ok(vars.push(var)?),
    }
}

/// Whether a binder of so many variables binds none, and none is used.
pub fn binds_none(used: &[UsedVar], count: usize) -> bool
    ensures { IsTrue result ↔ ((length used.now ≡ 0) × (count ≡ 0)) }
{
    (used.len() == 0) & (count == 0)
}

// Whether the place of a variable is below a number.
fn stands_below(var: &UsedVar, count: usize) -> bool
    ensures { IsTrue result ↔ StandsBelow count var.now }
{
    match var {
        UsedVar::Ty(place) | UsedVar::Region(place) | UsedVar::Const(place) => *place < count,
    }
}

/// Whether the places of all variables of a list are below a number.
pub fn stand_below(vars: &[UsedVar], count: usize) -> bool
    ensures { IsTrue result ↔ All (StandsBelow count) vars.now }
{
    for var in vars {
        if !stands_below(var, count) {
            return false;
        }
    }
    true
}
