//! Predicates whose outermost binders differ in names, order or unused variables alone, made one.
#![tactic(auto)]

ghost use Rattle.std.specs.Prelude.{◌↔◌, IsTrue, IfOk};
ghost use Rattle.relation_terms.specs.Trees.{known};
ghost use Rattle.relation_terms.specs.Meaning.{Extends};
ghost use Rattle.relation_terms.specs.Owned.{BindsWithin};
ghost use Rattle.anonymize.specs.Anonymous.{IsAnonymized};

mod collecting;
pub mod laws;
mod renaming;
mod used;

use crate::collecting::used_vars;
use crate::renaming::{named_vars, rename_bound_vars};
use crate::used::{binds_none, stand_below};
use relation_terms::terms::{Binder, Interner, OutOfMemory, Predicate, Symbol};

/// The predicate with its outermost binder over the variables alone that are used in it, in the order in which a visit
/// first comes to them, all by the name that is handed in. So there is one value for two predicates exactly where their
/// outermost binders differ in names, order or unused variables alone (`laws::renamings`), and then the keys are equal
/// too. Binders further in stay as they are. The interner has to know the predicate.
///
/// Each part that has a key is gone into once at each depth, however often it stands in the predicate.
///
/// Answers `OutOfMemory` where a growth was refused; all keys mean then what they did. Upstream's call of that name of
/// an interner, where what binders bind needs no name.
pub fn anonymize_bound_vars<I: Interner>(
    cx: &mut I,
    predicate: &Predicate<I>,
    name: Symbol<I>,
) -> Result<Predicate<I>, OutOfMemory>
    requires { IsTrue (known ((I.meaning cx.old).predicate predicate.now)) }
    ensures grown { Extends (I.meaning cx.old) (I.meaning cx.new) }
    ensures sure { IfOk result (λ k. IsTrue (known ((I.meaning cx.new).predicate k))) }
    ensures made { IfOk result (λ k. IsAnonymized (I.meaning cx.old) (I.meaning cx.new) name predicate.now k) }
{
    let form = cx.predicate_kind(predicate);
    let used = used_vars(cx, &form.value)?;
    let bound = cx.bound_vars(&form.bound_vars).len();
    if binds_none(&used, bound) {
        return Ok(*predicate);
    }
    let value = rename_bound_vars(cx, &form.value, &used, name)?;
    let vars = named_vars(&used, name, cx.alloc())?;
    let bound_vars = cx.mk_bound_vars(&vars)?;
    cx.mk_predicate(Binder { value, bound_vars })
}

/// Whether all variables that the outermost binder of a predicate binds stand at places of the binder's list. So it is
/// for every predicate that is written down; a key can mean one in which it isn't. The interner has to know the
/// predicate.
///
/// Answers `OutOfMemory` where a growth was refused.
pub fn binds_within<I: Interner>(cx: &I, predicate: &Predicate<I>) -> Result<bool, OutOfMemory>
    requires { IsTrue (known ((I.meaning cx.now).predicate predicate.now)) }
    ensures within { IfOk result (λ b. IsTrue b ↔ BindsWithin ((I.meaning cx.now).predicate predicate.now)) }
{
    let form = cx.predicate_kind(predicate);
    let used = used_vars(cx, &form.value)?;
    Ok(stand_below(&used, cx.bound_vars(&form.bound_vars).len()))
}
