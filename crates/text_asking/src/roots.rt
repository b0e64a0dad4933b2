//! Variables that are asked about: whether two are one, and what one is bound to.
ghost use Rattle.std.specs.Prelude.{◌≡◌, ◌↔◌, IsTrue, IfOk, IfSome};
ghost use Rattle.relation_terms.specs.Trees.{known};
ghost use Rattle.relation_terms.specs.Meaning.{Extends, arg_tree};
ghost use Rattle.variable_tables.specs.Tables.{IsLawful};
ghost use Rattle.variable_tables.specs.Variables.{root_at, value_at};
ghost use Rattle.text_asking.specs.Roots.{AreOneVariable, bound_by, class_binding, class_root};

use crate::context::have_variable;
use crate::question::Unasked;
use relation_reference::context::{RefCtxt, VariableTable, VariableValue};
use relation_terms::terms::{GenericArg, GenericArgKind, Interner};
use text_reading::naming::{VariableId, VariableKind};

// The root of a variable's class.
fn root_at<K: Copy>(variables: &VariableTable<K>, number: usize) -> usize
    ensures { result ≡ root_at variables.now.items number }
{
    if variables.has(number) {
        variables.root_of(number)
    } else {
        number
    }
}

// The term that a variable of that number is bound to itself.
fn bound_at<K: Copy>(variables: &VariableTable<K>, number: usize) -> Option<K>
    ensures { result ≡ bound_by (λ t. t) (value_at variables.now.items number) }
{
    if !variables.has(number) {
        return None;
    }
    match variables.probe(number) {
        VariableValue::Known(term) => Some(term),
        VariableValue::Unknown => None,
        VariableValue::SameAs(_) => None,
    }
}

// The root of a variable's class, by its number.
fn class_root<I: Interner>(ctx: &RefCtxt<I>, variable: VariableId) -> usize
    ensures { result ≡ class_root ctx.now.inner variable.kind variable.number }
{
    let number = variable.number;
    match variable.kind {
        VariableKind::Ty => root_at(&ctx.inner.types, number),
        VariableKind::Int => root_at(&ctx.inner.ints, number),
        VariableKind::Float => root_at(&ctx.inner.floats, number),
        VariableKind::Const => root_at(&ctx.inner.consts, number),
        VariableKind::Region => number,
    }
}

// The term that a variable's class is bound to.
fn class_binding<I: Interner>(ctx: &RefCtxt<I>, variable: VariableId) -> Option<GenericArg<I>>
    requires { IsLawful (I.meaning ctx.now.interner) ctx.now.inner }
    ensures bound { result ≡ class_binding ctx.now.inner variable.kind variable.number }
    ensures sure { IfSome result (λ a. IsTrue (known (arg_tree (I.meaning ctx.now.interner) a))) }
{
    let root = class_root(ctx, variable);
    match variable.kind {
        VariableKind::Ty => Some(GenericArgKind::Ty(bound_at(&ctx.inner.types, root)?)),
        VariableKind::Int => Some(GenericArgKind::Ty(bound_at(&ctx.inner.ints, root)?)),
        VariableKind::Float => Some(GenericArgKind::Ty(bound_at(&ctx.inner.floats, root)?)),
        VariableKind::Const => Some(GenericArgKind::Const(bound_at(&ctx.inner.consts, root)?)),
        VariableKind::Region => None,
    }
}

// Whether two variables are one, which are made if they are not there.
#[tactic(auto, using(relation_terms::proofs::Stays::extends_on))]
pub(super) fn ask_one<I: Interner>(
    ctx: &mut RefCtxt<I>,
    first: VariableId,
    second: VariableId,
) -> Result<bool, Unasked>
    requires { IsLawful (I.meaning ctx.old.interner) ctx.old.inner }
    ensures lawful { IsLawful (I.meaning ctx.new.interner) ctx.new.inner }
    ensures grown { Extends (I.meaning ctx.old.interner) (I.meaning ctx.new.interner) }
    ensures one { IfOk result (λ one. IsTrue one ↔ AreOneVariable ctx.new.inner first second) }
{
    let Ok(()) = have_variable(ctx, first) else {
        return Err(Unasked::Memory);
    };
    let Ok(()) = have_variable(ctx, second) else {
        return Err(Unasked::Memory);
    };
    Ok(first.kind == second.kind && class_root(ctx, first) == class_root(ctx, second))
}

// What a variable is bound to, which is made if it is not there.
pub(super) fn ask_binding<I: Interner>(
    ctx: &mut RefCtxt<I>,
    variable: VariableId,
) -> Result<Option<GenericArg<I>>, Unasked>
    requires { IsLawful (I.meaning ctx.old.interner) ctx.old.inner }
    ensures lawful { IsLawful (I.meaning ctx.new.interner) ctx.new.inner }
    ensures grown { Extends (I.meaning ctx.old.interner) (I.meaning ctx.new.interner) }
    ensures bound { IfOk result (λ b. b ≡ class_binding ctx.new.inner variable.kind variable.number) }
    ensures sure { IfOk result (λ b. IfSome b (λ a. IsTrue (known (arg_tree (I.meaning ctx.new.interner) a)))) }
{
    let Ok(()) = have_variable(ctx, variable) else {
        return Err(Unasked::Memory);
    };
    Ok(class_binding(ctx, variable))
}
