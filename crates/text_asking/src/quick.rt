//! Quick tests that are asked, and keys that are written.
ghost use Rattle.std.specs.Prelude.{IsTrue, IfOk};
ghost use Rattle.relation_terms.specs.Trees.{known};
ghost use Rattle.relation_terms.specs.Meaning.{Extends};
ghost use Rattle.variable_tables.specs.Tables.{IsLawful};
ghost use Rattle.text_asking.specs.Asking.{AllReady, KnowsAnswer, KnowsRelated};

use crate::lists::args_of;
use crate::question::{Answer, Outcome, Ready, Unasked, term_of, type_of};
use relation_folds::visit::{has_escaping_bound_vars, has_non_region_infer, is_known_rigid};
use relation_reference::context::RefCtxt;
use relation_terms::terms::{Interner, ItemOf, Mutability, Ty};
use relation_tools::fast_reject::{DeepRejectCtxt, SimplifiedType, TreatParams, simplify_type};
use std::fmt::{self, Write};
use text_reading::naming::Parts;
use text_reading::reading::{KeyParams, SideParams};
use text_terms::printing::{TextsOf, float_name, int_name, uint_name, write_item_name};

// The key of a type over an interner, if it has one.
pub(super) type KeyOf<I> = Option<SimplifiedType<ItemOf<I>>>;

// Whether a variable stands in a term that a binder outside it binds.
pub(super) fn ask_escapes<I: Interner>(
    cx: &I,
    terms: &Ready<I>,
    number: usize,
) -> Result<bool, Unasked>
    requires { AllReady (I.meaning cx.now) terms.now }
{
    let term = term_of(terms, number)?;
    Ok(has_escaping_bound_vars(cx, &term))
}

// Whether a variable that is no region stands in a term.
pub(super) fn ask_infers<I: Interner>(
    cx: &I,
    terms: &Ready<I>,
    number: usize,
) -> Result<bool, Unasked>
    requires { AllReady (I.meaning cx.now) terms.now }
{
    let term = term_of(terms, number)?;
    Ok(has_non_region_infer(cx, &term))
}

// Whether a type's outermost form stays what it is.
pub(super) fn ask_rigid<I: Interner>(
    cx: &I,
    terms: &Ready<I>,
    number: usize,
) -> Result<bool, Unasked>
    requires { AllReady (I.meaning cx.now) terms.now }
{
    let ty = type_of(terms, number)?;
    Ok(is_known_rigid(cx, &ty))
}

// Whether two types may unify by a test, as far as a depth goes if one is given.
fn test_types<I: Interner, const LEFT: bool, const RIGHT: bool>(
    test: &DeepRejectCtxt<I, LEFT, RIGHT>,
    cx: &I,
    lhs: &Ty<I>,
    rhs: &Ty<I>,
    depth: Option<usize>,
) -> bool
    requires lhs_known { IsTrue (known ((I.meaning cx.now).ty lhs.now)) }
    requires rhs_known { IsTrue (known ((I.meaning cx.now).ty rhs.now)) }
{
    match depth {
        Some(depth) => test.types_may_unify_with_depth(cx, lhs, rhs, depth),
        None => test.types_may_unify(cx, lhs, rhs),
    }
}

// Whether two types may unify.
pub(super) fn ask_may_unify<I: Interner>(
    cx: &I,
    terms: &Ready<I>,
    params: SideParams,
    lhs: usize,
    rhs: usize,
    depth: Option<usize>,
) -> Result<bool, Unasked>
    requires { AllReady (I.meaning cx.now) terms.now }
{
    let lhs = type_of(terms, lhs)?;
    let rhs = type_of(terms, rhs)?;
    Ok(match params {
        SideParams::RigidRigid => {
            let test = DeepRejectCtxt::<I, false, false>::relate_rigid_rigid(cx);
            test_types(&test, cx, &lhs, &rhs, depth)
        }
        SideParams::RigidInfer => {
            let test = DeepRejectCtxt::<I, false, true>::relate_rigid_infer(cx);
            test_types(&test, cx, &lhs, &rhs, depth)
        }
        SideParams::InferInfer => {
            let test = DeepRejectCtxt::<I, true, true>::relate_infer_infer(cx);
            test_types(&test, cx, &lhs, &rhs, depth)
        }
    })
}

// Whether two lists of arguments may unify.
#[tactic(auto, using(relation_terms::proofs::Stays::knows_args, relation_terms::proofs::Stays::extends_on))]
pub(super) fn ask_args_may_unify<I: Interner>(
    ctx: &mut RefCtxt<I>,
    terms: &Ready<I>,
    params: SideParams,
    lhs: Parts,
    rhs: Parts,
) -> Result<bool, Unasked>
    requires lawful { IsLawful (I.meaning ctx.old.interner) ctx.old.inner }
    requires ready { AllReady (I.meaning ctx.old.interner) terms.now }
    ensures lawful { IsLawful (I.meaning ctx.new.interner) ctx.new.inner }
    ensures grown { Extends (I.meaning ctx.old.interner) (I.meaning ctx.new.interner) }
{
    let lhs = args_of(ctx, terms, lhs)?;
    let rhs = args_of(ctx, terms, rhs)?;
    let cx = &ctx.interner;
    Ok(match params {
        SideParams::RigidRigid => {
            let test = DeepRejectCtxt::<I, false, false>::relate_rigid_rigid(cx);
            test.args_may_unify(cx, &lhs, &rhs)
        }
        SideParams::RigidInfer => {
            let test = DeepRejectCtxt::<I, false, true>::relate_rigid_infer(cx);
            test.args_may_unify(cx, &lhs, &rhs)
        }
        SideParams::InferInfer => {
            let test = DeepRejectCtxt::<I, true, true>::relate_infer_infer(cx);
            test.args_may_unify(cx, &lhs, &rhs)
        }
    })
}

// The key of a type.
pub(super) fn ask_key<I: Interner>(
    cx: &I,
    terms: &Ready<I>,
    params: KeyParams,
    number: usize,
) -> Outcome<I>
    requires { AllReady (I.meaning cx.now) terms.now }
    ensures { let m = I.meaning cx.now in
        IfOk result (KnowsAnswer m (KnowsRelated m)) }
{
    let ty = type_of(terms, number)?;
    let treat_params = match params {
        KeyParams::Infer => TreatParams::InstantiateWithInfer,
        KeyParams::Rigid => TreatParams::AsRigid,
    };
    Ok(Answer::Key(simplify_type(cx, &ty, treat_params)))
}

// The name of a key.
fn key_name<D>(key: &SimplifiedType<D>) -> &'static str {
    match key {
        SimplifiedType::Bool => "Bool",
        SimplifiedType::Char => "Char",
        SimplifiedType::Int(_) => "Int",
        SimplifiedType::Uint(_) => "Uint",
        SimplifiedType::Float(_) => "Float",
        SimplifiedType::Adt(_) => "Adt",
        SimplifiedType::Foreign(_) => "Foreign",
        SimplifiedType::Str => "Str",
        SimplifiedType::Array => "Array",
        SimplifiedType::Slice => "Slice",
        SimplifiedType::Ref(_) => "Ref",
        SimplifiedType::Ptr(_) => "Ptr",
        SimplifiedType::Never => "Never",
        SimplifiedType::Tuple(_) => "Tuple",
        SimplifiedType::MarkerTraitObject => "MarkerTraitObject",
        SimplifiedType::Trait(_) => "Trait",
        SimplifiedType::Closure(_) => "Closure",
        SimplifiedType::Coroutine(_) => "Coroutine",
        SimplifiedType::CoroutineWitness(_) => "CoroutineWitness",
        SimplifiedType::Function(_) => "Function",
        SimplifiedType::UnsafeBinder => "UnsafeBinder",
        SimplifiedType::Placeholder => "Placeholder",
        SimplifiedType::Error => "Error",
    }
}

// The name of a mutability.
fn mutability_name(mutability: Mutability) -> &'static str {
    match mutability {
        Mutability::Not => "Not",
        Mutability::Mut => "Mut",
    }
}

// Writes what a key that names an item carries: the item's name.
fn write_key_item<I: Interner, W: Write>(
    texts: &TextsOf<I>,
    item: &ItemOf<I>,
    out: &mut W,
) -> fmt::Result {
    out.write_str("(")?;
    write_item_name::<I, W>(texts, item, out)?;
    out.write_str(")")
}

// Writes a key, or that there is none: its name, and behind it in parentheses what it carries.
pub(super) fn write_key<I: Interner, W: Write>(
    texts: &TextsOf<I>,
    key: &KeyOf<I>,
    out: &mut W,
) -> fmt::Result {
    let Some(key) = key else {
        return out.write_str("none");
    };
    out.write_str(key_name(key))?;
    match key {
        SimplifiedType::Int(width) => write!(out, "({})", int_name(*width)),
        SimplifiedType::Uint(width) => write!(out, "({})", uint_name(*width)),
        SimplifiedType::Float(width) => write!(out, "({})", float_name(*width)),
        SimplifiedType::Ref(mutability) | SimplifiedType::Ptr(mutability) => {
            write!(out, "({})", mutability_name(*mutability))
        }
        SimplifiedType::Tuple(count) | SimplifiedType::Function(count) => {
            write!(out, "({count})")
        }
        _ => match key.def() {
            Some(item) => write_key_item::<I, W>(texts, &item, out),
            None => Ok(()),
        },
    }
}
