//! Whether parts are one term, as far as their keys tell.
ghost use Rattle.std.specs.Prelude.{◌≡◌, IsTrue};
ghost use Rattle.relation_terms.specs.Trees.{known};
ghost use Rattle.relation_terms.specs.Meaning.{signature_tree, existential_tree, term_tree};
ghost use Rattle.relation_terms.specs.Parts.{part_sort, part_tree, body_tree, HasKey, AreOneTerm};
ghost use Rattle.relation_terms.specs.declared.terms.part_kind.Part.TheVariants.{Binder as BinderPart};

use crate::predicate::ExistentialPredicate;
use crate::terms::parts::keys::key_of;
use crate::terms::{Body, BoundVarsKey, FnSig, Interner, Part, PartOf, TermKind};

// Whether two signatures are over one list of types, with one header.
fn is_same_signature<I: Interner>(_cx: &I, sig: &FnSig<I::Key>, other: &FnSig<I::Key>) -> bool
    requires sig_known { IsTrue (known (signature_tree (I.meaning _cx.now) sig.now)) }
    requires other_known { IsTrue (known (signature_tree (I.meaning _cx.now) other.now)) }
    ensures { let m = I.meaning _cx.now in IsTrue result → signature_tree m sig.now ≡ signature_tree m other.now }
{
    sig.inputs_and_output.0 == other.inputs_and_output.0 && sig.header == other.header
}

// Whether two terms of predicates are one type, or one constant.
fn is_same_term<I: Interner>(_cx: &I, term: &TermKind<I::Key>, other: &TermKind<I::Key>) -> bool
    requires term_known { IsTrue (known (term_tree (I.meaning _cx.now) term.now)) }
    requires other_known { IsTrue (known (term_tree (I.meaning _cx.now) other.now)) }
    ensures { IsTrue result → term_tree (I.meaning _cx.now) term.now ≡ term_tree (I.meaning _cx.now) other.now }
{
    match term {
        TermKind::Ty(ty) => match other {
            TermKind::Ty(other) => ty.0 == other.0,
            TermKind::Const(_) => false,
        },
        TermKind::Const(constant) => match other {
            TermKind::Const(other) => constant.0 == other.0,
            TermKind::Ty(_) => false,
        },
    }
}

// Whether two predicates of trait objects are over one item, with one list of arguments and one term.
fn is_same_existential<I: Interner>(
    cx: &I,
    predicate: &ExistentialPredicate<I::Key, I::Id>,
    other: &ExistentialPredicate<I::Key, I::Id>,
) -> bool
    requires predicate_known { IsTrue (known (existential_tree (I.meaning cx.now) predicate.now)) }
    requires other_known { IsTrue (known (existential_tree (I.meaning cx.now) other.now)) }
    ensures { IsTrue result →
        existential_tree (I.meaning cx.now) predicate.now ≡ existential_tree (I.meaning cx.now) other.now }
{
    match predicate {
        ExistentialPredicate::Trait(of) => match other {
            ExistentialPredicate::Trait(other) => {
                of.def_id.0 == other.def_id.0 && of.args.0 == other.args.0
            }
            _ => false,
        },
        ExistentialPredicate::Projection(of) => match other {
            ExistentialPredicate::Projection(other) => {
                of.def_id.0 == other.def_id.0
                    && of.args.0 == other.args.0
                    && is_same_term(cx, &of.term, &other.term)
            }
            _ => false,
        },
        ExistentialPredicate::AutoTrait(of) => match other {
            ExistentialPredicate::AutoTrait(other) => of.0 == other.0,
            _ => false,
        },
    }
}

// Whether two bodies are one.
fn is_same_body<I: Interner>(
    cx: &I,
    body: &Body<I::Key, I::Id>,
    other: &Body<I::Key, I::Id>,
) -> bool
    requires body_known { IsTrue (known (body_tree (I.meaning cx.now) body.now)) }
    requires other_known { IsTrue (known (body_tree (I.meaning cx.now) other.now)) }
    ensures { IsTrue result → body_tree (I.meaning cx.now) body.now ≡ body_tree (I.meaning cx.now) other.now }
{
    match body {
        Body::Signature(sig) => match other {
            Body::Signature(other) => is_same_signature(cx, sig, other),
            _ => false,
        },
        Body::Ty(ty) => match other {
            Body::Ty(other) => ty.0 == other.0,
            _ => false,
        },
        Body::Existential(predicate) => match other {
            Body::Existential(other) => is_same_existential(cx, predicate, other),
            _ => false,
        },
    }
}

// Whether two binders are over one list of variables and one body.
fn is_same_binder<I: Interner>(
    cx: &I,
    vars: &BoundVarsKey<I::Key>,
    body: &Body<I::Key, I::Id>,
    other: &PartOf<I>,
) -> bool
    requires binder_known { IsTrue (known (part_tree (I.meaning cx.now) (BinderPart vars.now body.now))) }
    requires other_known { IsTrue (known (part_tree (I.meaning cx.now) other.now)) }
    ensures { IsTrue result →
        part_tree (I.meaning cx.now) (BinderPart vars.now body.now) ≡ part_tree (I.meaning cx.now) other.now }
{
    match other {
        Part::Binder(other_vars, other) => {
            vars.0 == other_vars.0 && is_same_body(cx, body, other)
        }
        _ => false,
    }
}

// Whether two parts without keys of their own have the same fields.
#[inline(never)]
fn is_same_inside<I: Interner>(cx: &I, part: &PartOf<I>, other: &PartOf<I>) -> bool
    requires part_known { IsTrue (known (part_tree (I.meaning cx.now) part.now)) }
    requires other_known { IsTrue (known (part_tree (I.meaning cx.now) other.now)) }
    ensures { IsTrue result → part_tree (I.meaning cx.now) part.now ≡ part_tree (I.meaning cx.now) other.now }
{
    match part {
        Part::Binder(vars, body) => is_same_binder(cx, vars, body, other),
        Part::Signature(sig) => match other {
            Part::Signature(other) => is_same_signature(cx, sig, other),
            _ => false,
        },
        Part::Inputs(tys) => match other {
            Part::Inputs(other) => tys.0 == other.0,
            _ => false,
        },
        Part::Existential(predicate) => match other {
            Part::Existential(other) => is_same_existential(cx, predicate, other),
            _ => false,
        },
        _ => false,
    }
}

/// Whether two parts of one sort are one term. The interner has to know both.
///
/// Of parts that have a key it is exact. Of all others a yes is true; a no says that they were made of other lists.
#[inline(always)]
pub fn is_same<I: Interner>(cx: &I, part: &PartOf<I>, other: &PartOf<I>) -> bool
    requires part_known { IsTrue (known (part_tree (I.meaning cx.now) part.now)) }
    requires other_known { IsTrue (known (part_tree (I.meaning cx.now) other.now)) }
    requires same_sort { part_sort other.now ≡ part_sort part.now }
    ensures one { IsTrue result → AreOneTerm (I.meaning cx.now) part.now other.now }
    ensures keyed { HasKey part.now → AreOneTerm (I.meaning cx.now) part.now other.now → IsTrue result }
{
    match key_of(part) {
        Some(key) => match key_of(other) {
            Some(other) => key == other,
            None => false,
        },
        None => is_same_inside(cx, part, other),
    }
}
