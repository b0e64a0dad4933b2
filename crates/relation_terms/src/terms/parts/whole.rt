//! Terms and their parts: from a term to the list of its parts, and to a term of its form over others.
ghost use Rattle.std.specs.Prelude.{◌≡◌, ◌<◌, IsTrue, IfOk};
ghost use Rattle.relation_terms.specs.Trees.{known, count, nth, list_tree, IsList};
ghost use Rattle.relation_terms.specs.Meaning.{Extends, signature_tree, existential_tree};
ghost use Rattle.relation_terms.specs.declared.terms.part_kind.Part.TheVariants.{Binder as BinderPart};
ghost use Rattle.relation_terms.specs.declared.terms.part_kind.Part.TheVariants.{Signature as SignaturePart};
ghost use Rattle.relation_terms.specs.declared.terms.part_kind.Part.TheVariants.{Inputs as InputsPart};
ghost use Rattle.relation_terms.specs.declared.terms.part_kind.Part.TheVariants.{Object as ObjectPart};
ghost use Rattle.relation_terms.specs.declared.terms.part_kind.Part.TheVariants.{Existential as ExistentialPart};
ghost use Rattle.relation_terms.specs.Orders.{list_order, order_of};
ghost use Rattle.relation_terms.specs.Parts.{part_tree, parts_tree, part_sort, Fit, over, MakesOver};
ghost use Rattle.relation_terms.specs.Parts.{parts_of as list_of_parts};

use crate::predicate::ExistentialPredicate;
use crate::terms::parts::forms::{
    const_over, const_parts, existential_over, existential_parts, pattern_over, pattern_parts,
    ty_over, ty_parts, valtree_over, valtree_parts,
};
use crate::terms::parts::keys::{body_or, expect_inputs, expect_ty, of_body};
use crate::terms::parts::members::{last_of, with_output};
use crate::terms::parts::{
    expect_input_types, expect_predicates, make_parts, member, member_count,
};
use crate::terms::{
    Const, ExistentialPredicates, FnSig, Interner, OutOfMemory, Part, PartOf, Parts, PartsOf, Pat,
    Ty, Tys, ValTree,
};

/// The list of the parts of a term. The interner has to know the term, and knows the list too.
pub fn parts_of<I: Interner>(cx: &I, term: &PartOf<I>) -> PartsOf<I>
    requires { IsTrue (known (part_tree (I.meaning cx.now) term.now)) }
    ensures sure { IsTrue (known (parts_tree (I.meaning cx.now) result)) }
    ensures means { parts_tree (I.meaning cx.now) result ≡ list_of_parts (part_tree (I.meaning cx.now) term.now) }
    ensures order { list_order result ≡ order_of (part_tree (I.meaning cx.now) term.now) }
{
    match term {
        Part::Region(_) => Parts::Empty,
        Part::Ty(ty) => ty_parts(&cx.ty_kind(ty)),
        Part::Const(constant) => const_parts(&cx.const_kind(constant)),
        Part::ValTree(valtree) => valtree_parts(&cx.valtree_kind(valtree)),
        Part::Pat(pat) => pattern_parts(&cx.pat_kind(pat)),
        Part::ValueType(ty) => Parts::One(Part::Ty(*ty)),
        Part::Binder(_, body) => Parts::One(of_body(body)),
        Part::Signature(sig) => {
            let types = sig.inputs_and_output;
            Parts::Two(Part::Inputs(types), Part::Ty(last_of(cx, &types)))
        }
        Part::Inputs(types) => Parts::Inputs(*types),
        Part::Existential(predicate) => existential_parts(predicate),
        Part::Object(predicates) => Parts::Predicates(*predicates),
    }
}

/// How many parts a term has. The interner has to know the term.
pub fn parts_count<I: Interner>(cx: &I, term: &PartOf<I>) -> usize
    requires { IsTrue (known (part_tree (I.meaning cx.now) term.now)) }
    ensures counts { result ≡ count (list_of_parts (part_tree (I.meaning cx.now) term.now)) }
    ensures is_list { IsList (list_of_parts (part_tree (I.meaning cx.now) term.now)) }
{
    member_count(cx, &parts_of(cx, term))
}

/// The part of a term at a place. Places count from 0.
///
/// The interner has to know the term, and the place has to be below `parts_count`. The interner knows the part too.
pub fn part<I: Interner>(cx: &I, term: &PartOf<I>, i: usize) -> PartOf<I>
    requires term_known { IsTrue (known (part_tree (I.meaning cx.now) term.now)) }
    requires in_bounds { i < count (list_of_parts (part_tree (I.meaning cx.now) term.now)) }
    ensures sure { IsTrue (known (part_tree (I.meaning cx.now) result)) }
    ensures means { let m = I.meaning cx.now in part_tree m result ≡ nth i (list_of_parts (part_tree m term.now)) }
{
    member(cx, &parts_of(cx, term), i)
}

// The type of that one's form over these parts.
fn ty_with_parts<I: Interner>(
    cx: &mut I,
    ty: &Ty<I>,
    parts: &[PartOf<I>],
) -> Result<Ty<I>, OutOfMemory>
    requires term_known { IsTrue (known ((I.meaning cx.old).ty ty.now)) }
    requires parts_known { IsTrue (known (list_tree (part_tree (I.meaning cx.old)) parts.now)) }
    requires fits { Fit parts.now (list_of_parts ((I.meaning cx.old).ty ty.now)) }
    ensures grown { Extends (I.meaning cx.old) (I.meaning cx.new) }
    ensures sure { IfOk result (λ k. IsTrue (known ((I.meaning cx.new).ty k))) }
    ensures made { IfOk result (λ k. (I.meaning cx.new).ty k ≡
        over ((I.meaning cx.old).ty ty.now) (list_tree (part_tree (I.meaning cx.old)) parts.now)) }
{
    let kind = cx.ty_kind(ty);
    let made = make_parts(cx, &ty_parts(&kind), parts)?;
    cx.mk_ty(ty_over(&kind, &made))
}

// The constant of that one's form over these parts.
fn const_with_parts<I: Interner>(
    cx: &mut I,
    constant: &Const<I>,
    parts: &[PartOf<I>],
) -> Result<Const<I>, OutOfMemory>
    requires term_known { IsTrue (known ((I.meaning cx.old).const_ constant.now)) }
    requires parts_known { IsTrue (known (list_tree (part_tree (I.meaning cx.old)) parts.now)) }
    requires fits { Fit parts.now (list_of_parts ((I.meaning cx.old).const_ constant.now)) }
    ensures grown { Extends (I.meaning cx.old) (I.meaning cx.new) }
    ensures sure { IfOk result (λ k. IsTrue (known ((I.meaning cx.new).const_ k))) }
    ensures made { IfOk result (λ k. (I.meaning cx.new).const_ k ≡
        over ((I.meaning cx.old).const_ constant.now) (list_tree (part_tree (I.meaning cx.old)) parts.now)) }
{
    let kind = cx.const_kind(constant);
    let made = make_parts(cx, &const_parts(&kind), parts)?;
    cx.mk_const(const_over(&kind, &made))
}

// The value tree of that one's form over these parts.
fn valtree_with_parts<I: Interner>(
    cx: &mut I,
    valtree: &ValTree<I>,
    parts: &[PartOf<I>],
) -> Result<ValTree<I>, OutOfMemory>
    requires term_known { IsTrue (known ((I.meaning cx.old).valtree valtree.now)) }
    requires parts_known { IsTrue (known (list_tree (part_tree (I.meaning cx.old)) parts.now)) }
    requires fits { Fit parts.now (list_of_parts ((I.meaning cx.old).valtree valtree.now)) }
    ensures grown { Extends (I.meaning cx.old) (I.meaning cx.new) }
    ensures sure { IfOk result (λ k. IsTrue (known ((I.meaning cx.new).valtree k))) }
    ensures made { IfOk result (λ k. (I.meaning cx.new).valtree k ≡
        over ((I.meaning cx.old).valtree valtree.now) (list_tree (part_tree (I.meaning cx.old)) parts.now)) }
{
    let kind = cx.valtree_kind(valtree);
    let made = make_parts(cx, &valtree_parts(&kind), parts)?;
    cx.mk_valtree(valtree_over(&kind, &made))
}

// The pattern of that one's form over these parts.
fn pat_with_parts<I: Interner>(
    cx: &mut I,
    pat: &Pat<I>,
    parts: &[PartOf<I>],
) -> Result<Pat<I>, OutOfMemory>
    requires term_known { IsTrue (known ((I.meaning cx.old).pat pat.now)) }
    requires parts_known { IsTrue (known (list_tree (part_tree (I.meaning cx.old)) parts.now)) }
    requires fits { Fit parts.now (list_of_parts ((I.meaning cx.old).pat pat.now)) }
    ensures grown { Extends (I.meaning cx.old) (I.meaning cx.new) }
    ensures sure { IfOk result (λ k. IsTrue (known ((I.meaning cx.new).pat k))) }
    ensures made { IfOk result (λ k. (I.meaning cx.new).pat k ≡
        over ((I.meaning cx.old).pat pat.now) (list_tree (part_tree (I.meaning cx.old)) parts.now)) }
{
    let kind = cx.pat_kind(pat);
    let made = make_parts(cx, &pattern_parts(&kind), parts)?;
    cx.mk_pat(pattern_over(&kind, &made))
}

// The signature over these parts, inputs and an output, with that one's header.
fn signature_with_parts<I: Interner>(
    cx: &mut I,
    sig: &FnSig<I::Key>,
    parts: &[PartOf<I>],
) -> Result<FnSig<I::Key>, OutOfMemory>
    requires term_known { IsTrue (known (signature_tree (I.meaning cx.old) sig.now)) }
    requires parts_known { IsTrue (known (list_tree (part_tree (I.meaning cx.old)) parts.now)) }
    requires fits { Fit parts.now (list_of_parts (signature_tree (I.meaning cx.old) sig.now)) }
    ensures grown { Extends (I.meaning cx.old) (I.meaning cx.new) }
    ensures sure { IfOk result (λ s. IsTrue (known (signature_tree (I.meaning cx.new) s))) }
    ensures made { IfOk result (λ s. signature_tree (I.meaning cx.new) s ≡
        over (signature_tree (I.meaning cx.old) sig.now) (list_tree (part_tree (I.meaning cx.old)) parts.now)) }
{
    let types = with_output(cx, &expect_inputs(&parts[0]), expect_ty(&parts[1]))?;
    Ok(FnSig {
        inputs_and_output: types,
        header: sig.header,
    })
}

// The predicate of a trait object over these parts.
fn existential_with_parts<I: Interner>(
    cx: &mut I,
    predicate: &ExistentialPredicate<I::Key, I::Id>,
    parts: &[PartOf<I>],
) -> Result<ExistentialPredicate<I::Key, I::Id>, OutOfMemory>
    requires term_known { IsTrue (known (existential_tree (I.meaning cx.old) predicate.now)) }
    requires parts_known { IsTrue (known (list_tree (part_tree (I.meaning cx.old)) parts.now)) }
    requires fits { Fit parts.now (list_of_parts (existential_tree (I.meaning cx.old) predicate.now)) }
    ensures grown { Extends (I.meaning cx.old) (I.meaning cx.new) }
    ensures sure { IfOk result (λ p. IsTrue (known (existential_tree (I.meaning cx.new) p))) }
    ensures made { IfOk result (λ p. existential_tree (I.meaning cx.new) p ≡
        over (existential_tree (I.meaning cx.old) predicate.now)
        (list_tree (part_tree (I.meaning cx.old)) parts.now)) }
{
    let made = make_parts(cx, &existential_parts(predicate), parts)?;
    Ok(existential_over(predicate, &made))
}

// The list of inputs that these are.
fn inputs_with_parts<I: Interner>(
    cx: &mut I,
    tys: &Tys<I>,
    parts: &[PartOf<I>],
) -> Result<Tys<I>, OutOfMemory>
    requires term_known { IsTrue (known (part_tree (I.meaning cx.old) (InputsPart tys.now))) }
    requires parts_known { IsTrue (known (list_tree (part_tree (I.meaning cx.old)) parts.now)) }
    requires fits { Fit parts.now (list_of_parts (part_tree (I.meaning cx.old) (InputsPart tys.now))) }
    ensures grown { Extends (I.meaning cx.old) (I.meaning cx.new) }
    ensures sure { IfOk result (λ k. IsTrue (known (part_tree (I.meaning cx.new) (InputsPart k)))) }
    ensures made { IfOk result (λ k. part_tree (I.meaning cx.new) (InputsPart k) ≡
        over (part_tree (I.meaning cx.old) (InputsPart tys.now))
        (list_tree (part_tree (I.meaning cx.old)) parts.now)) }
{
    let made = make_parts(cx, &Parts::Inputs(*tys), parts)?;
    Ok(expect_input_types(&made))
}

// The list of a trait object's predicates that these are.
fn object_with_parts<I: Interner>(
    cx: &mut I,
    predicates: &ExistentialPredicates<I>,
    parts: &[PartOf<I>],
) -> Result<ExistentialPredicates<I>, OutOfMemory>
    requires term_known { IsTrue (known (part_tree (I.meaning cx.old) (ObjectPart predicates.now))) }
    requires parts_known { IsTrue (known (list_tree (part_tree (I.meaning cx.old)) parts.now)) }
    requires fits { Fit parts.now (list_of_parts (part_tree (I.meaning cx.old) (ObjectPart predicates.now))) }
    ensures grown { Extends (I.meaning cx.old) (I.meaning cx.new) }
    ensures sure { IfOk result (λ k. IsTrue (known (part_tree (I.meaning cx.new) (ObjectPart k)))) }
    ensures made { IfOk result (λ k. part_tree (I.meaning cx.new) (ObjectPart k) ≡
        over (part_tree (I.meaning cx.old) (ObjectPart predicates.now))
        (list_tree (part_tree (I.meaning cx.old)) parts.now)) }
{
    let made = make_parts(cx, &Parts::Predicates(*predicates), parts)?;
    Ok(expect_predicates(&made))
}

/// The term of that one's form over these parts, as many as it has and each of the sort of the part at its place.
///
/// The interner has to know the term and the parts. Answers `OutOfMemory` where a growth was refused. All keys keep
/// their meanings.
pub fn with_parts<I: Interner>(
    cx: &mut I,
    term: &PartOf<I>,
    parts: &[PartOf<I>],
) -> Result<PartOf<I>, OutOfMemory>
    requires term_known { IsTrue (known (part_tree (I.meaning cx.old) term.now)) }
    requires parts_known { IsTrue (known (list_tree (part_tree (I.meaning cx.old)) parts.now)) }
    requires fits { Fit parts.now (list_of_parts (part_tree (I.meaning cx.old) term.now)) }
    ensures grown { Extends (I.meaning cx.old) (I.meaning cx.new) }
    ensures sure { IfOk result (λ p. IsTrue (known (part_tree (I.meaning cx.new) p))) }
    ensures made { MakesOver (I.meaning cx.old) (I.meaning cx.new) term.now parts.now result }
    ensures sort { IfOk result (λ p. part_sort p ≡ part_sort term.now) }
{
    match term {
        Part::Region(_) => Ok(*term),
        Part::Ty(ty) => Ok(Part::Ty(ty_with_parts(cx, ty, parts)?)),
        Part::Const(constant) => Ok(Part::Const(const_with_parts(cx, constant, parts)?)),
        Part::ValTree(valtree) => Ok(Part::ValTree(valtree_with_parts(cx, valtree, parts)?)),
        Part::Pat(pat) => Ok(Part::Pat(pat_with_parts(cx, pat, parts)?)),
        Part::ValueType(_) => Ok(Part::ValueType(expect_ty(&parts[0]))),
        Part::Binder(vars, body) => Ok(Part::Binder(*vars, body_or(&parts[0], body))),
        Part::Signature(sig) => Ok(Part::Signature(signature_with_parts(cx, sig, parts)?)),
        Part::Inputs(types) => Ok(Part::Inputs(inputs_with_parts(cx, types, parts)?)),
        Part::Existential(predicate) => {
            Ok(Part::Existential(existential_with_parts(cx, predicate, parts)?))
        }
        Part::Object(predicates) => Ok(Part::Object(object_with_parts(cx, predicates, parts)?)),
    }
}
