//! The parts that are related of terms.
ghost use Rattle.std.specs.Prelude.{◌≡◌, ◌↔◌, IsTrue};
ghost use Rattle.relation_terms.specs.Heads.{object_sort};
ghost use Rattle.relation_terms.specs.Trees.{known, count, IsList};
ghost use Rattle.relation_terms.specs.Meaning.{kind_tree};
ghost use Rattle.relation_terms.specs.Parts.{part_tree, part_sort, parts_tree, parts_of as list_of_parts};
ghost use Rattle.relation_terms.specs.declared.terms.part_kind.Part.TheVariants.{Object as ObjectPart};
ghost use Rattle.relation_semantics.specs.Parts.{direct_parts, const_parts_of, IsByParts, IsArgPart, IsBinderPart};
ghost use Rattle.relation_recursion.specs.declared.parts.PartKind.TheVariants.{Argument, Binder};

use relation_terms::terms::parts::{member_count, ty_parts};
use relation_terms::terms::{
    Const, ConstKind, ExistentialPredicatesKey, Interner, Part, PartOf, PartsOf, Ty, TyForm, TyKind,
};

// Of which kind a part is, as far as relating looks at it.
#[derive(Clone, Copy)]
pub(crate) enum PartKind {
    // A region, a type or a constant.
    Argument,
    Binder,
    // A term of another form, which is related by its parts.
    Form,
}

// Of which kind a part is that is related.
pub(crate) fn kind_of_part<X: Copy, D: Copy>(part: &Part<X, D>) -> PartKind
    ensures argument { result ≡ Argument ↔ IsArgPart part.now }
    ensures binder { result ≡ Binder ↔ IsBinderPart part.now }
{
    match part {
        Part::Region(_) | Part::Ty(_) | Part::Const(_) => PartKind::Argument,
        Part::Binder(..) => PartKind::Binder,
        Part::ValTree(_)
        | Part::Pat(_)
        | Part::ValueType(_)
        | Part::Signature(_)
        | Part::Inputs(_)
        | Part::Existential(_)
        | Part::Object(_) => PartKind::Form,
    }
}

// The list of the predicates of a trait object that a part is.
pub(crate) fn expect_object<X: Copy, D: Copy>(part: &Part<X, D>) -> ExistentialPredicatesKey<X>
    requires { part_sort part.now ≡ object_sort }
    ensures { ObjectPart result ≡ part.now }
{
    match part {
        Part::Object(predicates) => *predicates,
        _ => unreachable!(),
    }
}

// The list of the parts of a type, whose form is `kind`.
#[inline(always)]
pub(crate) fn parts_in<I: Interner>(_cx: &I, _ty: &Ty<I>, kind: &TyForm<I>) -> PartsOf<I>
    requires known { IsTrue (known ((I.meaning _cx.now).ty _ty.now)) }
    requires form { (I.meaning _cx.now).ty _ty.now ≡ kind_tree (I.meaning _cx.now) kind.now }
    ensures sure { IsTrue (known (parts_tree (I.meaning _cx.now) result)) }
    ensures means { parts_tree (I.meaning _cx.now) result ≡ direct_parts ((I.meaning _cx.now).ty _ty.now) }
{
    ty_parts(kind)
}

// How many parts a type has, whose form is `kind`.
#[inline(always)]
pub(crate) fn parts_count_in<I: Interner>(cx: &I, ty: &Ty<I>, kind: &TyForm<I>) -> usize
    requires known { IsTrue (known ((I.meaning cx.now).ty ty.now)) }
    requires form { (I.meaning cx.now).ty ty.now ≡ kind_tree (I.meaning cx.now) kind.now }
    ensures counts { result ≡ count (direct_parts ((I.meaning cx.now).ty ty.now)) }
    ensures is_list { IsList (direct_parts ((I.meaning cx.now).ty ty.now)) }
{
    member_count(cx, &parts_in(cx, ty, kind))
}

// How many parts a type has.
pub(crate) fn parts_count<I: Interner>(cx: &I, ty: &Ty<I>) -> usize
    requires { IsTrue (known ((I.meaning cx.now).ty ty.now)) }
    ensures counts { result ≡ count (direct_parts ((I.meaning cx.now).ty ty.now)) }
    ensures is_list { IsList (direct_parts ((I.meaning cx.now).ty ty.now)) }
{
    parts_count_in(cx, ty, &cx.ty_kind(ty))
}

// Whether a type has parts that are no generic arguments: a pattern, binders, predicates of a trait object.
pub(crate) fn is_by_parts<I: Interner>(cx: &I, ty: &Ty<I>) -> bool
    requires { IsTrue (known ((I.meaning cx.now).ty ty.now)) }
    ensures { IsTrue result ↔ IsByParts ((I.meaning cx.now).ty ty.now) }
{
    match cx.ty_kind(ty) {
        TyKind::Pat(..) | TyKind::FnPtr(..) | TyKind::UnsafeBinder(_) | TyKind::Dynamic(..) => true,
        _ => false,
    }
}

// The term whose parts are those of a constant that are related: of a value its value tree, and not its type.
pub(crate) fn related_part<I: Interner>(cx: &I, constant: &Const<I>) -> PartOf<I>
    requires { IsTrue (known ((I.meaning cx.now).const_ constant.now)) }
    ensures sure { IsTrue (known (part_tree (I.meaning cx.now) result)) }
    ensures parts { let m = I.meaning cx.now in
        list_of_parts (part_tree m result) ≡ const_parts_of (m.const_ constant.now) }
{
    match cx.const_kind(constant) {
        ConstKind::Value(_, value) => Part::ValTree(value),
        _ => Part::Const(*constant),
    }
}
