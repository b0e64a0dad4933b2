//! The outermost forms of types, as comparing tells them apart.
ghost use Rattle.std.specs.Prelude.{◌≡◌, ◌↔◌, IsTrue};
ghost use Rattle.relation_terms.specs.Trees.{known};
ghost use Rattle.relation_terms.specs.Meaning.{Meaning, kind_tree};
ghost use Rattle.relation_semantics.specs.Relation.{IsError};
ghost use Rattle.relation_recursion.specs.Forms.{form_alone, of_item, of_pointer, named_outline, tree_outline};
ghost use Rattle.relation_recursion.specs.Forms.{IsFixed, IsOneItem};

use relation_semantics::variances::alias_item;
use relation_terms::terms::{Interner, Mutability, Ty, TyForm, TyKind};

// Which form a type over parts has. Each is the form of `TyKind` of that name.
#[derive(Clone, Copy, PartialEq, Eq)]
pub(crate) enum Form {
    // Without parts.
    Leaf,
    Adt,
    FnDef,
    Closure,
    CoroutineClosure,
    Coroutine,
    CoroutineWitness,
    Array,
    Slice,
    Pat,
    RawPtr,
    Ref,
    Tuple,
    FnPtr,
    UnsafeBinder,
    Dynamic,
    Alias,
}

// What is compared of a type besides its parts.
#[derive(Clone, Copy)]
pub(crate) struct Outline<D> {
    pub form: Form,
    // The item that it is over, where the form says which.
    pub item: Option<D>,
    // `Not` where the form has none.
    pub mutability: Mutability,
}

fn plain_outline<D>(form: Form) -> Outline<D>
    ensures { result ≡ form_alone form }
{
    pointer_outline(form, Mutability::Not)
}

fn pointer_outline<D>(form: Form, mutability: Mutability) -> Outline<D>
    ensures { result ≡ of_pointer form mutability }
{
    Outline {
        form,
        item: None,
        mutability,
    }
}

fn item_outline<D: Copy>(form: Form, item: &D) -> Outline<D>
    ensures { result ≡ of_item form item.now }
{
    Outline {
        form,
        item: Some(*item),
        mutability: Mutability::Not,
    }
}

// What is compared of a type besides its parts.
pub(crate) fn outline_of<I: Interner>(kind: &TyForm<I>) -> Outline<I::Id>
    ensures { (m : Meaning I.Key I.Id I.Name) → named_outline m.id result ≡ tree_outline (kind_tree m kind.now) }
{
    match kind {
        TyKind::Adt(def, _) => item_outline(Form::Adt, &def.0),
        TyKind::FnDef(def, _) => item_outline(Form::FnDef, &def.0),
        TyKind::Closure(def, _) => item_outline(Form::Closure, &def.0),
        TyKind::CoroutineClosure(def, _) => item_outline(Form::CoroutineClosure, &def.0),
        TyKind::Coroutine(def, _) => item_outline(Form::Coroutine, &def.0),
        TyKind::CoroutineWitness(def, _) => item_outline(Form::CoroutineWitness, &def.0),
        TyKind::Alias(alias) => item_outline(Form::Alias, &alias_item(&alias.kind).0),
        TyKind::RawPtr(_, mutability) => pointer_outline(Form::RawPtr, *mutability),
        TyKind::Ref(_, _, mutability) => pointer_outline(Form::Ref, *mutability),
        TyKind::Array(..) => plain_outline(Form::Array),
        TyKind::Slice(_) => plain_outline(Form::Slice),
        TyKind::Pat(..) => plain_outline(Form::Pat),
        TyKind::Tuple(_) => plain_outline(Form::Tuple),
        TyKind::FnPtr(..) => plain_outline(Form::FnPtr),
        TyKind::UnsafeBinder(_) => plain_outline(Form::UnsafeBinder),
        TyKind::Dynamic(..) => plain_outline(Form::Dynamic),
        TyKind::Bool
        | TyKind::Char
        | TyKind::Int(_)
        | TyKind::Uint(_)
        | TyKind::Float(_)
        | TyKind::Foreign(_)
        | TyKind::Str
        | TyKind::Never
        | TyKind::Param(_)
        | TyKind::Bound(..)
        | TyKind::Placeholder(_)
        | TyKind::Infer(_)
        | TyKind::Error(_) => plain_outline(Form::Leaf),
    }
}

pub(crate) fn is_same_form(form: Form, other: Form) -> bool
    ensures { IsTrue result ↔ (form ≡ other) }
{
    form == other
}

// Whether a type stands for an error.
pub(crate) fn is_error<I: Interner>(cx: &I, ty: &Ty<I>) -> bool
    requires { IsTrue (known ((I.meaning cx.now).ty ty.now)) }
    ensures { IsTrue result ↔ IsError ((I.meaning cx.now).ty ty.now) }
{
    matches!(cx.ty_kind(ty), TyKind::Error(_))
}

// Whether all types of a form have as many parts.
pub(crate) fn has_fixed_parts(form: Form) -> bool
    ensures { IsTrue result → IsFixed form }
{
    matches!(
        form,
        Form::Array | Form::Slice | Form::Pat | Form::RawPtr | Form::Ref
    )
}

// Whether two outlines are of one item, or both of none.
pub(crate) fn is_same_item<I: Interner>(
    _cx: &I,
    item: &Option<I::Id>,
    other: &Option<I::Id>,
) -> bool
    ensures { IsTrue result ↔ IsOneItem (I.meaning _cx.now).id item.now other.now }
{
    match (item, other) {
        (Some(item), Some(other)) => item == other,
        (None, None) => true,
        _ => false,
    }
}
