//! The keys of types: what the outermost form of a type tells.
ghost use Rattle.std.specs.Prelude.{◌≡◌, IsTrue, Some, None};
ghost use Rattle.relation_terms.specs.Trees.{known};
ghost use Rattle.relation_terms.specs.Meaning.{kind_tree};
ghost use Rattle.relation_terms.specs.declared.terms.ty_kind.TyKind.TheVariants.{FnPtr};
ghost use Rattle.fast_reject.specs.HeadKeys.{key_def, numbered, numbered_key, param_key as key_of_param};
ghost use Rattle.fast_reject.specs.HeadKeys.{object_key as key_of_object};
ghost use Rattle.relation_folds.specs.Clashes.{principal, inputs_count};
ghost use Rattle.relation_terms.specs.Parts.{parts_of};
ghost use Rattle.fast_reject.specs.declared.simplify.SimplifiedType.TheVariants.{Function};
ghost use Rattle.fast_reject.specs.HeadKeys.{alias_key as key_of_alias, form_key as key_of_form, type_key};
ghost use Rattle.fast_reject.specs.HeadKeys.{plain_type};
ghost use Rattle.relation_folds.specs.Visits.{non_region_infer_stands};

use crate::trait_object::principal_def_id;
use relation_folds::visit::has_non_region_infer;
use relation_terms::terms::parts::member_count;
use relation_terms::terms::{
    Binder, DefId, ExistentialPredicates, FloatTy, FnHeader, FnSigTys, IntTy, Interner, ItemOf,
    Mutability, Parts, Ty, TyForm, TyKind, UintTy,
};
use std::alloc::AllocError;

/// The key of a type, by which a table of methods or impls finds what may be for it: types of different keys are
/// different, whatever is instantiated.
#[derive(PartialEq, Eq, Hash)]
pub enum SimplifiedType<D> {
    Bool,
    Char,
    Int(IntTy),
    Uint(UintTy),
    Float(FloatTy),
    Adt(D),
    Foreign(D),
    Str,
    Array,
    Slice,
    Ref(Mutability),
    Ptr(Mutability),
    Never,
    /// By the number of members.
    Tuple(usize),
    /// A trait object of auto traits alone.
    MarkerTraitObject,
    /// A trait object, by its principal.
    Trait(D),
    /// A function item, a closure or a closure that answers coroutines.
    Closure(D),
    Coroutine(D),
    CoroutineWitness(D),
    /// A function pointer, by the number of inputs.
    Function(usize),
    UnsafeBinder,
    /// A placeholder, or what is taken as one.
    Placeholder,
    Error,
}

// A derived copy matches over all keys, and takes its check as many seconds.
impl<D: Copy> Clone for SimplifiedType<D> {
    ghost is_clone = { λ source copy. copy ≡ source };

    ghost is_infallible = { λ _. Unit {0} };

    fn clone(&self) -> Result<Self, AllocError> {
        Ok(*self)
    }
}

impl<D: Copy> Copy for SimplifiedType<D> {}

impl<D: Copy> SimplifiedType<D> {
    /// The item that the key names.
    pub fn def(self) -> Option<D>
        ensures { result ≡ key_def self }
    {
        match self {
            SimplifiedType::Adt(def)
            | SimplifiedType::Foreign(def)
            | SimplifiedType::Trait(def)
            | SimplifiedType::Closure(def)
            | SimplifiedType::Coroutine(def)
            | SimplifiedType::CoroutineWitness(def) => Some(def),
            SimplifiedType::Bool
            | SimplifiedType::Char
            | SimplifiedType::Int(_)
            | SimplifiedType::Uint(_)
            | SimplifiedType::Float(_)
            | SimplifiedType::Str
            | SimplifiedType::Array
            | SimplifiedType::Slice
            | SimplifiedType::Ref(_)
            | SimplifiedType::Ptr(_)
            | SimplifiedType::Never
            | SimplifiedType::Tuple(_)
            | SimplifiedType::MarkerTraitObject
            | SimplifiedType::Function(_)
            | SimplifiedType::UnsafeBinder
            | SimplifiedType::Placeholder
            | SimplifiedType::Error => None,
        }
    }
}

/// What parameters of an item are taken as.
#[derive(Clone, Copy, PartialEq, Eq)]
pub enum TreatParams {
    /// As variables, that anything may be put for: they have no key. So is an impl's type stored.
    InstantiateWithInfer,
    /// As types of their own, and so are aliases. So is a type looked up in its own environment.
    AsRigid,
}

fn param_key<D>(treat_params: TreatParams) -> Option<SimplifiedType<D>>
    ensures { result ≡ key_of_param treat_params }
{
    match treat_params {
        TreatParams::AsRigid => Some(SimplifiedType::Placeholder),
        TreatParams::InstantiateWithInfer => None,
    }
}

fn alias_key<I: Interner>(
    cx: &I,
    ty: &Ty<I>,
    treat_params: TreatParams,
) -> Option<SimplifiedType<ItemOf<I>>>
    requires { IsTrue (known ((I.meaning cx.now).ty ty.now)) }
    ensures { let m = I.meaning cx.now in
        result ≡ key_of_alias treat_params (m.tables).next_solver (non_region_infer_stands (m.ty ty.now)) }
{
    if !has_non_region_infer(cx, ty) || cx.next_trait_solver_globally() {
        param_key(treat_params)
    } else {
        None
    }
}

fn object_key<I: Interner>(
    cx: &I,
    predicates: &ExistentialPredicates<I>,
) -> SimplifiedType<ItemOf<I>>
    requires { IsTrue (known ((I.meaning cx.now).existential_predicates predicates.now)) }
    ensures { let m = I.meaning cx.now in numbered (λ d. m.id d.0) result ≡
        key_of_object (m.tables).is_auto (principal (m.existential_predicates predicates.now)) }
{
    match principal_def_id(cx, predicates) {
        Some(id) => {
            if cx.trait_is_auto(&id) {
                SimplifiedType::MarkerTraitObject
            } else {
                SimplifiedType::Trait(DefId(id.0))
            }
        }
        None => SimplifiedType::MarkerTraitObject,
    }
}

fn fn_ptr_key<I: Interner>(
    cx: &I,
    types: &Binder<I::Key, FnSigTys<I::Key>>,
    _header: &FnHeader,
) -> SimplifiedType<ItemOf<I>>
    requires { IsTrue (known (kind_tree (I.meaning cx.now) (FnPtr types.now _header.now))) }
    ensures { result ≡ Function (inputs_count (parts_of (kind_tree (I.meaning cx.now) (FnPtr types.now _header.now)))) }
{
    SimplifiedType::Function(member_count(cx, &Parts::Inputs(types.value.inputs_and_output)))
}

// The key of a type but for a pattern type, by its outermost form.
fn form_key<I: Interner>(
    cx: &I,
    ty: &Ty<I>,
    kind: &TyForm<I>,
    treat_params: TreatParams,
) -> Option<SimplifiedType<ItemOf<I>>>
    requires ty_known { IsTrue (known ((I.meaning cx.now).ty ty.now)) }
    requires kind_is { (I.meaning cx.now).ty ty.now ≡ kind_tree (I.meaning cx.now) kind.now }
    ensures { let m = I.meaning cx.now in numbered_key (λ d. m.id d.0) result ≡
        key_of_form (m.tables).is_auto (m.tables).next_solver treat_params (kind_tree m kind.now) }
{
    match kind {
        TyKind::Bool => Some(SimplifiedType::Bool),
        TyKind::Char => Some(SimplifiedType::Char),
        TyKind::Int(width) => Some(SimplifiedType::Int(*width)),
        TyKind::Uint(width) => Some(SimplifiedType::Uint(*width)),
        TyKind::Float(width) => Some(SimplifiedType::Float(*width)),
        TyKind::Adt(def, _) => Some(SimplifiedType::Adt(DefId(def.0))),
        TyKind::Foreign(def) => Some(SimplifiedType::Foreign(DefId(def.0))),
        TyKind::Str => Some(SimplifiedType::Str),
        TyKind::Array(..) => Some(SimplifiedType::Array),
        TyKind::Slice(_) => Some(SimplifiedType::Slice),
        TyKind::RawPtr(_, mutability) => Some(SimplifiedType::Ptr(*mutability)),
        TyKind::Ref(_, _, mutability) => Some(SimplifiedType::Ref(*mutability)),
        TyKind::FnDef(def, _) => Some(SimplifiedType::Closure(DefId(def.0))),
        TyKind::Closure(def, _) => Some(SimplifiedType::Closure(DefId(def.0))),
        TyKind::CoroutineClosure(def, _) => Some(SimplifiedType::Closure(DefId(def.0))),
        TyKind::Coroutine(def, _) => Some(SimplifiedType::Coroutine(DefId(def.0))),
        TyKind::CoroutineWitness(def, _) => Some(SimplifiedType::CoroutineWitness(DefId(def.0))),
        TyKind::Never => Some(SimplifiedType::Never),
        TyKind::Tuple(members) => Some(SimplifiedType::Tuple(member_count(
            cx,
            &Parts::Tys(*members),
        ))),
        TyKind::Dynamic(predicates, _) => Some(object_key(cx, predicates)),
        TyKind::FnPtr(types, header) => Some(fn_ptr_key(cx, types, header)),
        TyKind::UnsafeBinder(_) => Some(SimplifiedType::UnsafeBinder),
        TyKind::Placeholder(_) => Some(SimplifiedType::Placeholder),
        TyKind::Param(_) => param_key(treat_params),
        TyKind::Alias(_) => alias_key(cx, ty, treat_params),
        TyKind::Error(_) => Some(SimplifiedType::Error),
        TyKind::Pat(..) | TyKind::Bound(..) | TyKind::Infer(_) => None,
    }
}

// The type that a pattern type is of, under all its patterns; of any other type the type itself.
fn without_patterns<I: Interner>(cx: &I, ty: Ty<I>) -> Ty<I>
    requires { IsTrue (known ((I.meaning cx.now).ty ty)) }
    ensures sure { IsTrue (known ((I.meaning cx.now).ty result)) }
    ensures under { (I.meaning cx.now).ty result ≡ plain_type ((I.meaning cx.now).ty ty) }
{
    let kind = cx.ty_kind(&ty);
    if let TyKind::Pat(base, _) = kind {
        return without_patterns(cx, base);
    }
    ty
}

/// The key of a type, or `None` where anything may be put for the type, so that it may come to have any key. The
/// interner has to know the type.
///
/// A pattern type has its base type's key, a function item and a closure `Closure`, and an error `Error`, though an
/// error is related with every type. An alias has the key of a placeholder, with parameters as types of their own, if
/// the next solver is on or no inference variable but those of regions stands in it.
pub fn simplify_type<I: Interner>(
    cx: &I,
    ty: &Ty<I>,
    treat_params: TreatParams,
) -> Option<SimplifiedType<ItemOf<I>>>
    requires { IsTrue (known ((I.meaning cx.now).ty ty.now)) }
    ensures { let m = I.meaning cx.now in numbered_key (λ d. m.id d.0) result ≡ type_key m treat_params ty.now }
{
    let base = without_patterns(cx, *ty);
    let kind = cx.ty_kind(&base);
    form_key(cx, &base, &kind, treat_params)
}
