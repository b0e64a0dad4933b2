//! The outermost forms of types.
ghost use Rattle.std.specs.Prelude.{◌≡◌};

use crate::terms::{
    AdtId, AliasTy, ArgsKey, Binder, BoundTy, ClosureId, ConstKey, CoroutineClosureId, CoroutineId,
    DebruijnIndex, ErrorGuaranteed, ExistentialPredicatesKey, FloatTy, FloatVid, FnHeader,
    FnSigTys, ForeignId, FunctionId, IntTy, IntVid, Keys, Mutability, PatKey, PlaceholderType,
    RegionKey, TyKey, TyVid, TysKey, UintTy,
};
use std::alloc::AllocError;

/// The outermost form of a type, over keys, ids of items and names.
#[derive(PartialEq, Eq, Hash)]
pub enum TyKind<X, D, N> {
    Bool,
    Char,
    Int(IntTy),
    Uint(UintTy),
    Float(FloatTy),
    Adt(AdtId<D>, ArgsKey<X>),
    Foreign(ForeignId<D>),
    Str,
    Array(TyKey<X>, ConstKey<X>),
    /// The values of a type that a pattern admits.
    Pat(TyKey<X>, PatKey<X>),
    Slice(TyKey<X>),
    RawPtr(TyKey<X>, Mutability),
    Ref(RegionKey<X>, TyKey<X>, Mutability),
    FnDef(FunctionId<D>, ArgsKey<X>),
    FnPtr(Binder<X, FnSigTys<X>>, FnHeader),
    /// A type whose regions may be bound.
    UnsafeBinder(Binder<X, TyKey<X>>),
    /// The types that implement some traits, and outlive a region.
    Dynamic(ExistentialPredicatesKey<X>, RegionKey<X>),
    Closure(ClosureId<D>, ArgsKey<X>),
    CoroutineClosure(CoroutineClosureId<D>, ArgsKey<X>),
    Coroutine(CoroutineId<D>, ArgsKey<X>),
    CoroutineWitness(CoroutineId<D>, ArgsKey<X>),
    Never,
    Tuple(TysKey<X>),
    Alias(AliasTy<X, D>),
    Param(ParamTy<N>),
    /// What a binder binds, that stands so many binders further out.
    Bound(DebruijnIndex, BoundTy<N>),
    Placeholder(PlaceholderType<N>),
    Infer(InferTy),
    Error(ErrorGuaranteed),
}

/// A type parameter of an item, by its index and its name.
#[derive(Clone, Copy, PartialEq, Eq, Hash)]
pub struct ParamTy<N> {
    pub index: u32,
    pub name: N,
}

/// A variable that stands for a type, for an integer type or for a float type, or a stand-in for one.
#[derive(Clone, Copy, PartialEq, Eq, Hash)]
pub enum InferTy {
    TyVar(TyVid),
    IntVar(IntVid),
    FloatVar(FloatVid),
    /// Stand-ins for variables, by their number.
    FreshTy(u32),
    FreshIntTy(u32),
    FreshFloatTy(u32),
}

/// What is known of a variable for an integer type.
#[derive(Clone, Copy, PartialEq, Eq, Hash)]
pub enum IntVarValue {
    Unknown,
    IntType(IntTy),
    UintType(UintTy),
}

/// What is known of a variable for a float type.
#[derive(Clone, Copy, PartialEq, Eq, Hash)]
pub enum FloatVarValue {
    Unknown,
    Known(FloatTy),
}

/// The outermost form of an interner's type.
pub type TyForm<I> = TyKind<<I as Keys>::Key, <I as Keys>::Id, <I as Keys>::Name>;

// A derived copy matches over all forms, and takes its check as many seconds.
impl<X: Copy, D: Copy, N: Copy> Clone for TyKind<X, D, N> {
    ghost is_clone = { λ source copy. copy ≡ source };

    ghost is_infallible = { λ _. Unit {0} };

    fn clone(&self) -> Result<Self, AllocError> {
        Ok(*self)
    }
}

impl<X: Copy, D: Copy, N: Copy> Copy for TyKind<X, D, N> {}
