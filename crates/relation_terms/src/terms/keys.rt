//! Keys: what an interner gives out for terms.
//!
//! There is one representation of keys, one of ids and one of names, so that a bound on an interner stays small.
//! Each sort of term has a type of its own over the first.
use std::hash::Hash;

/// The representations that an interner has chosen.
pub trait Keys {
    /// Whatever is interned.
    type Key: Copy + Eq + Hash;

    /// Items.
    type Id: Copy + Eq + Hash;

    /// Names in the source.
    type Name: Copy + Eq + Hash;

    /// Places in the source.
    type Span: Copy;
}

/// The key of a type.
#[derive(Clone, Copy, PartialEq, Eq, Hash, Debug)]
pub struct TyKey<X>(pub X);

/// The key of a region.
#[derive(Clone, Copy, PartialEq, Eq, Hash, Debug)]
pub struct RegionKey<X>(pub X);

/// The key of a constant.
#[derive(Clone, Copy, PartialEq, Eq, Hash, Debug)]
pub struct ConstKey<X>(pub X);

/// The key of a list of generic arguments.
#[derive(Clone, Copy, PartialEq, Eq, Hash)]
pub struct ArgsKey<X>(pub X);

/// The key of a list of types.
#[derive(Clone, Copy, PartialEq, Eq, Hash)]
pub struct TysKey<X>(pub X);

/// The key of a pattern.
#[derive(Clone, Copy, PartialEq, Eq, Hash)]
pub struct PatKey<X>(pub X);

/// The key of a value tree.
#[derive(Clone, Copy, PartialEq, Eq, Hash)]
pub struct ValTreeKey<X>(pub X);

/// The key of a list of constants, the branches of a value tree.
#[derive(Clone, Copy, PartialEq, Eq, Hash)]
pub struct BranchesKey<X>(pub X);

/// The key of a list of patterns, the alternatives of a pattern.
#[derive(Clone, Copy, PartialEq, Eq, Hash)]
pub struct AlternativesKey<X>(pub X);

/// The key of the list of a trait object's predicates.
#[derive(Clone, Copy, PartialEq, Eq, Hash, Debug)]
pub struct ExistentialPredicatesKey<X>(pub X);

/// The key of the list of a binder's variables.
#[derive(Clone, Copy, PartialEq, Eq, Hash)]
pub struct BoundVarsKey<X>(pub X);

/// The key of a predicate.
#[derive(Clone, Copy, PartialEq, Eq, Hash)]
pub struct PredicateKey<X>(pub X);

/// The key of a clause.
#[derive(Clone, Copy, PartialEq, Eq, Hash)]
pub struct ClauseKey<X>(pub X);

/// The key of a list of clauses.
#[derive(Clone, Copy, PartialEq, Eq, Hash)]
pub struct ClausesKey<X>(pub X);

/// The key of an environment, the list of clauses that are taken to hold.
#[derive(Clone, Copy, PartialEq, Eq, Hash)]
pub struct ParamEnvKey<X>(pub X);

/// The key of a list of ids of items.
#[derive(Clone, Copy, PartialEq, Eq, Hash)]
pub struct LocalDefIdsKey<X>(pub X);

/// A type of an interner.
pub type Ty<I> = TyKey<<I as Keys>::Key>;

/// A region of an interner.
pub type Region<I> = RegionKey<<I as Keys>::Key>;

/// A constant of an interner.
pub type Const<I> = ConstKey<<I as Keys>::Key>;

/// A list of generic arguments of an interner.
pub type GenericArgs<I> = ArgsKey<<I as Keys>::Key>;

/// A list of types of an interner.
pub type Tys<I> = TysKey<<I as Keys>::Key>;

/// A value tree of an interner.
pub type ValTree<I> = ValTreeKey<<I as Keys>::Key>;

/// A list of constants of an interner, the branches of a value tree.
pub type Branches<I> = BranchesKey<<I as Keys>::Key>;

/// A pattern of an interner.
pub type Pat<I> = PatKey<<I as Keys>::Key>;

/// A list of patterns of an interner, the alternatives of a pattern.
pub type Alternatives<I> = AlternativesKey<<I as Keys>::Key>;

/// A list of a trait object's predicates, of an interner.
pub type ExistentialPredicates<I> = ExistentialPredicatesKey<<I as Keys>::Key>;

/// The same list, by the name that says that each predicate stands under a binder of its own.
pub type BoundExistentialPredicates<I> = ExistentialPredicates<I>;

/// A list of a binder's variables, of an interner.
pub type BoundVars<I> = BoundVarsKey<<I as Keys>::Key>;

/// A predicate of an interner.
pub type Predicate<I> = PredicateKey<<I as Keys>::Key>;

/// A clause of an interner.
pub type Clause<I> = ClauseKey<<I as Keys>::Key>;

/// A list of clauses of an interner.
pub type Clauses<I> = ClausesKey<<I as Keys>::Key>;

/// An environment of an interner.
pub type ParamEnv<I> = ParamEnvKey<<I as Keys>::Key>;

/// A list of ids of items, of an interner.
pub type LocalDefIds<I> = LocalDefIdsKey<<I as Keys>::Key>;

/// A name of an interner.
pub type Symbol<I> = <I as Keys>::Name;

/// A place in the source.
pub type Span<I> = <I as Keys>::Span;
