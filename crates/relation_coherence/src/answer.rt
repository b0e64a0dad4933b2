//! Headers, and what two of them have in common.
use relation_folds::error::TypeError;
use relation_semantics::infer_ctxt::BinderOf;
use relation_terms::terms::{ArgsKey, GenericArgs, Goal, Keys, PredicateKey};

/// The header of an impl: the arguments of its trait, the type that implements it first, under a binder of what the
/// impl is generic over.
pub type HeaderOf<I> = BinderOf<I, GenericArgs<I>>;

/// Why two headers do not overlap.
#[derive(Drop)]
pub enum WhyApart<X, D, N> {
    /// A quick test told them apart.
    ByForm,
    /// They do not relate.
    ByRelating(TypeError<X, D, N>),
}

/// What two headers have in common.
#[derive(Drop)]
pub enum Overlap<X, D, N> {
    /// Nothing.
    Apart(WhyApart<X, D, N>),
    /// What both come to by what the context has recorded, where the goals hold.
    Meets {
        header: ArgsKey<X>,
        goals: Vec<Goal<X, PredicateKey<X>>>,
    },
}

/// What two headers of an interner have in common.
pub type OverlapOf<I> = Overlap<<I as Keys>::Key, <I as Keys>::Id, <I as Keys>::Name>;
