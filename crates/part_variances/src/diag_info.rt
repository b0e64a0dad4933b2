//! Why two parts are related at invariance, for whoever explains an error.
ghost use Rattle.std.specs.Prelude.{◌≡◌};
ghost use Rattle.part_variances.specs.DiagInfo.{first_invariant, NestingIsAssociative, NothingIsUnit};

use relation_terms::terms::{Keys, TyKey};

/// Why two terms are related at invariance, for whoever explains an error. No answer of relating looks at it.
#[derive(Clone, Copy, PartialEq, Eq)]
pub enum VarianceDiagInfo<X> {
    /// Nothing is known.
    None,
    /// They stand inside a type that is invariant in its parameter of this number.
    Invariant { ty: TyKey<X>, param_index: u32 },
}

/// The same, over the keys of an interner.
pub type VarianceDiagInfoOf<I> = VarianceDiagInfo<<I as Keys>::Key>;

impl<X: Copy> VarianceDiagInfo<X> {
    /// What is known of a part of what this is known of: the outermost type that is invariant.
    /// Of three in a row it is the same from the left and from the right, and knowing nothing changes nothing.
    pub fn xform(self, other: VarianceDiagInfo<X>) -> VarianceDiagInfo<X>
        ensures first { result ≡ first_invariant self other }
        ensures associative { NestingIsAssociative X }
        ensures unit { NothingIsUnit X }
    {
        match self {
            VarianceDiagInfo::None => other,
            VarianceDiagInfo::Invariant { ty, param_index } => {
                VarianceDiagInfo::Invariant { ty, param_index }
            }
        }
    }
}

impl<X> Default for VarianceDiagInfo<X> {
    fn default() -> VarianceDiagInfo<X>
        ensures { result ≡ VarianceDiagInfo.None }
    {
        VarianceDiagInfo::None
    }
}
