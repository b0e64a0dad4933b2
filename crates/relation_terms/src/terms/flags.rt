//! What is asked of terms as a whole, and is kept beside each.
ghost use Rattle.std.specs.Prelude.{◌≡◌, suc, true, false, IsTrue};
ghost use Rattle.relation_terms.specs.Trees.{known, nil};
ghost use Rattle.relation_terms.specs.Flags.{flags_of, flags_joined, flags_under, own_flags};
ghost use Rattle.relation_terms.specs.Meaning.{Meaning, kind_tree, region_tree, const_tree};

use crate::terms::{
    ConstKind, DebruijnIndex, InferConst, InferTy, Interner, Region, RegionKind, TyKind,
};

/// What is asked of a term, a list of terms or a binder as a whole.
#[derive(Clone, Copy, PartialEq, Eq, Debug)]
pub struct TypeFlags {
    /// How many binders it needs around it, so that none of its variables is bound outside of them: 0 where no bound
    /// variable escapes it.
    pub outer_exclusive_binder: u128,
    /// Whether an inference variable of any kind but region stands in it.
    pub has_non_region_infer: bool,
}

impl TypeFlags {
    /// The flags of what has no variable.
    pub fn none() -> TypeFlags
        ensures { result ≡ flags_of nil }
    {
        TypeFlags {
            outer_exclusive_binder: 0,
            has_non_region_infer: false,
        }
    }

    /// The flags of two terms together.
    pub fn and(&self, other: &TypeFlags) -> TypeFlags
        ensures { result ≡ flags_joined self.now other.now }
    {
        let binder = if self.outer_exclusive_binder < other.outer_exclusive_binder {
            other.outer_exclusive_binder
        } else {
            self.outer_exclusive_binder
        };
        TypeFlags {
            outer_exclusive_binder: binder,
            has_non_region_infer: self.has_non_region_infer || other.has_non_region_infer,
        }
    }

    /// The flags of a binder over what has these.
    pub fn under_binder(&self) -> TypeFlags
        ensures { result ≡ flags_under self.now }
    {
        let binder = if self.outer_exclusive_binder == 0 {
            0
        } else {
            self.outer_exclusive_binder - 1
        };
        TypeFlags {
            outer_exclusive_binder: binder,
            has_non_region_infer: self.has_non_region_infer,
        }
    }
}

// The flags of a variable that is bound so many binders further out.
fn of_bound(index: &DebruijnIndex) -> TypeFlags
    ensures { result ≡ record { outer_exclusive_binder = suc (index.now).0; has_non_region_infer = false } }
{
    TypeFlags {
        outer_exclusive_binder: u128::from(index.0) + 1,
        has_non_region_infer: false,
    }
}

// The flags of an inference variable that is no region.
fn of_variable() -> TypeFlags
    ensures { result ≡ record { outer_exclusive_binder = 0; has_non_region_infer = true } }
{
    TypeFlags {
        outer_exclusive_binder: 0,
        has_non_region_infer: true,
    }
}

/// The flags of a type without those of its parts.
pub fn ty_own_flags<X: Copy, D: Copy, N>(kind: &TyKind<X, D, N>) -> TypeFlags
    ensures { (m : Meaning X D N) → result ≡ own_flags (kind_tree m kind.now) }
{
    match kind {
        TyKind::Bound(index, _) => of_bound(index),
        TyKind::Infer(InferTy::TyVar(_) | InferTy::IntVar(_) | InferTy::FloatVar(_)) => {
            of_variable()
        }
        _ => TypeFlags::none(),
    }
}

/// The flags of a constant without those of its parts.
pub fn const_own_flags<X: Copy, D: Copy, N>(kind: &ConstKind<X, D, N>) -> TypeFlags
    ensures { (m : Meaning X D N) → result ≡ own_flags (const_tree m kind.now) }
{
    match kind {
        ConstKind::Bound(index, _) => of_bound(index),
        ConstKind::Infer(InferConst::Var(_)) => of_variable(),
        _ => TypeFlags::none(),
    }
}

/// The flags of a region. It has no parts.
pub fn region_own_flags<X: Copy, D: Copy, N>(kind: &RegionKind<N>) -> TypeFlags
    ensures { (m : Meaning X D N) → result ≡ own_flags (region_tree m kind.now) }
{
    match kind {
        RegionKind::ReBound(index, _) => of_bound(index),
        _ => TypeFlags::none(),
    }
}

/// The flags of an interner's region. The interner has to know the region.
pub fn region_flags<I: Interner>(cx: &I, region: &Region<I>) -> TypeFlags
    requires { IsTrue (known ((I.meaning cx.now).region region.now)) }
    ensures { result ≡ flags_of ((I.meaning cx.now).region region.now) }
{
    let kind = cx.region_kind(region);
    region_own_flags::<I::Key, I::Id, I::Name>(&kind)
}
