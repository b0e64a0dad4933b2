//! Opening two binders in a context.
ghost use Rattle.std.specs.Prelude.{◌≡◌, ◌⊎◌, ◌↔◌, IsTrue};
ghost use Rattle.relation_terms.specs.Trees.{known};
ghost use Rattle.term_enums.specs.declared.Variance.TheVariants.{Covariant, Contravariant, Invariant};
ghost use Rattle.relation_semantics.specs.Binders.{binder_tree};
ghost use Rattle.relation_semantics.specs.Bound.{BindsByList};
ghost use Rattle.relation_semantics.specs.ContextCalls.{Grows};
ghost use Rattle.relation_steps.specs.Rounds.{HasBinder, Opens, one_uses_bound};

use relation_folds::fold::TypeFoldable;
use relation_folds::visit::{TypeVisitable, has_escaping_bound_vars};
use relation_semantics::infer_ctxt::{BinderOf, InferCtxtLike};
use relation_terms::terms::{OutOfMemory, Variance};

/// Whether a round has placeholders for what the second of two binders binds, and new variables for the first's.
pub fn enters_second(variance: Variance, round: usize) -> bool
    ensures { IsTrue result ↔ ((round ≡ 0) × ((variance ≡ Covariant) ⊎ (variance ≡ Invariant))) }
{
    match variance {
        Variance::Covariant | Variance::Invariant => round == 0,
        Variance::Contravariant | Variance::Bivariant => false,
    }
}

/// Whether a round has placeholders for what the first of two binders binds, and new variables for the second's.
pub fn enters_first(variance: Variance, round: usize) -> bool
    ensures { IsTrue result ↔ (((round ≡ 0) × (variance ≡ Contravariant)) ⊎ ((round ≡ 1) × (variance ≡ Invariant))) }
{
    match variance {
        Variance::Contravariant => round == 0,
        Variance::Invariant => round == 1,
        Variance::Covariant | Variance::Bivariant => false,
    }
}

/// Whether either of two bodies uses what its binder binds.
pub fn one_uses<Infcx: InferCtxtLike, T: TypeVisitable<Infcx::Interner>>(
    infcx: &Infcx,
    a: &BinderOf<Infcx::Interner, T>,
    b: &BinderOf<Infcx::Interner, T>,
) -> bool
    requires a_known { IsTrue (known (binder_tree T.tree (Infcx.state infcx.now).meaning a.now)) }
    requires b_known { IsTrue (known (binder_tree T.tree (Infcx.state infcx.now).meaning b.now)) }
    ensures { result ≡ one_uses_bound T.tree (Infcx.state infcx.now).meaning a.now b.now }
{
    let cx = infcx.cx();
    has_escaping_bound_vars(cx, &a.value) || has_escaping_bound_vars(cx, &b.value)
}

/// The bodies of two binders: of the first with placeholders for what it binds, then of the second with new variables.
///
/// # Errors
/// `OutOfMemory` where a growth was refused. A universe may have been made then, and variables that stay unbound.
pub fn enter_and_instantiate<
    Infcx: InferCtxtLike,
    T: TypeFoldable<Infcx::Interner> + TypeVisitable<Infcx::Interner> + Copy,
>(
    infcx: &mut Infcx,
    entered: &BinderOf<Infcx::Interner, T>,
    instantiated: &BinderOf<Infcx::Interner, T>,
) -> Result<(T, T), OutOfMemory>
    requires lawful { (Infcx.state infcx.old).lawful }
    requires entered_known { IsTrue (known (binder_tree T.tree (Infcx.state infcx.old).meaning entered.now)) }
    requires entered_in { HasBinder T.tree (Infcx.state infcx.old) entered.now }
    requires entered_binds { BindsByList (binder_tree T.tree (Infcx.state infcx.old).meaning entered.now) }
    requires instantiated_known { IsTrue (known (binder_tree T.tree (Infcx.state infcx.old).meaning instantiated.now)) }
    requires instantiated_in { HasBinder T.tree (Infcx.state infcx.old) instantiated.now }
    requires instantiated_binds { BindsByList (binder_tree T.tree (Infcx.state infcx.old).meaning instantiated.now) }
    ensures grows { Grows (Infcx.state infcx.old) (Infcx.state infcx.new) }
    ensures opens { Opens T.tree (Infcx.state infcx.old) (Infcx.state infcx.new) entered.now instantiated.now result }
{
    let body = infcx.enter_forall(*entered)?;
    let other = infcx.instantiate_binder_with_infer(*instantiated)?;
    Ok((body, other))
}
