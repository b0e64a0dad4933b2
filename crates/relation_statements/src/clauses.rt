//! Clauses made of what is stated, and of components.
ghost use Rattle.std.specs.Prelude.{◌≡◌, IsTrue, IsSome, IfOk, IfSome, option_map};
ghost use Rattle.relation_terms.specs.Trees.{known};
ghost use Rattle.relation_terms.specs.Meaning.{Extends, arg_tree};
ghost use Rattle.relation_terms.specs.Owned.{bound_tree};
ghost use Rattle.relation_statements.specs.Children.{effect_of, is_bound as region_is_bound};
ghost use Rattle.relation_statements.specs.Statements.{outlives_tree};

use crate::trait_clauses::BoundTraitRef;
use relation_terms::predicate::{ClauseKind, HostEffectPredicate, OutlivesPredicate};
use relation_terms::terms::{
    Binder, BoundConstness, BoundVars, Clause, GenericArg, GenericArgKind, Interner, OutOfMemory,
    Region, RegionKind,
};

/// A const bound as a clause.
pub fn effect_clause<I: Interner>(
    cx: &mut I,
    bound: &BoundTraitRef<I>,
    constness: BoundConstness,
) -> Result<Clause<I>, OutOfMemory>
    requires { IsTrue (known (bound_tree (I.meaning cx.old) bound.now)) }
    ensures grown { Extends (I.meaning cx.old) (I.meaning cx.new) }
    ensures sure { IfOk result (λ k. IsTrue (known ((I.meaning cx.new).clause k))) }
    ensures made { IfOk result (λ k.
        (I.meaning cx.new).clause k ≡ effect_of constness (bound_tree (I.meaning cx.old) bound.now)) }
{
    cx.mk_clause(Binder {
        value: ClauseKind::HostEffect(HostEffectPredicate {
            trait_ref: bound.value,
            constness,
        }),
        bound_vars: bound.bound_vars,
    })
}

/// Whether a binder binds a region. The interner has to know it.
pub fn is_bound<I: Interner>(cx: &I, region: &Region<I>) -> bool
    requires { IsTrue (known ((I.meaning cx.now).region region.now)) }
    ensures { result ≡ region_is_bound ((I.meaning cx.now).region region.now) }
{
    matches!(cx.region_kind(region), RegionKind::ReBound(..))
}

/// The clause that an argument outlives a region, under a binder.
pub fn outlives_clause<I: Interner>(
    cx: &mut I,
    arg: GenericArg<I>,
    region: Region<I>,
    bound_vars: BoundVars<I>,
) -> Result<Option<Clause<I>>, OutOfMemory>
    requires arg { IsTrue (known (arg_tree (I.meaning cx.old) arg)) }
    requires region { IsTrue (known ((I.meaning cx.old).region region)) }
    requires bound_vars { IsSome ((I.meaning cx.old).bound_vars bound_vars) }
    ensures grown { Extends (I.meaning cx.old) (I.meaning cx.new) }
    ensures sure { IfOk result (λ o. IfSome o (λ k. IsTrue (known ((I.meaning cx.new).clause k)))) }
    ensures made { IfOk result (λ o. option_map (I.meaning cx.new).clause o ≡
        outlives_tree (I.meaning cx.old) bound_vars region arg) }
{
    match arg {
        GenericArgKind::Lifetime(part) => {
            let value = ClauseKind::RegionOutlives(OutlivesPredicate(part, region));
            Ok(Some(cx.mk_clause(Binder { value, bound_vars })?))
        }
        GenericArgKind::Ty(part) => {
            let value = ClauseKind::TypeOutlives(OutlivesPredicate(part, region));
            Ok(Some(cx.mk_clause(Binder { value, bound_vars })?))
        }
        GenericArgKind::Const(_) => Ok(None),
    }
}
