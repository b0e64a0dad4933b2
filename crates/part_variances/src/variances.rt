//! At which variance each part of a term is related, seen from the term's own, and whether it is skipped.
ghost use Rattle.std.specs.Prelude.{◌≡◌, ◌≢◌, ◌<◌, IsTrue, IsFalse};
ghost use Rattle.relation_terms.specs.Trees.{known, count};
ghost use Rattle.term_enums.specs.declared.Variance.TheVariants.{Bivariant};
ghost use Rattle.term_enums.specs.Variances.{xform};
ghost use Rattle.relation_terms.specs.Parts.{part_tree};
ghost use Rattle.relation_semantics.specs.Parts.{IsByParts, direct_parts, head_of};
ghost use Rattle.relation_steps.specs.Arguments.{args_head};
ghost use Rattle.relation_steps.specs.Keyed.{part_in, const_part_in, declared_in};

use relation_semantics::variances::{alias_argument_variance, pointee};
use relation_steps::arguments::ArgVariances;
use relation_steps::type_relation::TypeRelation;
use relation_terms::predicate::AliasTermKind;
use relation_terms::terms::{
    Const, ConstKind, DefId, Interner, ItemOf, Part, PartOf, Ty, TyKind, Variance,
};

/// Whether a part is skipped that is related at a variance, seen from the ambient one: at bivariance nothing is asked of
/// it.
#[inline(always)]
pub fn is_skipped(ambient: Variance, variance: Variance) -> bool
    ensures yes { IsTrue result → xform ambient variance ≡ Bivariant }
    ensures no { IsFalse result → xform ambient variance ≢ Bivariant }
{
    matches!(ambient.xform(variance), Variance::Bivariant)
}

/// The variance at which an item's argument is related.
pub fn declared_at<I: Interner, R: TypeRelation<I>>(r: &R, def_id: &ItemOf<I>, i: usize) -> Variance
    ensures { let q = R.state r.now in xform q.ambient result ≡ xform q.ambient (declared_in q def_id.now i) }
{
    let Some(variances) = r.item_variances(def_id) else {
        return Variance::Invariant;
    };
    match variances.get(i) {
        Some(variance) => *variance,
        None => Variance::Invariant,
    }
}

/// The variance at which the part of a type at a place is related, seen from the type's own.
pub fn variance_at<I: Interner, R: TypeRelation<I>>(r: &R, ty: &Ty<I>, i: usize) -> Variance
    requires ty_known { IsTrue (known ((R.state r.now).meaning.ty ty.now)) }
    ensures { let q = R.state r.now in xform q.ambient result ≡ part_in q (head_of (q.meaning.ty ty.now)) i }
{
    let kind = r.cx().ty_kind(ty);
    match &kind {
        TyKind::Adt(def, _) => declared_at(r, &DefId(def.0), i),
        TyKind::FnDef(def, _) => declared_at(r, &DefId(def.0), i),
        TyKind::Alias(alias) => alias_argument_variance(r.cx(), &alias.kind, i),
        TyKind::Closure(..)
        | TyKind::CoroutineClosure(..)
        | TyKind::Coroutine(..)
        | TyKind::CoroutineWitness(..) => Variance::Invariant,
        TyKind::RawPtr(_, mutability) => pointee(*mutability),
        TyKind::Ref(_, _, mutability) if i > 0 => pointee(*mutability),
        _ => Variance::Covariant,
    }
}

/// The variance at which the parts of a constant are related, seen from the constant's own.
pub fn const_variance_at<I: Interner, R: TypeRelation<I>>(r: &R, constant: &Const<I>) -> Variance
    requires { IsTrue (known ((R.state r.now).meaning.const_ constant.now)) }
    ensures { let q = R.state r.now in (i : _) → xform q.ambient result ≡ const_part_in q constant.now i }
{
    match r.cx().const_kind(constant) {
        ConstKind::Expr(..) | ConstKind::Unevaluated(_) => Variance::Invariant,
        _ => Variance::Covariant,
    }
}

/// The variance at which the part of a term at a place is related, seen from the term's own, where the term is related
/// by its parts.
pub fn term_variance_at<I: Interner, R: TypeRelation<I>>(
    _r: &R,
    term: &PartOf<I>,
    i: usize,
) -> Variance
    requires known { IsTrue (known (part_tree (R.state _r.now).meaning term.now)) }
    requires form { IsByParts (part_tree (R.state _r.now).meaning term.now) }
    requires in_bounds { i < count (direct_parts (part_tree (R.state _r.now).meaning term.now)) }
    ensures { let q = R.state _r.now in
        xform q.ambient result ≡ part_in q (head_of (part_tree q.meaning term.now)) i }
{
    match term {
        Part::Signature(_) => {
            if i == 0 {
                return Variance::Contravariant;
            }
            Variance::Covariant
        }
        Part::Existential(_) => Variance::Invariant,
        _ => Variance::Covariant,
    }
}

/// The variance at which the argument at a place is related, seen from the ambient one.
pub fn variance_of<I: Interner, R: TypeRelation<I>>(
    r: &R,
    variances: &ArgVariances<I::Id>,
    i: usize,
) -> Variance
    ensures { let q = R.state r.now in xform q.ambient result ≡ part_in q (args_head q.meaning variances.now) i }
{
    match variances {
        ArgVariances::Invariant => Variance::Invariant,
        ArgVariances::Adt(def_id) => declared_at(r, def_id, i),
        ArgVariances::FnDef(def_id) => declared_at(r, def_id, i),
        ArgVariances::AliasTerm(kind) => match kind {
            AliasTermKind::OpaqueTy { def_id } => declared_at(r, &DefId(def_id.0), i),
            _ => Variance::Invariant,
        },
        ArgVariances::Trait(_) => Variance::Invariant,
    }
}
