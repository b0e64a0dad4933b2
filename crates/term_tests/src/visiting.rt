//! What is visited of predicates, errors and lists, and folds of them by a folder that puts nothing.
ghost use Rattle.std.specs.Prelude.{IsTrue, IfOk};
ghost use Rattle.relation_terms.specs.Trees.{known};
ghost use Rattle.relation_terms.specs.Meaning.{Extends};

use crate::predicates::{make_args, make_no_vars};
use relation_terms::predicate::{
    AliasTerm, AliasTermKind, ClauseKind, CoercePredicate, HostEffectPredicate, NormalizesTo,
    OutlivesPredicate, PredicateKind, ProjectionPredicate, SubtypePredicate, TraitPredicate,
    TraitRef,
};
use relation_terms::terms::{
    Binder, BoundConstness, Clause, Const, ConstKind, GenericArgs, Interner, OutOfMemory,
    ParamConst, Region, RegionKind, TermKind, TraitAssocTyId, TraitId, Ty, TyKind,
};
use relation_tools::error::{ExpectedFound, TypeError, TypeErrorOf};
use relation_tools::fold::{Fold, TypeFoldable, TypeFolder};
use relation_tools::visit::{TypeSuperVisitable, TypeVisitable, TypeVisitor, Visit};

// Writes a digit for each term that it is asked about: 1 for a type, 2 for a region and 3 for a constant, and 4 more
// under a binder.
#[derive(Clone, Copy)]
struct Traces {
    digits: u64,
}

impl Traces {
    fn write(&mut self, digit: u64, depth: u128) -> Visit {
        let more = if depth == 0 { 0 } else { 4 };
        self.digits = self
            .digits
            .wrapping_mul(10)
            .wrapping_add(digit.wrapping_add(more));
        Visit::Enter
    }
}

impl<I: Interner> TypeVisitor<I> for Traces {
    ghost visits = { λ cx v d t w a. Unit {0} };

    fn visit_ty(&mut self, _cx: &I, _ty: &Ty<I>, depth: u128) -> Visit {
        self.write(1, depth)
    }

    fn visit_region(&mut self, _cx: &I, _region: &Region<I>, depth: u128) -> Visit {
        self.write(2, depth)
    }

    fn visit_const(&mut self, _cx: &I, _constant: &Const<I>, depth: u128) -> Visit {
        self.write(3, depth)
    }
}

// Puts nothing.
#[derive(Clone, Copy)]
struct PutsNothing;

impl<I: Interner> TypeFolder<I> for PutsNothing {
    ghost use Rattle.std.specs.Prelude.{None, refl};

    ghost ready = { λ m f. Unit {0} };

    ghost replaces = { λ m f d t. None };

    #[tactic(auto, using(relation_terms::proofs::Stays::stays_same))]
    fn fold_ty(
        &mut self,
        _cx: &mut I,
        _ty: &Ty<I>,
        _depth: u128,
    ) -> Result<Fold<Ty<I>>, OutOfMemory> {
        Ok(Fold::Descend)
    }

    #[tactic(auto, using(relation_terms::proofs::Stays::stays_same))]
    fn fold_region(
        &mut self,
        _cx: &mut I,
        _region: &Region<I>,
        _depth: u128,
    ) -> Result<Fold<Region<I>>, OutOfMemory> {
        Ok(Fold::Descend)
    }

    #[tactic(auto, using(relation_terms::proofs::Stays::stays_same))]
    fn fold_const(
        &mut self,
        _cx: &mut I,
        _constant: &Const<I>,
        _depth: u128,
    ) -> Result<Fold<Const<I>>, OutOfMemory> {
        Ok(Fold::Descend)
    }

    ghost ready_on = { λ m n e f h. tt };

    ghost replaces_on = { λ m n e f h d t. refl };
}

// Whether just this is written of a term, and a fold that puts nothing answers the same term.
fn goes<I: Interner, T: TypeVisitable<I> + TypeFoldable<I> + Drop>(
    cx: &mut I,
    term: &T,
    written: u64,
) -> bool
    requires { IsTrue (known (T.tree (I.meaning cx.old) term.now)) }
    ensures grown { Extends (I.meaning cx.old) (I.meaning cx.new) }
{
    let mut traces = Traces { digits: 0 };
    let _ = term.visit_with(cx, &mut traces);
    let seen = traces.digits == written;
    match term.fold_with(cx, &mut PutsNothing) {
        Ok(folded) => seen & (folded == *term),
        Err(_) => false,
    }
}

// Whether what says something of a trait goes by itself.
#[tactic(auto, using(relation_terms::proofs::Stays::knows_args))]
fn traits_go<I: Interner>(cx: &mut I, id: I::Id, args: GenericArgs<I>) -> bool
    requires { IsTrue (known ((I.meaning cx.old).args args)) }
    ensures { Extends (I.meaning cx.old) (I.meaning cx.new) }
{
    let def_id = TraitId(id);
    let trait_ref = TraitRef { def_id, args };
    let constness = BoundConstness::Maybe;
    let effect = HostEffectPredicate {
        trait_ref,
        constness,
    };
    let mut fine = goes(cx, &args, 1);
    fine &= goes(cx, &trait_ref, 1);
    fine &= goes(cx, &TraitPredicate::from_trait_ref(trait_ref), 1);
    goes(cx, &effect, 1) & fine
}

// Whether what says something of an alias does.
#[tactic(auto, using(relation_terms::proofs::Stays::knows_args, relation_terms::proofs::Stays::knows_const))]
fn aliases_go<I: Interner>(cx: &mut I, id: I::Id, args: GenericArgs<I>, constant: Const<I>) -> bool
    requires args { IsTrue (known ((I.meaning cx.old).args args)) }
    requires constant { IsTrue (known ((I.meaning cx.old).const_ constant)) }
    ensures { Extends (I.meaning cx.old) (I.meaning cx.new) }
{
    let def_id = TraitAssocTyId(id);
    let kind = AliasTermKind::ProjectionTy { def_id };
    let alias = AliasTerm { kind, args };
    let projection_term = alias;
    let term = TermKind::Const(constant);
    let projection = ProjectionPredicate {
        projection_term,
        term,
    };
    let mut fine = goes(cx, &alias, 1);
    fine &= goes(cx, &projection, 13);
    goes(cx, &NormalizesTo { alias, term }, 13) & fine
}

// Whether what says something of regions and of types does.
#[tactic(auto, using(relation_terms::proofs::Stays::knows_ty, relation_terms::proofs::Stays::knows_region))]
fn types_go<I: Interner>(cx: &mut I, ty: Ty<I>, region: Region<I>) -> bool
    requires ty { IsTrue (known ((I.meaning cx.old).ty ty)) }
    requires region { IsTrue (known ((I.meaning cx.old).region region)) }
    ensures { Extends (I.meaning cx.old) (I.meaning cx.new) }
{
    let (a, b) = (ty, ty);
    let a_is_expected = true;
    let subtype = SubtypePredicate {
        a_is_expected,
        a,
        b,
    };
    let mut fine = goes(cx, &OutlivesPredicate(region, region), 22);
    fine &= goes(cx, &OutlivesPredicate(ty, region), 12);
    fine &= goes(cx, &CoercePredicate { a, b }, 11);
    fine &= goes(cx, &subtype, 11);
    goes(cx, &PredicateKind::Subtype(subtype), 11) & fine
}

// Whether a list of one clause goes, and an environment of that.
#[tactic(auto, using(relation_terms::proofs::Stays::knows_clauses))]
fn lists_go<I: Interner>(cx: &mut I, clause: Clause<I>, written: u64) -> Result<bool, OutOfMemory>
    requires { IsTrue (known ((I.meaning cx.old).clause clause)) }
{
    let mut list = Vec::new(cx.alloc());
    list.push(clause)?;
    let clauses = cx.mk_clauses(&list)?;
    let fine = goes(cx, &clauses, written);
    let environment = cx.mk_param_env(clauses)?;
    let read = cx.caller_bounds(&environment) == clauses;
    Ok(goes(cx, &environment, written) & read & fine)
}

// Whether a clause under a binder, and lists of it, go: that a constant is of a type.
#[tactic(auto, using(relation_terms::proofs::Stays::knows_ty, relation_terms::proofs::Stays::knows_const, crate::proofs::Carried::known_under, crate::proofs::Carried::none_on))]
fn clauses_go<I: Interner>(cx: &mut I, constant: Const<I>, ty: Ty<I>) -> Result<bool, OutOfMemory>
    requires constant { IsTrue (known ((I.meaning cx.old).const_ constant)) }
    requires ty { IsTrue (known ((I.meaning cx.old).ty ty)) }
{
    let bound_vars = make_no_vars(cx)?;
    let value = ClauseKind::ConstArgHasType(constant, ty);
    let fine = goes(cx, &value, 31);
    let clause = cx.mk_clause(Binder { value, bound_vars })?;
    Ok(lists_go(cx, clause, 75)? & fine)
}

// Whether a pair of types and an error of it are visited, and of a type and a constant without parts nothing is, where
// only parts are.
#[tactic(auto, using(relation_terms::proofs::Stays::knows_ty))]
fn errors_and_parts_go<I: Interner>(cx: &mut I, ty: Ty<I>, constant: Const<I>) -> bool
    requires ty { IsTrue (known ((I.meaning cx.old).ty ty)) }
    requires constant { IsTrue (known ((I.meaning cx.old).const_ constant)) }
{
    let pair = ExpectedFound::new(ty, ty);
    let sorts: TypeErrorOf<I> = TypeError::Sorts(pair);
    let mut traces = Traces { digits: 0 };
    let _ = ty.super_visit_with(cx, &mut traces);
    let _ = constant.super_visit_with(cx, &mut traces);
    let _ = sorts.visit_with(cx, &mut traces);
    goes(cx, &pair, 11) & (traces.digits == 11)
}

// The first constant parameter.
fn make_const<I: Interner>(cx: &mut I, name: I::Name) -> Result<Const<I>, OutOfMemory>
    ensures grown { Extends (I.meaning cx.old) (I.meaning cx.new) }
    ensures sure { IfOk result (λ k. IsTrue (known ((I.meaning cx.new).const_ k))) }
{
    cx.mk_const(ConstKind::Param(ParamConst { index: 0, name }))
}

/// Whether each of them is as it is said.
#[tactic(auto, using(relation_terms::proofs::Stays::knows_ty, relation_terms::proofs::Stays::knows_region, relation_terms::proofs::Stays::knows_const))]
pub fn all_go<I: Interner>(cx: &mut I, id: I::Id, name: I::Name) -> Result<bool, OutOfMemory> {
    let args = make_args(cx)?;
    let mut fine = traits_go(cx, id, args);
    let args = make_args(cx)?;
    let constant = make_const(cx, name)?;
    fine &= aliases_go(cx, id, args, constant);
    let ty = cx.mk_ty(TyKind::Bool)?;
    let region = cx.mk_region(RegionKind::ReStatic)?;
    fine &= types_go(cx, ty, region);
    let constant = make_const(cx, name)?;
    let ty = cx.mk_ty(TyKind::Bool)?;
    fine &= errors_and_parts_go(cx, ty, constant);
    let constant = make_const(cx, name)?;
    let ty = cx.mk_ty(TyKind::Bool)?;
    Ok(clauses_go(cx, constant, ty)? & fine)
}
