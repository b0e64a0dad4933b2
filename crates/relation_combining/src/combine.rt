//! Relations that register goals, and what comes of two types or constants that meet, before their parts are related.
ghost use Rattle.std.specs.Prelude.{◌≡◌, ◌≢◌, ◌⊎◌, [], ◌∷◌, All, None, IsTrue, IsFalse};
ghost use Rattle.std.specs.Borrow.{sem, Lends};
ghost use Rattle.relation_terms.specs.Trees.{known};
ghost use Rattle.relation_terms.specs.Predicates.{predicate_kind_tree};
ghost use Rattle.term_enums.specs.declared.Variance.TheVariants.{Bivariant};
ghost use Rattle.relation_semantics.specs.AskedAlone.{IsTyVar, IsNoTyVar};
ghost use Rattle.relation_semantics.specs.Contexts.{KnowsTy, KnowsConst, HasConst};
ghost use Rattle.relation_semantics.specs.ContextCalls.{Grows, Stands};
ghost use Rattle.relation_semantics.specs.Goals.{KnowsGoal, goals_of};
ghost use Rattle.relation_semantics.specs.Resolving.{IsShallow, IsShallowConst};
ghost use Rattle.relation_steps.specs.Keyed.{SteppedConsts};
ghost use Rattle.relation_steps.specs.Terms.{AskedTerms};
ghost use Rattle.relation_goals.specs.Emitting.{AddsGoals, IsOver, KnowsPredicate, RegistersAlias, RegistersGoal};
ghost use Rattle.relation_goals.specs.Emitting.{goals_in, dummy_predicate, FollowsContext};
ghost use Rattle.relation_combining.specs.Combining.{CanCombine, CanMeet, TysMeet, TysCombine, TaintsAlone};
ghost use Rattle.relation_combining.specs.Combining.{ConstsMeet, ConstsCombine, CombinesShallow, AreFormedConsts};
ghost use Rattle.relation_combining.specs.Combining.{KeepsKept, StepsUnlessVars};
ghost use Rattle.relation_combining.specs.Deferring.{DefersConst};
ghost use Rattle.relation_combining.specs.Solving.{solver_manner};

use crate::deferring::{Deferring, Standing, defers_aliases, is_unevaluated, left_to, ty_standing};
use crate::number_vars::{bind_number, equate_numbers, number_var, unlike_numbers};
pub use crate::ty_args::combine_ty_args;
use crate::variables::{const_var, ty_var};
use relation_folds::error::RelateResult;
use relation_goals::goals::GoalOf;
use relation_goals::recording::{PredicateKindOf, dummy_predicate};
use relation_semantics::infer_ctxt::InferCtxtLike;
use relation_semantics::relate::{Step, StructurallyRelateAliases};
use relation_steps::type_relation::HasState;
use relation_terms::predicate::PredicateKind;
use relation_terms::terms::{
    AliasRelationDirection, Const, ErrorGuaranteed, Interner, OutOfMemory, ParamEnv, Predicate,
    Span, TermKind, Ty, Variance,
};

/// A relation of the terms of a context, which registers goals.
///
/// Upstream each is a `TypeRelation`. Here it is not: else no step of a relation could call what is written over it.
pub trait PredicateEmittingRelation<Infcx: InferCtxtLike>: HasState<Infcx::Interner> {
    // The context.
    ghost context: { Self → Infcx };

    // The relation over another context.
    ghost with_context: { Self → Infcx → Self };

    /// The context.
    fn infcx(&self) -> &Infcx
        ensures { result.now ≡ context self.now };

    /// The context, to record in it.
    fn infcx_mut(&mut self) -> &mut Infcx
        ensures* lends { sem 𝓛 (Lends Self.row Infcx.row self.entry result (with_context self.entry.now)) }
        ensures value { result.now ≡ context self.old };

    /// Does nothing: it shows that a later context in the place of the one that there is changes nothing of the
    /// relation but what is recorded and what its interner knows.
    fn lemma_context_grows(&self)
        ensures { FollowsContext Infcx.state Self.state context with_context self.now };

    /// The span with which constraints on regions are recorded.
    fn span(&self) -> Span<Infcx::Interner>;

    /// The environment in which goals are registered.
    fn param_env(&self) -> ParamEnv<Infcx::Interner>
        ensures { (Self.state self.now).meaning.param_env result ≡ (Self.state self.now).kept.environment };

    /// Whether aliases are related by their items and arguments, or by a goal.
    fn structurally_relate_aliases(&self) -> StructurallyRelateAliases
        ensures { result ≡ (Self.state self.now).kept.settings.structurally_relate_aliases };

    /// Registers what is asked of two types, one an alias, at the ambient variance, in the relation's environment: at
    /// `Covariant` that the first is a subtype of the second, at `Contravariant` that the second is one of the first, at
    /// `Invariant` that both are equal. Nothing is recorded; after `OutOfMemory` nothing was registered.
    fn register_alias_relate_predicate(
        &mut self,
        a: &Ty<Infcx::Interner>,
        b: &Ty<Infcx::Interner>,
    ) -> Result<(), OutOfMemory>
        requires lawful { (Self.state self.old).lawful }
        requires decides { (Self.state self.old).ambient ≢ Bivariant }
        requires a_known { IsTrue (known ((Self.state self.old).meaning.ty a.now)) }
        requires b_known { IsTrue (known ((Self.state self.old).meaning.ty b.now)) }
        ensures { RegistersAlias (Self.state self.old) (Self.state self.new) a.now b.now result };

    /// Registers goals, behind those that there were. After `OutOfMemory` none was registered.
    fn register_goals(&mut self, goals: &[GoalOf<Infcx::Interner>]) -> Result<(), OutOfMemory>
        requires known { All (KnowsGoal (Self.state self.old).meaning) goals.now }
        ensures { let r = Self.state self.old in
            AddsGoals r (Self.state self.new) (goals_of r.meaning goals.now) result };

    /// The same of predicates, in the relation's environment.
    fn register_predicates(
        &mut self,
        predicates: &[Predicate<Infcx::Interner>],
    ) -> Result<(), OutOfMemory>
        requires lawful { (Self.state self.old).lawful }
        requires known { All (KnowsPredicate (Self.state self.old).meaning) predicates.now }
        ensures { let r = Self.state self.old in
            AddsGoals r (Self.state self.new) (goals_in r predicates.now) result };

    // What it has recorded is what the context has, over its keys.
    ghost over: { (r : Self) → IsOver (Self.state r) (Infcx.state (context r)) };
}

// Registers a predicate, behind the goals that there are.
fn register_one<Infcx: InferCtxtLike, R: PredicateEmittingRelation<Infcx>>(
    relation: &mut R,
    predicate: Predicate<Infcx::Interner>,
) -> Result<(), OutOfMemory>
    requires lawful { (R.state relation.old).lawful }
    requires known { KnowsPredicate (R.state relation.old).meaning predicate }
    ensures { let r = R.state relation.old in
        AddsGoals r (R.state relation.new) (goals_in r (predicate ∷ [])) result }
{
    let mut predicates = Vec::new(relation.infcx().cx().alloc());
    predicates.push(predicate)?;
    relation.register_predicates(predicates.as_slice())
}

// Registers the predicate of a form, under a binder of no variables.
fn register<Infcx: InferCtxtLike, R: PredicateEmittingRelation<Infcx>>(
    relation: &mut R,
    kind: PredicateKindOf<Infcx::Interner>,
) -> Result<(), OutOfMemory>
    requires lawful { (R.state relation.old).lawful }
    requires kind_known { IsTrue (known (predicate_kind_tree (R.state relation.old).meaning kind)) }
    ensures { let r = R.state relation.old in
        RegistersGoal r (R.state relation.new) (dummy_predicate r.meaning kind) result }
{
    relation.lemma_context_grows();
    let predicate = dummy_predicate(relation.infcx_mut(), kind)?;
    register_one(relation, predicate)
}

// Records that an error was met.
fn taint<Infcx: InferCtxtLike, R: PredicateEmittingRelation<Infcx>>(relation: &mut R)
    requires { (R.state relation.old).lawful }
    ensures alone { TaintsAlone (R.state relation.old) (R.state relation.new) }
    ensures kept { KeepsKept (R.state relation.old) (R.state relation.new) }
{
    relation.lemma_context_grows();
    relation.infcx_mut().set_tainted_by_errors(ErrorGuaranteed);
}

// Whether neither of two types is a type variable.
fn are_no_ty_vars<Infcx: InferCtxtLike>(
    infcx: &Infcx,
    a: &Ty<Infcx::Interner>,
    b: &Ty<Infcx::Interner>,
) -> bool
    requires a_known { KnowsTy (Infcx.state infcx.now) a.now }
    requires b_known { KnowsTy (Infcx.state infcx.now) b.now }
    ensures none { let m = (Infcx.state infcx.now).meaning in
        IsTrue result → IsNoTyVar (m.ty a.now) × IsNoTyVar (m.ty b.now) }
    ensures one { let m = (Infcx.state infcx.now).meaning in
        IsFalse result → IsTyVar (m.ty a.now) ⊎ IsTyVar (m.ty b.now) }
{
    if let Some(_) = ty_var(infcx, a) {
        return false;
    }
    if let Some(_) = ty_var(infcx, b) {
        return false;
    }
    true
}

// What comes of two types that were resolved shallowly: number variables are made one, or bound to a type of theirs;
// type variables are refused; all others are left to be related by their parts.
fn meet_tys<Infcx: InferCtxtLike>(
    infcx: &mut Infcx,
    a: &Ty<Infcx::Interner>,
    b: &Ty<Infcx::Interner>,
) -> RelateResult<Infcx::Interner, Step<Ty<Infcx::Interner>>>
    requires { CanMeet (λ m. m.ty) IsShallow (Infcx.state infcx.old) a.now b.now }
    ensures stands { Stands (Infcx.state infcx.old) (Infcx.state infcx.new) }
    ensures combines { TysMeet (Infcx.state infcx.old) (Infcx.state infcx.new) a.now b.now result }
{
    match number_var(&*infcx, a) {
        Some(x) => match number_var(&*infcx, b) {
            Some(y) => {
                if !equate_numbers(infcx, x, y) {
                    return Err(unlike_numbers::<Infcx::Interner>(a, b));
                }
                Ok(Step::Done(*a))
            }
            None => {
                if !bind_number(infcx, x, b) {
                    return Err(unlike_numbers::<Infcx::Interner>(a, b));
                }
                Ok(Step::Done(*b))
            }
        },
        None => match number_var(&*infcx, b) {
            Some(y) => {
                if !bind_number(infcx, y, a) {
                    return Err(unlike_numbers::<Infcx::Interner>(a, b));
                }
                Ok(Step::Done(*a))
            }
            None => {
                if !are_no_ty_vars(&*infcx, a, b) {
                    return Err(unlike_numbers::<Infcx::Interner>(a, b));
                }
                Ok(Step::Parts { a: *a, b: *b })
            }
        },
    }
}

/// What comes of two types that were resolved shallowly, before their parts are related, in this order:
///
/// | of the two types | comes |
/// |---|---|
/// | one is an error | the taint; the error is the answer, the left one first |
/// | one is an alias, with the next solver, aliases not related structurally | the goal that their variance asks of both; the left one |
/// | one is an opaque type, and the other no variable, with the old solver in coherence | the goal `Ambiguous`; the left one |
/// | two number variables of one kind | they are made one; the left one |
/// | a number variable and a type of its kind | it is bound to that, which is the answer |
/// | a variable and another type | `Sorts` of both |
/// | no variable | they are left to be related by their parts |
///
/// Both types are the relation's. Neither is a type variable, for `stepped`: a relation has its own say on these,
/// before it calls this.
///
/// # Errors
/// `Sorts` of a number variable and a type that it can't be, and of a type variable; `Memory` where a growth was
/// refused. Nothing was recorded or registered then.
pub fn super_combine_tys<Infcx: InferCtxtLike, R: PredicateEmittingRelation<Infcx>>(
    relation: &mut R,
    a: &Ty<Infcx::Interner>,
    b: &Ty<Infcx::Interner>,
) -> RelateResult<Infcx::Interner, Step<Ty<Infcx::Interner>>>
    requires { CanCombine (λ m. m.ty) IsShallow (R.state relation.old) a.now b.now }
    ensures stepped { StepsUnlessVars (R.state relation.old) (R.state relation.new) a.now b.now result }
    ensures combines { TysCombine (R.state relation.old) (R.state relation.new) a.now b.now result }
    ensures memory { (R.state relation.new).remembered ≡ (R.state relation.old).remembered }
{
    let left = ty_standing(relation.infcx(), a);
    let right = ty_standing(relation.infcx(), b);
    if let Standing::Error = left {
        taint::<Infcx, R>(relation);
        return Ok(Step::Done(*a));
    }
    if let Standing::Error = right {
        taint::<Infcx, R>(relation);
        return Ok(Step::Done(*b));
    }
    match left_to::<Infcx, R>(relation, left, right) {
        Deferring::ToGoal => {
            relation.register_alias_relate_predicate(a, b)?;
            Ok(Step::Done(*a))
        }
        Deferring::Open => {
            register::<Infcx, R>(relation, PredicateKind::Ambiguous)?;
            Ok(Step::Done(*a))
        }
        Deferring::ToNone => {
            relation.lemma_context_grows();
            meet_tys(relation.infcx_mut(), a, b)
        }
    }
}

// Whether neither of two constants is a variable.
fn are_no_const_vars<Infcx: InferCtxtLike>(
    infcx: &Infcx,
    a: &Const<Infcx::Interner>,
    b: &Const<Infcx::Interner>,
) -> bool
    requires a_known { KnowsConst (Infcx.state infcx.now) a.now }
    requires b_known { KnowsConst (Infcx.state infcx.now) b.now }
    requires a_in { HasConst (Infcx.state infcx.now) a.now }
    requires b_in { HasConst (Infcx.state infcx.now) b.now }
    ensures none { IsTrue result → AreFormedConsts (Infcx.state infcx.now).meaning a.now b.now }
    ensures one { IsFalse result → AreFormedConsts (Infcx.state infcx.now).meaning a.now b.now → ⊥ }
{
    if let Some(_) = const_var(infcx, a) {
        return false;
    }
    if let Some(_) = const_var(infcx, b) {
        return false;
    }
    true
}

// What comes of two constants that were resolved shallowly: a variable is made one with another, or bound to a
// constant, which is then to be related with that; all others are left to be related by their parts.
fn meet_consts<Infcx: InferCtxtLike>(
    infcx: &mut Infcx,
    aliases: StructurallyRelateAliases,
    a: &Const<Infcx::Interner>,
    b: &Const<Infcx::Interner>,
) -> RelateResult<Infcx::Interner, Step<Const<Infcx::Interner>>>
    requires { CanMeet (λ m. m.const_) IsShallowConst (Infcx.state infcx.old) a.now b.now }
    ensures grows { Grows (Infcx.state infcx.old) (Infcx.state infcx.new) }
    ensures combines { ConstsMeet (Infcx.state infcx.old) (Infcx.state infcx.new) aliases a.now b.now result }
{
    match const_var(&*infcx, a) {
        Some(x) => match const_var(&*infcx, b) {
            Some(y) => {
                infcx.equate_const_vids_raw(x, y);
                Ok(Step::Done(*a))
            }
            None => {
                let value = infcx.instantiate_const_var_raw(aliases, x, b)?;
                Ok(Step::Again {
                    a: *a,
                    b: *b,
                    x: value,
                    y: *b,
                    variance: Variance::Invariant,
                    answer: *b,
                })
            }
        },
        None => match const_var(&*infcx, b) {
            Some(y) => {
                let value = infcx.instantiate_const_var_raw(aliases, y, a)?;
                Ok(Step::Again {
                    a: *a,
                    b: *b,
                    x: *a,
                    y: value,
                    variance: Variance::Invariant,
                    answer: *a,
                })
            }
            None => Ok(Step::Parts { a: *a, b: *b }),
        },
    }
}

/// What comes of two constants, before their parts are related. Of one and the same it is the answer. Else both are
/// resolved shallowly, and then, in this order:
///
/// | of the two constants | comes |
/// |---|---|
/// | two variables | they are made one; the left one |
/// | a variable and another constant | it is bound to what that comes to, and the bound constant is to be related with the other side, which is the answer, at `Invariant` |
/// | one is unevaluated, with the next solver, aliases not related structurally | a goal that both are one, at every variance; the right one |
/// | no variable | they are left to be related by their parts |
///
/// Both constants are the relation's.
///
/// # Errors
/// `CyclicConst` where the variable stands in what the other side comes to, `Mismatch` where a placeholder does that
/// the variable can't name, `Budget` where no instantiation is left, `Memory` where a growth was refused. Nothing was
/// bound or registered then.
pub fn super_combine_consts<Infcx: InferCtxtLike, R: PredicateEmittingRelation<Infcx>>(
    relation: &mut R,
    a: &Const<Infcx::Interner>,
    b: &Const<Infcx::Interner>,
) -> RelateResult<Infcx::Interner, Step<Const<Infcx::Interner>>>
    requires lawful { (R.state relation.old).lawful }
    requires decides { (R.state relation.old).ambient ≢ Bivariant }
    requires asked { AskedTerms solver_manner None (λ m. m.const_) (R.state relation.old) a.now b.now }
    ensures stepped { SteppedConsts solver_manner (R.state relation.old) (R.state relation.new) a.now b.now result }
    ensures combines { ConstsCombine (R.state relation.old) (R.state relation.new) a.now b.now result }
    ensures memory { (R.state relation.new).remembered ≡ (R.state relation.old).remembered }
{
    if a == b {
        return Ok(Step::Done(*a));
    }
    let left = relation.infcx().shallow_resolve_const(a);
    let right = relation.infcx().shallow_resolve_const(b);
    combine_shallow(relation, &left, &right)
}

// Whether two constants with outermost forms are left to a goal.
fn is_left_const<Infcx: InferCtxtLike, R: PredicateEmittingRelation<Infcx>>(
    relation: &R,
    a: &Const<Infcx::Interner>,
    b: &Const<Infcx::Interner>,
) -> bool
    requires lawful { (R.state relation.now).lawful }
    requires asked { AskedTerms solver_manner None (λ m. m.const_) (R.state relation.now) a.now b.now }
    ensures formed { IsTrue result → AreFormedConsts (R.state relation.now).meaning a.now b.now }
    ensures left { IsTrue result → DefersConst (R.state relation.now) a.now b.now }
    ensures not { IsFalse result → AreFormedConsts (R.state relation.now).meaning a.now b.now →
        DefersConst (R.state relation.now) a.now b.now → ⊥ }
{
    if !are_no_const_vars(relation.infcx(), a, b) {
        return false;
    }
    if !defers_aliases::<Infcx, R>(relation) {
        return false;
    }
    let infcx = relation.infcx();
    if is_unevaluated(infcx, a) {
        return true;
    }
    is_unevaluated(infcx, b)
}

// What comes of two constants that were resolved shallowly.
fn combine_shallow<Infcx: InferCtxtLike, R: PredicateEmittingRelation<Infcx>>(
    relation: &mut R,
    a: &Const<Infcx::Interner>,
    b: &Const<Infcx::Interner>,
) -> RelateResult<Infcx::Interner, Step<Const<Infcx::Interner>>>
    requires { CanCombine (λ m. m.const_) IsShallowConst (R.state relation.old) a.now b.now }
    ensures stepped { SteppedConsts solver_manner (R.state relation.old) (R.state relation.new) a.now b.now result }
    ensures combines { CombinesShallow (R.state relation.old) (R.state relation.new) a.now b.now result }
    ensures memory { (R.state relation.new).remembered ≡ (R.state relation.old).remembered }
{
    if is_left_const::<Infcx, R>(relation, a, b) {
        let (x, y) = (TermKind::Const(*a), TermKind::Const(*b));
        let kind = PredicateKind::AliasRelate(x, y, AliasRelationDirection::Equate);
        register::<Infcx, R>(relation, kind)?;
        return Ok(Step::Done(*b));
    }
    relation.lemma_context_grows();
    let aliases = relation.structurally_relate_aliases();
    meet_consts(relation.infcx_mut(), aliases, a, b)
}
