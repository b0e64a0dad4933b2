//! The relation of a context.
ghost use Rattle.std.specs.Prelude.{◌≡◌, ◌≢◌, ◌<◌, [], None};
ghost use Rattle.term_enums.specs.declared.Variance.TheVariants.{Bivariant};
ghost use Rattle.relation_semantics.specs.Lawful.{RelatesByDeclared};
ghost use Rattle.relation_steps.specs.Bivariance.{AsksOfOver};
ghost use Rattle.relation_steps.specs.Keyed.{AreOver, ConstsStepRecords, NotedTys, RecordsAsked, RelatedRegions, ShownTys};
ghost use Rattle.relation_steps.specs.Keyed.{SteppedConsts, SteppedTys, TysAskOpen, TysStepAtOnce, TysStepRecords};
ghost use Rattle.relation_steps.specs.Rounds.{AskedBinders, OpenedBinders};
ghost use Rattle.relation_steps.specs.Terms.{AskedTerms, RelatedTerms, TermsRegister};
ghost use Rattle.relation_combining.specs.Combining.{ConstsCombine};
ghost use Rattle.relation_combining.specs.Solving.{solver_manner};
ghost use Rattle.context_relation.specs.SolverStates.{solver_at, solver_after, solver_through, through};
ghost use Rattle.context_relation.specs.Stepping.{RemembersTys, SameEnvironment, SameGoals, SameMemory};
ghost use Rattle.context_relation.specs.Stepping.{StepsBinders, StepsRegions, StepsTys};

use crate::steps::is_behind_last;
use relation_combining::combine::{combine_ty_args, super_combine_consts};
use relation_combining::variables::have_no_variable;
use relation_folds::error::RelateResult;
use relation_folds::fold::TypeFoldable;
use relation_folds::visit::TypeVisitable;
use relation_goals::goals::GoalOf;
use relation_goals::opening::{enter_and_instantiate, enters_first, enters_second, one_uses};
use relation_goals::recording::relate_regions;
use relation_recursion::relatable::Relate;
use relation_semantics::infer_ctxt::{BinderOf, InferCtxtLike};
use relation_semantics::relate::{Step, StructurallyRelateAliases};
use relation_steps::type_relation::{HasState, TypeRelation};
use relation_terms::terms::{
    Const, GenericArgs, Interner, ItemOf, ParamEnv, Region, Span, Ty, Variance,
};
use remembered_pairs::RememberedPairs;
use std::mem::replace;

/// A type of a context.
pub type TyIn<Infcx> = Ty<<Infcx as InferCtxtLike>::Interner>;

/// What comes of two types of a context, or why they are not related.
pub type TyStep<Infcx> = RelateResult<<Infcx as InferCtxtLike>::Interner, Step<TyIn<Infcx>>>;

/// Relates the terms of a context, at an ambient variance and in an environment.
///
/// Types and constants are read by what is recorded of variables. A variable and a term that it is related with are
/// made one, an integer or float variable and a type only where that is a type of its kind; of two regions it is
/// recorded which has to outlive the other. Of two type variables it is registered, but at `Invariant`, that the one is
/// a subtype of the other; of two types one of whose bivariant arguments is left open, that they are well formed.
///
/// Types that were related are remembered, but for the first 32: met again at the same variance, they are related by
/// what stands, and nothing is done.
#[derive(Drop)]
pub struct SolverRelating<'a, Infcx: InferCtxtLike> {
    pub(crate) infcx: &'a mut Infcx,
    pub(crate) structurally_relate_aliases: StructurallyRelateAliases,
    pub(crate) ambient_variance: Variance,
    pub(crate) param_env: ParamEnv<Infcx::Interner>,
    pub(crate) span: Span<Infcx::Interner>,
    pub(crate) goals: Vec<GoalOf<Infcx::Interner>>,
    // Types that were related, as they were read.
    pub(crate) cache: RememberedPairs<Ty<Infcx::Interner>>,
}

impl<'a, Infcx: InferCtxtLike> SolverRelating<'a, Infcx> {
    /// The relation of a context, which relates aliases so. Constraints on regions are recorded with the span, and goals
    /// are registered in the environment: none yet, and nothing is remembered. It is set up for the context's solver and
    /// in its typing mode.
    pub fn new(
        infcx: &'a mut Infcx,
        structurally_relate_aliases: StructurallyRelateAliases,
        ambient_variance: Variance,
        param_env: ParamEnv<Infcx::Interner>,
        span: Span<Infcx::Interner>,
    ) -> SolverRelating<'a, Infcx>
        ensures same_reference { result.infcx.ghost_name ≡ infcx.entry.ghost_name }
        ensures infcx { result.infcx.now ≡ infcx.entry.now }
        ensures aliases { result.structurally_relate_aliases ≡ structurally_relate_aliases }
        ensures ambient_variance { result.ambient_variance ≡ ambient_variance }
        ensures param_env { result.param_env ≡ param_env }
        ensures span { result.span ≡ span }
        ensures goals { result.goals.items ≡ [] }
        ensures remembers_none { (solver_through Infcx.state result).remembered ≡ [] }
    {
        let goals = Vec::new(infcx.cx().alloc());
        let cache = RememberedPairs::new(infcx.cx().alloc());
        SolverRelating {
            infcx,
            structurally_relate_aliases,
            ambient_variance,
            param_env,
            span,
            goals,
            cache,
        }
    }

    /// Relates two types, or two others that can be related, at the ambient variance, and answers what they are related
    /// as. The interner knows both, they are of the context, and two lists have as many arguments. What was recorded is
    /// in the context, also after an error. Upstream this is a call of every relation.
    ///
    /// # Errors
    /// `Unrelated` where the two do not become one, `Budget` where no instantiation is left, `Memory` where a growth
    /// was refused.
    pub fn relate<T: Relate<Infcx::Interner>>(
        &mut self,
        a: &T,
        b: &T,
    ) -> RelateResult<Infcx::Interner, T>
        requires lawful { (solver_through Infcx.state self.old).lawful }
        requires decides { self.old.ambient_variance ≢ Bivariant }
        requires fits { T.fits (Infcx.state self.old.infcx.now).meaning a.now b.now }
        requires asked { AskedTerms solver_manner T.over T.tree (solver_at Infcx.state self.old) a.now b.now }
        ensures same_reference { self.new.infcx.ghost_name ≡ self.old.infcx.ghost_name }
        ensures aliases { self.new.structurally_relate_aliases ≡ self.old.structurally_relate_aliases }
        ensures variance { self.new.ambient_variance ≡ self.old.ambient_variance }
        ensures environment { through Infcx.state SameEnvironment self.old self.new }
        ensures related { let r = solver_at Infcx.state self.old in
            let q = solver_after Infcx.state self.old self.new in
            RelatedTerms solver_manner T.over T.tree r q a.now b.now result }
        ensures registers { let r = solver_at Infcx.state self.old in
            let q = solver_after Infcx.state self.old self.new in
            TermsRegister solver_manner T.over T.tree r q a.now b.now result }
    {
        T::relate(self, a, b)
    }

    /// The goals that were registered. None is left, and nothing is remembered: what was related rests on these goals.
    pub fn take_goals(&mut self) -> Vec<GoalOf<Infcx::Interner>>
        ensures goals { result.items ≡ self.old.goals.items }
        ensures none_left { self.new.goals.items ≡ [] }
        ensures none_kept { self.new.cache.pairs.kept ≡ [] }
        ensures same_reference { self.new.infcx.ghost_name ≡ self.old.infcx.ghost_name }
        ensures infcx { self.new.infcx.now ≡ self.old.infcx.now }
        ensures aliases { self.new.structurally_relate_aliases ≡ self.old.structurally_relate_aliases }
        ensures variance { self.new.ambient_variance ≡ self.old.ambient_variance }
        ensures environment { self.new.param_env ≡ self.old.param_env }
    {
        self.cache = RememberedPairs::new(self.infcx.cx().alloc());
        let none = Vec::new(self.infcx.cx().alloc());
        replace(&mut self.goals, none)
    }

    /// The context, with all that was recorded.
    pub fn into_infcx(self) -> &'a mut Infcx
        ensures same_reference { result.ghost_name ≡ self.entry.infcx.ghost_name }
        ensures value { result.now ≡ self.entry.infcx.now }
    {
        let SolverRelating { infcx, .. } = self;
        infcx
    }
}

impl<'a, Infcx: InferCtxtLike> HasState<Infcx::Interner> for SolverRelating<'a, Infcx> {
    ghost use Rattle.relation_combining.specs.Solving.{solving_through};

    ghost state = { λ r. solving_through r.structurally_relate_aliases r.infcx.ghost_name r.cache.pairs.kept r.goals.items
        (Infcx.state r.infcx.now) r.ambient_variance r.param_env };
}

impl<'a, Infcx: InferCtxtLike> TypeRelation<Infcx::Interner> for SolverRelating<'a, Infcx> {
    ghost use Rattle.std.specs.Prelude.{refl};
    ghost use Rattle.relation_combining.specs.Solving.{solver_takes};

    ghost interner = { λ r. Infcx.interner r.infcx.now };

    ghost with_interner = { λ r cx.
        record r { infcx = record r.infcx { now = Infcx.with_interner r.infcx.now cx } } };

    ghost manner = { solver_manner };

    fn cx(&self) -> &Infcx::Interner {
        self.infcx.cx()
    }

    fn cx_mut(&mut self) -> &mut Infcx::Interner {
        self.infcx.cx_mut()
    }

    fn lemma_interner_grows(&self) {
        self.infcx.lemma_interner_grows();
    }

    fn ambient(&self) -> Variance {
        self.ambient_variance
    }

    fn set_ambient(&mut self, v: Variance) {
        self.ambient_variance = v;
    }

    fn item_variances(&self, def_id: &ItemOf<Infcx::Interner>) -> Option<&[Variance]> {
        if let Variance::Invariant = self.ambient_variance {
            return None;
        }
        Some(self.infcx.cx().variances_of(def_id))
    }

    /// What comes of two types, before their parts are related. Of one and the same it is the answer. Two in one of which
    /// a variable stands, but of regions, are resolved shallowly first, and then:
    ///
    /// - Of a pair that is remembered, at the ambient variance, the left one is the answer, and nothing is done. Another
    ///   pair is remembered where it has an answer here.
    /// - Two type variables are made one at `Invariant`. At `Covariant` a goal is registered that the left one is a
    ///   subtype of the right one, and at `Contravariant` that the right one is a subtype of the left one, which is the
    ///   expected one of both. The left one is the answer.
    /// - A type variable on the left is bound at the ambient variance, and the bound type is to be related with the
    ///   right one. A type variable on the right is bound at the variance seen from there, and the left type is to be
    ///   related with the bound one. The left one is the answer. Where it was bound to a type variable in the place of an
    ///   alias, the goal of that one and the alias is registered in the place of relating them.
    /// - What comes of all others is said by `super_combine_tys`.
    ///
    /// Both types are the relation's. Upstream `tys` relates what is left too.
    ///
    /// # Errors
    /// `CyclicTy` where the variable stands in what the other side comes to, `Mismatch` where a placeholder does that
    /// the variable can't name, `Budget` where no instantiation is left, `Sorts` of a number variable and a type that
    /// it can't be. Nothing was bound or registered then. `Memory` where a growth was refused; a variable may be bound
    /// then to one in the place of an alias, and nothing registered; or all was done, but the pair is not remembered.
    #[inline(always)]
    fn tys(&mut self, a: &TyIn<Infcx>, b: &TyIn<Infcx>) -> TyStep<Infcx>
        requires lawful { (solver_through Infcx.state self.old).lawful }
        requires decides { self.old.ambient_variance ≢ Bivariant }
        requires asked { AskedTerms solver_manner None (λ m. m.ty) (solver_through Infcx.state self.old) a.now b.now }
        ensures stepped { through Infcx.state (SteppedTys solver_manner) self.old self.new a.now b.now result }
        ensures records { through Infcx.state (TysStepRecords solver_manner) self.old self.new a.now b.now result }
        ensures registers { through Infcx.state (TysStepAtOnce solver_manner) self.old self.new a.now b.now result }
        ensures steps { through Infcx.state StepsTys self.old self.new a.now b.now result }
        ensures remembers { through Infcx.state RemembersTys self.old self.new a.now b.now result }
    {
        if a == b {
            return Ok(Step::Done(*a));
        }
        if have_no_variable(&*self.infcx, a, b) {
            return self.step_read(a, b);
        }
        let left = self.infcx.shallow_resolve(a);
        let right = self.infcx.shallow_resolve(b);
        self.step_read(&left, &right)
    }

    /// What comes of two constants, before their parts are related, as `super_combine_consts` says it. Both are the
    /// relation's.
    ///
    /// # Errors
    /// Those of `super_combine_consts`. Nothing was bound or registered then.
    // It stands apart from the recursion, which takes less of the stack so.
    #[inline(never)]
    fn consts(
        &mut self,
        a: &Const<Infcx::Interner>,
        b: &Const<Infcx::Interner>,
    ) -> RelateResult<Infcx::Interner, Step<Const<Infcx::Interner>>>
        requires lawful { (solver_through Infcx.state self.old).lawful }
        requires decides { self.old.ambient_variance ≢ Bivariant }
        requires asked { let r = solver_through Infcx.state self.old in
            AskedTerms solver_manner None (λ m. m.const_) r a.now b.now }
        ensures stepped { through Infcx.state (SteppedConsts solver_manner) self.old self.new a.now b.now result }
        ensures records { through Infcx.state (ConstsStepRecords solver_manner) self.old self.new a.now b.now result }
        ensures steps { through Infcx.state ConstsCombine self.old self.new a.now b.now result }
        ensures memory { through Infcx.state SameMemory self.old self.new }
    {
        super_combine_consts::<Infcx, SolverRelating<'a, Infcx>>(self, a, b)
    }

    /// Records of two regions what the ambient variance asks for: at `Covariant` that the left one outlives the right
    /// one, at `Contravariant` that the right one outlives the left one, at `Invariant` that both outlive each other.
    /// Nothing else is recorded, and no goal registered. The left one is the answer. Both are the relation's.
    ///
    /// # Errors
    /// `Memory` where a growth was refused. Nothing was recorded then.
    // It stands apart from the recursion, which takes less of the stack so.
    #[inline(never)]
    fn regions(
        &mut self,
        a: &Region<Infcx::Interner>,
        b: &Region<Infcx::Interner>,
    ) -> RelateResult<Infcx::Interner, Region<Infcx::Interner>>
        requires lawful { (solver_through Infcx.state self.old).lawful }
        requires decides { self.old.ambient_variance ≢ Bivariant }
        requires asked { let r = solver_through Infcx.state self.old in
            AskedTerms solver_manner None (λ m. m.region) r a.now b.now }
        ensures related { through Infcx.state (RelatedRegions solver_manner) self.old self.new a.now b.now result }
        ensures recorded { through Infcx.state (RecordsAsked solver_manner) self.old self.new a.now b.now result }
        ensures steps { through Infcx.state StepsRegions self.old self.new a.now b.now result }
        ensures registers_nothing { through Infcx.state SameGoals self.old self.new }
    {
        relate_regions(&mut *self.infcx, self.ambient_variance, a, b, self.span)?;
        Ok(*a)
    }

    /// The bodies of two binders that are to be related in a round, 0 or 1, the left one's first; or none.
    ///
    /// Where neither body uses what its binder binds, round 0 answers both as they stand. Else, at `Covariant` and in
    /// round 0 at `Invariant`, placeholders stand in the right one for what its binder binds, and new variables in the
    /// left one; at `Contravariant` and in round 1 at `Invariant` it is the other way round. Any other round 1 answers
    /// none. No goal is registered.
    ///
    /// Both binders are the relation's. Upstream `binders` relates the bodies too.
    ///
    /// # Errors
    /// `Memory` where a growth was refused. A universe may have been made then, and variables that stay unbound.
    fn open_binders<T: TypeFoldable<Infcx::Interner> + TypeVisitable<Infcx::Interner> + Copy>(
        &mut self,
        a: &BinderOf<Infcx::Interner, T>,
        b: &BinderOf<Infcx::Interner, T>,
        round: usize,
    ) -> RelateResult<Infcx::Interner, Option<(T, T)>>
        requires lawful { (solver_through Infcx.state self.old).lawful }
        requires decides { self.old.ambient_variance ≢ Bivariant }
        requires round { round < 2 }
        requires asked { AskedBinders solver_manner T.tree (solver_through Infcx.state self.old) a.now b.now }
        ensures opened { through Infcx.state (OpenedBinders solver_manner T.tree) self.old self.new round a.now b.now result }
        ensures steps { let r = solver_through Infcx.state self.old in let q = solver_through Infcx.state self.new in
            StepsBinders r q T.tree round a.now b.now result }
        ensures registers_nothing { through Infcx.state SameGoals self.old self.new }
    {
        if is_behind_last(self.ambient_variance, round) {
            return Ok(None);
        }
        if !one_uses(&*self.infcx, a, b) {
            if round > 0 {
                return Ok(None);
            }
            return Ok(Some((a.value, b.value)));
        }
        if enters_second(self.ambient_variance, round) {
            let (y, x) = enter_and_instantiate(&mut *self.infcx, b, a)?;
            return Ok(Some((x, y)));
        }
        if enters_first(self.ambient_variance, round) {
            let (x, y) = enter_and_instantiate(&mut *self.infcx, a, b)?;
            return Ok(Some((x, y)));
        }
        Ok(None)
    }

    fn note_tys(&mut self, a: &TyIn<Infcx>, b: &TyIn<Infcx>) -> RelateResult<Infcx::Interner, ()> {
        self.remember(a, b)?;
        Ok(())
    }

    /// Registers, behind the goals that there are, that two types over one item are well formed, the left one's first,
    /// where an argument of either that the item declares bivariant is left open; else nothing. It is what
    /// `combine_ty_args` does. Called where the arguments were related at the variances that the item declares.
    ///
    /// # Errors
    /// `Memory` where a growth was refused.
    fn note_ty_args(
        &mut self,
        a_ty: &TyIn<Infcx>,
        b_ty: &TyIn<Infcx>,
        def_id: &ItemOf<Infcx::Interner>,
        a_args: &GenericArgs<Infcx::Interner>,
        b_args: &GenericArgs<Infcx::Interner>,
    ) -> RelateResult<Infcx::Interner, ()>
        requires lawful { (solver_through Infcx.state self.old).lawful }
        requires decides { self.old.ambient_variance ≢ Bivariant }
        requires asked { let r = solver_through Infcx.state self.old in
            AskedTerms solver_manner None (λ m. m.ty) r a_ty.now b_ty.now }
        requires by_declared { RelatesByDeclared (solver_through Infcx.state self.old) }
        requires over { let r = solver_through Infcx.state self.old in
            AreOver r def_id.now a_ty.now b_ty.now a_args.now b_args.now }
        requires related { ShownTys solver_manner (solver_through Infcx.state self.old) a_ty.now b_ty.now }
        ensures noted { through Infcx.state NotedTys self.old self.new a_ty.now b_ty.now result }
        ensures asks { through Infcx.state (TysAskOpen solver_manner) self.old self.new a_ty.now b_ty.now result }
        ensures registers { through Infcx.state AsksOfOver self.old self.new a_ty.now b_ty.now result }
    {
        combine_ty_args::<Infcx, SolverRelating<'a, Infcx>>(
            self, a_ty, b_ty, def_id, a_args, b_args,
        )
    }

    ghost reads = { λ r. Infcx.reads r.infcx.now };

    ghost sound = { λ r l. Infcx.sound r.infcx.now l.0.0 };

    ghost remembers_related = { λ r l. l.0.1 };

    ghost takes_parts = { solver_takes };
}
