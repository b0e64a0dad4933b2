//! The relation of a context registers goals.
ghost use Rattle.std.specs.Prelude.{◌≡◌, [], ◌∷◌};
ghost use Rattle.relation_semantics.specs.Contexts.{KnowsTy};
ghost use Rattle.relation_semantics.specs.Goals.{IsDirected};
ghost use Rattle.relation_goals.specs.Emitting.{AddsGoals, KnowsPredicate, RegistersSubtype, goals_in};
ghost use Rattle.context_relation.specs.SolverStates.{solver_through, through};

use crate::relation::{SolverRelating, TyIn};
use relation_combining::combine::PredicateEmittingRelation;
use relation_goals::goals::{GoalOf, goals_of};
use relation_goals::recording::{alias_asked, subtype_asked};
use relation_semantics::infer_ctxt::InferCtxtLike;
use relation_semantics::relate::StructurallyRelateAliases;
use relation_terms::terms::{Goal, Interner, OutOfMemory, ParamEnv, Predicate, Span};

impl<'a, Infcx: InferCtxtLike> SolverRelating<'a, Infcx> {
    // Registers a predicate in the relation's environment, behind the goals that there are.
    fn register(&mut self, predicate: Predicate<Infcx::Interner>) -> Result<(), OutOfMemory>
        requires lawful { (solver_through Infcx.state self.old).lawful }
        requires known { KnowsPredicate (Infcx.state self.old.infcx.now).meaning predicate }
        ensures { let r = solver_through Infcx.state self.old in
            AddsGoals r (solver_through Infcx.state self.new) (goals_in r (predicate ∷ [])) result }
    {
        let param_env = self.param_env;
        self.goals.push(Goal {
            param_env,
            predicate,
        })?;
        Ok(())
    }

    // Registers what is asked of two type variables at the ambient variance: that the one is a subtype of the other.
    pub(super) fn register_subtype_predicate(
        &mut self,
        a: &TyIn<Infcx>,
        b: &TyIn<Infcx>,
    ) -> Result<(), OutOfMemory>
        requires lawful { (solver_through Infcx.state self.old).lawful }
        requires directed { IsDirected self.old.ambient_variance }
        requires a_known { KnowsTy (Infcx.state self.old.infcx.now) a.now }
        requires b_known { KnowsTy (Infcx.state self.old.infcx.now) b.now }
        ensures { through Infcx.state RegistersSubtype self.old self.new a.now b.now result }
    {
        let predicate = subtype_asked(&mut *self.infcx, self.ambient_variance, a, b)?;
        self.register(predicate)
    }
}

impl<'a, Infcx: InferCtxtLike> PredicateEmittingRelation<Infcx> for SolverRelating<'a, Infcx> {
    ghost use Rattle.std.specs.Prelude.{refl};

    ghost context = { λ r. r.infcx.now };

    ghost with_context = { λ r c. record r { infcx = record r.infcx { now = c } } };

    fn infcx(&self) -> &Infcx {
        &*self.infcx
    }

    fn infcx_mut(&mut self) -> &mut Infcx {
        &mut *self.infcx
    }

    fn lemma_context_grows(&self) {}

    // As upstream's: constraints on regions are recorded with the relation's own span.
    fn span(&self) -> Span<Infcx::Interner> {
        self.infcx.cx().dummy_span()
    }

    fn param_env(&self) -> ParamEnv<Infcx::Interner> {
        self.param_env
    }

    fn structurally_relate_aliases(&self) -> StructurallyRelateAliases {
        self.structurally_relate_aliases
    }

    fn register_alias_relate_predicate(
        &mut self,
        a: &TyIn<Infcx>,
        b: &TyIn<Infcx>,
    ) -> Result<(), OutOfMemory> {
        let predicate = alias_asked(&mut *self.infcx, self.ambient_variance, a, b)?;
        self.register(predicate)
    }

    fn register_goals(&mut self, goals: &[GoalOf<Infcx::Interner>]) -> Result<(), OutOfMemory> {
        self.goals.extend_from_slice(goals)?;
        Ok(())
    }

    fn register_predicates(
        &mut self,
        predicates: &[Predicate<Infcx::Interner>],
    ) -> Result<(), OutOfMemory> {
        let goals = goals_of(self.param_env, predicates, self.infcx.cx().alloc())?;
        self.register_goals(goals.as_slice())
    }

    ghost over = { λ r. record {
      meaning = refl;
      store = refl;
      solver = refl;
      coherence = refl;
      mode = refl;
      outliving = refl;
      lawful = λ l. l.0.0;
    } };
}
