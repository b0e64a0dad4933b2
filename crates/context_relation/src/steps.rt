//! What the relation of a context does of two types, as they are read.
ghost use Rattle.std.specs.Prelude.{◌≢◌, ◌<◌, IsTrue};
ghost use Rattle.term_enums.specs.declared.Variance.TheVariants.{Invariant};
ghost use Rattle.relation_semantics.specs.AskedAlone.{IsNoTyVar};
ghost use Rattle.relation_semantics.specs.Resolving.{IsShallow};
ghost use Rattle.relation_steps.specs.Keyed.{SteppedTys};
ghost use Rattle.relation_combining.specs.Combining.{CanCombine};
ghost use Rattle.relation_combining.specs.Solving.{solver_manner};
ghost use Rattle.relation_combining.specs.Variables.{MeansTyVar};
ghost use Rattle.context_relation.specs.SolverStates.{solver_through, through};
ghost use Rattle.context_relation.specs.Stepping.{CombinesShallowTys, CombinesTyVars, KeepsMemory};
ghost use Rattle.context_relation.specs.Stepping.{RemembersRead, StepsShallowTys};

use crate::relation::{SolverRelating, TyIn, TyStep};
use relation_combining::combine::{PredicateEmittingRelation, super_combine_tys};
use relation_combining::variables::{are_aliases_by_parts, are_ordinary, ty_var};
use relation_semantics::infer_ctxt::InferCtxtLike;
use relation_semantics::relate::Step;
use relation_terms::terms::{TyVid, Variance};

// Whether a round comes behind the last one: there are two at invariance, and one else.
pub(super) fn is_behind_last(variance: Variance, round: usize) -> bool
    ensures { IsTrue result → (0 < round) × (variance ≢ Invariant) }
{
    match variance {
        Variance::Invariant => false,
        Variance::Covariant | Variance::Contravariant | Variance::Bivariant => round > 0,
    }
}

impl<'a, Infcx: InferCtxtLike> SolverRelating<'a, Infcx> {
    // What comes of two types as they are read: of a pair that is remembered the left one, and nothing is done; of
    // another what combining says, which leaves ordinary types to their parts, and aliases that are left to no goal.
    // Where that is an answer the pair is remembered.
    #[inline(always)]
    pub(super) fn step_read(&mut self, a: &TyIn<Infcx>, b: &TyIn<Infcx>) -> TyStep<Infcx>
        requires { CanCombine (λ m. m.ty) IsShallow (solver_through Infcx.state self.old) a.now b.now }
        ensures stepped { through Infcx.state (SteppedTys solver_manner) self.old self.new a.now b.now result }
        ensures steps { through Infcx.state StepsShallowTys self.old self.new a.now b.now result }
        ensures remembers { through Infcx.state RemembersRead self.old self.new a.now b.now result }
    {
        if self.was_related(a, b) {
            return Ok(Step::Done(*a));
        }
        if are_ordinary(&*self.infcx, a, b) {
            return Ok(Step::Parts { a: *a, b: *b });
        }
        if are_aliases_by_parts::<Infcx, SolverRelating<'a, Infcx>>(self, a, b) {
            return Ok(Step::Parts { a: *a, b: *b });
        }
        self.step_anew(a, b)
    }

    // The same, whether or not the pair is remembered. It stands apart from the recursion, which takes less of the stack
    // so.
    #[inline(never)]
    fn step_anew(&mut self, a: &TyIn<Infcx>, b: &TyIn<Infcx>) -> TyStep<Infcx>
        requires { CanCombine (λ m. m.ty) IsShallow (solver_through Infcx.state self.old) a.now b.now }
        ensures stepped { through Infcx.state (SteppedTys solver_manner) self.old self.new a.now b.now result }
        ensures steps { through Infcx.state StepsShallowTys self.old self.new a.now b.now result }
        ensures remembers { through Infcx.state RemembersRead self.old self.new a.now b.now result }
    {
        match self.combine_tys(a, b)? {
            Step::Done(answer) => {
                self.remember(a, b)?;
                Ok(Step::Done(answer))
            }
            step => Ok(step),
        }
    }

    // What comes of two types that were resolved shallowly: two type variables as below; a type variable is bound to a
    // type, which is then related with that.
    fn combine_tys(&mut self, a: &TyIn<Infcx>, b: &TyIn<Infcx>) -> TyStep<Infcx>
        requires { CanCombine (λ m. m.ty) IsShallow (solver_through Infcx.state self.old) a.now b.now }
        ensures stepped { through Infcx.state (SteppedTys solver_manner) self.old self.new a.now b.now result }
        ensures combines { through Infcx.state CombinesShallowTys self.old self.new a.now b.now result }
        ensures memory { through Infcx.state KeepsMemory self.old self.new a.now b.now }
    {
        match ty_var(&*self.infcx, a) {
            Some(x) => match ty_var(&*self.infcx, b) {
                Some(y) => self.combine_ty_vars(a, x, b, y),
                None => self.bind_left(a, x, b),
            },
            None => match ty_var(&*self.infcx, b) {
                Some(y) => self.bind_right(a, b, y),
                None => super_combine_tys::<Infcx, SolverRelating<'a, Infcx>>(self, a, b),
            },
        }
    }

    // What comes of a type variable, of which nothing is recorded, and a type: it is bound to that, which is then related
    // with it; or asked about, where a variable took an alias's place.
    fn bind_left(&mut self, a: &TyIn<Infcx>, x: TyVid, b: &TyIn<Infcx>) -> TyStep<Infcx>
        requires can { CanCombine (λ m. m.ty) IsShallow (solver_through Infcx.state self.old) a.now b.now }
        requires a_is { MeansTyVar (Infcx.state self.old.infcx.now) a.now x.0 }
        requires b_is { IsNoTyVar (((Infcx.state self.old.infcx.now).meaning).ty b.now) }
        ensures stepped { through Infcx.state (SteppedTys solver_manner) self.old self.new a.now b.now result }
        ensures combines { through Infcx.state CombinesShallowTys self.old self.new a.now b.now result }
    {
        let variance = self.ambient_variance;
        let aliases = self.structurally_relate_aliases;
        let bound = self.infcx.instantiate_ty_var_raw(aliases, x, variance, b)?;
        if let Some(_) = ty_var(&*self.infcx, &bound) {
            self.register_alias_relate_predicate(&bound, b)?;
            return Ok(Step::Done(*a));
        }
        Ok(Step::Again {
            a: *a,
            b: *b,
            x: bound,
            y: *b,
            variance: Variance::Covariant,
            answer: *a,
        })
    }

    // The same of a type and a type variable.
    fn bind_right(&mut self, a: &TyIn<Infcx>, b: &TyIn<Infcx>, y: TyVid) -> TyStep<Infcx>
        requires can { CanCombine (λ m. m.ty) IsShallow (solver_through Infcx.state self.old) a.now b.now }
        requires b_is { MeansTyVar (Infcx.state self.old.infcx.now) b.now y.0 }
        requires a_is { IsNoTyVar (((Infcx.state self.old.infcx.now).meaning).ty a.now) }
        ensures stepped { through Infcx.state (SteppedTys solver_manner) self.old self.new a.now b.now result }
        ensures combines { through Infcx.state CombinesShallowTys self.old self.new a.now b.now result }
    {
        let variance = self.ambient_variance.xform(Variance::Contravariant);
        let aliases = self.structurally_relate_aliases;
        let bound = self.infcx.instantiate_ty_var_raw(aliases, y, variance, a)?;
        if let Some(_) = ty_var(&*self.infcx, &bound) {
            self.register_alias_relate_predicate(a, &bound)?;
            return Ok(Step::Done(*a));
        }
        Ok(Step::Again {
            a: *a,
            b: *b,
            x: *a,
            y: bound,
            variance: Variance::Covariant,
            answer: *a,
        })
    }

    // What comes of two type variables, of which nothing is recorded: at invariance they are made one, else it is
    // registered that the one is a subtype of the other.
    fn combine_ty_vars(
        &mut self,
        a: &TyIn<Infcx>,
        x: TyVid,
        b: &TyIn<Infcx>,
        y: TyVid,
    ) -> TyStep<Infcx>
        requires can { CanCombine (λ m. m.ty) IsShallow (solver_through Infcx.state self.old) a.now b.now }
        requires a_is { MeansTyVar (Infcx.state self.old.infcx.now) a.now x.0 }
        requires b_is { MeansTyVar (Infcx.state self.old.infcx.now) b.now y.0 }
        ensures stepped { through Infcx.state (SteppedTys solver_manner) self.old self.new a.now b.now result }
        ensures combines { through Infcx.state CombinesTyVars self.old self.new a.now b.now result }
    {
        if let Variance::Invariant = self.ambient_variance {
            self.infcx.equate_ty_vids_raw(x, y);
            return Ok(Step::Done(*a));
        }
        self.register_subtype_predicate(a, b)?;
        Ok(Step::Done(*a))
    }
}
