//! The relation of a context remembers which types it has related.
ghost use Rattle.std.specs.Prelude.{IsTrue};
ghost use Rattle.relation_semantics.specs.Contexts.{KnowsTy};
ghost use Rattle.relation_semantics.specs.Lawful.{HasRelated, RemembersAtMost};
ghost use Rattle.relation_combining.specs.Solving.{solver_manner};
ghost use Rattle.context_relation.specs.SolverStates.{solver_through, through};
ghost use Rattle.context_relation.specs.Stepping.{IsRemembered};

use crate::relation::{SolverRelating, TyIn};
use relation_semantics::infer_ctxt::InferCtxtLike;
use relation_terms::terms::OutOfMemory;

impl<'a, Infcx: InferCtxtLike> SolverRelating<'a, Infcx> {
    // Whether two types are remembered at the ambient variance.
    #[inline(always)]
    pub(super) fn was_related(&self, a: &TyIn<Infcx>, b: &TyIn<Infcx>) -> bool
        requires lawful { (solver_through Infcx.state self.now).lawful }
        requires a_known { KnowsTy (Infcx.state self.now.infcx.now) a.now }
        requires b_known { KnowsTy (Infcx.state self.now.infcx.now) b.now }
        ensures { IsTrue result → IsRemembered (solver_through Infcx.state self.now) a.now b.now }
    {
        self.cache.contains(self.ambient_variance, a, b)
    }

    // Remembers that two types were related at the ambient variance.
    pub(super) fn remember(&mut self, a: &TyIn<Infcx>, b: &TyIn<Infcx>) -> Result<(), OutOfMemory>
        requires { let r = solver_through Infcx.state self.old in
            HasRelated solver_manner r (r.ambient, a.now, b.now) }
        ensures { let v = self.old.ambient_variance in
            through Infcx.state RemembersAtMost self.old self.new (v, a.now, b.now) result }
    {
        self.cache.insert(self.ambient_variance, a, b)?;
        Ok(())
    }
}
