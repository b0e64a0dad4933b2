//! What a solver's answers mean, whatever it is that finds them. Each function does nothing, and its contract is the
//! law.

ghost use Rattle.relation_solver.specs.Solving.{YesIsSound, YesIsPrincipal, NoMeansNone};
ghost use Rattle.relation_solver.specs.Solving.{AllYesAreSound, AllYesArePrincipal, SomeNoMeansNone};
ghost use Rattle.relation_solver.specs.Solving.{ProofsDerive, ProofsDeriveBy, OpenedAreUnconstrained};

/// What a yes and a no to a goal mean.
pub fn goals()
    ensures sound { YesIsSound }
    ensures principal { YesIsPrincipal }
    ensures none { NoMeansNone }
{}

/// The same of all of a list.
pub fn lists()
    ensures sound { AllYesAreSound }
    ensures principal { AllYesArePrincipal }
    ensures none { SomeNoMeansNone }
{}

/// What a yes means of any goal, where goals may be left.
pub fn derivations()
    ensures derive { ProofsDerive }
    ensures derive_by { ProofsDeriveBy }
{}

/// What new variables may stand for.
pub fn opening()
    ensures unconstrained { OpenedAreUnconstrained }
{}
