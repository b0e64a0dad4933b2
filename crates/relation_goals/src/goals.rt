//! Goals: predicates in an environment.
ghost use Rattle.std.specs.Prelude.{◌≡◌, map, IfOk};

use relation_terms::terms::{Goal, Keys, OutOfMemory, ParamEnvKey, Predicate, PredicateKey};
use std::alloc::Global;

/// A goal over an interner's keys.
pub type GoalOf<I> = Goal<<I as Keys>::Key, Predicate<I>>;

/// The goals of predicates in an environment, in the order of the predicates.
pub fn goals_of<X: Copy>(
    param_env: ParamEnvKey<X>,
    predicates: &[PredicateKey<X>],
    alloc: Global,
) -> Result<Vec<Goal<X, PredicateKey<X>>>, OutOfMemory>
    ensures { IfOk result (λ goals.
        goals.items ≡ map (λ p. record { param_env = param_env; predicate = p }) predicates.now) }
{
    let mut goals = Vec::new(alloc);
    for i in 0..predicates.len() {
        goals.push(Goal {
            param_env,
            predicate: predicates[i],
        })?;
    }
    Ok(goals)
}
