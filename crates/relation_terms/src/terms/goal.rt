//! Goals.
use crate::terms::ParamEnvKey;

/// A predicate that is to be shown in an environment.
#[derive(Clone, Copy, PartialEq, Eq, Hash)]
pub struct Goal<X, P> {
    pub param_env: ParamEnvKey<X>,
    pub predicate: P,
}
