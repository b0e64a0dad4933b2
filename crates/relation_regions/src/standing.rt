//! What a region is, as far as it counts for what it may outlive.
ghost use Rattle.std.specs.Prelude.{◌≡◌};
ghost use Rattle.relation_regions.specs.Standings.{is_given, is_placeholder, is_beyond};

use std::alloc::AllocError;

/// A region with a name of its own, which all universes can name, a placeholder of a universe, or a variable of one.
pub enum Standing {
    Named,
    Placeholder(usize),
    Variable(usize),
}

impl Clone for Standing {
    ghost is_clone = { λ source copy. copy ≡ source };

    ghost is_infallible = { λ _. Unit {0} };

    fn clone(&self) -> Result<Self, AllocError> {
        Ok(*self)
    }
}

impl Copy for Standing {}

impl Standing {
    /// Whether it is no variable.
    pub fn is_given(self) -> bool
        ensures { result ≡ is_given self }
    {
        !matches!(self, Standing::Variable(_))
    }

    /// Whether it is a placeholder.
    pub fn is_placeholder(self) -> bool
        ensures { result ≡ is_placeholder self }
    {
        matches!(self, Standing::Placeholder(_))
    }

    /// Whether the other is a placeholder that this one, a variable, can't name.
    pub fn is_beyond(self, other: Standing) -> bool
        ensures { result ≡ is_beyond self other }
    {
        match (self, other) {
            (Standing::Variable(universe), Standing::Placeholder(placed)) => universe < placed,
            _ => false,
        }
    }
}
