//! Why an elaboration stopped.
ghost use Rattle.std.specs.Prelude.{◌≡◌};
ghost use Rattle.elaboration_worklist.specs.declared.faults.ElabFault.{ElabFault};

use relation_terms::terms::OutOfMemory;
use std::alloc::{AllocError, AllocFailed};

/// Why an elaboration stopped.
#[derive(Clone, Copy, PartialEq, Eq, Debug)]
pub enum ElabFault {
    /// A growth was refused.
    Memory,
    /// There were more different predicates than the limit allows.
    Limit,
}

impl From<OutOfMemory> for ElabFault {
    ghost from_gives = { λ _ fault. fault ≡ ElabFault.Memory };

    fn from(_refused: OutOfMemory) -> ElabFault {
        ElabFault::Memory
    }
}

impl From<AllocError> for ElabFault {
    ghost from_gives = { λ _ fault. fault ≡ ElabFault.Memory };

    fn from(_refused: AllocError) -> ElabFault {
        ElabFault::Memory
    }
}

impl<T: Drop> From<AllocFailed<T>> for ElabFault {
    ghost from_gives = { λ _ fault. fault ≡ ElabFault.Memory };

    fn from(_refused: AllocFailed<T>) -> ElabFault {
        ElabFault::Memory
    }
}
