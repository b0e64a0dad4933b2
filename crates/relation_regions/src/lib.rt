//! Whether regions can be as constraints ask: those of a context, by what it has recorded, or numbered ones; and so
//! whether one term is a subtype of another where nothing is known of regions but facts.
#![tactic(auto)]

mod building;
mod decide;
mod facts;
mod graph;
pub mod numbered;
mod numbering;
mod reading;
mod rows;
mod search;
mod solving;
mod standing;
mod subtyping;
mod unsatisfiable;
mod widening;

pub use facts::is_fact;
pub use kept_records::RecordedRegions;
pub use solving::{RegionOutlivesPredicate, Solved, solve};
pub use subtyping::{Subtyping, SubtypingOf, decide_subtype};
