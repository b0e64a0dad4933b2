//! The context shows what it has recorded of regions.
use crate::context::RefCtxt;
use kept_records::RecordedRegions;
use relation_terms::predicate::RegionConstraint;
use relation_terms::terms::Interner;

impl<I: Interner> RecordedRegions for RefCtxt<I> {
    fn region_constraints(&self) -> &[RegionConstraint<I::Key>] {
        self.region_constraints()
    }
}
