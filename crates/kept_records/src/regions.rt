//! Contexts that show what they have recorded of regions.
ghost use Rattle.std.specs.Prelude.{◌≡◌, map};
ghost use Rattle.relation_semantics.specs.Constraints.{constraint_of};

use relation_semantics::infer_ctxt::InferCtxtLike;
use relation_terms::predicate::RegionConstraint;
use relation_terms::terms::Keys;

/// A context that shows the constraints on regions that it has recorded.
pub trait RecordedRegions: InferCtxtLike {
    /// The constraints on regions, in the order in which they were recorded, repeats among them.
    fn region_constraints(&self) -> &[RegionConstraint<<Self::Interner as Keys>::Key>]
        ensures { let c = Self.state self.now in map (constraint_of c.meaning) result.now ≡ (c.store).constraints };
}
