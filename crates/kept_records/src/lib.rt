//! Contexts whose record can be kept, and put back, and contexts that show what they have recorded of regions.
#![tactic(auto)]

ghost use Rattle.std.specs.Prelude.{◌≡◌, IfOk};
ghost use Rattle.kept_records.specs.Records.{IsRecordOf, StandsOn};

mod regions;

pub use regions::RecordedRegions;
use relation_semantics::infer_ctxt::InferCtxtLike;
use relation_terms::terms::OutOfMemory;

/// An inference context whose record can be kept and put back: what was tried in between leaves no trace but in what
/// the interner knows.
///
/// Upstream a snapshot is taken, and rolled back to.
pub trait KeepsRecord: InferCtxtLike {
    /// What a context has recorded.
    type Record: Drop;

    // The context with another record.
    ghost with_record: { Self → Self.Record → Self };

    /// What is recorded, to be put back.
    ///
    /// # Errors
    /// `OutOfMemory` where a growth was refused.
    fn keep(&self) -> Result<Self::Record, OutOfMemory>
        requires lawful { (Self.state self.now).lawful }
        ensures { IfOk result (λ r. IsRecordOf (Self.state self.now) (Self.state (with_record self.now r))) };

    /// Puts a record back that was kept, also where the interner has come to know more since. All else that was
    /// recorded is gone, and the context is lawful. It takes no memory.
    fn put_back(&mut self, kept: Self::Record)
        requires lawful { (Self.state (with_record self.old kept)).lawful }
        ensures { self.new ≡ with_record self.old kept };

    // What was kept is recorded still, and lawful, when the interner has come to know more.
    ghost stands: { (r : Self.Record) → StandsOn Self.state with_record r };
}
