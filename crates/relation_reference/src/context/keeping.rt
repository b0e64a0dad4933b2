//! What the plain context records, kept as a copy of its tables.
use crate::context::copying::copied;
use crate::context::{InferCtxtInner, RefCtxt};
use kept_records::KeepsRecord;
use relation_terms::terms::{Interner, OutOfMemory};

impl<I: Interner> KeepsRecord for RefCtxt<I> {
    type Record = InferCtxtInner<I::Key>;

    ghost use Rattle.relation_reference.specs.Copies.{stands_on};

    ghost with_record = { λ c r. record c { inner = r } };

    fn keep(&self) -> Result<InferCtxtInner<I::Key>, OutOfMemory> {
        copied(self.interner.alloc(), &self.inner)
    }

    fn put_back(&mut self, kept: InferCtxtInner<I::Key>) {
        self.inner = kept;
    }

    ghost stands = { λ r. stands_on I.meaning r };
}
