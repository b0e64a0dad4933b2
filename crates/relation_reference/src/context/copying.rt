//! A copy of the tables of a context.
ghost use Rattle.std.specs.Prelude.{◌≡◌, IfOk};
ghost use Rattle.relation_reference.specs.Copies.{IsCopy};

use crate::context::InferCtxtInner;
use relation_terms::terms::OutOfMemory;
use std::alloc::Global;

// The same values, in memory of their own.
fn copy_of<T: Copy>(alloc: Global, values: &[T]) -> Result<Vec<T>, OutOfMemory>
    ensures { IfOk result (λ v. v.items ≡ values.now) }
{
    let mut copy = Vec::new(alloc);
    copy.extend_from_slice(values)?;
    Ok(copy)
}

/// The same tables again. Keys are copied, and nothing of what they stand for.
///
/// # Errors
/// `OutOfMemory` where a growth was refused.
pub fn copied<X: Copy>(
    alloc: Global,
    inner: &InferCtxtInner<X>,
) -> Result<InferCtxtInner<X>, OutOfMemory>
    ensures { IfOk result (IsCopy inner.now) }
{
    Ok(InferCtxtInner {
        types: inner.types.copied(alloc)?,
        ints: inner.ints.copied(alloc)?,
        floats: inner.floats.copied(alloc)?,
        consts: inner.consts.copied(alloc)?,
        regions: inner.regions.copied(alloc)?,
        constraints: copy_of(alloc, &inner.constraints)?,
        ty_outlives: copy_of(alloc, &inner.ty_outlives)?,
        sub_roots: inner.sub_roots.copied(alloc)?,
        universe: inner.universe,
        budget: inner.budget,
        next_solver: inner.next_solver,
        mode: inner.mode,
        tainted: inner.tainted,
        numbers: copy_of(alloc, &inner.numbers)?,
    })
}
