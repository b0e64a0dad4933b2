//! What a walk has visited.
use reference_interner::RefInterner;
use relation_terms::terms::{GenericArg, GenericArgKind, Interner, OutOfMemory, TyKind};
use relation_tools::walk::TypeWalker;

// Whether a walk yields an argument next, which it has visited then, and had not before.
fn visits_what_it_yields<I: Interner>(
    walker: &mut TypeWalker<'_, I>,
    root: &GenericArg<I>,
) -> bool {
    let before = walker.visited().contains(root);
    let yielded = walker.pull() == Some(Ok(*root));
    yielded & !before & walker.visited().contains(root)
}

/// Whether a walk of a plain type does. (How large a walk is depends on the interner's keys, so one is named.)
pub fn all_go(cx: &mut RefInterner) -> Result<bool, OutOfMemory> {
    let root = GenericArgKind::Ty(cx.mk_ty(TyKind::Bool)?);
    let mut walker = TypeWalker::new(&*cx, root);
    Ok(visits_what_it_yields(&mut walker, &root))
}
