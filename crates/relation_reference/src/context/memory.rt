//! What walks through terms have met: a part that was met is not gone through again.
ghost use Rattle.std.specs.Prelude.{◌≡◌, IsTrue, IfSome, OnOk};
ghost use Rattle.relation_terms.specs.Trees.{known};
ghost use Rattle.relation_terms.specs.Parts.{part_tree};
ghost use Rattle.variable_tables.specs.Tables.{store_of};
ghost use Rattle.relation_reference.specs.Remembering.{ResolvesTo, key_of as the_key, Caches};

use delayed_map::widening::widen_map;
use relation_terms::terms::{Interner, OutOfMemory, Part, PartOf};
use std::collections::HashMap;
use std::hash::BuildHasherDefault;
use term_enums::hashing::KeyHasher;
use variable_tables::InferCtxtInner;

/// A part as it is looked for: of which sort it is, and its key.
#[derive(Clone, Copy, PartialEq, Eq)]
#[derive_where(Hash; X)]
pub struct PartKey<X> {
    // Its key alone is hashed: it tells most parts apart.
    #[derive_where(skip(Hash))]
    pub sort: u8,
    pub key: X,
}

/// What parts that were met were resolved to.
pub type Resolutions<X, D> = HashMap<PartKey<X>, Part<X, D>, BuildHasherDefault<KeyHasher>>;

// A part as it is looked for, where it has a key.
fn key_of<X: Copy, D: Copy>(part: &Part<X, D>) -> Option<PartKey<X>>
    ensures { result ≡ the_key part.now }
{
    let (sort, key) = match part {
        Part::Region(region) => (0, region.0),
        Part::Ty(ty) => (1, ty.0),
        Part::Const(constant) => (2, constant.0),
        Part::ValTree(valtree) => (3, valtree.0),
        Part::Pat(pat) => (4, pat.0),
        Part::ValueType(ty) => (5, ty.0),
        Part::Object(predicates) => (6, predicates.0),
        Part::Binder(..) | Part::Signature(_) | Part::Inputs(_) | Part::Existential(_) => {
            return None;
        }
    };
    Some(PartKey { sort, key })
}

// What the part was resolved to, if it was met before. `inner` is what the parts were resolved by.
#[inline(always)]
pub(crate) fn recall_resolved<I: Interner>(
    _cx: &I,
    _inner: &InferCtxtInner<I::Key>,
    part: &PartOf<I>,
    memory: &Resolutions<I::Key, I::Id>,
) -> Option<PartOf<I>>
    requires known { IsTrue (known (part_tree (I.meaning _cx.now) part.now)) }
    requires remembers { Caches I.meaning _cx.now _inner.now ⟦<PartKey<I::Key> as PartialEq>⟧.eq memory.now }
    ensures { let m = I.meaning _cx.now in IfSome result (ResolvesTo m (store_of m _inner.now) part.now) }
{
    let key = key_of(part)?;
    memory.get(&key).copied()
}

// Keeps what the part was resolved to.
#[inline(always)]
pub(crate) fn keep_resolved<I: Interner>(
    _cx: &I,
    _inner: &InferCtxtInner<I::Key>,
    part: &PartOf<I>,
    resolved: PartOf<I>,
    memory: &mut Resolutions<I::Key, I::Id>,
) -> Result<(), OutOfMemory>
    requires comes { let m = I.meaning _cx.now in ResolvesTo m (store_of m _inner.now) part.now resolved }
    requires remembers { Caches I.meaning _cx.now _inner.now ⟦<PartKey<I::Key> as PartialEq>⟧.eq memory.old }
    ensures { OnOk result (Caches I.meaning _cx.now _inner.now ⟦<PartKey<I::Key> as PartialEq>⟧.eq memory.new) }
{
    if let Some(key) = key_of(part) {
        memory.insert(key, resolved)?;
        let _ = widen_map(memory);
    }
    Ok(())
}
