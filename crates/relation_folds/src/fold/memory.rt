//! What a fold has made so far: a part that has a key is not folded again where it was met at the same depth.
//!
//! What has none, as a signature, is folded each time, and so is a region; types, constants and lists are kept.
ghost use Rattle.std.specs.Prelude.{◌≡◌, ◌≤◌, [], length, drop, fold, Some, IsTrue, IfSome};
ghost use Rattle.std.specs.Hash.{u128 as fed_number};
ghost use Rattle.relation_terms.specs.Trees.{known};
ghost use Rattle.relation_terms.specs.Parts.{part_tree};
ghost use Rattle.relation_folds.specs.Folds.{IsMade, Recalls, place_of as the_place};
ghost use Rattle.relation_folds.specs.Places.{fed_depth};

use crate::fold::TypeFolder;
use delayed_map::CACHE_CUTOFF;
use delayed_map::kept::KeptMap;
use relation_terms::terms::{Interner, OutOfMemory, Part, PartOf};
use std::hash::{Hash, Hasher};

/// A part at a depth: of which sort it is, its key, and how many binders stand around it.
#[derive(Clone, Copy, PartialEq, Eq)]
pub struct Place<X> {
    pub sort: u8,
    pub key: X,
    pub depth: u128,
}

// It stands apart, so that nothing of it is done ahead for a part at no depth.
#[cold]
#[inline(never)]
fn hash_deep<H: Hasher>(depth: u128, state: &mut H)
    ensures { state.new ≡ fold H.write state.old (fed_number depth) }
{
    depth.hash(state);
}

// A depth of 0, at which most parts stand, is not hashed.
#[inline(always)]
fn hash_depth<H: Hasher>(depth: u128, state: &mut H)
    ensures { state.new ≡ fold H.write state.old (fed_depth depth) }
{
    if depth != 0 {
        hash_deep(depth, state);
    }
}

// The key tells most places apart, so its sort is not hashed.
impl<X: Hash> Hash for Place<X> {
    ghost use Rattle.relation_folds.specs.Places.{fed_place, fed_alike};

    ghost hash_input = { fed_place X.hash_input };

    ghost respects_eq = { λ p q h. fed_alike _ X.hash_input X.respects_eq p q h };

    #[inline(always)]
    fn hash<H: Hasher>(&self, state: &mut H) {
        self.key.hash(state);
        hash_depth(self.depth, state);
    }
}

/// What a fold has made of the parts that it has met, but for those that were the first: a small fold ends before it
/// would hash.
#[derive(Drop)]
pub struct Memory<X: Eq + Hash, D> {
    pub made: KeptMap<Place<X>, Part<X, D>>,
    pub let_go: u32,
    /// The lists that are being made, each upon those that it is made for.
    pub stack: Vec<Part<X, D>>,
}

/// A part at a depth, where it has a key.
#[inline(always)]
pub fn place_of<X: Copy, D: Copy>(part: &Part<X, D>, depth: u128) -> Option<Place<X>>
    ensures { result ≡ the_place part.now depth }
{
    let (sort, key) = match part {
        Part::Region(region) => (0, region.0),
        Part::Ty(ty) => (1, ty.0),
        Part::Const(constant) => (2, constant.0),
        Part::ValTree(valtree) => (3, valtree.0),
        Part::Pat(pat) => (4, pat.0),
        Part::ValueType(ty) => (5, ty.0),
        Part::Object(predicates) => (6, predicates.0),
        Part::Binder(..) | Part::Signature(_) | Part::Inputs(_) | Part::Existential(_) => {
            return None;
        }
    };
    Some(Place { sort, key, depth })
}

// The place where what is made of a part is kept. A region is a leaf: to fold it again takes less than to find it.
#[inline(always)]
fn kept_place<X: Copy, D: Copy>(part: &Part<X, D>, depth: u128) -> Option<Place<X>>
    ensures { IfSome result (λ place. the_place part.now depth ≡ Some place) }
{
    match part {
        Part::Region(_) => None,
        _ => place_of(part, depth),
    }
}

/// Nothing is remembered where a fold begins, and no list is being made.
pub fn nothing<I: Interner>(cx: &I) -> Memory<I::Key, I::Id>
    ensures made { result.made ≡ [] }
    ensures stack { result.stack.items ≡ [] }
{
    Memory {
        made: KeptMap::new(cx.alloc()),
        let_go: 0,
        stack: Vec::new(cx.alloc()),
    }
}

/// What stands upon the stack from a place on.
#[inline(always)]
pub fn top<X: Copy + Eq + Hash, D: Copy>(memory: &Memory<X, D>, start: usize) -> &[Part<X, D>]
    requires { start ≤ length (memory.now).stack.items }
    ensures { result.now ≡ drop start (memory.now).stack.items }
{
    let (_, top) = memory.stack.as_slice().split_at(start);
    top
}

/// What was made of the part at this depth, if it was met there before.
#[inline(always)]
pub fn recall<I: Interner, F: TypeFolder<I>>(
    _cx: &I,
    _folder: &F,
    memory: &Memory<I::Key, I::Id>,
    part: &PartOf<I>,
    depth: u128,
) -> Option<PartOf<I>>
    requires known { IsTrue (known (part_tree (I.meaning _cx.now) part.now)) }
    requires remembers { Recalls F.replaces I.meaning _cx.now _folder.now ⟦<Place<I::Key> as PartialEq>⟧.eq memory.now }
    ensures { IfSome result (IsMade (I.meaning _cx.now) (F.replaces (I.meaning _cx.now) _folder.now) part.now depth) }
{
    let place = kept_place(part, depth)?;
    memory.made.get(&place)
}

/// Keeps what was made of the part at this depth, if enough were let go.
#[inline(always)]
pub fn keep<I: Interner, F: TypeFolder<I>>(
    _cx: &I,
    _folder: &F,
    memory: &mut Memory<I::Key, I::Id>,
    part: &PartOf<I>,
    depth: u128,
    made: PartOf<I>,
) -> Result<(), OutOfMemory>
    requires made { IsMade (I.meaning _cx.now) (F.replaces (I.meaning _cx.now) _folder.now) part.now depth made }
    requires remembers { Recalls F.replaces I.meaning _cx.now _folder.now ⟦<Place<I::Key> as PartialEq>⟧.eq memory.old }
    ensures remembers { Recalls F.replaces I.meaning _cx.now _folder.now ⟦<Place<I::Key> as PartialEq>⟧.eq memory.new }
    ensures stack { (memory.new).stack.items ≡ (memory.old).stack.items }
{
    if memory.let_go < CACHE_CUTOFF {
        memory.let_go += 1;
        return Ok(());
    }
    if let Some(place) = kept_place(part, depth) {
        memory.made.insert(place, made)?;
    }
    Ok(())
}
