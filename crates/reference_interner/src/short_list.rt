//! Lists of which a short one stands in its node itself.
ghost use Rattle.std.specs.Prelude.{◌≡◌, IfOk};
ghost use Rattle.std.specs.Cmp.{on_equiv, on_per};
ghost use Rattle.std.specs.Cmp.Lexicographic.{pointwise, lists_per, lists_equiv};
ghost use Rattle.std.specs.Hash as fed;
ghost use Rattle.std.specs.Hash.{on_Alike, items_Alike};
ghost use Rattle.reference_interner.specs.ShortLists.{members_of};

use crate::node::copied;
use relation_terms::terms::OutOfMemory;
use std::alloc::Global;
use std::hash::{Hash, Hasher};

/// A list. Most have few members: reading those takes no further look-up in memory.
#[derive(Drop)]
pub enum ShortList<T> {
    One([T; 1]),
    Two([T; 2]),
    Three([T; 3]),
    Four([T; 4]),
    Many(Vec<T>),
}

impl<T: Copy> ShortList<T> {
    // A list of these members.
    pub(super) fn of(alloc: Global, members: &[T]) -> Result<ShortList<T>, OutOfMemory>
        ensures { IfOk result (λ list. members_of list ≡ members.now) }
    {
        match members.len() {
            1 => Ok(ShortList::One([members[0]])),
            2 => Ok(ShortList::Two([members[0], members[1]])),
            3 => Ok(ShortList::Three([members[0], members[1], members[2]])),
            4 => Ok(ShortList::Four([members[0], members[1], members[2], members[3]])),
            _ => Ok(ShortList::Many(copied(alloc, members)?)),
        }
    }
}

impl<T> ShortList<T> {
    // Its members.
    #[inline(always)]
    pub(super) fn as_slice(&self) -> &[T]
        ensures { result.now ≡ members_of self.now }
    {
        match self {
            ShortList::One(members) => members,
            ShortList::Two(members) => members,
            ShortList::Three(members) => members,
            ShortList::Four(members) => members,
            ShortList::Many(members) => members.as_slice(),
        }
    }
}

impl<T: PartialEq> PartialEq for ShortList<T> {
    ghost eq = { λ v w. pointwise T.eq (members_of v) (members_of w) };

    ghost laws = { on_per members_of (lists_per T.laws) };

    fn eq(&self, other: &Self) -> bool {
        self.as_slice() == other.as_slice()
    }
}

impl<T: Eq> Eq for ShortList<T> {
    ghost laws = { on_equiv members_of (lists_equiv T.Eq.laws) };
}

impl<T: Hash> Hash for ShortList<T> {
    ghost hash_input = { λ v. fed.slice T.hash_input (members_of v) };

    ghost respects_eq = { (on_Alike members_of (items_Alike (record { fed = T.respects_eq }))).fed };

    fn hash<H: Hasher>(&self, state: &mut H) {
        self.as_slice().hash(state);
    }
}
