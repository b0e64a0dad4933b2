//! Laws of the definitions that this crate's contracts are said in. Each function does nothing, and its contract is
//! the law.

ghost use Rattle.fast_reject.specs.InstanceLaws.{TermsAreInstances, AliasesMeetTypes};
ghost use Rattle.fast_reject.specs.KeyLaws.{DifferentKeysAreApart, UnlikeKeysAreApart, KeysAreEqualByNumber};

use crate::SimplifiedType;
use relation_terms::terms::{Interner, ItemOf};

/// Instances that there are.
pub fn instances()
    ensures themselves { TermsAreInstances }
    ensures aliases { AliasesMeetTypes }
{}

/// Types of different keys.
pub fn keys()
    ensures apart { DifferentKeysAreApart }
    ensures unlike { UnlikeKeysAreApart }
{}

/// Which keys of types are equal.
pub fn equal_keys<I: Interner>()
    ensures same_key { KeysAreEqualByNumber I.meaning ⟦<SimplifiedType<ItemOf<I>> as PartialEq>⟧.eq }
{}
