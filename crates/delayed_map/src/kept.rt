//! A map that is mostly asked for what it hasn't: what it finds was kept, and it looks for it in few places.
ghost use Rattle.std.specs.Prelude.{◌≡◌, ◌<◌, ◌++◌, ◌∷◌, [], ℕ, true, false, IsTrue, IfSome, OnErr, Ok};
ghost use Rattle.std.specs.List.{list_any};
ghost use Rattle.std.specs.Map.{keys_of};
ghost use Rattle.delayed_map.specs.Kept.{Finds, IsKeptAt};
ghost use Rattle.delayed_map.specs.declared.kept.Found.TheVariants.{At};

use std::alloc::Global;
use std::hash::{Hash, Hasher};
use std::marker::Model;
use term_enums::OutOfMemory;
use term_enums::hashing::KeyHasher;

// What stands at a place that leads to no entry.
const NO_ENTRY: u32 = u32::MAX;

// The least number of places. It is a power of two, as all numbers of them are.
const LEAST: usize = 128;

/// Entries, each found by its key. Its table of places grows before every second one is taken, so that what isn't kept
/// is told by one place, and one look-up in memory.
#[derive(Drop)]
pub struct KeptMap<K: Eq + Hash, V> {
    entries: Vec<(K, V)>,
    // The numbers of entries, by the places that the hashes of their keys lead to.
    places: Vec<u32>,
}

impl<K: Eq + Hash, V> Model for KeptMap<K, V> {
    ghost use Rattle.std.specs.Prelude.{List};
    ghost use Rattle.std.specs.Coded.{coded×, coded_list};

    ghost Value = { List (K × V) };

    ghost coded = { coded_list (coded× K.code V.code) };

    ghost view = { λ m. m.entries.items };
}

// What a place has for a key: the number of its entry, none, or another's.
#[derive(Clone, Copy)]
enum Found {
    At(usize),
    Free(usize),
    Other,
}

// Where looking for a key begins.
#[inline(always)]
fn first_place<K: Hash>(key: &K) -> usize {
    let mut hasher = KeyHasher::default();
    key.hash(&mut hasher);
    (hasher.finish() & 0xFFFF_FFFF) as usize
}

#[inline(always)]
fn found_at<K: Eq, V>(entries: &[(K, V)], places: &[u32], place: usize, key: &K) -> Found
    ensures { (n : ℕ) → result ≡ At n → IsKeptAt K.eq key.now entries.now n }
{
    let Some(number) = places.get(place) else {
        return Found::Free(place);
    };
    let Some(entry) = entries.get(*number as usize) else {
        return Found::Free(place);
    };
    if *key == entry.0 {
        return Found::At(*number as usize);
    }
    Found::Other
}

// The entry of a key, or the place where there is none. There is one of them, unless all places are taken.
#[inline(always)]
fn find<K: Eq + Hash, V>(entries: &[(K, V)], places: &[u32], key: &K) -> Found
    ensures { (n : ℕ) → result ≡ At n → IsKeptAt K.eq key.now entries.now n }
{
    let last = places.len().wrapping_sub(1);
    let mut place = first_place(key);
    for _ in 0..places.len() {
        match found_at(entries, places, place & last, key) {
            Found::Other => place = place.wrapping_add(1),
            found => return found,
        }
    }
    Found::Other
}

// Leads a place to an entry.
#[inline(always)]
fn lead(places: &mut [u32], place: usize, number: u32) {
    if let Some(entry) = places.get_mut(place) {
        *entry = number;
    }
}

// Leads a place to the entry of that number.
fn lead_to<K: Eq + Hash, V>(entries: &[(K, V)], places: &mut [u32], number: usize) {
    let Some(entry) = entries.get(number) else {
        return;
    };
    if let Found::Free(place) = find(entries, places, &entry.0) {
        if let Ok(number) = u32::try_from(number) {
            lead(places, place, number);
        }
    }
}

// Makes four times as many places, and room for half as many entries, and leads to all entries anew.
#[inline(never)]
fn widen<K: Eq + Hash, V>(
    entries: &mut Vec<(K, V)>,
    places: &mut Vec<u32>,
) -> Result<(), OutOfMemory>
    ensures { entries.new.items ≡ entries.old.items }
{
    let amount = places.len().saturating_mul(4).max(LEAST);
    entries.reserve(amount / 2)?;
    places.reserve(amount)?;
    places.clear();
    places.resize(amount, NO_ENTRY)?;
    for number in 0..entries.len() {
        lead_to(entries.as_slice(), places.as_mut_slice(), number);
    }
    Ok(())
}

// Puts an entry behind the others, unless its key has one. Answers whether it had none.
#[inline(always)]
fn put<K: Eq + Hash + Copy, V: Copy>(
    entries: &mut Vec<(K, V)>,
    places: &mut Vec<u32>,
    key: K,
    value: V,
) -> Result<bool, OutOfMemory>
    ensures new { result ≡ Ok true → entries.new.items ≡ entries.old.items ++ (key, value) ∷ [] }
    ensures met { result ≡ Ok false → IsTrue (list_any (K.eq key) (keys_of entries.old.items)) }
    ensures stays { result ≡ Ok false → entries.new.items ≡ entries.old.items }
    ensures err { OnErr result (entries.new.items ≡ entries.old.items) }
{
    let place = match find(entries.as_slice(), places.as_slice(), &key) {
        Found::At(_) => return Ok(false),
        Found::Free(place) => place,
        Found::Other => return Err(OutOfMemory),
    };
    let number = u32::try_from(entries.len()).map_err(|_| OutOfMemory)?;
    entries.push((key, value))?;
    lead(places.as_mut_slice(), place, number);
    Ok(true)
}

impl<K: Eq + Hash + Copy, V: Copy> KeptMap<K, V> {
    /// A map that keeps nothing. It takes no memory.
    pub fn new(alloc: Global) -> Self
        ensures { result ≡ [] }
    {
        KeptMap {
            entries: Vec::new(alloc),
            places: Vec::new(alloc),
        }
    }

    /// The value that was kept for an equal key. Where it finds none mostly none was kept, but that is no promise.
    #[inline(always)]
    pub fn get(&self, key: &K) -> Option<V>
        ensures { IfSome result (λ v. Finds K.eq key.now v self.now) }
    {
        if self.entries.is_empty() {
            return None;
        }
        match find(self.entries.as_slice(), self.places.as_slice(), key) {
            Found::At(number) => Some(self.entries[number].1),
            Found::Free(_) | Found::Other => None,
        }
    }

    /// Keeps a value for a key, unless an equal key is found. Answers whether none was.
    ///
    /// # Errors
    /// `OutOfMemory` where a growth was refused: then no more is kept.
    #[inline(always)]
    pub fn insert(&mut self, key: K, value: V) -> Result<bool, OutOfMemory>
        ensures new { result ≡ Ok true → self.new ≡ self.old ++ (key, value) ∷ [] }
        ensures met { result ≡ Ok false → IsTrue (list_any (K.eq key) (keys_of self.old)) }
        ensures stays { result ≡ Ok false → self.new ≡ self.old }
        ensures err { OnErr result (self.new ≡ self.old) }
    {
        if self.entries.len() >= self.places.len() / 2 {
            widen(&mut self.entries, &mut self.places)?;
        }
        put(&mut self.entries, &mut self.places, key, value)
    }
}
