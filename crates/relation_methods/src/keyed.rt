//! A table whose entries are found by a key that they have, or by any where they have none.
ghost use Rattle.std.specs.Prelude.{◌≡◌, ◌<◌, ◌++◌, [], ◌∷◌, All, IfOk, OnOk, OnErr, length, map};
ghost use Rattle.std.specs.List.{filter};
ghost use Rattle.relation_methods.specs.Keyed.{KeepsNumbers, PutsNumber, PlacesNumber, numbers_at, merge, Picks};
ghost use Rattle.relation_methods.specs.Keyed.{is_found};

use std::alloc::{AllocError, Global};
use std::collections::HashMap;
use std::hash::Hash;
use std::marker::Model;
use term_enums::OutOfMemory;

/// What a table holds: a value, what it is of, and the key that it is found by; by any, if it has none.
#[derive(Drop)]
pub struct Entry<K, T, E> {
    pub of: T,
    pub key: Option<K>,
    pub value: E,
}

/// Which entries have a key, by their numbers.
type Numbers<K> = HashMap<K, Vec<usize>>;

/// Entries, in the order of insertion, with the numbers of those of each key and of those that have none.
#[derive(Drop)]
pub struct KeyedTable<K: Eq + Hash, T, E> {
    entries: Vec<Entry<K, T, E>>,
    by_key: Numbers<K>,
    blanket: Vec<usize>,
}

impl<K: Eq + Hash, T, E> Model for KeyedTable<K, T, E> {
    ghost use Rattle.std.specs.Prelude.{List};
    ghost use Rattle.relation_methods.specs.declared.keyed.Entry.{Entry};
    ghost use Rattle.relation_methods.specs.Keyed.{IsIndexed};

    ghost Value = { List (Entry K T E) };

    ghost view = { λ t. t.entries.items };

    ghost invariant = { λ t. IsIndexed K.eq t.by_key t.blanket.items t.entries.items };
}

// Puts the number of an entry to those of its key.
fn place<K: Eq + Hash + Drop>(
    by_key: &mut Numbers<K>,
    alloc: Global,
    key: K,
    number: usize,
) -> Result<(), OutOfMemory>
    ensures ok { OnOk result (PutsNumber K.eq key number by_key.old by_key.new) }
    ensures err { OnErr result (KeepsNumbers K.eq by_key.old by_key.new) }
{
    by_key.entry(key)?.or_insert(Vec::new(alloc)).push(number)?;
    Ok(())
}

// Two lists of ascending numbers as one.
fn merged(alloc: Global, left: &[usize], right: &[usize]) -> Result<Vec<usize>, OutOfMemory>
    ensures { IfOk result (λ v. v.items ≡ merge left.now right.now) }
{
    let mut numbers = Vec::new(alloc);
    let mut others = 0;
    for number in left {
        while others < right.len() && right[others] < *number {
            numbers.push(right[others])?;
            others += 1;
        }
        numbers.push(*number)?;
    }
    for number in &right[others..] {
        numbers.push(*number)?;
    }
    Ok(numbers)
}

// The entries of these numbers.
fn picked<'a, T>(
    alloc: Global,
    entries: &'a [T],
    numbers: &[usize],
) -> Result<Vec<&'a T>, OutOfMemory>
    requires { All (λ n. n < length entries.now) numbers.now }
    ensures { IfOk result (λ v. Picks entries.now numbers.now (map (λ r. r.now) v.items)) }
{
    let mut found = Vec::new(alloc);
    for number in numbers {
        found.push(&entries[*number])?;
    }
    Ok(found)
}

// All entries.
fn all<T>(alloc: Global, entries: &[T]) -> Result<Vec<&T>, OutOfMemory>
    ensures { IfOk result (λ v. map (λ r. r.now) v.items ≡ entries.now) }
{
    let mut found = Vec::new(alloc);
    for entry in entries {
        found.push(entry)?;
    }
    Ok(found)
}

// Puts the number of an entry to those of its key, or of the entries that have none.
fn place_entry<K: Eq + Hash + Copy>(
    by_key: &mut Numbers<K>,
    blanket: &mut Vec<usize>,
    alloc: Global,
    key: Option<K>,
    number: usize,
) -> Result<(), OutOfMemory>
    ensures ok { OnOk result (PlacesNumber K.eq key number by_key.old by_key.new blanket.old.items blanket.new.items) }
    ensures keyed_err { OnErr result (KeepsNumbers K.eq by_key.old by_key.new) }
    ensures blanket_err { OnErr result (blanket.new.items ≡ blanket.old.items) }
{
    match key {
        Some(key) => place(by_key, alloc, key, number),
        None => {
            blanket.push(number)?;
            Ok(())
        }
    }
}

// The numbers of the entries of a key.
fn numbers_of<'a, K: Eq + Hash>(by_key: &'a Numbers<K>, key: &K) -> &'a [usize]
    ensures { result.now ≡ numbers_at K.eq by_key.now key.now }
{
    match by_key.get(key) {
        Some(numbers) => numbers.as_slice(),
        None => &[],
    }
}

impl<K: Eq + Hash + Copy, T: Drop, E: Drop> KeyedTable<K, T, E> {
    /// A table without entries. It takes no memory.
    pub fn new(alloc: Global) -> Self
        ensures { result ≡ [] }
    {
        KeyedTable {
            entries: Vec::new(alloc),
            by_key: HashMap::new(alloc),
            blanket: Vec::new(alloc),
        }
    }

    /// Puts an entry behind all others.
    ///
    /// # Errors
    /// `OutOfMemory` where a growth was refused: then the table is as it was.
    pub fn insert(&mut self, alloc: Global, entry: Entry<K, T, E>) -> Result<(), OutOfMemory>
        ensures ok { OnOk result (self.new ≡ self.old ++ entry ∷ []) }
        ensures err { OnErr result (self.new ≡ self.old) }
    {
        self.entries.reserve(1)?;
        let number = self.entries.len();
        place_entry(
            &mut self.by_key,
            &mut self.blanket,
            alloc,
            entry.key,
            number,
        )?;
        self.entries.push(entry)?;
        Ok(())
    }

    /// The entries that a key finds, which are its own and those without one, in the order of insertion; by none all.
    ///
    /// # Errors
    /// `OutOfMemory` where a growth was refused.
    pub fn look_up(
        &self,
        alloc: Global,
        key: Option<K>,
    ) -> Result<Vec<&Entry<K, T, E>>, OutOfMemory>
        ensures { IfOk result (λ v. map (λ r. r.now) v.items ≡ filter (λ r. is_found K.eq key r.key) self.now) }
    {
        match key {
            None => all(alloc, &self.entries),
            Some(key) => {
                let numbers = merged(alloc, &self.blanket, numbers_of(&self.by_key, &key))?;
                picked(alloc, &self.entries, &numbers)
            }
        }
    }
}
