//! Values that are kept once each: one that was kept is mostly found again, and what is found was kept.
ghost use Rattle.std.specs.Prelude.{◌≡◌, ◌⊎◌, [], Contains, IsTrue, OnErr};
ghost use Rattle.std.specs.List.{list_any};
ghost use Rattle.remembered_pairs.specs.declared.kept.Found.TheVariants.{Equal};

use delayed_map::CACHE_CUTOFF;
use std::alloc::Global;
use std::marker::Model;
use term_enums::OutOfMemory;

// What stands at a place that leads to no value.
const NO_VALUE: u32 = u32::MAX;

// The least number of places. It is a power of two, as all numbers of them are.
const LEAST: usize = 128;

/// Values, but for the first 32, each once. Its table of places grows before every second one is taken, so that what
/// isn't kept is told by one place, and one look-up in memory.
#[derive(Drop)]
pub(crate) struct KeptValues<P: Eq> {
    values: Vec<P>,
    // Where looking for each value begins, by their numbers.
    firsts: Vec<u32>,
    // The numbers of values, by the places that these lead to.
    places: Vec<u32>,
    let_go: u32,
}

impl<P: Eq> Model for KeptValues<P> {
    ghost use Rattle.delayed_map.specs.Delayed.{Delayed, delayed_code};

    ghost Value = { Delayed P };

    ghost coded = { delayed_code P.code };

    ghost view = { λ k. record { ignored = k.let_go; kept = k.values.items } };
}

// What a place has for a value: an equal one, none, or another one.
#[derive(Clone, Copy)]
enum Found {
    Equal,
    Free(usize),
    Other,
}

#[inline(always)]
fn met_at<P: Eq>(values: &[P], places: &[u32], place: usize, value: &P) -> Found
    ensures { result ≡ Equal → IsTrue (list_any (P.eq value.now) values.now) }
{
    let Some(number) = places.get(place) else {
        return Found::Free(place);
    };
    let Some(other) = values.get(*number as usize) else {
        return Found::Free(place);
    };
    if *value == *other {
        return Found::Equal;
    }
    Found::Other
}

// An equal value, or the place where there is none, looked for from the first one on. There is one of them, unless all
// places are taken.
#[inline(always)]
fn find<P: Eq>(values: &[P], places: &[u32], value: &P, first: u32) -> Found
    ensures { result ≡ Equal → IsTrue (list_any (P.eq value.now) values.now) }
{
    let last = places.len().wrapping_sub(1);
    let mut place = first as usize;
    for _ in 0..places.len() {
        match met_at(values, places, place & last, value) {
            Found::Other => place = place.wrapping_add(1),
            found => return found,
        }
    }
    Found::Other
}

// Leads a place to a value.
fn lead(places: &mut [u32], place: usize, number: u32) {
    if let Some(entry) = places.get_mut(place) {
        *entry = number;
    }
}

// Leads the next free place, from the first one on, to the value of a number.
fn lead_on(places: &mut [u32], first: u32, number: u32) {
    let last = places.len().wrapping_sub(1);
    let mut place = first as usize;
    for _ in 0..places.len() {
        let Some(entry) = places.get_mut(place & last) else {
            return;
        };
        if *entry == NO_VALUE {
            *entry = number;
            return;
        }
        place = place.wrapping_add(1);
    }
}

// Makes four times as many places, and room for half as many values, and leads to all values anew.
#[inline(never)]
fn widen<P>(
    values: &mut Vec<P>,
    firsts: &mut Vec<u32>,
    places: &mut Vec<u32>,
) -> Result<(), OutOfMemory>
    ensures { values.new.items ≡ values.old.items }
{
    let amount = places.len().saturating_mul(4).max(LEAST);
    values.reserve(amount / 2)?;
    firsts.reserve(amount / 2)?;
    let mut wider = Vec::new(*places.allocator());
    wider.resize(amount, NO_VALUE)?;
    let mut number: u32 = 0;
    for first in firsts.as_slice() {
        lead_on(wider.as_mut_slice(), *first, number);
        number = number.wrapping_add(1);
    }
    *places = wider;
    Ok(())
}

// Puts a value behind the others, unless an equal one is kept.
fn put<P: Eq + Copy>(
    values: &mut Vec<P>,
    firsts: &mut Vec<u32>,
    places: &mut Vec<u32>,
    value: P,
    first: u32,
) -> Result<(), OutOfMemory>
    ensures members { (e : P) → Contains values.new.items e → (e ≡ value) ⊎ Contains values.old.items e }
    ensures err { OnErr result (values.new.items ≡ values.old.items) }
{
    let Found::Free(place) = find(values.as_slice(), places.as_slice(), &value, first) else {
        return Ok(());
    };
    let number = u32::try_from(values.len()).map_err(|_| OutOfMemory)?;
    // (one that stands there is of a value for which memory was refused)
    firsts.truncate(values.len());
    firsts.push(first)?;
    values.push(value)?;
    lead(places.as_mut_slice(), place, number);
    Ok(())
}

impl<P: Eq + Copy> KeptValues<P> {
    /// No value is kept. It takes no memory.
    pub(crate) fn new(alloc: Global) -> Self
        ensures { result.kept ≡ [] }
    {
        KeptValues {
            values: Vec::new(alloc),
            firsts: Vec::new(alloc),
            places: Vec::new(alloc),
            let_go: 0,
        }
    }

    /// Whether a value that is equal was kept, looked for from the first place on, which equal ones have in common.
    #[inline(always)]
    pub(crate) fn contains(&self, value: &P, first: u32) -> bool
        ensures { IsTrue result → IsTrue (list_any (P.eq value.now) self.now.kept) }
    {
        if self.places.is_empty() {
            return false;
        }
        match find(self.values.as_slice(), self.places.as_slice(), value, first) {
            Found::Equal => true,
            Found::Free(_) | Found::Other => false,
        }
    }

    /// Keeps a value, unless an equal one is kept, or fewer than 32 were let go: then it is let go too.
    ///
    /// # Errors
    /// `OutOfMemory` where a growth was refused: then no more is kept.
    pub(crate) fn insert(&mut self, value: P, first: u32) -> Result<(), OutOfMemory>
        ensures members { (e : P) → Contains self.new.kept e → (e ≡ value) ⊎ Contains self.old.kept e }
        ensures err { OnErr result (self.new.kept ≡ self.old.kept) }
    {
        if self.let_go < CACHE_CUTOFF {
            self.let_go += 1;
            return Ok(());
        }
        if self.values.len() >= self.places.len() / 2 {
            widen(&mut self.values, &mut self.firsts, &mut self.places)?;
        }
        put(
            &mut self.values,
            &mut self.firsts,
            &mut self.places,
            value,
            first,
        )
    }
}
