//! One table of variables: what is recorded of them, and how two classes become one.
ghost use Rattle.std.specs.Prelude.{◌≡◌, ◌≤◌, ◌<◌, [], ◌∷◌, ◌++◌, if◌then◌else◌, is_ok, IfOk, IsTrue, IsFalse};
ghost use Rattle.std.specs.Prelude.{length, get_or, min, slice_set, Some};
ghost use Rattle.variable_tables.specs.declared.inner.VariableValue.TheVariants.{Unknown, Known};
ghost use Rattle.variable_tables.specs.Rooted.{bound_value, root_value, term_or, row_keys, row_universes, row_terms};
ghost use Rattle.variable_tables.specs.Variables.{keys_of, values_of, universes_of, value_at, root_at, term_at};
ghost use Rattle.variable_tables.specs.Variables.{universe_at, class_universe, led_values, led_universes, free_variable};

use crate::{Variable, VariableValue};
use relation_terms::terms::UniverseIndex;
use std::alloc::Global;
use std::marker::Model;
use term_enums::OutOfMemory;
use variable_classes::VariableClasses;

// A variable as it is kept. Of what it is the same as the classes know.
#[derive(Clone, Copy)]
struct Row<K> {
    key: K,
    term: Option<K>,
    universe: UniverseIndex,
}

/// Variables of one kind by their numbers, whose terms are `K`, and the classes of those that were made one. A contract
/// sees them as a list.
#[derive(Drop)]
pub struct VariableTable<K> {
    rows: Vec<Row<K>>,
    classes: VariableClasses,
}

impl<K> Model for VariableTable<K> {
    ghost use Rattle.variable_tables.specs.Tabled.{Table};
    ghost use Rattle.variable_tables.specs.Rooted.{variables_from, IsTable};

    ghost Value = { Table K };

    ghost view = { λ t. record { items = variables_from 0 t.rows.items t.classes.items } };

    ghost invariant = { λ t. IsTable t.rows.items t.classes.items };
}

// What a variable that is its own root is bound to.
fn bound<K: Copy>(term: Option<K>) -> VariableValue<K>
    ensures { result ≡ bound_value term }
{
    match term {
        Some(term) => VariableValue::Known(term),
        None => VariableValue::Unknown,
    }
}

// What is recorded of a variable with this root.
fn value_of<K: Copy>(number: usize, root: usize, term: Option<K>) -> VariableValue<K>
    ensures { result ≡ root_value number root term }
{
    if root == number {
        bound(term)
    } else {
        VariableValue::SameAs(root)
    }
}

// The term that a root is bound to, or else its key.
fn term_or_key<K: Copy>(row: &Row<K>) -> K
    ensures { result ≡ term_or row.now.key row.now.term }
{
    match row.term {
        Some(term) => term,
        None => row.key,
    }
}

fn smaller(a: usize, b: usize) -> usize
    ensures { result ≡ min a b }
{
    if a < b { a } else { b }
}

// Writes the term that a variable is bound to.
fn write_term<K: Copy>(rows: &mut Vec<Row<K>>, v: usize, term: K)
    requires { v < length rows.old.items }
    ensures keys { row_keys rows.new.items ≡ row_keys rows.old.items }
    ensures terms { row_terms rows.new.items ≡ slice_set (row_terms rows.old.items) v (Some term) }
    ensures universes { row_universes rows.new.items ≡ row_universes rows.old.items }
{
    let row = &mut rows[v];
    row.term = Some(term);
}

// Writes the universe of a variable.
fn write_universe<K: Copy>(rows: &mut Vec<Row<K>>, v: usize, universe: usize)
    requires { v < length rows.old.items }
    ensures keys { row_keys rows.new.items ≡ row_keys rows.old.items }
    ensures terms { row_terms rows.new.items ≡ row_terms rows.old.items }
    ensures universes { row_universes rows.new.items ≡ slice_set (row_universes rows.old.items) v universe }
{
    let row = &mut rows[v];
    row.universe = UniverseIndex(universe);
}

impl<K> VariableTable<K> {
    /// A table without variables. It takes no memory.
    pub fn new(alloc: Global) -> VariableTable<K>
        ensures items { result.items ≡ [] }
    {
        VariableTable {
            rows: Vec::new(alloc),
            classes: VariableClasses::new(alloc),
        }
    }

    /// How many variables there are.
    pub fn len(&self) -> usize
        ensures { result ≡ length self.now.items }
    {
        self.rows.len()
    }

    /// Whether the table has a variable of this number.
    pub fn has(&self, v: usize) -> bool
        ensures is { IsTrue result → v < length self.now.items }
        ensures is_not { IsFalse result → length self.now.items ≤ v }
    {
        v < self.len()
    }
}

impl<K: Copy> VariableTable<K> {
    /// The same variables, in memory of their own.
    ///
    /// # Errors
    /// `OutOfMemory` where a growth was refused.
    pub fn copied(&self, alloc: Global) -> Result<VariableTable<K>, OutOfMemory>
        ensures items { IfOk result (λ t. t.items ≡ self.now.items) }
    {
        let classes = self.classes.copied(alloc)?;
        let mut rows = Vec::new(alloc);
        rows.extend_from_slice(&self.rows)?;
        Ok(VariableTable { rows, classes })
    }

    /// The next variable, of which nothing is recorded.
    ///
    /// # Errors
    /// `OutOfMemory` where a growth was refused: then the table is as it was.
    pub fn push(&mut self, key: K, universe: UniverseIndex) -> Result<(), OutOfMemory>
        ensures items { self.new.items ≡
            (if is_ok result then self.old.items ++ free_variable key universe ∷ [] else self.old.items) }
    {
        self.classes.reserve()?;
        self.rows.push(Row {
            key,
            term: None,
            universe,
        })?;
        self.classes.push_reserved();
        Ok(())
    }

    /// What is recorded of a variable.
    #[inline(always)]
    pub fn probe(&self, v: usize) -> VariableValue<K>
        requires { v < length self.now.items }
        ensures { result ≡ value_at self.now.items v }
    {
        value_of(v, self.classes.root(v), self.rows[v].term)
    }

    /// The root of a variable's class.
    #[inline(always)]
    pub fn root_of(&self, v: usize) -> usize
        requires { v < length self.now.items }
        ensures { result ≡ root_at self.now.items v }
    {
        self.classes.root(v)
    }

    /// The term that a variable's class is bound to, or else the key of its root.
    pub fn term_of(&self, v: usize) -> K
        requires { v < length self.now.items }
        ensures { (d : _) → result ≡ term_at (get_or self.now.items (root_at self.now.items v) d) }
    {
        let root = self.classes.root(v);
        term_or_key(&self.rows[root])
    }

    /// The key of a variable.
    pub fn key_of(&self, v: usize) -> K
        requires { v < length self.now.items }
        ensures { (d : _) → result ≡ get_or (keys_of self.now.items) v d }
    {
        self.rows[v].key
    }

    /// The universe of a variable.
    pub fn universe_of(&self, v: usize) -> UniverseIndex
        requires { v < length self.now.items }
        ensures { result.0 ≡ universe_at self.now.items v }
    {
        self.rows[v].universe
    }

    /// The universe of the root of a variable's class, or none where that is bound to a term.
    pub fn universe_of_class(&self, v: usize) -> Option<UniverseIndex>
        requires { v < length self.now.items }
        ensures { result ≡ class_universe self.now.items v }
    {
        let root = self.classes.root(v);
        match self.probe(root) {
            VariableValue::Unknown => Some(self.universe_of(root)),
            VariableValue::SameAs(_) => None,
            VariableValue::Known(_) => None,
        }
    }

    /// Makes a root and all of its class lead to a root of a smaller number, which gets the smaller of both universes.
    /// Neither is bound. It takes no memory, and the time of a step for each member of the smaller class.
    pub fn link(&mut self, child: usize, root: usize)
        requires made { child < length self.old.items }
        requires smaller { root < child }
        requires child_free { value_at self.old.items child ≡ Unknown }
        requires root_free { value_at self.old.items root ≡ Unknown }
        ensures keys { keys_of self.new.items ≡ keys_of self.old.items }
        ensures values { values_of self.new.items ≡ led_values child root self.old.items }
        ensures universes { universes_of self.new.items ≡ led_universes child root self.old.items }
    {
        let below = self.universe_of(child).0;
        let above = self.universe_of(root).0;
        let universe = smaller(below, above);
        self.classes.join(child, root);
        write_universe(&mut self.rows, root, universe);
    }

    /// Binds a root of which nothing is recorded to a term.
    pub fn bind(&mut self, v: usize, term: K)
        requires made { v < length self.old.items }
        requires free { value_at self.old.items v ≡ Unknown }
        ensures keys { keys_of self.new.items ≡ keys_of self.old.items }
        ensures values { values_of self.new.items ≡ slice_set (values_of self.old.items) v (Known term) }
        ensures universes { universes_of self.new.items ≡ universes_of self.old.items }
    {
        write_term(&mut self.rows, v, term);
    }
}
