//! What the names of a text mean so far, and the program that was made so far.

use crate::naming::binders::{Bound, scopes_of};
use crate::naming::error::{Missing, Named, Wrong, error_at};
use crate::naming::plain::PLAIN;
use crate::naming::program::{Declared, Mode, Parts, Program, Setup, Sort, Term};
use crate::reading::{Form, ItemSort, Node, NodeKind, Tree};
use std::alloc::{AllocError, Global};
use std::collections::HashMap;

/// How many levels a term may have, names of `let` followed.
const LEVELS: usize = 1024;

// Stands for a number that is no node's. Reading leaves no such number.
const NO_NODE: Node = Node {
    kind: NodeKind::Form(Form::File),
    start: 0,
    end: 0,
    first: 0,
    behind: 0,
};

/// A term that was made: its number, what it stands for, and how many levels it has.
#[derive(Clone, Copy)]
pub(super) struct Made {
    pub number: usize,
    pub sort: Sort,
    pub levels: usize,
}

/// What a name means: an item by its number, or a term.
#[derive(Clone, Copy)]
pub(super) enum Meaning {
    Item(usize),
    Term(Made),
}

/// The tree that is gone over, what its names mean so far, and what was made of it so far.
#[derive(Drop)]
pub(super) struct Namer<'a> {
    pub alloc: Global,
    pub text: &'a str,
    pub tree: &'a Tree,
    pub meanings: HashMap<&'a str, Meaning>,
    // What traits declare: the items, by the trait and the name.
    pub associated: HashMap<(usize, &'a str), usize>,
    // The numbers of the program's names.
    pub names: HashMap<&'a str, usize>,
    // The terms that nodes were made to.
    pub made: Vec<Option<Made>>,
    // The binder that each node stands in, if it stands in one: the nearest, by the node of what it binds.
    pub scopes: Vec<Option<usize>>,
    // What binders bind, by the binder and the name.
    pub bound: HashMap<(usize, &'a str), Bound>,
    // The index of the next parameter, while there is one.
    pub next_index: Option<u32>,
    // How the contexts of the questions behind this are made.
    pub setup: Setup,
    pub budget: Option<usize>,
    // What these assume: predicates of a range of the program's list.
    pub assumed: Parts,
    // The trait whose statement this is, by its number: in it the trait's own parameters have names.
    pub stating: Option<usize>,
    pub program: Program<'a>,
}

impl<'a> Namer<'a> {
    // Nothing is made, and no name means anything.
    pub fn new(alloc: Global, text: &'a str, tree: &'a Tree) -> Named<Namer<'a>> {
        let scopes = scopes_of(alloc, tree)?;
        Ok(Namer {
            alloc,
            text,
            tree,
            meanings: HashMap::new(alloc),
            associated: HashMap::new(alloc),
            names: HashMap::new(alloc),
            made: Vec::new(alloc),
            scopes,
            bound: HashMap::new(alloc),
            next_index: Some(0),
            setup: Setup {
                next_solver: true,
                mode: Mode::Analysis,
            },
            budget: None,
            assumed: Parts::new(0, 0),
            stating: None,
            program: Program::new(alloc),
        })
    }

    // From here on the names of plain types and of the longest region mean something.
    pub fn declare_plain(&mut self) -> Named<()> {
        for (name, sort, term) in &PLAIN {
            let made = self.push(*term, *sort, 1)?;
            let _ = self.meanings.insert(*name, Meaning::Term(made))?;
        }
        Ok(())
    }

    // The text of a node from a byte on.
    pub fn text_from(&self, node: &Node, start: usize) -> &'a str {
        let text = self.text;
        text.get(start..node.end).unwrap_or("")
    }

    // The text of a node.
    pub fn text_of(&self, node: &Node) -> &'a str {
        self.text_from(node, node.start)
    }

    // The node of that number.
    pub fn node(&self, number: usize) -> Node {
        self.tree.nodes.get(number).copied().unwrap_or(NO_NODE)
    }

    // The numbers of a node's parts.
    pub fn parts(&self, node: &Node) -> &'a [usize] {
        let tree = self.tree;
        tree.parts.get(node.first..node.behind).unwrap_or(&[])
    }

    // The number of the part at a place of a node, or one that is no node's.
    pub fn part(&self, node: &Node, place: usize) -> usize {
        let numbers = self.parts(node);
        numbers.get(place).copied().unwrap_or(usize::MAX)
    }

    // What an item is. All numbers of items are those of some.
    pub fn item_sort(&self, item: usize) -> ItemSort {
        match self.program.items.get(item) {
            Some(item) => item.sort,
            None => ItemSort::Struct,
        }
    }

    // How many parameters an item has; a trait has the type that implements it beside them.
    pub fn declared_count(&self, item: usize) -> usize {
        match self.program.items.get(item) {
            Some(item) => item.declared.len(),
            None => 0,
        }
    }

    // The parameter that an item declares at a place.
    pub fn declared_at(&self, item: usize, place: usize) -> Option<Declared<'a>> {
        let item = self.program.items.get(item)?;
        item.declared.get(place).copied()
    }

    // From here on a name means that.
    pub fn declare(&mut self, node: &Node, meaning: Meaning) -> Named<()> {
        let name = self.text_of(node);
        if self.meanings.contains_key(name) {
            return Err(error_at(node, Wrong::Again));
        }
        let _ = self.meanings.insert(name, meaning)?;
        Ok(())
    }

    // What a name means, which would have to be that.
    pub fn meaning(&self, node: &Node, missing: Missing) -> Named<Meaning> {
        let found = self.meanings.get(self.text_of(node)).copied();
        found.ok_or(error_at(node, Wrong::Unknown(missing)))
    }

    // The number of a name.
    pub fn name(&mut self, name: &'a str) -> Named<usize> {
        if let Some(number) = self.names.get(name) {
            return Ok(*number);
        }
        let number = self.program.names.len();
        let _ = self.names.insert(name, number)?;
        self.program.names.push(name)?;
        Ok(number)
    }

    // The number of a node's name.
    pub fn name_of(&mut self, number: usize) -> Named<usize> {
        let node = self.node(number);
        self.name(self.text_of(&node))
    }

    // Adds a term.
    fn push(&mut self, term: Term, sort: Sort, levels: usize) -> Result<Made, AllocError> {
        let number = self.program.terms.len();
        self.program.terms.push(term)?;
        Ok(Made {
            number,
            sort,
            levels,
        })
    }

    // Adds the term of a node, over parts that have so many levels.
    pub fn add(&mut self, node: &Node, term: Term, sort: Sort, below: usize) -> Named<Made> {
        if below >= LEVELS {
            return Err(error_at(node, Wrong::TooDeep));
        }
        Ok(self.push(term, sort, below + 1)?)
    }

    // The numbers that were added to the program's parts from a place on.
    pub fn parts_from(&self, first: usize) -> Parts {
        Parts::new(first, self.program.parts.len())
    }
}
