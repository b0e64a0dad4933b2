//! Binders, and the names that they give to what they bind.

use crate::naming::error::{Named, Wrong, error_at};
use crate::naming::namer::{Made, Namer};
use crate::naming::program::{Parts, Sort, Term};
use crate::naming::terms::given_to;
use crate::reading::{Form, Leaf, Node, NodeKind, Tree};
use std::alloc::{AllocError, Global};

/// The name that no binder can give.
const STATIC: &str = "'static";

// Whether a node is a binder, whose first part is what it binds.
fn is_binder(node: &Node) -> bool {
    matches!(
        node.kind,
        NodeKind::Form(
            Form::FnPtr(_)
                | Form::UnsafeBinder
                | Form::Implements
                | Form::Projects
                | Form::Claims(_)
                | Form::OutlivesUnder
                | Form::ComesTo
                | Form::Says
                | Form::ImplHeader
                | Form::Method
                | Form::Impl
                | Form::OpenImpl
                | Form::Given
        )
    )
}

// What a binder binds under a name: its place in the binder's list, and what it stands for.
#[derive(Clone, Copy)]
pub(super) struct Bound {
    place: usize,
    sort: Sort,
}

// What a word stands for that is bound, by how it is written.
fn bound_sort(leaf: Leaf) -> Sort {
    match leaf {
        Leaf::Lifetime | Leaf::OuterRegion { .. } => Sort::Region,
        Leaf::BoundConst | Leaf::OuterConst { .. } => Sort::Const,
        _ => Sort::Type,
    }
}

// For each node of a tree the binder that it stands in, if it stands in one: the nearest, by the node of what it binds.
// That node stands outside the binder.
pub(super) fn scopes_of(alloc: Global, tree: &Tree) -> Result<Vec<Option<usize>>, AllocError> {
    let mut scopes = Vec::new(alloc);
    for _ in &tree.nodes {
        scopes.push(None)?;
    }
    // A node stands before the one that it is a part of.
    for (number, node) in tree.nodes.iter().enumerate().rev() {
        let parts = tree.parts.get(node.first..node.behind).unwrap_or(&[]);
        let around = scopes.get(number).copied().unwrap_or(None);
        for (place, part) in parts.iter().enumerate() {
            let inside = if place > 0 && is_binder(node) {
                parts.first().copied()
            } else {
                around
            };
            if let Some(scope) = scopes.get_mut(*part) {
                *scope = inside;
            }
        }
    }
    Ok(scopes)
}

impl<'a> Namer<'a> {
    // The name of what a binder binds, and what it stands for: a word alone, or what an impl is generic over.
    fn bound_name(&self, number: usize) -> Named<(Node, Sort)> {
        let node = self.node(number);
        if let NodeKind::Leaf(leaf) = node.kind {
            return Ok((node, bound_sort(leaf)));
        }
        let (name, declared) = self.declared(number)?;
        Ok((name, given_to(declared.sort)))
    }

    // From here on the names of a node's parts are bound by the binder that this node is of.
    pub fn declare_bound(&mut self, parts: &[usize]) -> Named<()> {
        let binder = self.made.len();
        for (place, number) in parts.iter().enumerate() {
            let (leaf, sort) = self.bound_name(*number)?;
            let name = self.text_of(&leaf);
            if name == STATIC || self.bound.contains_key(&(binder, name)) {
                return Err(error_at(&leaf, Wrong::Again));
            }
            let _ = self.bound.insert((binder, name), Bound { place, sort })?;
        }
        Ok(())
    }

    // The binder that the node of that number stands in, if it stands in one.
    fn scope_of(&self, number: usize) -> Option<usize> {
        self.scopes.get(number).copied().unwrap_or(None)
    }

    // What is bound under the name of that node, by the nearest binder first, and how many binders stand between.
    fn binder_of(&self, number: usize, name: &'a str) -> Option<(u64, Bound)> {
        let mut scope = self.scope_of(number);
        for depth in 0..self.scopes.len() {
            let binder = scope?;
            if let Some(bound) = self.bound.get(&(binder, name)) {
                return Some((depth as u64, *bound));
            }
            scope = self.scope_of(binder);
        }
        None
    }

    // What a binder binds under that name, with so many binders between.
    fn bound_at(&mut self, node: &Node, bound: Bound, depth: u64, name: &'a str) -> Named<Made> {
        let name = self.name(name)?;
        let place = bound.place;
        let term = match bound.sort {
            Sort::Region => Term::RegionBound(depth, place, name),
            Sort::Const => Term::ConstBound(depth, place, name),
            _ => Term::TyBound(depth, place, name),
        };
        self.add(node, term, bound.sort, 0)
    }

    // How many binders the node of that number stands in.
    fn binders_around(&self, number: usize) -> u64 {
        let mut scope = self.scope_of(number);
        for count in 0..self.scopes.len() {
            match scope {
                None => return count as u64,
                Some(binder) => scope = self.scope_of(binder),
            }
        }
        self.scopes.len() as u64
    }

    // What a binder outside the term binds, with so many binders between that and the term's outermost. Its place
    // stands from `behind` on, and names it.
    pub fn outer(
        &mut self,
        node: &Node,
        number: usize,
        leaf: Leaf,
        depth: usize,
        behind: usize,
    ) -> Named<Made> {
        let digits = self.text_from(node, behind);
        let around = self.binders_around(number);
        let (Ok(place), Some(depth)) = (digits.parse::<usize>(), around.checked_add(depth as u64))
        else {
            return Err(error_at(node, Wrong::TooLarge));
        };
        let sort = bound_sort(leaf);
        self.bound_at(node, Bound { place, sort }, depth, digits)
    }

    // What a name stands for that a binder gives, if one does; a type or a constant in no binder stands for the one of
    // its place that the nearest binder outside the term binds.
    pub fn bound_leaf(&mut self, node: &Node, number: usize, leaf: Leaf) -> Named<Option<Made>> {
        let name = self.text_of(node);
        if let Some((depth, bound)) = self.binder_of(number, name) {
            return Ok(Some(self.bound_at(node, bound, depth, name)?));
        }
        let behind = match leaf {
            Leaf::BoundTy => node.start.saturating_add(1),
            Leaf::BoundConst => node.start.saturating_add(2),
            _ => return Ok(None),
        };
        if self.scope_of(number).is_some() {
            return Ok(None);
        }
        Ok(Some(self.outer(node, number, leaf, 0, behind)?))
    }

    // What a binder binds, each as it stands right under the binder, as a list of parts.
    pub fn variables(&mut self, number: usize) -> Named<Parts> {
        let node = self.node(number);
        let first = self.program.parts.len();
        for (place, number) in self.parts(&node).iter().enumerate() {
            let (name, sort) = self.bound_name(*number)?;
            let text = self.text_of(&name);
            let made = self.bound_at(&name, Bound { place, sort }, 0, text)?;
            self.program.parts.push(made.number)?;
        }
        Ok(self.parts_from(first))
    }
}
