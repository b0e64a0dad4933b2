//! Statements of the tree's nodes.

use crate::naming::error::{NameError, Named, Wrong, error_at};
use crate::naming::namer::{Meaning, Namer};
use crate::naming::program::{Mode, Program};
use crate::reading::{Form, ItemSort, Leaf, Node, NodeKind, Setting, Tree};
use std::alloc::Global;

/// How many variables of each kind a context may have.
pub const MOST_VARIABLES: usize = 10_000;

/// The last universe that variables of a context may stand in.
pub const LAST_UNIVERSE: usize = 9_999;

impl<'a> Namer<'a> {
    // The number of a leaf, which is no larger than what is counted by it may be.
    pub fn count(&self, number: usize) -> Named<usize> {
        let node = self.node(number);
        let NodeKind::Leaf(Leaf::Number { value, behind }) = node.kind else {
            return Err(error_at(&node, Wrong::NotRead));
        };
        if behind != node.end {
            return Err(error_at(&node, Wrong::Counted));
        }
        usize::try_from(value).map_err(|_| error_at(&node, Wrong::TooLarge))
    }

    // The number that is given, if one is.
    pub fn count_if(&self, given: &[usize]) -> Named<Option<usize>> {
        match given {
            [number] => Ok(Some(self.count(*number)?)),
            _ => Ok(None),
        }
    }

    // Whether that is the name of the next solver, or else of the old one.
    fn is_next_solver(&self, name: &Node) -> Named<bool> {
        match self.text_of(name) {
            "old" => Ok(false),
            "next" => Ok(true),
            _ => Err(error_at(name, Wrong::NoSolver)),
        }
    }

    // The typing mode of that name.
    fn mode(&self, name: &Node) -> Named<Mode> {
        match self.text_of(name) {
            "coherence" => Ok(Mode::Coherence),
            "analysis" => Ok(Mode::Analysis),
            "borrowck" => Ok(Mode::Borrowck),
            "post_borrowck" => Ok(Mode::PostBorrowckAnalysis),
            "post_analysis" => Ok(Mode::PostAnalysis),
            _ => Err(error_at(name, Wrong::NoMode)),
        }
    }

    // How contexts are made from here on.
    fn set(&mut self, setting: Setting, number: usize) -> Named<()> {
        let leaf = self.node(number);
        match setting {
            Setting::Budget => self.budget = Some(self.count(number)?),
            Setting::Solver => self.setup.next_solver = self.is_next_solver(&leaf)?,
            Setting::Mode => self.setup.mode = self.mode(&leaf)?,
        }
        Ok(())
    }

    // A name for a term.
    fn declare_term(&mut self, name: usize, term: usize) -> Named<()> {
        let made = self.term(term, None)?;
        self.declare(&self.node(name), Meaning::Term(made))
    }

    // A statement, or a part of one.
    fn statement(&mut self, node: &Node, form: Form, parts: &[usize]) -> Named<()> {
        match (form, parts) {
            (
                Form::Item(sort @ (ItemSort::AssocTy | ItemSort::AssocConst)),
                [of, own, declared @ ..],
            ) => self.declare_item(sort, Some(*of), *own, declared),
            (Form::Item(sort), [name, declared @ ..]) => {
                self.declare_item(sort, None, *name, declared)
            }
            (Form::Parameter, [name, given @ ..]) => {
                self.declare_parameter(node, false, *name, given)
            }
            (Form::ConstParameter, [name, given @ ..]) => {
                self.declare_parameter(node, true, *name, given)
            }
            (Form::Sets(setting), [leaf]) => self.set(setting, *leaf),
            (Form::Variables, _) => self.declare_variables(parts),
            (Form::Let, [name, term]) => self.declare_term(*name, *term),
            (Form::Bound | Form::Generics, _) => self.declare_bound(parts),
            (Form::IsSized, [name]) => {
                let of = self.trait_of(*name)?;
                Ok(self.program.sized.push(of)?)
            }
            (Form::Stating, [name]) => {
                self.stating = Some(self.trait_of(*name)?);
                Ok(())
            }
            (Form::States(kind), [_, clauses @ ..]) => self.state(node, kind, clauses),
            (Form::Assumes, _) => {
                self.assumed = self.clauses(parts)?;
                Ok(())
            }
            (Form::Impl, [generics, given, asks @ ..]) => {
                self.declare_impl(node, false, *generics, *given, asks)
            }
            (Form::OpenImpl, [generics, given, asks @ ..]) => {
                self.declare_impl(node, true, *generics, *given, asks)
            }
            _ => self.question(node, form, parts),
        }
    }

    // What a node is made to, if that is a term.
    fn go_on(&mut self, node: &Node) -> Named<()> {
        let mut made = None;
        if let NodeKind::Form(form) = node.kind {
            let parts = self.parts(node);
            made = self.form(node, form, parts)?;
            if made.is_none() {
                self.statement(node, form, parts)?;
            }
        }
        self.made.push(made)?;
        Ok(())
    }

    // Makes all nodes to what they are.
    fn go_over(&mut self) -> Named<()> {
        self.declare_plain()?;
        let tree = self.tree;
        for node in &tree.nodes {
            self.go_on(node)?;
        }
        Ok(())
    }
}

/// What a text says of which this is the tree. Its names are looked up whole, before anything is asked.
///
/// # Errors
/// `Memory` where a growth was refused, and else what is wrong with the text, and where.
pub fn look_up<'a>(alloc: Global, text: &'a str, tree: &'a Tree) -> Result<Program<'a>, NameError> {
    let mut namer = Namer::new(alloc, text, tree)?;
    namer.go_over()?;
    Ok(namer.program)
}
