//! Visits of terms: a visitor is asked about each type, region and constant of a term, before its parts.
//!
//! A visitor answers whether the parts of what it was asked about come next, and never goes over them itself. So the
//! walk is one for all visitors, and what it does follows from what the visitor does at each tree.
ghost use Rattle.std.specs.Prelude.{ℕ, IsTrue};
ghost use Rattle.relation_terms.specs.Trees.{Tree, known};
ghost use Rattle.relation_folds.specs.Visits.{Walks, WalksParts};
ghost use Rattle.relation_folds.specs.declared.visit.Visit.{Visit};

mod binder;
mod clauses;
mod flags;
mod forms;
mod goals;
mod keyed;
mod predicates;
mod visitable;
mod walk;

use crate::tree::HasTree;
pub(crate) use clauses::{clause_at, clause_count};
pub use flags::{has_escaping_bound_vars, has_non_region_infer, is_known_rigid};
pub use keyed::{
    super_visit_const, super_visit_ty, visit_alternatives_with, visit_arg_with, visit_args_with,
    visit_branches_with, visit_const_with, visit_pat_with, visit_predicates_with,
    visit_region_with, visit_ty_with, visit_tys_with, visit_valtree_with,
};
use relation_terms::terms::{Const, Interner, Region, Ty};
use std::ops::ControlFlow;

/// What a visitor answers at a term.
#[derive(Clone, Copy)]
pub enum Visit {
    /// The parts of the term come next.
    Enter,
    /// The parts of the term are left out.
    Skip,
    /// Nothing more is visited.
    Stop,
}

/// What is asked about the types, regions and constants of a term.
///
/// Each question comes with a depth: how many binders stand around the term, within what is visited; 0 until one is
/// entered. The ghost member `visits` says from which visitor it may go, asked about a tree at a depth, to which, and
/// by which answer.
pub trait TypeVisitor<I: Interner> {
    ghost visits: { I → Self → ℕ → Tree → Self → Visit → Type 0 };

    /// The visitor is asked about a type under `depth` binders, which the interner knows.
    fn visit_ty(&mut self, cx: &I, ty: &Ty<I>, depth: u128) -> Visit
        requires { IsTrue (known ((I.meaning cx.now).ty ty.now)) }
        ensures { visits cx.now self.old depth ((I.meaning cx.now).ty ty.now) self.new result };

    /// The visitor is asked about a region under `depth` binders, which the interner knows.
    fn visit_region(&mut self, cx: &I, region: &Region<I>, depth: u128) -> Visit
        requires { IsTrue (known ((I.meaning cx.now).region region.now)) }
        ensures { visits cx.now self.old depth ((I.meaning cx.now).region region.now) self.new result };

    /// The visitor is asked about a constant under `depth` binders, which the interner knows.
    fn visit_const(&mut self, cx: &I, constant: &Const<I>, depth: u128) -> Visit
        requires { IsTrue (known ((I.meaning cx.now).const_ constant.now)) }
        ensures { visits cx.now self.old depth ((I.meaning cx.now).const_ constant.now) self.new result };
}

/// What a visitor can go over: its tree.
pub trait TypeVisitable<I: Interner>: HasTree<I> {
    /// Goes over all of it, in order, until the visitor stops: `Break` where it did. The interner knows all its terms.
    fn visit_with<V: TypeVisitor<I>>(&self, cx: &I, visitor: &mut V) -> ControlFlow<()>
        requires { IsTrue (known (Self.tree (I.meaning cx.now) self.now)) }
        ensures { Walks (V.visits cx.now) 0 visitor.old (Self.tree (I.meaning cx.now) self.now) visitor.new result };
}

/// A term that has parts.
pub trait TypeSuperVisitable<I: Interner>: TypeVisitable<I> {
    /// Goes over the parts of the term alone, in order, until the visitor stops. The interner knows the term.
    fn super_visit_with<V: TypeVisitor<I>>(&self, cx: &I, visitor: &mut V) -> ControlFlow<()>
        requires { IsTrue (known (Self.tree (I.meaning cx.now) self.now)) }
        ensures { WalksParts (V.visits cx.now) visitor.old (Self.tree (I.meaning cx.now) self.now) visitor.new result };
}
