//! A walk over the arguments that a term is made of, each before those under it.
//!
//! An argument that is equal to one that was yielded before is neither yielded nor entered. So a walk takes as many
//! steps as there are different arguments, however often each stands in the term.
#![tactic(auto)]

ghost use Rattle.std.specs.Prelude.{◌≡◌, IsTrue, OnOk, [], ◌∷◌, false, true};
ghost use Rattle.relation_terms.specs.Trees.{known};
ghost use Rattle.relation_terms.specs.Meaning.{arg_tree};
ghost use Rattle.relation_terms.specs.Parts.{part_of_arg};
ghost use Rattle.walk.specs.Places.{places_under, all_known, Pushes};
ghost use Rattle.walk.specs.Walking.{Walk, Pull, begun};
ghost use Rattle.walk.specs.Positions.{ByPlacesUnder};

mod places;

use crate::places::{push_list, push_under_ty};
use relation_terms::terms::parts::parts_of;
use relation_terms::terms::{GenericArg, GenericArgKind, Interner, OutOfMemory, Part};
use std::marker::Model;
use traversal::{Met, PreOrder, Stack};

/// A walk over an argument and all arguments that it is made of, in pre-order.
///
/// It yields each argument once: what is equal to an argument that was yielded before is left out, with all that is
/// under it. Where a growth was refused it yields `OutOfMemory`, then and at each later pull.
#[derive(Drop)]
pub struct TypeWalker<'a, I: Interner> {
    cx: &'a I,
    place: PreOrder<GenericArg<I>>,
    failed: bool,
}

impl<'a, I: Interner> Model for TypeWalker<'a, I> {
    ghost use Rattle.std.specs.Prelude.{◌≡◌, map, IsTrue, false};
    ghost use Rattle.relation_terms.specs.Meaning.{arg_tree};
    ghost use Rattle.relation_terms.specs.declared.terms.generic_arg.GenericArgKind.{GenericArgKind};
    ghost use Rattle.walk.specs.Places.{all_known};
    ghost use Rattle.walk.specs.Walking.{Walk, walk_of};

    ghost Value = { Walk I (GenericArgKind I.Key) };

    ghost view = { λ w. walk_of w.cx.now w.place.stack w.place.last_subtree w.place.visited.keys w.failed };

    ghost invariant = { λ w. w.failed ≡ false → IsTrue (all_known (map (arg_tree (I.meaning w.cx.now)) w.place.stack)) };
}

// An argument as a part.
fn part_of<X: Copy, D: Copy>(arg: &GenericArgKind<X>) -> Part<X, D>
    ensures { result ≡ part_of_arg arg.now }
{
    match arg {
        GenericArgKind::Lifetime(region) => Part::Region(*region),
        GenericArgKind::Ty(ty) => Part::Ty(*ty),
        GenericArgKind::Const(constant) => Part::Const(*constant),
    }
}

// Puts what stands under an argument on a stack.
fn enter<I: Interner>(
    cx: &I,
    arg: &GenericArg<I>,
    stack: &mut Stack<GenericArg<I>>,
) -> Result<(), OutOfMemory>
    requires { IsTrue (known (arg_tree (I.meaning cx.now) arg.now)) }
    ensures { OnOk result (Pushes (I.meaning cx.now) (places_under (arg_tree (I.meaning cx.now) arg.now))
        stack.old stack.new) }
{
    match arg {
        GenericArgKind::Ty(ty) => push_under_ty(cx, ty, stack)?,
        _ => push_list(cx, &parts_of(cx, &part_of(arg)), stack)?,
    }
    Ok(())
}

impl<'a, I: Interner> TypeWalker<'a, I> {
    /// A walk that begins at an argument, which the interner has to know. It takes no memory.
    pub fn new(cx: &'a I, root: GenericArg<I>) -> Self
        requires { IsTrue (known (arg_tree (I.meaning cx.now) root)) }
        ensures begins { result ≡ begun cx.now root }
        ensures by_places { ByPlacesUnder (I.meaning cx.now) ⟦<GenericArgKind<I::Key> as PartialEq>⟧.eq result root }
    {
        TypeWalker {
            cx,
            place: PreOrder::new(cx.alloc(), root),
            failed: false,
        }
    }

    /// Leaves out what stands under the argument that was yielded last, as far as it is still to come.
    ///
    /// It does nothing before the first pull, after the end, or a second time. It takes no memory.
    pub fn skip_current_subtree(&mut self)
        ensures { self.new ≡ record self.old { inside = [] } }
    {
        self.place.skip_current_subtree();
    }

    /// What `next` answers, for a loop of which the caller shows that it ends.
    pub fn pull(&mut self) -> Option<Result<GenericArg<I>, OutOfMemory>>
        ensures { Pull (I.meaning (self.old).cx) ⟦<GenericArgKind<I::Key> as PartialEq>⟧.eq self.old result self.new }
    {
        if self.failed {
            return Some(Err(OutOfMemory));
        }
        let arg = match self.place.next_unseen() {
            Ok(Some(arg)) => arg,
            Ok(None) => return None,
            Err(refused) => {
                self.failed = true;
                return Some(Err(refused));
            }
        };
        match enter(self.cx, &arg, &mut self.place.stack) {
            Ok(()) => Some(Ok(arg)),
            Err(refused) => {
                self.failed = true;
                Some(Err(refused))
            }
        }
    }

    /// The arguments that were yielded, as long as there was no fault. It takes no memory.
    pub fn visited(&self) -> &Met<GenericArg<I>>
        ensures { result.now.keys ≡ (self.now).visited }
    {
        &self.place.visited
    }
}

impl<'a, I: Interner> Iterator for TypeWalker<'a, I> {
    type Item = Result<GenericArg<I>, OutOfMemory>;

    ghost next_gives = { λ s r t. Pull (I.meaning s.cx) ⟦<GenericArgKind<I::Key> as PartialEq>⟧.eq s r t };

    fn next(&mut self) -> Option<Result<GenericArg<I>, OutOfMemory>> {
        self.pull()
    }
}
