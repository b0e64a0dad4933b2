//! Visits that are asked for: what a visitor is asked about.
ghost use Rattle.std.specs.Prelude.{◌≡◌, IsTrue, IfSome, []};
ghost use Rattle.relation_terms.specs.Trees.{known};
ghost use Rattle.relation_terms.specs.Meaning.{arg_tree};
ghost use Rattle.relation_folds.specs.Visits.{Walks};
ghost use Rattle.text_asking.specs.Args.{same_arg};
ghost use Rattle.text_asking.specs.Meets.{is_in, AnswersAt, AllKnown, Asks, IsMet, flow};

use crate::comparing::same_arg;
use relation_folds::visit::{TypeVisitable, TypeVisitor, Visit};
use relation_terms::terms::{Const, GenericArg, GenericArgKind, Interner, Region, Ty};
use std::fmt::{self, Write};
use std::ops::ControlFlow;
use text_terms::printing::{TextsOf, write_arg};

// How many terms a visitor is asked about at most. Each is written with three bytes or more, so that an answer with so
// many is cut off before the last.
const MOST: usize = 349_526;

/// The terms that a visitor was asked about, in order, and whether it stopped.
#[derive(Drop)]
pub(super) struct Met<X> {
    pub terms: Vec<GenericArgKind<X>>,
    pub stopped: bool,
}

// Keeps what it is asked about. It skips some terms, and stops at others.
#[derive(Drop)]
struct Collects<'a, X> {
    skip: &'a [GenericArgKind<X>],
    stop: &'a [GenericArgKind<X>],
    terms: Vec<GenericArgKind<X>>,
    // A growth was refused.
    refused: bool,
}

// Whether one of the terms has the key of another.
fn is_in<X: Copy + PartialEq>(terms: &[GenericArgKind<X>], term: GenericArgKind<X>) -> bool
    ensures { result ≡ is_in (same_arg X.eq) terms.now term }
{
    for other in terms {
        if same_arg(*other, term) {
            return true;
        }
    }
    false
}

impl<'a, X: Copy + PartialEq> Collects<'a, X> {
    ghost use Rattle.std.specs.Prelude.{◌++◌, ◌∷◌, false};

    // What is answered at a term.
    fn meet(&mut self, term: GenericArgKind<X>) -> Visit
        ensures skip { self.new.skip ≡ self.old.skip }
        ensures stop { self.new.stop ≡ self.old.stop }
        ensures kept { self.new.refused ≡ false → self.old.refused ≡ false }
        ensures met { self.new.refused ≡ false → self.new.terms.items ≡ self.old.terms.items ++ term ∷ [] }
        ensures answer { AnswersAt X.eq self.old self.new term result }
    {
        if self.terms.push(term).is_err() {
            self.refused = true;
            return Visit::Stop;
        }
        if self.terms.len() == MOST {
            return Visit::Stop;
        }
        if is_in(self.skip, term) {
            return Visit::Skip;
        }
        if is_in(self.stop, term) {
            return Visit::Stop;
        }
        Visit::Enter
    }
}

impl<'a, I: Interner> TypeVisitor<I> for Collects<'a, I::Key> {
    ghost use Rattle.text_asking.specs.Meets.{Asks};

    ghost visits = { λ cx v d t w a. Asks (I.meaning cx) v d t w a };

    fn visit_ty(&mut self, _cx: &I, ty: &Ty<I>, _depth: u128) -> Visit {
        self.meet(GenericArgKind::Ty(*ty))
    }

    fn visit_region(&mut self, _cx: &I, region: &Region<I>, _depth: u128) -> Visit {
        self.meet(GenericArgKind::Lifetime(*region))
    }

    fn visit_const(&mut self, _cx: &I, constant: &Const<I>, _depth: u128) -> Visit {
        self.meet(GenericArgKind::Const(*constant))
    }
}

// Goes over a term, and answers whether the visitor stopped.
fn walk<I: Interner>(cx: &I, term: &GenericArg<I>, visitor: &mut Collects<I::Key>) -> bool
    requires { IsTrue (known (arg_tree (I.meaning cx.now) term.now)) }
    ensures { Walks (Asks (I.meaning cx.now)) 0 visitor.old
        (arg_tree (I.meaning cx.now) term.now) visitor.new (flow result) }
{
    match term.visit_with(cx, visitor) {
        ControlFlow::Break(()) => true,
        ControlFlow::Continue(()) => false,
    }
}

// What a visitor of a term is asked about that skips some terms and stops at others, and behind as many as are told.
// There is no answer where a growth was refused.
pub(super) fn visit<I: Interner>(
    cx: &I,
    term: &GenericArg<I>,
    skip: &[GenericArg<I>],
    stop: &[GenericArg<I>],
) -> Option<Met<I::Key>>
    requires known { IsTrue (known (arg_tree (I.meaning cx.now) term.now)) }
    requires skip_known { AllKnown (I.meaning cx.now) skip.now }
    requires stop_known { AllKnown (I.meaning cx.now) stop.now }
    ensures sure { IfSome result (λ met. AllKnown (I.meaning cx.now) met.terms.items) }
    ensures met { IfSome result (λ met. IsMet (I.meaning cx.now) skip.now stop.now term.now met) }
{
    let mut visitor = Collects {
        skip,
        stop,
        terms: Vec::new(cx.alloc()),
        refused: false,
    };
    let stopped = walk(cx, term, &mut visitor);
    if visitor.refused {
        return None;
    }
    let terms = visitor.terms;
    Some(Met { terms, stopped })
}

// Writes what a visitor was asked about.
pub(super) fn write_met<I: Interner, W: Write>(
    cx: &I,
    texts: &TextsOf<I>,
    met: &Met<I::Key>,
    out: &mut W,
) -> fmt::Result
    requires { AllKnown (I.meaning cx.now) met.now.terms.items }
{
    out.write_str("met=[")?;
    for (place, term) in met.terms.iter().enumerate() {
        if place > 0 {
            out.write_str(", ")?;
        }
        write_arg(cx, texts, term, out)?;
    }
    out.write_str(if met.stopped { "]; stopped" } else { "]" })
}
