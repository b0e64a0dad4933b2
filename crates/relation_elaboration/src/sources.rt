//! Clauses that come one by one, and the traits among them.
ghost use Rattle.std.specs.Prelude.{◌≡◌, ◌<◌, ℕ, IsTrue, IfOk, IfSome, Some, Ok, Err};
ghost use Rattle.std.specs.Iterator.{UpTo};
ghost use Rattle.std.specs.Iterator.SizeHint.{IsWithinCount};
ghost use Rattle.relation_terms.specs.Trees.{known};
ghost use Rattle.relation_terms.specs.Meaning.{Extends};
ghost use Rattle.relation_terms.specs.Owned.{bound_tree};
ghost use Rattle.relation_terms.specs.declared.terms.keys.ClauseKey.{ClauseKey};
ghost use Rattle.elaboration_worklist.specs.declared.faults.ElabFault.TheVariants.{Limit};
ghost use Rattle.relation_elaboration.specs.Finding.{BeginsInItself, KnowsWhatComes, TraitsByClosure};

use crate::elaborator::{Elaborator, elaborate};
use elaboration_worklist::ElabFault;
use relation_statements::trait_reference;
use relation_terms::predicate::{TraitRef, clause_of_trait_ref};
use relation_terms::terms::{Binder, Clause, ClauseKey, Interner};
use std::marker::{Model, PhantomData};

/// Clauses that come one by one, or faults, with the interner that they are of.
///
/// After each clause less is left, so that no more than so many come one after another; and the interner knows it.
pub trait ClauseSource<I: Interner>: Iterator<Item = Result<Clause<I>, ElabFault>> {
    // Its interner.
    ghost interner: { Self → I };

    // No more clauses come than this.
    ghost left: { Self → ℕ };

    /// Its interner.
    fn cx(&self) -> &I
        ensures { result.now ≡ interner self.now };

    ghost falls: { (s t : Self) (c : ClauseKey I.Key) → Self.next_gives s (Some (Ok c)) t → left t < left s };

    ghost knows: { KnowsWhatComes I.meaning interner Self.next_gives };
}

impl<'a, I: Interner> ClauseSource<I> for Elaborator<'a, I, ClauseKey<I::Key>> {
    ghost use Rattle.std.specs.Prelude.{◌+◌, ◌-◌, ◌<◌, ◌∷◌, [], length};
    ghost use Rattle.std.proofs.Common.{ap, arith, length-append};
    ghost use Rattle.std.proofs.lemmas.List.{length-map};
    ghost use Rattle.relation_terms.proofs.Stays.{knows_clause};

    ghost interner = { λ e. e.cx };

    ghost left = { λ e. length e.stack + (e.limit - length e.visited) };

    fn cx(&self) -> &I {
        self.cx()
    }

    // The predicate leaves the stack, and each that is pushed takes room.
    ghost falls = { λ s t c h.
        let m = I.meaning s.cx in
        let n = I.meaning t.cx in
        let y = h.4 in
        let p = y.pushes in
        let popped = ap length y.top in
        let one = length-append y.rest (m.clause c ∷ []) in
        let pushed = ap length p.stack_is in
        let both = length-append y.rest p.new in
        let before = length-map s.stack m.clause in
        let after = length-map t.stack n.clause in
        let seen = length-map s.visited m.predicate in
        let now = length-map t.visited n.predicate in
        let added = p.added in
        let fits = p.fits in
        let limit = y.limit in
        Prim.omega (arith, popped, one, pushed, both, before, after, seen, now, added, fits, limit) };

    ghost knows = { λ s t c h. knows_clause (h.2).grown c h.3 };
}

/// The trait references of the trait clauses of a source, of any polarity, under their binders: it passes over all
/// other clauses. A fault of the source is yielded. `size_hint` may leave out an upper bound that the source's has.
#[derive(Drop)]
pub struct FilterToTraits<I: Interner, It: ClauseSource<I>> {
    base_iterator: It,
    of: PhantomData<I>,
}

impl<I: Interner, It: ClauseSource<I>> Model for FilterToTraits<I, It> {
    ghost Value = { It };

    ghost view = { λ f. f.base_iterator };
}

impl<I: Interner, It: ClauseSource<I>> FilterToTraits<I, It> {
    /// The trait references of a source.
    pub fn new(base_iterator: It) -> Self
        ensures { result ≡ base_iterator }
    {
        FilterToTraits {
            base_iterator,
            of: PhantomData,
        }
    }

    /// The source's interner.
    pub fn cx(&self) -> &I
        ensures { result.now ≡ It.interner self.now }
    {
        self.base_iterator.cx()
    }

    /// The source, with what is still to come of it.
    pub fn into_base(self) -> It
        ensures { result ≡ self }
    {
        self.base_iterator
    }
}

impl<I: Interner, It: ClauseSource<I>> Iterator for FilterToTraits<I, It> {
    type Item = Result<Binder<I::Key, TraitRef<I::Key, I::Id>>, ElabFault>;

    ghost use Rattle.relation_elaboration.specs.Finding.{Finds};

    ghost can_next = { λ s. It.can_next s };

    ghost next_gives = { λ s r t. Finds I.meaning It.interner It.next_gives s r t };

    ghost remaining = { λ s. It.remaining s };

    fn next(&mut self) -> Option<Result<Binder<I::Key, TraitRef<I::Key, I::Id>>, ElabFault>> {
        while let Some(next) = self.base_iterator.next() {
            match next {
                Ok(clause) => {
                    if let Some(trait_ref) = trait_reference(self.base_iterator.cx(), &clause) {
                        return Some(Ok(trait_ref));
                    }
                }
                Err(fault) => return Some(Err(fault)),
            }
        }
        None
    }

    fn size_hint(&self) -> (usize, Option<usize>)
        ensures lower { IsWithinCount result.0 (It.remaining self.now) }
        ensures upper { IfSome result.1 (UpTo (It.remaining self.now)) }
        ensures least { result.0 ≡ 0 }
    {
        let (_, upper) = self.base_iterator.size_hint();
        (0, upper)
    }
}

/// A trait with its arguments, and all traits that follow from it by super-predicates, of any polarity: the trait
/// references of the trait clauses of an elaboration that goes to super-predicates alone. The interner has to know the
/// trait reference.
///
/// There may be up to `limit` different predicates, traits or not. Answers `Limit` where that is none, and `Memory`
/// where a growth was refused; all keys keep their meanings. Upstream's function of this name, which has no limit.
pub fn supertraits<I: Interner>(
    cx: &mut I,
    trait_ref: Binder<I::Key, TraitRef<I::Key, I::Id>>,
    limit: usize,
) -> Result<FilterToTraits<I, Elaborator<'_, I, Clause<I>>>, ElabFault>
    requires { IsTrue (known (bound_tree (I.meaning cx.old) trait_ref)) }
    ensures grown { IfOk result (λ e. Extends (I.meaning cx.old) (I.meaning e.cx)) }
    ensures same_reference { IfOk result (λ e. e.reference ≡ cx.entry.ghost_name) }
    ensures begins { IfOk result (BeginsInItself I.meaning limit) }
    ensures limit { result ≡ Err Limit → limit ≡ 0 }
    ensures closure { IfOk result (TraitsByClosure I.meaning (I.meaning cx.old) trait_ref) }
{
    let clause = clause_of_trait_ref(cx, trait_ref)?;
    let mut obligations = Vec::new(cx.alloc());
    obligations.push(clause)?;
    match elaborate(cx, obligations, limit) {
        Ok(elaborator) => Ok(FilterToTraits::new(elaborator.filter_only_self())),
        Err(fault) => Err(fault),
    }
}
