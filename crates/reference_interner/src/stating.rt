//! What traits state.
ghost use Rattle.std.specs.Prelude.{◌≡◌};
ghost use Rattle.std.specs.List.{All};
ghost use Rattle.relation_terms.specs.Owned.{IsStated, IsStatedBound};
ghost use Rattle.reference_interner.specs.Adding.{items_of, meaning_in, SameTerms};
ghost use Rattle.reference_interner.specs.Items.{changed_at, clauses_in, with_supers, with_implied, with_bounds};

use crate::{ItemId, NoSpan, NodeKey, RefInterner};
use relation_terms::predicate::TraitRef;
use relation_terms::terms::{Binder, ClauseKey, Interner, TraitId};

impl RefInterner {
    /// Says which super-predicates a trait has, each with its place, in place of those that it had. Nothing changes
    /// where no item has the id. The interner has to know each clause, which binds its variables itself.
    pub fn set_super_predicates(
        &mut self,
        trait_id: TraitId<ItemId>,
        clauses: Vec<(ClauseKey<NodeKey>, NoSpan)>,
    )
        requires { All (IsStated (meaning_in self.old)) (clauses_in clauses) }
        ensures recorded { items_of self.new ≡ changed_at (with_supers clauses) (items_of self.old) (trait_id.0).0 }
        ensures terms { SameTerms (meaning_in self.old) (meaning_in self.new) }
        ensures solver { ((meaning_in self.new).tables).next_solver ≡ ((meaning_in self.old).tables).next_solver }
    {
        let number = trait_id.0.0 as usize;
        if number < self.items.len() {
            self.items[number].super_predicates = clauses;
        }
    }

    /// Says which predicates a trait implies, each with its place, in place of those that it did. Nothing changes
    /// where no item has the id. The interner has to know each clause, which binds its variables itself.
    pub fn set_implied_predicates(
        &mut self,
        trait_id: TraitId<ItemId>,
        clauses: Vec<(ClauseKey<NodeKey>, NoSpan)>,
    )
        requires { All (IsStated (meaning_in self.old)) (clauses_in clauses) }
        ensures recorded { items_of self.new ≡ changed_at (with_implied clauses) (items_of self.old) (trait_id.0).0 }
        ensures terms { SameTerms (meaning_in self.old) (meaning_in self.new) }
        ensures solver { ((meaning_in self.new).tables).next_solver ≡ ((meaning_in self.old).tables).next_solver }
    {
        let number = trait_id.0.0 as usize;
        if number < self.items.len() {
            self.items[number].implied_predicates = clauses;
        }
    }

    /// Says which const bounds a trait has, in place of those that it had. Nothing changes where no item has the id.
    /// The interner has to know each bound, which binds its variables itself.
    pub fn set_const_bounds(
        &mut self,
        trait_id: TraitId<ItemId>,
        bounds: Vec<Binder<NodeKey, TraitRef<NodeKey, ItemId>>>,
    )
        requires { All (IsStatedBound (meaning_in self.old)) bounds.items }
        ensures recorded { items_of self.new ≡ changed_at (with_bounds bounds) (items_of self.old) (trait_id.0).0 }
        ensures terms { SameTerms (meaning_in self.old) (meaning_in self.new) }
        ensures solver { ((meaning_in self.new).tables).next_solver ≡ ((meaning_in self.old).tables).next_solver }
    {
        let number = trait_id.0.0 as usize;
        if number < self.items.len() {
            self.items[number].const_bounds = bounds;
        }
    }
}
