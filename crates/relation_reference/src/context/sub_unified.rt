//! Type variables that are marked as related: each names the root of its class, which no other answer looks at.
ghost use Rattle.std.specs.Prelude.{◌≡◌, ◌≤◌, ◌<◌, IsTrue, IfOk, OnErr, OnOk, length};
ghost use Rattle.relation_terms.specs.Heads.{type_var};
ghost use Rattle.relation_terms.specs.Trees.{known};
ghost use Rattle.relation_terms.specs.Meaning.{Extends};
ghost use Rattle.relation_semantics.specs.Stores.{IsMade};
ghost use Rattle.relation_semantics.specs.ContextCalls.{JoinsRoots, KeepsSetup, KeepsOutliving, MarksNew};
ghost use Rattle.relation_reference.specs.RefCtxt.{store_in, context_in, sub_root_in};
ghost use Rattle.variable_tables.specs.Tables.{store_of, IsLawful};
ghost use Rattle.relation_reference.specs.Changes.{MeansNext, MarksNext, MakesTyVar};

use crate::context::RefCtxt;
use relation_terms::terms::{Interner, OutOfMemory, Ty, TyVid, UniverseIndex};

impl<I: Interner> RefCtxt<I> {
    /// Marks two type variables as related, with all that either is related to: the smaller of both roots is that of
    /// all of them. It takes no memory.
    pub fn sub_unify_ty_vids_raw(&mut self, a: TyVid, b: TyVid)
        requires lawful { IsLawful (I.meaning self.old.interner) self.old.inner }
        requires a_made { a.0 < length self.old.inner.types.items }
        requires b_made { b.0 < length self.old.inner.types.items }
        ensures interner { self.new.interner ≡ self.old.interner }
        ensures lawful { IsLawful (I.meaning self.old.interner) self.new.inner }
        ensures same_record { store_of (I.meaning self.old.interner) self.new.inner ≡ store_in I.meaning self.old }
        ensures setup { KeepsSetup (context_in I.meaning self.old) (context_in I.meaning self.new) }
        ensures outliving { KeepsOutliving (context_in I.meaning self.old) (context_in I.meaning self.new) }
        ensures marks { JoinsRoots (sub_root_in self.old.inner) (sub_root_in self.new.inner) a.0 b.0 }
    {
        self.inner.sub_roots.join(a.0, b.0);
    }

    // A new type variable in a universe, the current one or an earlier, which is marked as related to another, and so
    // to all that that one is related to. After `OutOfMemory` no variable was made.
    pub(crate) fn next_related_ty_var(
        &mut self,
        of: TyVid,
        universe: UniverseIndex,
    ) -> Result<Ty<I>, OutOfMemory>
        requires lawful { IsLawful (I.meaning self.old.interner) self.old.inner }
        requires below { universe.0 ≤ self.old.inner.universe.0 }
        requires of_made { IsMade (store_in I.meaning self.old) type_var of.0 }
        ensures lawful { IsLawful (I.meaning self.new.interner) self.new.inner }
        ensures grown { Extends (I.meaning self.old.interner) (I.meaning self.new.interner) }
        ensures sure { IfOk result (λ t. IsTrue (known ((I.meaning self.new.interner).ty t))) }
        ensures means { MeansNext (I.meaning self.new.interner).ty type_var self.old.inner.types.items result }
        ensures makes { OnOk result (MakesTyVar I.meaning self.old self.new universe.0) }
        ensures root { OnOk result (MarksNext self.old.inner self.new.inner of.0) }
        ensures rest { MarksNew (context_in I.meaning self.old) (context_in I.meaning self.new) }
        ensures refused { OnErr result (store_in I.meaning self.new ≡ store_in I.meaning self.old) }
    {
        let number = self.inner.types.len();
        let made = self.next_ty_var_in(universe)?;
        self.inner.sub_roots.join(of.0, number);
        Ok(made)
    }
}
