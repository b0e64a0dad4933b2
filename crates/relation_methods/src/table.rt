//! The table of methods.
ghost use Rattle.std.specs.Prelude.{◌≡◌, [], IfOk, OnOk, OnErr, IsTrue, map};
ghost use Rattle.relation_terms.specs.Trees.{known};
ghost use Rattle.relation_methods.specs.Methods.{AreKeyed, Appends, FindsByKey, IsSubsequence, LeavesOutApart};

use crate::keyed::{Entry, KeyedTable};
use fast_reject::{SimplifiedType, TreatParams, laws, simplify_type};
use relation_terms::terms::{Binder, Interner, ItemOf, Keys, OutOfMemory, Ty};
use std::alloc::Global;
use std::marker::Model;

/// What a table holds: a value, a method or an impl, with the type that it is for, under a binder of what it is generic
/// over, and that type's key.
pub type EntryOf<I, E> = Entry<SimplifiedType<ItemOf<I>>, Binder<<I as Keys>::Key, Ty<I>>, E>;

/// What may be for a type: entries, in the order of insertion.
pub type Candidates<'a, I, E> = Vec<&'a EntryOf<I, E>>;

/// A table of methods, or of impls, each for a type. A solver or a method probe finds by it what may be for a type,
/// before it relates anything; a value that it leaves out is for no instance of the type.
///
/// The types' keys are read once, at insertion. They stand while the interner grows.
#[derive(Drop)]
pub struct MethodTable<I: Interner, E> {
    entries: KeyedTable<SimplifiedType<ItemOf<I>>, Binder<I::Key, Ty<I>>, E>,
}

impl<I: Interner, E> Model for MethodTable<I, E> {
    ghost use Rattle.std.specs.Prelude.{List};
    ghost use Rattle.relation_terms.specs.declared.terms.binder.Binder.{Binder};
    ghost use Rattle.relation_terms.specs.declared.terms.ids.DefId.{DefId};
    ghost use Rattle.relation_terms.specs.declared.terms.keys.TyKey.{TyKey};
    ghost use Rattle.fast_reject.specs.declared.simplify.SimplifiedType.{SimplifiedType};
    ghost use Rattle.relation_methods.specs.declared.keyed.Entry.{Entry};

    ghost Value = { List (Entry (SimplifiedType (DefId I.Id)) (Binder I.Key (TyKey I.Key)) E) };

    ghost view = { λ t. t.entries };
}

impl<I: Interner, E: Drop> MethodTable<I, E> {
    /// A table without entries. It takes no memory.
    pub fn new(alloc: Global) -> Self
        ensures { result ≡ [] }
    {
        MethodTable {
            entries: KeyedTable::new(alloc),
        }
    }

    /// Puts a value for a type behind all others, by the key that the type has where its parameters stand for any type.
    /// What the binder binds has none. The interner has to know the type.
    ///
    /// # Errors
    /// `OutOfMemory` where a growth was refused: then the table is as it was.
    pub fn insert(&mut self, cx: &I, of: Binder<I::Key, Ty<I>>, value: E) -> Result<(), OutOfMemory>
        requires { IsTrue (known ((I.meaning cx.now).ty of.value)) }
        ensures ok { OnOk result (Appends (I.meaning cx.now) of value self.old self.new) }
        ensures keyed { AreKeyed (I.meaning cx.now) self.old → AreKeyed (I.meaning cx.now) self.new }
        ensures err { OnErr result (self.new ≡ self.old) }
    {
        let key = simplify_type(cx, &of.value, TreatParams::InstantiateWithInfer);
        self.entries.insert(cx.alloc(), Entry { of, key, value })?;
        Ok(())
    }

    /// What may be for a type that is known as far as it goes: its parameters and aliases are types of their own.
    ///
    /// The candidates are those of the type's key and those that have none, and all where the type has none, each once.
    /// What is left out is for a type that has no instance in common with this one, whatever its variables become, where
    /// there is no error in either. The interner has to know the type, and those of the entries as they were inserted.
    ///
    /// # Errors
    /// `OutOfMemory` where a growth was refused.
    pub fn look_up(&self, cx: &I, ty: &Ty<I>) -> Result<Candidates<'_, I, E>, OutOfMemory>
        requires ty_known { IsTrue (known ((I.meaning cx.now).ty ty.now)) }
        requires keyed { AreKeyed (I.meaning cx.now) self.now }
        ensures by_key { IfOk result (λ v. FindsByKey (I.meaning cx.now)
            ⟦<SimplifiedType<ItemOf<I>> as PartialEq>⟧.eq ty.now self.now (map (λ e. e.now) v.items)) }
        ensures order { IfOk result (λ v. IsSubsequence (map (λ e. e.now) v.items) self.now) }
        ensures no_loss { IfOk result (λ v. LeavesOutApart (I.meaning cx.now) ty.now self.now
            (map (λ e. e.now) v.items)) }
    {
        laws::keys();
        laws::equal_keys::<I>();
        let key = simplify_type(cx, ty, TreatParams::AsRigid);
        self.entries.look_up(cx.alloc(), key)
    }
}
