//! Making variables of a context one, and binding number variables.
ghost use Rattle.std.specs.Prelude.{◌≡◌, ◌≢◌, ◌<◌, length};
ghost use Rattle.relation_terms.specs.Heads.{type_var, int_var, float_var, const_var};
ghost use Rattle.relation_terms.specs.declared.terms.ty_kind.IntVarValue.TheVariants.{Unknown};
ghost use Rattle.relation_terms.specs.declared.terms.ty_kind.FloatVarValue.TheVariants.{Unknown as UnknownFloat};
ghost use Rattle.relation_semantics.specs.Stores.{unbound, entry_of};
ghost use Rattle.relation_semantics.specs.ContextCalls.{JoinsRoots, KeepsRest, KeepsSetup, KeepsOutliving};
ghost use Rattle.relation_semantics.specs.NumberValues.{int_value_tree, float_value_tree};
ghost use Rattle.variable_tables.specs.Tables.{IsLawful};
ghost use Rattle.relation_reference.specs.RefCtxt.{store_in, context_in, sub_root_in};
ghost use Rattle.relation_reference.specs.Changes.{EquatesVids, BindsVid};

use crate::context::RefCtxt;
use crate::context::numbers::{float_value_place, int_value_place};
use relation_terms::terms::{
    ConstVid, FloatVarValue, FloatVid, IntVarValue, IntVid, Interner, TyVid,
};

impl<I: Interner> RefCtxt<I> {
    /// Makes two roots of type variables one: the one of the larger number leads to the other, with all of its class,
    /// and the other gets the smaller of both universes. Both are marked as related. A root with itself changes
    /// nothing.
    pub fn equate_ty_vids_raw(&mut self, a: TyVid, b: TyVid)
        requires lawful { IsLawful (I.meaning self.old.interner) self.old.inner }
        requires a_made { a.0 < length self.old.inner.types.items }
        requires b_made { b.0 < length self.old.inner.types.items }
        requires a_unbound { entry_of (store_in I.meaning self.old) type_var a.0 ≡ unbound }
        requires b_unbound { entry_of (store_in I.meaning self.old) type_var b.0 ≡ unbound }
        ensures interner { self.new.interner ≡ self.old.interner }
        ensures lawful { IsLawful (I.meaning self.old.interner) self.new.inner }
        ensures same { a.0 ≡ b.0 → self.new.inner ≡ self.old.inner }
        ensures equates { (a.0 ≡ b.0 → ⊥) → EquatesVids I.meaning self.old self.new type_var a.0 b.0 }
        ensures setup { KeepsSetup (context_in I.meaning self.old) (context_in I.meaning self.new) }
        ensures outliving { KeepsOutliving (context_in I.meaning self.old) (context_in I.meaning self.new) }
        ensures marks { JoinsRoots (sub_root_in self.old.inner) (sub_root_in self.new.inner) a.0 b.0 }
    {
        if a.0 < b.0 {
            self.inner.types.link(b.0, a.0);
            self.inner.sub_roots.join(a.0, b.0);
        } else if b.0 < a.0 {
            self.inner.types.link(a.0, b.0);
            self.inner.sub_roots.join(a.0, b.0);
        }
    }

    /// Makes two roots of integer variables one: the one of the larger number leads to the other, with all of its
    /// class, and the other gets the smaller of both universes. A root with itself changes nothing.
    pub fn equate_int_vids_raw(&mut self, a: IntVid, b: IntVid)
        requires lawful { IsLawful (I.meaning self.old.interner) self.old.inner }
        requires a_made { a.0 < length self.old.inner.ints.items }
        requires b_made { b.0 < length self.old.inner.ints.items }
        requires a_unbound { entry_of (store_in I.meaning self.old) int_var a.0 ≡ unbound }
        requires b_unbound { entry_of (store_in I.meaning self.old) int_var b.0 ≡ unbound }
        ensures interner { self.new.interner ≡ self.old.interner }
        ensures lawful { IsLawful (I.meaning self.old.interner) self.new.inner }
        ensures same { a.0 ≡ b.0 → self.new.inner ≡ self.old.inner }
        ensures equates { (a.0 ≡ b.0 → ⊥) → EquatesVids I.meaning self.old self.new int_var a.0 b.0 }
        ensures rest { KeepsRest (context_in I.meaning self.old) (context_in I.meaning self.new) }
    {
        if a.0 < b.0 {
            self.inner.ints.link(b.0, a.0);
        } else if b.0 < a.0 {
            self.inner.ints.link(a.0, b.0);
        }
    }

    /// Makes two roots of float variables one: the one of the larger number leads to the other, with all of its
    /// class, and the other gets the smaller of both universes. A root with itself changes nothing.
    pub fn equate_float_vids_raw(&mut self, a: FloatVid, b: FloatVid)
        requires lawful { IsLawful (I.meaning self.old.interner) self.old.inner }
        requires a_made { a.0 < length self.old.inner.floats.items }
        requires b_made { b.0 < length self.old.inner.floats.items }
        requires a_unbound { entry_of (store_in I.meaning self.old) float_var a.0 ≡ unbound }
        requires b_unbound { entry_of (store_in I.meaning self.old) float_var b.0 ≡ unbound }
        ensures interner { self.new.interner ≡ self.old.interner }
        ensures lawful { IsLawful (I.meaning self.old.interner) self.new.inner }
        ensures same { a.0 ≡ b.0 → self.new.inner ≡ self.old.inner }
        ensures equates { (a.0 ≡ b.0 → ⊥) → EquatesVids I.meaning self.old self.new float_var a.0 b.0 }
        ensures rest { KeepsRest (context_in I.meaning self.old) (context_in I.meaning self.new) }
    {
        if a.0 < b.0 {
            self.inner.floats.link(b.0, a.0);
        } else if b.0 < a.0 {
            self.inner.floats.link(a.0, b.0);
        }
    }

    /// Makes two roots of constant variables one: the one of the larger number leads to the other, with all of its
    /// class, and the other gets the smaller of both universes. A root with itself changes nothing.
    pub fn equate_const_vids_raw(&mut self, a: ConstVid, b: ConstVid)
        requires lawful { IsLawful (I.meaning self.old.interner) self.old.inner }
        requires a_made { a.0 < length self.old.inner.consts.items }
        requires b_made { b.0 < length self.old.inner.consts.items }
        requires a_unbound { entry_of (store_in I.meaning self.old) const_var a.0 ≡ unbound }
        requires b_unbound { entry_of (store_in I.meaning self.old) const_var b.0 ≡ unbound }
        ensures interner { self.new.interner ≡ self.old.interner }
        ensures lawful { IsLawful (I.meaning self.old.interner) self.new.inner }
        ensures same { a.0 ≡ b.0 → self.new.inner ≡ self.old.inner }
        ensures equates { (a.0 ≡ b.0 → ⊥) → EquatesVids I.meaning self.old self.new const_var a.0 b.0 }
        ensures rest { KeepsRest (context_in I.meaning self.old) (context_in I.meaning self.new) }
    {
        if a.0 < b.0 {
            self.inner.consts.link(b.0, a.0);
        } else if b.0 < a.0 {
            self.inner.consts.link(a.0, b.0);
        }
    }

    /// Binds the root of an integer variable to an integer type, for nothing of the budget.
    pub fn instantiate_int_var_raw(&mut self, var: IntVid, value: IntVarValue)
        requires lawful { IsLawful (I.meaning self.old.interner) self.old.inner }
        requires made { var.0 < length self.old.inner.ints.items }
        requires unbound { entry_of (store_in I.meaning self.old) int_var var.0 ≡ unbound }
        requires value_known { value ≢ Unknown }
        ensures interner { self.new.interner ≡ self.old.interner }
        ensures lawful { IsLawful (I.meaning self.old.interner) self.new.inner }
        ensures binds { BindsVid I.meaning self.old self.new int_var var.0 (int_value_tree value) }
        ensures rest { KeepsRest (context_in I.meaning self.old) (context_in I.meaning self.new) }
    {
        let place = int_value_place(value);
        let key = self.inner.numbers[place];
        self.inner.ints.bind(var.0, key);
    }

    /// Binds the root of a float variable to a float type, for nothing of the budget.
    pub fn instantiate_float_var_raw(&mut self, var: FloatVid, value: FloatVarValue)
        requires lawful { IsLawful (I.meaning self.old.interner) self.old.inner }
        requires made { var.0 < length self.old.inner.floats.items }
        requires unbound { entry_of (store_in I.meaning self.old) float_var var.0 ≡ unbound }
        requires value_known { value ≢ UnknownFloat }
        ensures interner { self.new.interner ≡ self.old.interner }
        ensures lawful { IsLawful (I.meaning self.old.interner) self.new.inner }
        ensures binds { BindsVid I.meaning self.old self.new float_var var.0 (float_value_tree value) }
        ensures rest { KeepsRest (context_in I.meaning self.old) (context_in I.meaning self.new) }
    {
        let place = float_value_place(value);
        let key = self.inner.numbers[place];
        self.inner.floats.bind(var.0, key);
    }
}
