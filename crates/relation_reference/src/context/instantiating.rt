//! Binding type and constant variables of a context to what terms come to, generalised for what the variables can name.
ghost use Rattle.std.specs.Prelude.{◌≡◌, ◌≢◌, ℕ, ◌<◌, IsTrue, length};
ghost use Rattle.relation_terms.specs.Heads.{type_var, const_var, variable};
ghost use Rattle.relation_terms.specs.Trees.{leaf, known};
ghost use Rattle.relation_semantics.specs.Stores.{unbound, entry_of, IsTermIn};
ghost use Rattle.relation_semantics.specs.Bound.{IsWellBound};
ghost use Rattle.relation_semantics.specs.ContextCalls.{Grows, MarksNew};
ghost use Rattle.variable_tables.specs.Tables.{IsLawful};
ghost use Rattle.relation_reference.specs.RefCtxt.{store_in, context_in, ty_term, const_term};
ghost use Rattle.relation_reference.specs.Changes.{InstantiatedTy, InstantiatedConst};

use crate::context::RefCtxt;
use occurs_check::fates::Target;
use occurs_check::term_vid::TermVid;
use relation_folds::error::{RelateFault, RelateFaultOf, TypeError};
use relation_semantics::relate::StructurallyRelateAliases;
use relation_terms::terms::parts::{expect_const, expect_ty};
use relation_terms::terms::{Const, ConstVid, Interner, Part, Ty, TyVid, Variance};

impl<I: Interner> RefCtxt<I> {
    /// Binds the root of a type variable, at a variance, to what a type comes to, generalised for what the root can
    /// name, for one of the budget, and answers that. The type is no type variable. Where aliases aren't related
    /// structurally, an alias in which the root stands, or what it can't name, gives way to a new type variable.
    ///
    /// # Errors
    /// `Budget` where no instantiation is left; `CyclicTy` where the root stands in what the type comes to, `Mismatch`
    /// where a placeholder does that the root can't name, outside of aliases that give way; `Memory` where a growth was
    /// refused. Then nothing is bound, though variables may have been made on the way, but for `Budget`.
    ///
    /// A type variable that is made on the way is marked as related to the one that it takes the place of, and one that
    /// takes an alias's to none.
    pub fn instantiate_ty_var_raw(
        &mut self,
        aliases: StructurallyRelateAliases,
        target: TyVid,
        variance: Variance,
        source: &Ty<I>,
    ) -> Result<Ty<I>, RelateFaultOf<I>>
        requires lawful { IsLawful (I.meaning self.old.interner) self.old.inner }
        requires target_made { target.0 < length self.old.inner.types.items }
        requires target_unbound { entry_of (store_in I.meaning self.old) type_var target.0 ≡ unbound }
        requires source_known { IsTrue (known ((I.meaning self.old.interner).ty source.now)) }
        requires source_in { IsTermIn (store_in I.meaning self.old) ((I.meaning self.old.interner).ty source.now) }
        requires source_no_variable { (n : ℕ) → ty_term I.meaning self.old source.now ≢ leaf (variable type_var n) }
        requires source_by_lists { IsWellBound ((I.meaning self.old.interner).ty source.now) }
        ensures grows { Grows (context_in I.meaning self.old) (context_in I.meaning self.new) }
        ensures instantiates { InstantiatedTy I.meaning self.old self.new aliases variance target.0 source.now result }
        ensures rest { MarksNew (context_in I.meaning self.old) (context_in I.meaning self.new) }
    {
        if self.inner.budget == 0 {
            return Err(RelateFault::Budget);
        }
        let resolved = self.resolve_ty(source)?;
        let goal = Target {
            vid: TermVid::Ty(target),
            universe: self.inner.types.universe_of(target.0),
            aliases,
            cyclic: TypeError::CyclicTy(resolved),
        };
        let part = self.generalise(&Part::Ty(resolved), variance, &goal)?;
        let bound = expect_ty(&part);
        self.inner.types.bind(target.0, bound);
        self.inner.budget -= 1;
        Ok(bound)
    }

    /// The same of a constant variable and a constant that is no variable, at `Invariant`, with `CyclicConst`.
    pub fn instantiate_const_var_raw(
        &mut self,
        aliases: StructurallyRelateAliases,
        target: ConstVid,
        source: &Const<I>,
    ) -> Result<Const<I>, RelateFaultOf<I>>
        requires lawful { IsLawful (I.meaning self.old.interner) self.old.inner }
        requires target_made { target.0 < length self.old.inner.consts.items }
        requires target_unbound { entry_of (store_in I.meaning self.old) const_var target.0 ≡ unbound }
        requires source_known { IsTrue (known ((I.meaning self.old.interner).const_ source.now)) }
        requires source_in { IsTermIn (store_in I.meaning self.old) ((I.meaning self.old.interner).const_ source.now) }
        requires source_no_variable { (n : ℕ) → const_term I.meaning self.old source.now ≢ leaf (variable const_var n) }
        requires source_by_lists { IsWellBound ((I.meaning self.old.interner).const_ source.now) }
        ensures grows { Grows (context_in I.meaning self.old) (context_in I.meaning self.new) }
        ensures instantiates { InstantiatedConst I.meaning self.old self.new aliases target.0 source.now result }
        ensures rest { MarksNew (context_in I.meaning self.old) (context_in I.meaning self.new) }
    {
        if self.inner.budget == 0 {
            return Err(RelateFault::Budget);
        }
        let resolved = self.resolve_const(source)?;
        let goal = Target {
            vid: TermVid::Const(target),
            universe: self.inner.consts.universe_of(target.0),
            aliases,
            cyclic: TypeError::CyclicConst(resolved),
        };
        let part = self.generalise(&Part::Const(resolved), Variance::Invariant, &goal)?;
        let bound = expect_const(&part);
        self.inner.consts.bind(target.0, bound);
        self.inner.budget -= 1;
        Ok(bound)
    }
}
