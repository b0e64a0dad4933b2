//! Recording in a context: new variables and universes, constraints on regions.
ghost use Rattle.std.specs.Prelude.{◌≡◌, ◌≤◌, suc, IsTrue, IfOk, OnErr, OnOk};
ghost use Rattle.relation_terms.specs.Heads.{type_var, int_var, float_var, const_var, region_var};
ghost use Rattle.relation_terms.specs.Trees.{known};
ghost use Rattle.relation_terms.specs.Meaning.{Extends};
ghost use Rattle.relation_semantics.specs.Stores.{IsRegionIn};
ghost use Rattle.relation_semantics.specs.Steps.{IsLater};
ghost use Rattle.relation_semantics.specs.Measures.{Goes};
ghost use Rattle.relation_semantics.specs.ContextCalls.{KeepsRest};
ghost use Rattle.variable_tables.specs.Tables.{IsLawful};
ghost use Rattle.relation_reference.specs.RefCtxt.{store_in, context_in};
ghost use Rattle.relation_reference.specs.Changes.{MeansNext, store_after, AddsEqual, AddsOutlives, MakesTyVar};
ghost use Rattle.relation_reference.specs.Changes.{MakesIntVar, MakesFloatVar, MakesConstVar, MakesRegionVar};

use crate::context::RefCtxt;
use crate::context::universes::next_universe;
use relation_terms::predicate::{OutlivesPredicate, RegionConstraint, RegionEqPredicate};
use relation_terms::terms::{
    Const, ConstKind, ConstVid, FloatVid, GenericArgKind, InferConst, InferTy, IntVid, Interner,
    OutOfMemory, Region, RegionKind, RegionVid, Ty, TyKind, TyVid, UniverseIndex,
};

impl<I: Interner> RefCtxt<I> {
    /// A new type variable in a universe, the current one or an earlier. Variables are numbered from 0 as they are
    /// made. It is marked as related to no other.
    ///
    /// After `OutOfMemory` no variable was made.
    pub fn next_ty_var_in(&mut self, universe: UniverseIndex) -> Result<Ty<I>, OutOfMemory>
        requires lawful { IsLawful (I.meaning self.old.interner) self.old.inner }
        requires below { universe.0 ≤ self.old.inner.universe.0 }
        ensures lawful { IsLawful (I.meaning self.new.interner) self.new.inner }
        ensures grown { Extends (I.meaning self.old.interner) (I.meaning self.new.interner) }
        ensures later { IsLater (store_in I.meaning self.old) (store_in I.meaning self.new) }
        ensures sure { IfOk result (λ t. IsTrue (known ((I.meaning self.new.interner).ty t))) }
        ensures means { MeansNext (I.meaning self.new.interner).ty type_var self.old.inner.types.items result }
        ensures makes { OnOk result (MakesTyVar I.meaning self.old self.new universe.0) }
        ensures refused { OnErr result (store_in I.meaning self.new ≡ store_in I.meaning self.old) }
        ensures rest { KeepsRest (context_in I.meaning self.old) (context_in I.meaning self.new) }
    {
        let number = self.inner.types.len();
        let key = self
            .interner
            .mk_ty(TyKind::Infer(InferTy::TyVar(TyVid(number))))?;
        self.inner.sub_roots.reserve()?;
        self.inner.types.push(key, universe)?;
        self.inner.sub_roots.push_reserved();
        Ok(key)
    }

    /// A new type variable in the current universe. Variables are numbered from 0 as they are made. It is marked as
    /// related to no other.
    ///
    /// After `OutOfMemory` no variable was made.
    pub fn next_ty_infer(&mut self) -> Result<Ty<I>, OutOfMemory>
        requires { IsLawful (I.meaning self.old.interner) self.old.inner }
        ensures lawful { IsLawful (I.meaning self.new.interner) self.new.inner }
        ensures grown { Extends (I.meaning self.old.interner) (I.meaning self.new.interner) }
        ensures later { IsLater (store_in I.meaning self.old) (store_in I.meaning self.new) }
        ensures sure { IfOk result (λ t. IsTrue (known ((I.meaning self.new.interner).ty t))) }
        ensures means { MeansNext (I.meaning self.new.interner).ty type_var self.old.inner.types.items result }
        ensures makes { OnOk result (MakesTyVar I.meaning self.old self.new self.old.inner.universe.0) }
        ensures refused { OnErr result (store_in I.meaning self.new ≡ store_in I.meaning self.old) }
        ensures rest { KeepsRest (context_in I.meaning self.old) (context_in I.meaning self.new) }
    {
        self.next_ty_var_in(self.inner.universe)
    }

    /// A new integer variable, in the first universe, since it names nothing. Variables are numbered from 0 as they are
    /// made.
    ///
    /// After `OutOfMemory` no variable was made.
    pub fn next_int_var(&mut self) -> Result<Ty<I>, OutOfMemory>
        requires { IsLawful (I.meaning self.old.interner) self.old.inner }
        ensures lawful { IsLawful (I.meaning self.new.interner) self.new.inner }
        ensures grown { Extends (I.meaning self.old.interner) (I.meaning self.new.interner) }
        ensures later { IsLater (store_in I.meaning self.old) (store_in I.meaning self.new) }
        ensures sure { IfOk result (λ t. IsTrue (known ((I.meaning self.new.interner).ty t))) }
        ensures means { MeansNext (I.meaning self.new.interner).ty int_var self.old.inner.ints.items result }
        ensures makes { OnOk result (MakesIntVar I.meaning self.old self.new 0) }
        ensures refused { OnErr result (store_in I.meaning self.new ≡ store_in I.meaning self.old) }
        ensures rest { KeepsRest (context_in I.meaning self.old) (context_in I.meaning self.new) }
    {
        let number = self.inner.ints.len();
        let key = self
            .interner
            .mk_ty(TyKind::Infer(InferTy::IntVar(IntVid(number))))?;
        self.inner.ints.push(key, UniverseIndex(0))?;
        Ok(key)
    }

    /// A new float variable, in the first universe, since it names nothing. Variables are numbered from 0 as they are
    /// made.
    ///
    /// After `OutOfMemory` no variable was made.
    pub fn next_float_var(&mut self) -> Result<Ty<I>, OutOfMemory>
        requires { IsLawful (I.meaning self.old.interner) self.old.inner }
        ensures lawful { IsLawful (I.meaning self.new.interner) self.new.inner }
        ensures grown { Extends (I.meaning self.old.interner) (I.meaning self.new.interner) }
        ensures later { IsLater (store_in I.meaning self.old) (store_in I.meaning self.new) }
        ensures sure { IfOk result (λ t. IsTrue (known ((I.meaning self.new.interner).ty t))) }
        ensures means { MeansNext (I.meaning self.new.interner).ty float_var self.old.inner.floats.items result }
        ensures makes { OnOk result (MakesFloatVar I.meaning self.old self.new 0) }
        ensures refused { OnErr result (store_in I.meaning self.new ≡ store_in I.meaning self.old) }
        ensures rest { KeepsRest (context_in I.meaning self.old) (context_in I.meaning self.new) }
    {
        let number = self.inner.floats.len();
        let key = self
            .interner
            .mk_ty(TyKind::Infer(InferTy::FloatVar(FloatVid(number))))?;
        self.inner.floats.push(key, UniverseIndex(0))?;
        Ok(key)
    }

    // A new constant variable in a universe, the current one or an earlier. After `OutOfMemory` none was made.
    pub(crate) fn next_const_var_in(
        &mut self,
        universe: UniverseIndex,
    ) -> Result<Const<I>, OutOfMemory>
        requires lawful { IsLawful (I.meaning self.old.interner) self.old.inner }
        requires below { universe.0 ≤ self.old.inner.universe.0 }
        ensures lawful { IsLawful (I.meaning self.new.interner) self.new.inner }
        ensures grown { Extends (I.meaning self.old.interner) (I.meaning self.new.interner) }
        ensures later { IsLater (store_in I.meaning self.old) (store_in I.meaning self.new) }
        ensures sure { IfOk result (λ t. IsTrue (known ((I.meaning self.new.interner).const_ t))) }
        ensures means { MeansNext (I.meaning self.new.interner).const_ const_var self.old.inner.consts.items result }
        ensures makes { OnOk result (MakesConstVar I.meaning self.old self.new universe.0) }
        ensures refused { OnErr result (store_in I.meaning self.new ≡ store_in I.meaning self.old) }
        ensures rest { KeepsRest (context_in I.meaning self.old) (context_in I.meaning self.new) }
    {
        let number = self.inner.consts.len();
        let key = self
            .interner
            .mk_const(ConstKind::Infer(InferConst::Var(ConstVid(number))))?;
        self.inner.consts.push(key, universe)?;
        Ok(key)
    }

    /// A new constant variable in the current universe. Variables are numbered from 0 as they are made.
    ///
    /// After `OutOfMemory` no variable was made.
    pub fn next_const_infer(&mut self) -> Result<Const<I>, OutOfMemory>
        requires { IsLawful (I.meaning self.old.interner) self.old.inner }
        ensures lawful { IsLawful (I.meaning self.new.interner) self.new.inner }
        ensures grown { Extends (I.meaning self.old.interner) (I.meaning self.new.interner) }
        ensures later { IsLater (store_in I.meaning self.old) (store_in I.meaning self.new) }
        ensures sure { IfOk result (λ t. IsTrue (known ((I.meaning self.new.interner).const_ t))) }
        ensures means { MeansNext (I.meaning self.new.interner).const_ const_var self.old.inner.consts.items result }
        ensures makes { OnOk result (MakesConstVar I.meaning self.old self.new self.old.inner.universe.0) }
        ensures refused { OnErr result (store_in I.meaning self.new ≡ store_in I.meaning self.old) }
        ensures rest { KeepsRest (context_in I.meaning self.old) (context_in I.meaning self.new) }
    {
        self.next_const_var_in(self.inner.universe)
    }

    // A new region variable in a universe, the current one or an earlier. After `OutOfMemory` none was made.
    pub(crate) fn next_region_var_in(
        &mut self,
        universe: UniverseIndex,
    ) -> Result<Region<I>, OutOfMemory>
        requires lawful { IsLawful (I.meaning self.old.interner) self.old.inner }
        requires below { universe.0 ≤ self.old.inner.universe.0 }
        ensures lawful { IsLawful (I.meaning self.new.interner) self.new.inner }
        ensures grown { Extends (I.meaning self.old.interner) (I.meaning self.new.interner) }
        ensures later { IsLater (store_in I.meaning self.old) (store_in I.meaning self.new) }
        ensures sure { IfOk result (λ r. IsTrue (known ((I.meaning self.new.interner).region r))) }
        ensures means { MeansNext (I.meaning self.new.interner).region region_var self.old.inner.regions.items result }
        ensures makes { OnOk result (MakesRegionVar I.meaning self.old self.new universe.0) }
        ensures refused { OnErr result (store_in I.meaning self.new ≡ store_in I.meaning self.old) }
        ensures rest { KeepsRest (context_in I.meaning self.old) (context_in I.meaning self.new) }
    {
        let number = self.inner.regions.len();
        let key = self
            .interner
            .mk_region(RegionKind::ReVar(RegionVid(number)))?;
        self.inner.regions.push(key, universe)?;
        Ok(key)
    }

    /// A new region variable in the current universe. Variables are numbered from 0 as they are made.
    ///
    /// After `OutOfMemory` no variable was made.
    pub fn next_region_infer(&mut self) -> Result<Region<I>, OutOfMemory>
        requires { IsLawful (I.meaning self.old.interner) self.old.inner }
        ensures lawful { IsLawful (I.meaning self.new.interner) self.new.inner }
        ensures grown { Extends (I.meaning self.old.interner) (I.meaning self.new.interner) }
        ensures later { IsLater (store_in I.meaning self.old) (store_in I.meaning self.new) }
        ensures sure { IfOk result (λ r. IsTrue (known ((I.meaning self.new.interner).region r))) }
        ensures means { MeansNext (I.meaning self.new.interner).region region_var self.old.inner.regions.items result }
        ensures makes { OnOk result (MakesRegionVar I.meaning self.old self.new self.old.inner.universe.0) }
        ensures refused { OnErr result (store_in I.meaning self.new ≡ store_in I.meaning self.old) }
        ensures rest { KeepsRest (context_in I.meaning self.old) (context_in I.meaning self.new) }
    {
        self.next_region_var_in(self.inner.universe)
    }

    /// A new universe, one above the last, and the current one from then on.
    ///
    /// After `OutOfMemory`, where it cannot be counted, there is none.
    pub fn create_next_universe(&mut self) -> Result<UniverseIndex, OutOfMemory>
        requires { IsLawful (I.meaning self.old.interner) self.old.inner }
        ensures interner { self.new.interner ≡ self.old.interner }
        ensures lawful { IsLawful (I.meaning self.old.interner) self.new.inner }
        ensures enters { IfOk result (λ u. self.new.inner ≡ record self.old.inner { universe = u }) }
        ensures next { IfOk result (λ u. u.0 ≡ suc self.old.inner.universe.0) }
        ensures refused { OnErr result (self.new.inner ≡ self.old.inner) }
    {
        let next = next_universe(self.inner.universe)?;
        let inner = &mut self.inner;
        inner.universe = next;
        Ok(next)
    }

    // Records that two regions outlive each other, also where both are one.
    pub(crate) fn equate_regions(&mut self, a: &Region<I>, b: &Region<I>) -> Result<(), OutOfMemory>
        requires lawful { IsLawful (I.meaning self.old.interner) self.old.inner }
        requires a_in { IsRegionIn (store_in I.meaning self.old) ((I.meaning self.old.interner).region a.now) }
        requires b_in { IsRegionIn (store_in I.meaning self.old) ((I.meaning self.old.interner).region b.now) }
        ensures interner { self.new.interner ≡ self.old.interner }
        ensures lawful { IsLawful (I.meaning self.old.interner) self.new.inner }
        ensures adds { OnOk result (AddsEqual I.meaning self.old self.new a.now b.now) }
        ensures refused { OnErr result (store_after I.meaning self.old self.new ≡ store_in I.meaning self.old) }
        ensures goes { Goes 0 (store_in I.meaning self.old) (store_after I.meaning self.old self.new) }
        ensures rest { KeepsRest (context_in I.meaning self.old) (context_in I.meaning self.new) }
    {
        let equal = RegionEqPredicate(*a, *b);
        self.inner.constraints.push(RegionConstraint::Eq(equal))?;
        Ok(())
    }

    // Records that the second region outlives the first.
    pub(crate) fn sub_regions(
        &mut self,
        sub: &Region<I>,
        sup: &Region<I>,
    ) -> Result<(), OutOfMemory>
        requires lawful { IsLawful (I.meaning self.old.interner) self.old.inner }
        requires sub_in { IsRegionIn (store_in I.meaning self.old) ((I.meaning self.old.interner).region sub.now) }
        requires sup_in { IsRegionIn (store_in I.meaning self.old) ((I.meaning self.old.interner).region sup.now) }
        ensures interner { self.new.interner ≡ self.old.interner }
        ensures lawful { IsLawful (I.meaning self.old.interner) self.new.inner }
        ensures adds { OnOk result (AddsOutlives I.meaning self.old self.new sup.now sub.now) }
        ensures refused { OnErr result (store_after I.meaning self.old self.new ≡ store_in I.meaning self.old) }
        ensures goes { Goes 0 (store_in I.meaning self.old) (store_after I.meaning self.old self.new) }
        ensures rest { KeepsRest (context_in I.meaning self.old) (context_in I.meaning self.new) }
    {
        let outlives = OutlivesPredicate(GenericArgKind::Lifetime(*sup), *sub);
        self.inner
            .constraints
            .push(RegionConstraint::Outlives(outlives))?;
        Ok(())
    }
}
