//! The context by what the trait of contexts asks of it.
ghost use Rattle.std.specs.Prelude.{IsTrue};
ghost use Rattle.relation_terms.specs.Trees.{known};
ghost use Rattle.relation_semantics.specs.ContextCalls.{Grows, KeepsMarks};
ghost use Rattle.relation_semantics.specs.Bound.{BindsByList};
ghost use Rattle.relation_semantics.specs.Binders.{binder_tree};
ghost use Rattle.relation_reference.specs.RefCtxt.{context_in};
ghost use Rattle.relation_reference.specs.Opened.{IsBinderIn};
ghost use Rattle.relation_reference.specs.Changes.{EntersValue, InstantiatesValue};

use crate::context::RefCtxt;
use relation_folds::error::RelateResult;
use relation_folds::fold::TypeFoldable;
use relation_folds::visit::TypeVisitable;
use relation_semantics::infer_ctxt::{BinderOf, InferCtxtLike, TypingMode, VisibleForLeakCheck};
use relation_semantics::relate::StructurallyRelateAliases;
use relation_terms::predicate::OutlivesPredicate;
use relation_terms::terms::{
    Const, ConstVid, ErrorGuaranteed, FloatVarValue, FloatVid, IntVarValue, IntVid, Interner,
    OutOfMemory, Region, RegionVid, Span, Ty, TyVid, UniverseIndex, Variance,
};

impl<I: Interner> InferCtxtLike for RefCtxt<I> {
    type Interner = I;

    ghost use Rattle.std.specs.Prelude.{refl};
    ghost use Rattle.variable_tables.specs.Tables.{bindings_by_lists};

    ghost state = { λ c. context_in I.meaning c };

    ghost interner = { λ c. c.interner };

    ghost with_interner = { λ c cx. record c { interner = cx } };

    fn cx(&self) -> &I {
        &self.interner
    }

    fn cx_mut(&mut self) -> &mut I {
        &mut self.interner
    }

    fn lemma_interner_grows(&self) {}

    fn next_trait_solver(&self) -> bool {
        self.inner.next_solver
    }

    fn typing_mode_raw(&self) -> TypingMode<I::Key> {
        self.inner.mode
    }

    fn universe(&self) -> UniverseIndex {
        self.inner.universe
    }

    fn budget_left(&self) -> usize {
        self.inner.budget
    }

    fn universe_of_ty(&self, vid: TyVid) -> Option<UniverseIndex> {
        self.inner.types.universe_of_class(vid.0)
    }

    fn universe_of_lt(&self, vid: RegionVid) -> Option<UniverseIndex> {
        self.inner.regions.universe_of_class(vid.0)
    }

    fn universe_of_ct(&self, vid: ConstVid) -> Option<UniverseIndex> {
        self.inner.consts.universe_of_class(vid.0)
    }

    fn root_ty_var(&self, var: TyVid) -> TyVid {
        TyVid(self.inner.types.root_of(var.0))
    }

    fn sub_unification_table_root_var(&self, var: TyVid) -> TyVid {
        TyVid(self.inner.sub_roots.root(var.0))
    }

    fn root_const_var(&self, var: ConstVid) -> ConstVid {
        ConstVid(self.inner.consts.root_of(var.0))
    }

    fn opportunistic_resolve_ty_var(&self, vid: TyVid) -> Ty<I> {
        self.opportunistic_resolve_ty_var(vid)
    }

    fn opportunistic_resolve_int_var(&self, vid: IntVid) -> Ty<I> {
        self.opportunistic_resolve_int_var(vid)
    }

    fn opportunistic_resolve_float_var(&self, vid: FloatVid) -> Ty<I> {
        self.opportunistic_resolve_float_var(vid)
    }

    fn opportunistic_resolve_ct_var(&self, vid: ConstVid) -> Const<I> {
        self.opportunistic_resolve_ct_var(vid)
    }

    fn opportunistic_resolve_lt_var(&self, vid: RegionVid) -> Region<I> {
        self.inner.regions.key_of(vid.0)
    }

    fn shallow_resolve(&self, ty: &Ty<I>) -> Ty<I> {
        self.shallow_resolve(ty)
    }

    fn shallow_resolve_const(&self, ct: &Const<I>) -> Const<I> {
        self.shallow_resolve_const(ct)
    }

    fn resolve_vars_if_possible<T: TypeFoldable<I>>(
        &mut self,
        value: &T,
    ) -> Result<T, OutOfMemory> {
        self.resolve_vars_if_possible(value)
    }

    fn next_ty_infer(&mut self) -> Result<Ty<I>, OutOfMemory> {
        self.next_ty_infer()
    }

    fn next_const_infer(&mut self) -> Result<Const<I>, OutOfMemory> {
        self.next_const_infer()
    }

    fn next_region_infer(&mut self) -> Result<Region<I>, OutOfMemory> {
        self.next_region_infer()
    }

    fn create_next_universe(&mut self) -> Result<UniverseIndex, OutOfMemory> {
        self.create_next_universe()
    }

    fn enter_forall<T: TypeFoldable<I> + TypeVisitable<I> + Copy>(
        &mut self,
        value: BinderOf<I, T>,
    ) -> Result<T, OutOfMemory>
        requires lawful { (context_in I.meaning self.old).lawful }
        requires value_known { IsTrue (known (binder_tree T.tree (context_in I.meaning self.old).meaning value)) }
        requires value_in { IsBinderIn (context_in I.meaning self.old) T.tree value }
        requires value_binds { BindsByList (binder_tree T.tree (context_in I.meaning self.old).meaning value) }
        ensures grows { Grows (context_in I.meaning self.old) (context_in I.meaning self.new) }
        ensures enters { EntersValue I.meaning self.old self.new T.tree value result }
        ensures marks { KeepsMarks (context_in I.meaning self.old) (context_in I.meaning self.new) }
    {
        self.enter_forall(value)
    }

    fn instantiate_binder_with_infer<T: TypeFoldable<I> + Copy>(
        &mut self,
        value: BinderOf<I, T>,
    ) -> Result<T, OutOfMemory>
        requires lawful { (context_in I.meaning self.old).lawful }
        requires value_known { IsTrue (known (binder_tree T.tree (context_in I.meaning self.old).meaning value)) }
        requires value_in { IsBinderIn (context_in I.meaning self.old) T.tree value }
        requires value_binds { BindsByList (binder_tree T.tree (context_in I.meaning self.old).meaning value) }
        ensures grows { Grows (context_in I.meaning self.old) (context_in I.meaning self.new) }
        ensures instantiates { InstantiatesValue I.meaning self.old self.new T.tree value result }
        ensures marks { KeepsMarks (context_in I.meaning self.old) (context_in I.meaning self.new) }
    {
        self.instantiate_binder_with_infer(value)
    }

    fn equate_ty_vids_raw(&mut self, a: TyVid, b: TyVid) {
        self.equate_ty_vids_raw(a, b);
    }

    fn sub_unify_ty_vids_raw(&mut self, a: TyVid, b: TyVid) {
        self.sub_unify_ty_vids_raw(a, b);
    }

    fn equate_int_vids_raw(&mut self, a: IntVid, b: IntVid) {
        self.equate_int_vids_raw(a, b);
    }

    fn equate_float_vids_raw(&mut self, a: FloatVid, b: FloatVid) {
        self.equate_float_vids_raw(a, b);
    }

    fn equate_const_vids_raw(&mut self, a: ConstVid, b: ConstVid) {
        self.equate_const_vids_raw(a, b);
    }

    fn instantiate_int_var_raw(&mut self, vid: IntVid, value: IntVarValue) {
        self.instantiate_int_var_raw(vid, value);
    }

    fn instantiate_float_var_raw(&mut self, vid: FloatVid, value: FloatVarValue) {
        self.instantiate_float_var_raw(vid, value);
    }

    fn instantiate_ty_var_raw(
        &mut self,
        structurally_relate_aliases: StructurallyRelateAliases,
        target_vid: TyVid,
        instantiation_variance: Variance,
        source_ty: &Ty<I>,
    ) -> RelateResult<I, Ty<I>> {
        let aliases = structurally_relate_aliases;
        self.instantiate_ty_var_raw(aliases, target_vid, instantiation_variance, source_ty)
    }

    fn instantiate_const_var_raw(
        &mut self,
        structurally_relate_aliases: StructurallyRelateAliases,
        target_vid: ConstVid,
        source_ct: &Const<I>,
    ) -> RelateResult<I, Const<I>> {
        self.instantiate_const_var_raw(structurally_relate_aliases, target_vid, source_ct)
    }

    fn sub_regions(
        &mut self,
        sub: &Region<I>,
        sup: &Region<I>,
        _vis: VisibleForLeakCheck,
        _span: Span<I>,
    ) -> Result<(), OutOfMemory> {
        self.sub_regions(sub, sup)
    }

    fn equate_regions(
        &mut self,
        a: &Region<I>,
        b: &Region<I>,
        _vis: VisibleForLeakCheck,
        _span: Span<I>,
    ) -> Result<(), OutOfMemory> {
        self.equate_regions(a, b)
    }

    fn register_ty_outlives(
        &mut self,
        ty: &Ty<I>,
        r: &Region<I>,
        _span: Span<I>,
    ) -> Result<(), OutOfMemory> {
        let outlives = OutlivesPredicate(*ty, *r);
        self.inner.ty_outlives.push(outlives)?;
        Ok(())
    }

    fn set_tainted_by_errors(&mut self, e: ErrorGuaranteed) {
        self.set_tainted_by_errors(e);
    }

    ghost reads = { λ c. refl };

    ghost sound = { λ c l. l.sound };

    ghost numbers = { λ c l. l.numbers_name_nothing };

    ghost bound_by_lists = { λ c l. bindings_by_lists (I.meaning c.interner) c.inner l };

    ghost unmarked = { λ c l. l.sub_rooted.fresh };
}
