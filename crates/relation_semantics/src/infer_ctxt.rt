//! Inference contexts, by what each of their calls does.
ghost use Rattle.std.specs.Prelude.{◌≡◌, ◌≢◌, ◌↔◌, IsTrue};
ghost use Rattle.std.specs.Borrow.{sem, Lends};
ghost use Rattle.term_enums.specs.declared.Variance.TheVariants.{Bivariant};
ghost use Rattle.relation_terms.specs.declared.terms.ty_kind.IntVarValue.TheVariants.{Unknown};
ghost use Rattle.relation_terms.specs.declared.terms.ty_kind.FloatVarValue.TheVariants.{Unknown as UnknownFloat};
ghost use Rattle.relation_terms.specs.Heads.{type_var, int_var, float_var, const_var, region_var, variable};
ghost use Rattle.relation_terms.specs.Trees.{leaf, known};
ghost use Rattle.relation_semantics.specs.Stores.{IsSound, IsMade, IsTermIn};
ghost use Rattle.relation_semantics.specs.Contexts.{Context, KnowsTy, KnowsConst, HasTy, HasConst, HasRegion};
ghost use Rattle.relation_semantics.specs.Contexts.{MarksNoUnmade};
ghost use Rattle.relation_semantics.specs.Bound.{IsWellBound, BindsByList};
ghost use Rattle.relation_semantics.specs.Settings.{in_coherence};
ghost use Rattle.relation_semantics.specs.Steps.{Taints};
ghost use Rattle.relation_semantics.specs.Generalising.{NumbersNameNothing};
ghost use Rattle.relation_semantics.specs.Resolving.{IsShallow, IsShallowTy, IsShallowConst};
ghost use Rattle.relation_semantics.specs.NumberValues.{int_value_tree, float_value_tree};
ghost use Rattle.relation_semantics.specs.ContextCalls.{IsUnresolved, IsRootOf, Reads, Stands, Grows, MakesNext};
ghost use Rattle.relation_semantics.specs.ContextCalls.{OnlyLearns, EntersNext, EquatesTwo, BindsNumber};
ghost use Rattle.relation_semantics.specs.ContextCalls.{ConstrainsOutlives};
ghost use Rattle.relation_semantics.specs.ContextCalls.{ConstrainsEqual, IsNotVariable, BindsTy, BindsConst};
ghost use Rattle.relation_semantics.specs.ContextCalls.{HasUniverse, ComesTo, JoinsRoots, Registers};
ghost use Rattle.relation_semantics.specs.ContextCalls.{BindingsAreWellBound};
ghost use Rattle.relation_semantics.specs.ContextCalls.{KeepsSetup, KeepsMarks, MarksNew};
ghost use Rattle.relation_semantics.specs.Binders.{binder_tree, EntersBinderOf, InstantiatesBinderOf};

use crate::relate::StructurallyRelateAliases;
use relation_folds::error::RelateResult;
use relation_folds::fold::TypeFoldable;
use relation_folds::visit::TypeVisitable;
pub use relation_terms::terms::VisibleForLeakCheck;
use relation_terms::terms::{
    Binder, Const, ConstVid, ErrorGuaranteed, FloatVarValue, FloatVid, IntVarValue, IntVid,
    Interner, Keys, LocalDefIdsKey, OutOfMemory, Region, RegionVid, Span, Ty, TyVid, UniverseIndex,
    Variance,
};

/// A binder of an interner over what stands for a tree.
pub type BinderOf<I, T> = Binder<<I as Keys>::Key, T>;

/// What a context types: it says which opaque types may be looked into, and whether one may still be left open.
///
/// The lists are of the opaque types that a body defines, and in analysis of its coroutines too. Upstream it can't be
/// compared, so that who asks for one mode has to think of each; here the hash asks for that.
#[derive(Clone, Copy, PartialEq, Eq, Hash)]
pub enum TypingMode<X> {
    /// Impls are checked for overlap: nothing is told apart that may be one.
    Coherence,
    /// Items are checked, and the types of a body are inferred.
    Analysis {
        defining_opaque_types_and_generators: LocalDefIdsKey<X>,
    },
    /// The regions of a body are checked.
    Borrowck {
        defining_opaque_types: LocalDefIdsKey<X>,
    },
    /// A body is looked at whose regions were checked.
    PostBorrowckAnalysis {
        defined_opaque_types: LocalDefIdsKey<X>,
    },
    /// After analysis: all opaque types are looked into.
    PostAnalysis,
    /// Any mode but that of coherence: no answer may hang on which.
    ErasedNotCoherence,
}

impl<X> TypingMode<X> {
    /// Whether it is the mode of coherence.
    pub fn is_coherence(&self) -> bool
        ensures { result ≡ in_coherence self.now }
    {
        matches!(self, TypingMode::Coherence)
    }

    /// Whether it was left open which mode it is.
    pub fn is_erased_not_coherence(&self) -> bool
        ensures { IsTrue result ↔ (self.now ≡ TypingMode.ErasedNotCoherence) }
    {
        matches!(self, TypingMode::ErasedNotCoherence)
    }
}

/// An inference context: an interner, and what is recorded of variables and regions.
///
/// Each call says what it does to that, and to the marks of related variables and the types that are to outlive
/// regions, and keeps the context's invariant. The variables that are handed in are the context's, and so are the
/// terms, which its interner knows.
pub trait InferCtxtLike {
    /// The interner of the context's terms.
    type Interner: Interner;

    // The context as it stands.
    ghost state: { Self → Context Self.Interner.Key Self.Interner.Id Self.Interner.Name };

    // The interner of its terms.
    ghost interner: { Self → Self.Interner };

    // The context with another interner.
    ghost with_interner: { Self → Self.Interner → Self };

    /// The interner, to read terms.
    fn cx(&self) -> &Self::Interner
        ensures { Self.Interner.meaning result.now ≡ (state self.now).meaning };

    /// The interner, to make terms.
    fn cx_mut(&mut self) -> &mut Self::Interner
        ensures* lends { sem 𝓛 (Lends Self.row Self.Interner.row self.entry result (with_interner self.entry.now)) }
        ensures value { Self.Interner.meaning result.now ≡ (state self.old).meaning };

    /// Does nothing: it shows that making terms changes nothing of the context but what its interner knows.
    fn lemma_interner_grows(&self)
        ensures { OnlyLearns Self.Interner.meaning state with_interner self.now };

    /// Whether the next trait solver is on, as it is everywhere but in parts of the compiler.
    fn next_trait_solver(&self) -> bool
        ensures { result ≡ (state self.now).setup.is_next_solver };

    /// The typing mode, as it is also where it was left open.
    fn typing_mode_raw(&self) -> TypingMode<<Self::Interner as Keys>::Key>
        ensures { result ≡ (state self.now).setup.typing_mode };

    /// The current universe.
    fn universe(&self) -> UniverseIndex
        ensures { result.0 ≡ ((state self.now).store).universe };

    /// How many instantiations may still be made.
    fn budget_left(&self) -> usize
        ensures { result ≡ ((state self.now).store).budget };

    /// The universe of an unresolved type variable, or none.
    fn universe_of_ty(&self, vid: TyVid) -> Option<UniverseIndex>
        requires lawful { (state self.now).lawful }
        requires made { IsMade (state self.now).store type_var vid.0 }
        ensures { HasUniverse (state self.now) type_var vid.0 result };

    /// The universe of a region variable. None is ever resolved.
    fn universe_of_lt(&self, vid: RegionVid) -> Option<UniverseIndex>
        requires lawful { (state self.now).lawful }
        requires made { IsMade (state self.now).store region_var vid.0 }
        ensures { HasUniverse (state self.now) region_var vid.0 result };

    /// The universe of an unresolved constant variable, or none.
    fn universe_of_ct(&self, vid: ConstVid) -> Option<UniverseIndex>
        requires lawful { (state self.now).lawful }
        requires made { IsMade (state self.now).store const_var vid.0 }
        ensures { HasUniverse (state self.now) const_var vid.0 result };

    /// The root of a type variable's class.
    fn root_ty_var(&self, var: TyVid) -> TyVid
        requires lawful { (state self.now).lawful }
        requires made { IsMade (state self.now).store type_var var.0 }
        ensures { IsRootOf (state self.now) type_var var.0 result.0 };

    /// The root of the class of those that are marked as related to a type variable. No other call asks for it. Two are
    /// marked by `sub_unify_ty_vids_raw`, where they are made one, and where the one takes the place of the other.
    fn sub_unification_table_root_var(&self, var: TyVid) -> TyVid
        requires lawful { (state self.now).lawful }
        requires made { IsMade (state self.now).store type_var var.0 }
        ensures made { IsMade (state self.now).store type_var result.0 }
        ensures root { result.0 ≡ (state self.now).sub_root var.0 }
        ensures own { (state self.now).sub_root result.0 ≡ result.0 };

    /// The root of a constant variable's class.
    fn root_const_var(&self, var: ConstVid) -> ConstVid
        requires lawful { (state self.now).lawful }
        requires made { IsMade (state self.now).store const_var var.0 }
        ensures { IsRootOf (state self.now) const_var var.0 result.0 };

    /// The type that a type variable's class is bound to, or else its root. Of another type variable that is read in
    /// turn.
    fn opportunistic_resolve_ty_var(&self, vid: TyVid) -> Ty<Self::Interner>
        requires lawful { (state self.now).lawful }
        requires made { IsMade (state self.now).store type_var vid.0 }
        ensures reads { let c = state self.now in Reads c (leaf (variable type_var vid.0)) ((c.meaning).ty result) }
        ensures shallow { let c = state self.now in IsShallowTy c.store ((c.meaning).ty result) };

    /// The type that an integer variable's class is bound to, or else its root.
    fn opportunistic_resolve_int_var(&self, vid: IntVid) -> Ty<Self::Interner>
        requires lawful { (state self.now).lawful }
        requires made { IsMade (state self.now).store int_var vid.0 }
        ensures reads { let c = state self.now in Reads c (leaf (variable int_var vid.0)) ((c.meaning).ty result) }
        ensures shallow { let c = state self.now in IsShallow c.store ((c.meaning).ty result) };

    /// The type that a float variable's class is bound to, or else its root.
    fn opportunistic_resolve_float_var(&self, vid: FloatVid) -> Ty<Self::Interner>
        requires lawful { (state self.now).lawful }
        requires made { IsMade (state self.now).store float_var vid.0 }
        ensures reads { let c = state self.now in Reads c (leaf (variable float_var vid.0)) ((c.meaning).ty result) }
        ensures shallow { let c = state self.now in IsShallow c.store ((c.meaning).ty result) };

    /// The constant that a constant variable's class is bound to, or else its root.
    fn opportunistic_resolve_ct_var(&self, vid: ConstVid) -> Const<Self::Interner>
        requires lawful { (state self.now).lawful }
        requires made { IsMade (state self.now).store const_var vid.0 }
        ensures reads { let c = state self.now in Reads c (leaf (variable const_var vid.0)) (c.meaning.const_ result) }
        ensures shallow { let c = state self.now in IsShallowConst c.store ((c.meaning).const_ result) };

    /// The region of a region variable: itself, since regions are only constrained.
    fn opportunistic_resolve_lt_var(&self, vid: RegionVid) -> Region<Self::Interner>
        requires lawful { (state self.now).lawful }
        requires made { IsMade (state self.now).store region_var vid.0 }
        ensures reads { let c = state self.now in Reads c (leaf (variable region_var vid.0)) (c.meaning.region result) }
        ensures itself { ((state self.now).meaning).region result ≡ leaf (variable region_var vid.0) };

    /// The type itself, or for a variable what its class is bound to, or else its root. Of another variable that is
    /// read in turn. It takes no memory.
    fn shallow_resolve(&self, ty: &Ty<Self::Interner>) -> Ty<Self::Interner>
        requires lawful { (state self.now).lawful }
        requires ty_known { KnowsTy (state self.now) ty.now }
        requires ty_in { HasTy (state self.now) ty.now }
        ensures reads { let c = state self.now in Reads c ((c.meaning).ty ty.now) ((c.meaning).ty result) }
        ensures shallow { let c = state self.now in IsShallow c.store ((c.meaning).ty result) };

    /// The constant itself, or for a variable what its class is bound to, or else its root. It takes no memory.
    fn shallow_resolve_const(&self, ct: &Const<Self::Interner>) -> Const<Self::Interner>
        requires lawful { (state self.now).lawful }
        requires ct_known { KnowsConst (state self.now) ct.now }
        requires ct_in { HasConst (state self.now) ct.now }
        ensures reads { let c = state self.now in Reads c ((c.meaning).const_ ct.now) ((c.meaning).const_ result) }
        ensures shallow { let c = state self.now in IsShallowConst c.store ((c.meaning).const_ result) };

    /// What is handed in with each variable that has a term replaced by it, at every depth, and each other by its root.
    /// Nothing is recorded.
    fn resolve_vars_if_possible<T: TypeFoldable<Self::Interner>>(
        &mut self,
        value: &T,
    ) -> Result<T, OutOfMemory>
        requires lawful { (state self.old).lawful }
        requires value_known { IsTrue (known (T.tree (state self.old).meaning value.now)) }
        requires value_in { IsTermIn (state self.old).store (T.tree (state self.old).meaning value.now) }
        ensures grows { Grows (state self.old) (state self.new) }
        ensures same_record { (state self.new).store ≡ (state self.old).store }
        ensures comes { ComesTo (state self.old) (state self.new) T.tree value.now result }
        ensures marks { KeepsMarks (state self.old) (state self.new) };

    /// A new type variable in the current universe, which is marked as related to no other. After `OutOfMemory` no
    /// variable was made.
    fn next_ty_infer(&mut self) -> Result<Ty<Self::Interner>, OutOfMemory>
        requires lawful { (state self.old).lawful }
        ensures grows { Grows (state self.old) (state self.new) }
        ensures makes { MakesNext (state self.old) (state self.new) type_var (λ m. m.ty) result }
        ensures marks { KeepsMarks (state self.old) (state self.new) };

    /// A new constant variable in the current universe. After `OutOfMemory` no variable was made.
    fn next_const_infer(&mut self) -> Result<Const<Self::Interner>, OutOfMemory>
        requires lawful { (state self.old).lawful }
        ensures grows { Grows (state self.old) (state self.new) }
        ensures makes { MakesNext (state self.old) (state self.new) const_var (λ m. m.const_) result }
        ensures marks { KeepsMarks (state self.old) (state self.new) };

    /// A new region variable in the current universe. After `OutOfMemory` no variable was made.
    fn next_region_infer(&mut self) -> Result<Region<Self::Interner>, OutOfMemory>
        requires lawful { (state self.old).lawful }
        ensures grows { Grows (state self.old) (state self.new) }
        ensures makes { MakesNext (state self.old) (state self.new) region_var (λ m. m.region) result }
        ensures marks { KeepsMarks (state self.old) (state self.new) };

    /// A new universe, above all earlier ones, and the current one from then on. After `OutOfMemory` there is none.
    fn create_next_universe(&mut self) -> Result<UniverseIndex, OutOfMemory>
        requires lawful { (state self.old).lawful }
        ensures stands { Stands (state self.old) (state self.new) }
        ensures enters { EntersNext (state self.old) (state self.new) result }
        ensures marks { KeepsMarks (state self.old) (state self.new) };

    /// The body of a binder, with placeholders for what the binder binds. They are of a new universe, above all earlier
    /// ones, which is the current one from then on. A body that uses nothing of its binder is answered as it is, and no
    /// universe is made. After `OutOfMemory` none was made either.
    fn enter_forall<T: TypeFoldable<Self::Interner> + TypeVisitable<Self::Interner> + Copy>(
        &mut self,
        value: BinderOf<Self::Interner, T>,
    ) -> Result<T, OutOfMemory>
        requires lawful { (state self.old).lawful }
        requires value_known { IsTrue (known (binder_tree T.tree (state self.old).meaning value)) }
        requires value_in { IsTermIn (state self.old).store (binder_tree T.tree (state self.old).meaning value) }
        requires value_binds { BindsByList (binder_tree T.tree (state self.old).meaning value) }
        ensures grows { Grows (state self.old) (state self.new) }
        ensures enters { EntersBinderOf (state self.old) (state self.new) T.tree value result }
        ensures marks { KeepsMarks (state self.old) (state self.new) };

    /// The body of a binder, with new variables of the current universe for what the binder binds: one for each place
    /// of its list, in that order, also where the body uses none. After `OutOfMemory` some may have been made, of which
    /// nothing is recorded.
    fn instantiate_binder_with_infer<T: TypeFoldable<Self::Interner> + Copy>(
        &mut self,
        value: BinderOf<Self::Interner, T>,
    ) -> Result<T, OutOfMemory>
        requires lawful { (state self.old).lawful }
        requires value_known { IsTrue (known (binder_tree T.tree (state self.old).meaning value)) }
        requires value_in { IsTermIn (state self.old).store (binder_tree T.tree (state self.old).meaning value) }
        requires value_binds { BindsByList (binder_tree T.tree (state self.old).meaning value) }
        ensures grows { Grows (state self.old) (state self.new) }
        ensures instantiates { InstantiatesBinderOf (state self.old) (state self.new) T.tree value result }
        ensures marks { KeepsMarks (state self.old) (state self.new) };

    /// Makes two unresolved type variables one. The smaller number is the root, with the smaller of both universes.
    /// Both are marked as related too.
    fn equate_ty_vids_raw(&mut self, a: TyVid, b: TyVid)
        requires lawful { (state self.old).lawful }
        requires a_unresolved { IsUnresolved (state self.old) type_var a.0 }
        requires b_unresolved { IsUnresolved (state self.old) type_var b.0 }
        ensures equates { EquatesTwo (state self.old) (state self.new) type_var a.0 b.0 }
        ensures marks { JoinsRoots (state self.old).sub_root (state self.new).sub_root a.0 b.0 };

    /// Marks two type variables as related, with all that either is related to: the smaller of both roots is that of
    /// all of them. Nothing else is recorded.
    fn sub_unify_ty_vids_raw(&mut self, a: TyVid, b: TyVid)
        requires lawful { (state self.old).lawful }
        requires a_made { IsMade (state self.old).store type_var a.0 }
        requires b_made { IsMade (state self.old).store type_var b.0 }
        ensures stands { Stands (state self.old) (state self.new) }
        ensures same_record { (state self.new).store ≡ (state self.old).store }
        ensures marks { JoinsRoots (state self.old).sub_root (state self.new).sub_root a.0 b.0 };

    /// Makes two unresolved integer variables one. The smaller number is the root, with the smaller of both universes.
    fn equate_int_vids_raw(&mut self, a: IntVid, b: IntVid)
        requires lawful { (state self.old).lawful }
        requires a_unresolved { IsUnresolved (state self.old) int_var a.0 }
        requires b_unresolved { IsUnresolved (state self.old) int_var b.0 }
        ensures equates { EquatesTwo (state self.old) (state self.new) int_var a.0 b.0 }
        ensures marks { KeepsMarks (state self.old) (state self.new) };

    /// Makes two unresolved float variables one. The smaller number is the root, with the smaller of both universes.
    fn equate_float_vids_raw(&mut self, a: FloatVid, b: FloatVid)
        requires lawful { (state self.old).lawful }
        requires a_unresolved { IsUnresolved (state self.old) float_var a.0 }
        requires b_unresolved { IsUnresolved (state self.old) float_var b.0 }
        ensures equates { EquatesTwo (state self.old) (state self.new) float_var a.0 b.0 }
        ensures marks { KeepsMarks (state self.old) (state self.new) };

    /// Makes two unresolved constant variables one. The smaller number is the root, with the smaller of both universes.
    fn equate_const_vids_raw(&mut self, a: ConstVid, b: ConstVid)
        requires lawful { (state self.old).lawful }
        requires a_unresolved { IsUnresolved (state self.old) const_var a.0 }
        requires b_unresolved { IsUnresolved (state self.old) const_var b.0 }
        ensures equates { EquatesTwo (state self.old) (state self.new) const_var a.0 b.0 }
        ensures marks { KeepsMarks (state self.old) (state self.new) };

    /// Binds an unresolved integer variable to an integer type, for nothing of the budget.
    fn instantiate_int_var_raw(&mut self, vid: IntVid, value: IntVarValue)
        requires lawful { (state self.old).lawful }
        requires unresolved { IsUnresolved (state self.old) int_var vid.0 }
        requires value_known { value ≢ Unknown }
        ensures binds { BindsNumber (state self.old) (state self.new) int_var vid.0 (int_value_tree value) }
        ensures marks { KeepsMarks (state self.old) (state self.new) };

    /// Binds an unresolved float variable to a float type, for nothing of the budget.
    fn instantiate_float_var_raw(&mut self, vid: FloatVid, value: FloatVarValue)
        requires lawful { (state self.old).lawful }
        requires unresolved { IsUnresolved (state self.old) float_var vid.0 }
        requires value_known { value ≢ UnknownFloat }
        ensures binds { BindsNumber (state self.old) (state self.new) float_var vid.0 (float_value_tree value) }
        ensures marks { KeepsMarks (state self.old) (state self.new) };

    /// Binds an unresolved type variable, at a variance, to what a type comes to, generalised for what the variable can
    /// name, for one of the budget, and answers the bound type. The type is no type variable, and its binders bind by
    /// their lists. Where aliases aren't related structurally, an alias in which the variable stands, or what it can't
    /// name, gives way to a new type variable.
    ///
    /// # Errors
    /// `Budget` where no instantiation is left; `CyclicTy` where the variable stands in what the type comes to,
    /// `Mismatch` where a placeholder does that the variable can't name, outside of aliases that give way; `Memory`
    /// where a growth was refused. Then nothing was bound, though variables may have been made on the way, but for
    /// `Budget`.
    ///
    /// A type variable that is made on the way is marked as related to the one that it takes the place of, and one that
    /// takes an alias's to none.
    fn instantiate_ty_var_raw(
        &mut self,
        structurally_relate_aliases: StructurallyRelateAliases,
        target_vid: TyVid,
        instantiation_variance: Variance,
        source_ty: &Ty<Self::Interner>,
    ) -> RelateResult<Self::Interner, Ty<Self::Interner>>
        requires lawful { (state self.old).lawful }
        requires decides { instantiation_variance ≢ Bivariant }
        requires target_unresolved { IsUnresolved (state self.old) type_var target_vid.0 }
        requires source_known { KnowsTy (state self.old) source_ty.now }
        requires source_in { HasTy (state self.old) source_ty.now }
        requires source_by_lists { IsWellBound (((state self.old).meaning).ty source_ty.now) }
        requires source_no_variable { IsNotVariable type_var (((state self.old).meaning).ty source_ty.now) }
        ensures grows { Grows (state self.old) (state self.new) }
        ensures instantiates { let g = structurally_relate_aliases in let v = instantiation_variance in
            BindsTy g state self.old self.new v target_vid source_ty.now result }
        ensures rest { MarksNew (state self.old) (state self.new) };

    /// The same of a constant variable and a constant that is no variable, at `Invariant`, with `CyclicConst`.
    fn instantiate_const_var_raw(
        &mut self,
        structurally_relate_aliases: StructurallyRelateAliases,
        target_vid: ConstVid,
        source_ct: &Const<Self::Interner>,
    ) -> RelateResult<Self::Interner, Const<Self::Interner>>
        requires lawful { (state self.old).lawful }
        requires target_unresolved { IsUnresolved (state self.old) const_var target_vid.0 }
        requires source_known { KnowsConst (state self.old) source_ct.now }
        requires source_in { HasConst (state self.old) source_ct.now }
        requires source_by_lists { IsWellBound (((state self.old).meaning).const_ source_ct.now) }
        requires source_no_variable { IsNotVariable const_var (((state self.old).meaning).const_ source_ct.now) }
        ensures grows { Grows (state self.old) (state self.new) }
        ensures instantiates { let g = structurally_relate_aliases in
            BindsConst g state self.old self.new target_vid source_ct.now result }
        ensures rest { MarksNew (state self.old) (state self.new) };

    /// Records that `sup` outlives `sub`. After `OutOfMemory` nothing was recorded.
    fn sub_regions(
        &mut self,
        sub: &Region<Self::Interner>,
        sup: &Region<Self::Interner>,
        vis: VisibleForLeakCheck,
        span: Span<Self::Interner>,
    ) -> Result<(), OutOfMemory>
        requires lawful { (state self.old).lawful }
        requires sub_in { HasRegion (state self.old) sub.now }
        requires sup_in { HasRegion (state self.old) sup.now }
        ensures stands { Stands (state self.old) (state self.new) }
        ensures constrains { ConstrainsOutlives (state self.old) (state self.new) sup.now sub.now result }
        ensures marks { KeepsMarks (state self.old) (state self.new) };

    /// Records that two regions outlive each other, also where both are one. After `OutOfMemory` nothing was recorded.
    fn equate_regions(
        &mut self,
        a: &Region<Self::Interner>,
        b: &Region<Self::Interner>,
        vis: VisibleForLeakCheck,
        span: Span<Self::Interner>,
    ) -> Result<(), OutOfMemory>
        requires lawful { (state self.old).lawful }
        requires a_in { HasRegion (state self.old) a.now }
        requires b_in { HasRegion (state self.old) b.now }
        ensures stands { Stands (state self.old) (state self.new) }
        ensures constrains { ConstrainsEqual (state self.old) (state self.new) a.now b.now result }
        ensures marks { KeepsMarks (state self.old) (state self.new) };

    /// Registers that a type is to outlive a region, behind what was registered before. Nothing else is recorded. After
    /// `OutOfMemory` nothing was registered.
    fn register_ty_outlives(
        &mut self,
        ty: &Ty<Self::Interner>,
        r: &Region<Self::Interner>,
        span: Span<Self::Interner>,
    ) -> Result<(), OutOfMemory>
        requires { (state self.old).lawful }
        ensures meaning { (state self.new).meaning ≡ (state self.old).meaning }
        ensures lawful { (state self.new).lawful }
        ensures same_record { (state self.new).store ≡ (state self.old).store }
        ensures setup { KeepsSetup (state self.old) (state self.new) }
        ensures marks { KeepsMarks (state self.old) (state self.new) }
        ensures registers { Registers (state self.old).outliving (state self.new).outliving ty.now r.now result };

    /// Records that an error was met. Nothing else is.
    fn set_tainted_by_errors(&mut self, e: ErrorGuaranteed)
        requires { (state self.old).lawful }
        ensures stands { Stands (state self.old) (state self.new) }
        ensures taints { Taints (state self.old).store (state self.new).store }
        ensures marks { KeepsMarks (state self.old) (state self.new) };

    // Its keys mean what they mean to the interner.
    ghost reads: { (c : Self) → (state c).meaning ≡ Self.Interner.meaning (interner c) };

    // What a lawful context has recorded is sound.
    ghost sound: { (c : Self) → (state c).lawful → IsSound (state c).store };

    // Its variables of numbers name nothing.
    ghost numbers: { (c : Self) → (state c).lawful → NumbersNameNothing (state c).store };

    // In what its variables are bound to, binders bind by their lists.
    ghost bound_by_lists: { (c : Self) → (state c).lawful → BindingsAreWellBound (state c).store };

    // A type variable that is not made is marked as related to no other, so that neither is one that was just made.
    ghost unmarked: { (c : Self) → (state c).lawful → MarksNoUnmade (state c) };
}
