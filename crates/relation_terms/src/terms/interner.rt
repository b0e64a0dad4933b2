//! What makes and reads keys.
ghost use Rattle.std.specs.Prelude.{◌≡◌, IsTrue, IfOk, OnErr, Some, IsSome, map};
ghost use Rattle.std.specs.Option.{option_map};
ghost use Rattle.relation_terms.specs.Heads.{environment};
ghost use Rattle.relation_terms.specs.Flags.{flags_of};
ghost use Rattle.relation_terms.specs.Trees.{known, list_tree, node, nil};
ghost use Rattle.relation_terms.specs.Meaning.{Meaning, Extends, kind_tree, region_tree, const_tree, valtree_tree};
ghost use Rattle.relation_terms.specs.Meaning.{arg_tree, pattern_tree, object_predicate_tree, bound_kinds};
ghost use Rattle.relation_terms.specs.Interning.{AreEqualAsTrees, AreEqualAsNumbers, Sorted, RemakesTy};
ghost use Rattle.relation_terms.specs.Interning.{RemakesRegion, RemakesConst, RemakesValTree, RemakesEmptyEnv};
ghost use Rattle.relation_terms.specs.Interning.{RemakesPat, MakesAlternatives, KeepsAlternatives};
ghost use Rattle.relation_terms.specs.Interning.{MakesTys, MakesArgs, MakesBranches, KeepsTys, KeepsArgs};
ghost use Rattle.relation_terms.specs.Interning.{KeepsBranches, MakesPredicates, KeepsPredicates, MakesBoundVars};
ghost use Rattle.relation_terms.specs.Interning.{KeepsBoundVars, AreEqualAsKinds};
ghost use Rattle.relation_terms.specs.Predicates.{predicate_tree, clause_tree};
ghost use Rattle.relation_terms.specs.Predicates.{item_alias_variances, item_parent, item_alias};
ghost use Rattle.relation_terms.specs.Interning.{FindsClause, RemakesPredicate, RemakesClause, MakesClauses};
ghost use Rattle.relation_terms.specs.Interning.{KeepsClauses, RemakesEnv, MakesEnv, ReadsPredicates};
ghost use Rattle.relation_terms.specs.Interning.{IsEnvironmentOf, MakesPredicate};
ghost use Rattle.relation_terms.specs.Owned.{StatesItsOwn, param_of};

use crate::predicate::{AliasTermKind, ClauseForm, ObjectPredicate, PredicateForm, TraitRef};
use crate::terms::{
    Alternatives, Binder, BoundVariable, BoundVars, Branches, Clause, Clauses, Const, ConstForm,
    ExistentialPredicates, GenericArg, GenericArgs, GenericParam, ItemOf, Keys, OutOfMemory,
    ParamEnv, Pat, PatternForm, Predicate, Region, RegionForm, SolverTraitLangItem, Span, Symbol,
    TraitAssocTermId, TraitId, Ty, TyForm, TypeFlags, Tys, ValTree, ValTreeForm, Variance,
};
use std::alloc::Global;

/// What gives out keys for terms, and reads them.
///
/// A key means a finite tree, and an item has a count of generic parameters and a list of variances. The calls that
/// read ask for keys that the interner knows and take no memory. The calls that make answer `OutOfMemory` where a
/// growth was refused, which leaves the meaning of all keys as it was; what is there already is not made again.
pub trait Interner: Keys {
    ghost meaning: { Self → Meaning Self.Key Self.Id Self.Name };

    /// The allocator by which all calls grow.
    fn alloc(&self) -> Global;

    /// The place that stands for no place.
    fn dummy_span(&self) -> Span<Self>;

    /// The outermost form of a type.
    fn ty_kind(&self, ty: &Ty<Self>) -> TyForm<Self>
        requires { IsTrue (known ((meaning self.now).ty ty.now)) }
        ensures { (meaning self.now).ty ty.now ≡ kind_tree (meaning self.now) result };

    /// The form of a region.
    fn region_kind(&self, region: &Region<Self>) -> RegionForm<Self>
        requires { IsTrue (known ((meaning self.now).region region.now)) }
        ensures { (meaning self.now).region region.now ≡ region_tree (meaning self.now) result };

    /// The types of a list.
    fn tys(&self, tys: &Tys<Self>) -> &[Ty<Self>]
        requires { IsTrue (known ((meaning self.now).tys tys.now)) }
        ensures { (meaning self.now).tys tys.now ≡ list_tree (meaning self.now).ty result.now };

    /// The outermost form of a constant.
    fn const_kind(&self, constant: &Const<Self>) -> ConstForm<Self>
        requires { IsTrue (known ((meaning self.now).const_ constant.now)) }
        ensures { (meaning self.now).const_ constant.now ≡ const_tree (meaning self.now) result };

    /// What is asked of a type as a whole.
    fn ty_flags(&self, ty: &Ty<Self>) -> TypeFlags
        requires { IsTrue (known ((meaning self.now).ty ty.now)) }
        ensures { result ≡ flags_of ((meaning self.now).ty ty.now) };

    /// What is asked of a constant as a whole.
    fn const_flags(&self, constant: &Const<Self>) -> TypeFlags
        requires { IsTrue (known ((meaning self.now).const_ constant.now)) }
        ensures { result ≡ flags_of ((meaning self.now).const_ constant.now) };

    /// What is asked of a pattern as a whole.
    fn pat_flags(&self, pat: &Pat<Self>) -> TypeFlags
        requires { IsTrue (known ((meaning self.now).pat pat.now)) }
        ensures { result ≡ flags_of ((meaning self.now).pat pat.now) };

    /// The outermost form of a value tree.
    fn valtree_kind(&self, valtree: &ValTree<Self>) -> ValTreeForm<Self>
        requires { IsTrue (known ((meaning self.now).valtree valtree.now)) }
        ensures { (meaning self.now).valtree valtree.now ≡ valtree_tree (meaning self.now) result };

    /// The outermost form of a pattern.
    fn pat_kind(&self, pat: &Pat<Self>) -> PatternForm<Self>
        requires { IsTrue (known ((meaning self.now).pat pat.now)) }
        ensures { (meaning self.now).pat pat.now ≡ pattern_tree (meaning self.now) result };

    /// The arguments of a list.
    fn args(&self, args: &GenericArgs<Self>) -> &[GenericArg<Self>]
        requires { IsTrue (known ((meaning self.now).args args.now)) }
        ensures { (meaning self.now).args args.now ≡ list_tree (arg_tree (meaning self.now)) result.now };

    /// The constants that a value is made of.
    fn branches(&self, branches: &Branches<Self>) -> &[Const<Self>]
        requires { IsTrue (known ((meaning self.now).branches branches.now)) }
        ensures { (meaning self.now).branches branches.now ≡ list_tree (meaning self.now).const_ result.now };

    /// The patterns of a list.
    fn alternatives(&self, alternatives: &Alternatives<Self>) -> &[Pat<Self>]
        requires { IsTrue (known ((meaning self.now).alternatives alternatives.now)) }
        ensures { (meaning self.now).alternatives alternatives.now ≡ list_tree (meaning self.now).pat result.now };

    /// The predicates of a trait object.
    fn existential_predicates(
        &self,
        predicates: &ExistentialPredicates<Self>,
    ) -> &[ObjectPredicate<Self>]
        requires { IsTrue (known ((meaning self.now).existential_predicates predicates.now)) }
        ensures { ReadsPredicates (meaning self.now) predicates.now result.now };

    /// The variables of a binder.
    fn bound_vars(&self, bound_vars: &BoundVars<Self>) -> &[BoundVariable<Self>]
        requires { IsSome ((meaning self.now).bound_vars bound_vars.now) }
        ensures { (meaning self.now).bound_vars bound_vars.now ≡ Some (bound_kinds (meaning self.now) result.now) };

    /// The outermost form of a predicate, under its binder.
    fn predicate_kind(&self, predicate: &Predicate<Self>) -> PredicateForm<Self>
        requires { IsTrue (known ((meaning self.now).predicate predicate.now)) }
        ensures { (meaning self.now).predicate predicate.now ≡ predicate_tree (meaning self.now) result };

    /// The outermost form of a clause, under its binder.
    fn clause_kind(&self, clause: &Clause<Self>) -> ClauseForm<Self>
        requires { IsTrue (known ((meaning self.now).clause clause.now)) }
        ensures { (meaning self.now).clause clause.now ≡ clause_tree (meaning self.now) result };

    /// The predicate that a clause is.
    fn clause_as_predicate(&self, clause: &Clause<Self>) -> Predicate<Self>
        requires { IsTrue (known ((meaning self.now).clause clause.now)) }
        ensures { (meaning self.now).predicate result ≡ (meaning self.now).clause clause.now };

    /// The clause that a predicate is, and `None` exactly where it is none.
    fn predicate_as_clause(&self, predicate: &Predicate<Self>) -> Option<Clause<Self>>
        requires { IsTrue (known ((meaning self.now).predicate predicate.now)) }
        ensures { FindsClause (meaning self.now) predicate.now result };

    /// The clauses of a list.
    fn clauses(&self, clauses: &Clauses<Self>) -> &[Clause<Self>]
        requires { IsTrue (known ((meaning self.now).clauses clauses.now)) }
        ensures { (meaning self.now).clauses clauses.now ≡ list_tree (meaning self.now).clause result.now };

    /// The list of an environment's clauses.
    fn caller_bounds(&self, param_env: &ParamEnv<Self>) -> Clauses<Self>
        requires { IsTrue (known ((meaning self.now).param_env param_env.now)) }
        ensures { IsEnvironmentOf (meaning self.now) param_env.now result };

    /// How many generic parameters an item has.
    fn generics_count(&self, def_id: &ItemOf<Self>) -> usize
        ensures { result ≡ (meaning self.now).generics ((meaning self.now).id (def_id.now).0) };

    /// The variances that are declared of an item's generic parameters.
    fn variances_of(&self, def_id: &ItemOf<Self>) -> &[Variance]
        ensures { result.now ≡ (meaning self.now).variances ((meaning self.now).id (def_id.now).0) };

    /// The variances at which an alias type of an item is related, and `None` where it has none of its own.
    fn opt_alias_variances(&self, def_id: &ItemOf<Self>) -> Option<&[Variance]>
        ensures { option_map (λ list. list.now) result ≡ item_alias_variances (meaning self.now) (def_id.now).0 };

    /// The trait that declares an associated type or constant, and `None` where no trait declares the item.
    fn projection_parent(&self, def_id: &TraitAssocTermId<Self::Id>) -> Option<TraitId<Self::Id>>
        ensures { option_map (λ t. (meaning self.now).id t.0) result ≡ item_parent (meaning self.now) (def_id.now).0 };

    /// Whether a trait is an auto trait.
    fn trait_is_auto(&self, trait_id: &TraitId<Self::Id>) -> bool
        ensures { let m = meaning self.now in result ≡ (m.tables).is_auto (m.id (trait_id.now).0) };

    /// Whether a trait is the one that the language knows as this.
    fn is_trait_lang_item(
        &self,
        trait_id: &TraitId<Self::Id>,
        lang_item: SolverTraitLangItem,
    ) -> bool
        ensures { let m = meaning self.now in result ≡ (m.tables).is_lang_item (m.id (trait_id.now).0) lang_item };

    /// Which kind of alias an item is, and `None` where it is none.
    fn alias_term_kind_from_def_id(&self, def_id: &ItemOf<Self>) -> Option<AliasTermKind<Self::Id>>
        ensures { result ≡ item_alias (meaning self.now) (def_id.now).0 };

    /// Whether the next solver is on everywhere.
    fn next_trait_solver_globally(&self) -> bool
        ensures { result ≡ ((meaning self.now).tables).next_solver };

    /// The super-predicates of a trait, each with its place.
    fn explicit_super_predicates_of(
        &self,
        trait_id: &TraitId<Self::Id>,
    ) -> &[(Clause<Self>, Span<Self>)]
        ensures { let m = meaning self.now in
            map (λ p. p.0) result.now ≡ (m.tables).super_predicates (m.id (trait_id.now).0) };

    /// All predicates that a trait implies, each with its place.
    fn explicit_implied_predicates_of(
        &self,
        trait_id: &TraitId<Self::Id>,
    ) -> &[(Clause<Self>, Span<Self>)]
        ensures { let m = meaning self.now in
            map (λ p. p.0) result.now ≡ (m.tables).implied_predicates (m.id (trait_id.now).0) };

    /// The const bounds of a trait.
    fn explicit_implied_const_bounds(
        &self,
        trait_id: &TraitId<Self::Id>,
    ) -> &[Binder<Self::Key, TraitRef<Self::Key, Self::Id>>]
        ensures { let m = meaning self.now in result.now ≡ (m.tables).const_bounds (m.id (trait_id.now).0) };

    /// The generic parameters of an item, in order.
    fn generics_of(&self, def_id: &ItemOf<Self>) -> &[GenericParam<Self::Name>]
        ensures { let m = meaning self.now in
            map (param_of m) result.now ≡ (m.tables).params (m.id (def_id.now).0) };

    /// The name that stands for no name.
    fn dummy_name(&self) -> Symbol<Self>;

    /// The type of an outermost form.
    fn mk_ty(&mut self, kind: TyForm<Self>) -> Result<Ty<Self>, OutOfMemory>
        requires { IsTrue (known (kind_tree (meaning self.old) kind)) }
        ensures grown { Extends (meaning self.old) (meaning self.new) }
        ensures sure { IfOk result (λ k. IsTrue (known ((meaning self.new).ty k))) }
        ensures made { IfOk result (λ k. (meaning self.new).ty k ≡ kind_tree (meaning self.old) kind) }
        ensures refused { OnErr result (meaning self.new ≡ meaning self.old) }
        ensures there { RemakesTy (meaning self.old) (meaning self.new) kind result };

    /// The region of a form.
    fn mk_region(&mut self, kind: RegionForm<Self>) -> Result<Region<Self>, OutOfMemory>
        ensures grown { Extends (meaning self.old) (meaning self.new) }
        ensures sure { IfOk result (λ k. IsTrue (known ((meaning self.new).region k))) }
        ensures made { IfOk result (λ k. (meaning self.new).region k ≡ region_tree (meaning self.old) kind) }
        ensures refused { OnErr result (meaning self.new ≡ meaning self.old) }
        ensures there { RemakesRegion (meaning self.old) (meaning self.new) kind result };

    /// The list of types.
    fn mk_type_list(&mut self, tys: &[Ty<Self>]) -> Result<Tys<Self>, OutOfMemory>
        requires { IsTrue (known (list_tree (meaning self.old).ty tys.now)) }
        ensures grown { Extends (meaning self.old) (meaning self.new) }
        ensures sure { IfOk result (λ k. IsTrue (known ((meaning self.new).tys k))) }
        ensures made { MakesTys (meaning self.old) (meaning self.new) tys.now result }
        ensures refused { OnErr result (meaning self.new ≡ meaning self.old) }
        ensures there { KeepsTys (meaning self.old) (meaning self.new) tys.now };

    /// The constant of an outermost form.
    fn mk_const(&mut self, kind: ConstForm<Self>) -> Result<Const<Self>, OutOfMemory>
        requires { IsTrue (known (const_tree (meaning self.old) kind)) }
        ensures grown { Extends (meaning self.old) (meaning self.new) }
        ensures sure { IfOk result (λ k. IsTrue (known ((meaning self.new).const_ k))) }
        ensures made { IfOk result (λ k. (meaning self.new).const_ k ≡ const_tree (meaning self.old) kind) }
        ensures refused { OnErr result (meaning self.new ≡ meaning self.old) }
        ensures there { RemakesConst (meaning self.old) (meaning self.new) kind result };

    /// The value tree of an outermost form.
    fn mk_valtree(&mut self, kind: ValTreeForm<Self>) -> Result<ValTree<Self>, OutOfMemory>
        requires { IsTrue (known (valtree_tree (meaning self.old) kind)) }
        ensures grown { Extends (meaning self.old) (meaning self.new) }
        ensures sure { IfOk result (λ k. IsTrue (known ((meaning self.new).valtree k))) }
        ensures made { IfOk result (λ k. (meaning self.new).valtree k ≡ valtree_tree (meaning self.old) kind) }
        ensures refused { OnErr result (meaning self.new ≡ meaning self.old) }
        ensures there { RemakesValTree (meaning self.old) (meaning self.new) kind result };

    /// The pattern of an outermost form.
    fn mk_pat(&mut self, kind: PatternForm<Self>) -> Result<Pat<Self>, OutOfMemory>
        requires { IsTrue (known (pattern_tree (meaning self.old) kind)) }
        ensures grown { Extends (meaning self.old) (meaning self.new) }
        ensures sure { IfOk result (λ k. IsTrue (known ((meaning self.new).pat k))) }
        ensures made { IfOk result (λ k. (meaning self.new).pat k ≡ pattern_tree (meaning self.old) kind) }
        ensures refused { OnErr result (meaning self.new ≡ meaning self.old) }
        ensures there { RemakesPat (meaning self.old) (meaning self.new) kind result };

    /// The list of arguments.
    fn mk_args(&mut self, args: &[GenericArg<Self>]) -> Result<GenericArgs<Self>, OutOfMemory>
        requires { IsTrue (known (list_tree (arg_tree (meaning self.old)) args.now)) }
        ensures grown { Extends (meaning self.old) (meaning self.new) }
        ensures sure { IfOk result (λ k. IsTrue (known ((meaning self.new).args k))) }
        ensures made { MakesArgs (meaning self.old) (meaning self.new) args.now result }
        ensures refused { OnErr result (meaning self.new ≡ meaning self.old) }
        ensures there { KeepsArgs (meaning self.old) (meaning self.new) args.now };

    /// The list of the constants that a value is made of.
    fn mk_branches(&mut self, branches: &[Const<Self>]) -> Result<Branches<Self>, OutOfMemory>
        requires { IsTrue (known (list_tree (meaning self.old).const_ branches.now)) }
        ensures grown { Extends (meaning self.old) (meaning self.new) }
        ensures sure { IfOk result (λ k. IsTrue (known ((meaning self.new).branches k))) }
        ensures made { MakesBranches (meaning self.old) (meaning self.new) branches.now result }
        ensures refused { OnErr result (meaning self.new ≡ meaning self.old) }
        ensures there { KeepsBranches (meaning self.old) (meaning self.new) branches.now };

    /// The list of patterns, alternatives of one.
    fn mk_alternatives(
        &mut self,
        alternatives: &[Pat<Self>],
    ) -> Result<Alternatives<Self>, OutOfMemory>
        requires { IsTrue (known (list_tree (meaning self.old).pat alternatives.now)) }
        ensures grown { Extends (meaning self.old) (meaning self.new) }
        ensures sure { IfOk result (λ k. IsTrue (known ((meaning self.new).alternatives k))) }
        ensures made { MakesAlternatives (meaning self.old) (meaning self.new) alternatives.now result }
        ensures refused { OnErr result (meaning self.new ≡ meaning self.old) }
        ensures there { KeepsAlternatives (meaning self.old) (meaning self.new) alternatives.now };

    /// The list of a trait object's predicates.
    fn mk_existential_predicates(
        &mut self,
        predicates: &[ObjectPredicate<Self>],
    ) -> Result<ExistentialPredicates<Self>, OutOfMemory>
        requires { IsTrue (known (list_tree (object_predicate_tree (meaning self.old)) predicates.now)) }
        ensures grown { Extends (meaning self.old) (meaning self.new) }
        ensures sure { IfOk result (λ k. IsTrue (known ((meaning self.new).existential_predicates k))) }
        ensures made { MakesPredicates (meaning self.old) (meaning self.new) predicates.now result }
        ensures refused { OnErr result (meaning self.new ≡ meaning self.old) }
        ensures there { KeepsPredicates (meaning self.old) (meaning self.new) predicates.now };

    /// The list of a binder's variables.
    fn mk_bound_vars(
        &mut self,
        bound_vars: &[BoundVariable<Self>],
    ) -> Result<BoundVars<Self>, OutOfMemory>
        ensures grown { Extends (meaning self.old) (meaning self.new) }
        ensures made { MakesBoundVars (meaning self.old) (meaning self.new) bound_vars.now result }
        ensures refused { OnErr result (meaning self.new ≡ meaning self.old) }
        ensures there { KeepsBoundVars (meaning self.old) (meaning self.new) bound_vars.now };

    /// The predicate of an outermost form under a binder.
    fn mk_predicate(&mut self, kind: PredicateForm<Self>) -> Result<Predicate<Self>, OutOfMemory>
        requires { IsTrue (known (predicate_tree (meaning self.old) kind)) }
        ensures grown { Extends (meaning self.old) (meaning self.new) }
        ensures sure { IfOk result (λ k. IsTrue (known ((meaning self.new).predicate k))) }
        ensures made { MakesPredicate (meaning self.old) (meaning self.new) kind result }
        ensures refused { OnErr result (meaning self.new ≡ meaning self.old) }
        ensures there { RemakesPredicate (meaning self.old) (meaning self.new) kind result };

    /// The clause of an outermost form under a binder.
    fn mk_clause(&mut self, kind: ClauseForm<Self>) -> Result<Clause<Self>, OutOfMemory>
        requires { IsTrue (known (clause_tree (meaning self.old) kind)) }
        ensures grown { Extends (meaning self.old) (meaning self.new) }
        ensures sure { IfOk result (λ k. IsTrue (known ((meaning self.new).clause k))) }
        ensures made { IfOk result (λ k. (meaning self.new).clause k ≡ clause_tree (meaning self.old) kind) }
        ensures refused { OnErr result (meaning self.new ≡ meaning self.old) }
        ensures there { RemakesClause (meaning self.old) (meaning self.new) kind result };

    /// The list of clauses.
    fn mk_clauses(&mut self, clauses: &[Clause<Self>]) -> Result<Clauses<Self>, OutOfMemory>
        requires { IsTrue (known (list_tree (meaning self.old).clause clauses.now)) }
        ensures grown { Extends (meaning self.old) (meaning self.new) }
        ensures sure { IfOk result (λ k. IsTrue (known ((meaning self.new).clauses k))) }
        ensures made { MakesClauses (meaning self.old) (meaning self.new) clauses.now result }
        ensures refused { OnErr result (meaning self.new ≡ meaning self.old) }
        ensures there { KeepsClauses (meaning self.old) (meaning self.new) clauses.now };

    /// The environment of a list of clauses.
    fn mk_param_env(&mut self, clauses: Clauses<Self>) -> Result<ParamEnv<Self>, OutOfMemory>
        requires { IsTrue (known ((meaning self.old).clauses clauses)) }
        ensures grown { Extends (meaning self.old) (meaning self.new) }
        ensures sure { IfOk result (λ k. IsTrue (known ((meaning self.new).param_env k))) }
        ensures made { MakesEnv (meaning self.old) (meaning self.new) clauses result }
        ensures refused { OnErr result (meaning self.new ≡ meaning self.old) }
        ensures there { RemakesEnv (meaning self.old) (meaning self.new) clauses result };

    /// The environment without clauses.
    fn empty_param_env(&mut self) -> Result<ParamEnv<Self>, OutOfMemory>
        ensures grown { Extends (meaning self.old) (meaning self.new) }
        ensures sure { IfOk result (λ k. IsTrue (known ((meaning self.new).param_env k))) }
        ensures made { IfOk result (λ k. (meaning self.new).param_env k ≡ node environment nil) }
        ensures refused { OnErr result (meaning self.new ≡ meaning self.old) }
        ensures there { RemakesEmptyEnv (meaning self.old) (meaning self.new) result };

    // Known keys of a sort are equal exactly where their trees are.
    ghost same_ty: { (a : Self) → AreEqualAsTrees (meaning a).ty (λ k l. Self.Key.eq k.0 l.0) };

    ghost same_region: { (a : Self) → AreEqualAsTrees (meaning a).region (λ k l. Self.Key.eq k.0 l.0) };

    ghost same_tys: { (a : Self) → AreEqualAsTrees (meaning a).tys (λ k l. Self.Key.eq k.0 l.0) };

    ghost same_const: { (a : Self) → AreEqualAsTrees (meaning a).const_ (λ k l. Self.Key.eq k.0 l.0) };

    ghost same_args: { (a : Self) → AreEqualAsTrees (meaning a).args (λ k l. Self.Key.eq k.0 l.0) };

    ghost same_valtree: { (a : Self) → AreEqualAsTrees (meaning a).valtree (λ k l. Self.Key.eq k.0 l.0) };

    ghost same_branches: { (a : Self) → AreEqualAsTrees (meaning a).branches (λ k l. Self.Key.eq k.0 l.0) };

    ghost same_pat: { (a : Self) → AreEqualAsTrees (meaning a).pat (λ k l. Self.Key.eq k.0 l.0) };

    ghost same_alternatives: { (a : Self) → AreEqualAsTrees (meaning a).alternatives (λ k l. Self.Key.eq k.0 l.0) };

    ghost same_existential_predicates: { (a : Self) →
        AreEqualAsTrees (meaning a).existential_predicates (λ k l. Self.Key.eq k.0 l.0) };

    ghost same_bound_vars: { (a : Self) → AreEqualAsKinds (meaning a).bound_vars (λ k l. Self.Key.eq k.0 l.0) };

    ghost same_predicate: { (a : Self) → AreEqualAsTrees (meaning a).predicate (λ k l. Self.Key.eq k.0 l.0) };

    ghost same_clause: { (a : Self) → AreEqualAsTrees (meaning a).clause (λ k l. Self.Key.eq k.0 l.0) };

    ghost same_clauses: { (a : Self) → AreEqualAsTrees (meaning a).clauses (λ k l. Self.Key.eq k.0 l.0) };

    ghost same_param_env: { (a : Self) → AreEqualAsTrees (meaning a).param_env (λ k l. Self.Key.eq k.0 l.0) };

    // Names are equal exactly where their numbers are.
    ghost same_name: { (a : Self) → AreEqualAsNumbers (meaning a).name (λ x y. Self.Name.eq x y) };

    // Ids are equal exactly where their numbers are.
    ghost same_id: { (a : Self) → AreEqualAsNumbers (meaning a).id (λ d e. Self.Id.eq d e) };

    // The tree of a known key is a term of its sort.
    ghost sorted: { (a : Self) → Sorted (meaning a) };

    // What traits state binds in itself alone, and finitely many state something.
    ghost states: { (a : Self) → StatesItsOwn (meaning a) };
}
