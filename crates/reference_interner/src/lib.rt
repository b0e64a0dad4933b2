//! A reference interner, as plain as it can be: its keys are the numbers of nodes, and its ids the numbers of items.
#![tactic(auto)]

ghost use Rattle.std.specs.Prelude.{◌≡◌, ◌≤◌, suc, IsTrue, IfOk, OnErr};
ghost use Rattle.reference_interner.specs.Nodes.{AllKnown, AllDistinct};
ghost use Rattle.reference_interner.specs.Flags.{AreFlags};
ghost use Rattle.reference_interner.specs.Stated.{AllStated, stated_prop};

mod flags;
mod items;
mod keys;
mod node;
mod short_list;
mod stating;
mod table;

pub use items::{DefKind, GenericParam, GenericParamKind, Item, ItemKind};
pub use keys::{ItemId, NoSpan, NodeKey, SymbolId};
pub use node::Node;
use node::copied;
use node_table::NodeTable;
use relation_terms::predicate::{
    AliasTermKind, ClauseForm, ObjectPredicate, PredicateForm, PredicateKind, TraitRef,
};
use relation_terms::terms::{
    Alternatives, AlternativesKey, ArgsKey, Binder, BoundVariable, BoundVars, BoundVarsKey,
    Branches, BranchesKey, Clause, ClauseKey, Clauses, ClausesKey, Const, ConstForm, ConstKey,
    ExistentialPredicates, ExistentialPredicatesKey, GenericArg, GenericArgs, Interner, ItemOf,
    OutOfMemory, ParamEnv, ParamEnvKey, Pat, PatKey, PatternForm, Predicate, PredicateKey, Region,
    RegionForm, RegionKey, SolverTraitLangItem, Span, Symbol, TraitAssocTermId, TraitId, Ty,
    TyForm, TyKey, TypeFlags, Tys, TysKey, ValTree, ValTreeForm, ValTreeKey, Variance,
};
pub use short_list::ShortList;
use std::alloc::Global;

/// An interner that keeps its nodes in a table, and its items in a vector. Making takes the time of one look-up in the
/// table, however many nodes there are.
#[derive(Drop)]
pub struct RefInterner {
    alloc: Global,
    // What the keys stand for, by their numbers.
    nodes: NodeTable<Node>,
    // What the ids stand for, by their numbers.
    items: Vec<Item>,
    // What is asked of the nodes' terms as a whole, by the nodes' numbers.
    flags: Vec<TypeFlags>,
    // Whether the next solver is on everywhere.
    next_solver: bool,
    ghost known_all: { AllKnown nodes },
    ghost distinct: { AllDistinct nodes },
    ghost flagged: { AreFlags nodes flags.items },
    ghost stated: { AllStated nodes items.items } by { stated_prop nodes items.items },
}

impl Interner for RefInterner {
    ghost use Rattle.relation_terms.specs.Heads.{environment};
    ghost use Rattle.relation_terms.specs.Trees.{known, list_tree, node, nil};
    ghost use Rattle.relation_terms.specs.Meaning.{Extends, kind_tree, region_tree, const_tree, valtree_tree, arg_tree};
    ghost use Rattle.relation_terms.specs.Meaning.{pattern_tree, object_predicate_tree};
    ghost use Rattle.relation_terms.specs.Predicates.{predicate_tree, clause_tree};
    ghost use Rattle.relation_terms.specs.Interning.{RemakesPredicate, RemakesClause, MakesClauses, KeepsClauses};
    ghost use Rattle.relation_terms.specs.Interning.{RemakesEnv, MakesEnv, MakesPredicate};
    ghost use Rattle.relation_terms.specs.Interning.{RemakesTy, RemakesRegion, RemakesConst, RemakesValTree};
    ghost use Rattle.relation_terms.specs.Interning.{RemakesEmptyEnv, MakesTys, MakesArgs, MakesBranches};
    ghost use Rattle.relation_terms.specs.Interning.{KeepsTys, KeepsArgs, KeepsBranches};
    ghost use Rattle.relation_terms.specs.Interning.{RemakesPat, MakesAlternatives, KeepsAlternatives};
    ghost use Rattle.relation_terms.specs.Interning.{MakesPredicates, KeepsPredicates, MakesBoundVars, KeepsBoundVars};
    ghost use Rattle.reference_interner.specs.Nodes.{ty_node, region_node, const_node, valtree_node, args_node};
    ghost use Rattle.reference_interner.specs.Nodes.{tys_node, branches_node, clauses_node, predicate_node};
    ghost use Rattle.reference_interner.specs.Nodes.{pat_node, alternatives_node, predicates_node};
    ghost use Rattle.reference_interner.specs.Adding.{meaning_in, items_in, node_count};
    ghost use Rattle.reference_interner.specs.Laws.{all_sorted, same_law, same_kinds_law, same_name_law, same_id_law};
    ghost use Rattle.reference_interner.specs.Laws.{same_clause_law, same_env_law, states_law};

    ghost meaning = { λ s. meaning_in s };

    fn alloc(&self) -> Global {
        self.alloc
    }

    fn dummy_span(&self) -> Span<Self> {
        NoSpan
    }

    fn ty_kind(&self, ty: &Ty<Self>) -> TyForm<Self> {
        match self.nodes.node(ty.0.0) {
            Node::Ty(kind) => *kind,
            _ => unreachable!(),
        }
    }

    fn region_kind(&self, region: &Region<Self>) -> RegionForm<Self> {
        match self.nodes.node(region.0.0) {
            Node::Region(kind) => *kind,
            _ => unreachable!(),
        }
    }

    #[inline(always)]
    fn tys(&self, tys: &Tys<Self>) -> &[Ty<Self>] {
        match self.nodes.node(tys.0.0) {
            Node::Tys(list) => list.as_slice(),
            _ => unreachable!(),
        }
    }

    fn const_kind(&self, constant: &Const<Self>) -> ConstForm<Self> {
        match self.nodes.node(constant.0.0) {
            Node::Const(kind) => *kind,
            _ => unreachable!(),
        }
    }

    fn ty_flags(&self, ty: &Ty<Self>) -> TypeFlags {
        self.kept_flags(&ty.0)
    }

    fn const_flags(&self, constant: &Const<Self>) -> TypeFlags {
        self.kept_flags(&constant.0)
    }

    fn pat_flags(&self, pat: &Pat<Self>) -> TypeFlags {
        self.kept_flags(&pat.0)
    }

    fn valtree_kind(&self, valtree: &ValTree<Self>) -> ValTreeForm<Self> {
        match self.nodes.node(valtree.0.0) {
            Node::ValTree(kind) => *kind,
            _ => unreachable!(),
        }
    }

    fn pat_kind(&self, pat: &Pat<Self>) -> PatternForm<Self> {
        match self.nodes.node(pat.0.0) {
            Node::Pat(kind) => *kind,
            _ => unreachable!(),
        }
    }

    #[inline(always)]
    fn args(&self, args: &GenericArgs<Self>) -> &[GenericArg<Self>] {
        match self.nodes.node(args.0.0) {
            Node::Args(list) => list.as_slice(),
            _ => unreachable!(),
        }
    }

    fn branches(&self, branches: &Branches<Self>) -> &[Const<Self>] {
        match self.nodes.node(branches.0.0) {
            Node::Branches(list) => list.as_slice(),
            _ => unreachable!(),
        }
    }

    fn alternatives(&self, alternatives: &Alternatives<Self>) -> &[Pat<Self>] {
        match self.nodes.node(alternatives.0.0) {
            Node::Alternatives(list) => list.as_slice(),
            _ => unreachable!(),
        }
    }

    fn existential_predicates(
        &self,
        predicates: &ExistentialPredicates<Self>,
    ) -> &[ObjectPredicate<Self>] {
        match self.nodes.node(predicates.0.0) {
            Node::ExistentialPredicates(list) => list.as_slice(),
            _ => unreachable!(),
        }
    }

    fn bound_vars(&self, bound_vars: &BoundVars<Self>) -> &[BoundVariable<Self>] {
        match self.nodes.node(bound_vars.0.0) {
            Node::BoundVars(list) => list.as_slice(),
            _ => unreachable!(),
        }
    }

    fn predicate_kind(&self, predicate: &Predicate<Self>) -> PredicateForm<Self> {
        match self.nodes.node(predicate.0.0) {
            Node::Predicate(kind) => *kind,
            _ => unreachable!(),
        }
    }

    fn clause_kind(&self, clause: &Clause<Self>) -> ClauseForm<Self> {
        let Binder { value, bound_vars } = self.predicate_kind(&PredicateKey(clause.0));
        match value {
            PredicateKind::Clause(value) => Binder { value, bound_vars },
            _ => unreachable!(),
        }
    }

    fn clause_as_predicate(&self, clause: &Clause<Self>) -> Predicate<Self> {
        PredicateKey(clause.0)
    }

    fn predicate_as_clause(&self, predicate: &Predicate<Self>) -> Option<Clause<Self>> {
        match self.predicate_kind(predicate).value {
            PredicateKind::Clause(_) => Some(ClauseKey(predicate.0)),
            _ => None,
        }
    }

    fn clauses(&self, clauses: &Clauses<Self>) -> &[Clause<Self>] {
        match self.nodes.node(clauses.0.0) {
            Node::Clauses(list) => list.as_slice(),
            _ => unreachable!(),
        }
    }

    fn caller_bounds(&self, param_env: &ParamEnv<Self>) -> Clauses<Self> {
        ClausesKey(param_env.0)
    }

    fn generics_count(&self, def_id: &ItemOf<Self>) -> usize {
        self.variances_of(def_id).len()
    }

    fn variances_of(&self, def_id: &ItemOf<Self>) -> &[Variance] {
        match self.items.get(def_id.0.0 as usize) {
            Some(item) => &item.variances,
            None => &[],
        }
    }

    fn opt_alias_variances(&self, def_id: &ItemOf<Self>) -> Option<&[Variance]> {
        let item = self.items.get(def_id.0.0 as usize)?;
        match item.kind.def {
            DefKind::OpaqueTy => Some(&item.variances),
            _ => None,
        }
    }

    fn projection_parent(&self, def_id: &TraitAssocTermId<ItemId>) -> Option<TraitId<ItemId>> {
        match self.items.get(def_id.0.0 as usize)?.kind.def {
            DefKind::AssocTy(parent) | DefKind::AssocConst(parent) => Some(parent),
            _ => None,
        }
    }

    fn trait_is_auto(&self, trait_id: &TraitId<ItemId>) -> bool {
        match self.items.get(trait_id.0.0 as usize) {
            Some(item) => item.is_auto,
            None => false,
        }
    }

    fn is_trait_lang_item(
        &self,
        trait_id: &TraitId<ItemId>,
        lang_item: SolverTraitLangItem,
    ) -> bool {
        match (self.items.get(trait_id.0.0 as usize), lang_item) {
            (Some(item), SolverTraitLangItem::Sized) => item.is_sized,
            (None, _) => false,
        }
    }

    fn alias_term_kind_from_def_id(&self, def_id: &ItemOf<Self>) -> Option<AliasTermKind<ItemId>> {
        self.items
            .get(def_id.0.0 as usize)?
            .kind
            .def
            .alias_term_kind(def_id.0)
    }

    fn next_trait_solver_globally(&self) -> bool {
        self.next_solver
    }

    fn explicit_super_predicates_of(
        &self,
        trait_id: &TraitId<ItemId>,
    ) -> &[(Clause<Self>, Span<Self>)] {
        match self.items.get(trait_id.0.0 as usize) {
            Some(item) => &item.super_predicates,
            None => &[],
        }
    }

    fn explicit_implied_predicates_of(
        &self,
        trait_id: &TraitId<ItemId>,
    ) -> &[(Clause<Self>, Span<Self>)] {
        match self.items.get(trait_id.0.0 as usize) {
            Some(item) => &item.implied_predicates,
            None => &[],
        }
    }

    fn explicit_implied_const_bounds(
        &self,
        trait_id: &TraitId<ItemId>,
    ) -> &[Binder<NodeKey, TraitRef<NodeKey, ItemId>>] {
        match self.items.get(trait_id.0.0 as usize) {
            Some(item) => &item.const_bounds,
            None => &[],
        }
    }

    fn generics_of(&self, def_id: &ItemOf<Self>) -> &[GenericParam<SymbolId>] {
        match self.items.get(def_id.0.0 as usize) {
            Some(item) => &item.kind.params,
            None => &[],
        }
    }

    fn dummy_name(&self) -> Symbol<Self> {
        SymbolId(usize::MAX)
    }

    fn mk_ty(&mut self, kind: TyForm<Self>) -> Result<Ty<Self>, OutOfMemory>
        requires { IsTrue (known (kind_tree (meaning_in self.old) kind)) }
        ensures grown { Extends (meaning_in self.old) (meaning_in self.new) }
        ensures sure { IfOk result (λ k. IsTrue (known ((meaning_in self.new).ty k))) }
        ensures made { IfOk result (λ k. (meaning_in self.new).ty k ≡ kind_tree (meaning_in self.old) kind) }
        ensures refused { OnErr result (meaning_in self.new ≡ meaning_in self.old) }
        ensures there { RemakesTy (meaning_in self.old) (meaning_in self.new) kind result }
        ensures one_more { node_count self.new ≤ suc (node_count self.old) }
    {
        let number = self.intern(Node::Ty(kind))?;
        Ok(TyKey(number))
    }

    fn mk_region(&mut self, kind: RegionForm<Self>) -> Result<Region<Self>, OutOfMemory>
        ensures grown { Extends (meaning_in self.old) (meaning_in self.new) }
        ensures sure { IfOk result (λ k. IsTrue (known ((meaning_in self.new).region k))) }
        ensures made { IfOk result (λ k. (meaning_in self.new).region k ≡ region_tree (meaning_in self.old) kind) }
        ensures refused { OnErr result (meaning_in self.new ≡ meaning_in self.old) }
        ensures there { RemakesRegion (meaning_in self.old) (meaning_in self.new) kind result }
        ensures one_more { node_count self.new ≤ suc (node_count self.old) }
    {
        let number = self.intern(Node::Region(kind))?;
        Ok(RegionKey(number))
    }

    fn mk_type_list(&mut self, tys: &[Ty<Self>]) -> Result<Tys<Self>, OutOfMemory>
        requires { IsTrue (known (list_tree (meaning_in self.old).ty tys.now)) }
        ensures grown { Extends (meaning_in self.old) (meaning_in self.new) }
        ensures sure { IfOk result (λ k. IsTrue (known ((meaning_in self.new).tys k))) }
        ensures made { MakesTys (meaning_in self.old) (meaning_in self.new) tys.now result }
        ensures refused { OnErr result (meaning_in self.new ≡ meaning_in self.old) }
        ensures there { KeepsTys (meaning_in self.old) (meaning_in self.new) tys.now }
        ensures one_more { node_count self.new ≤ suc (node_count self.old) }
    {
        let list = ShortList::of(self.alloc, tys)?;
        let number = self.intern(Node::Tys(list))?;
        Ok(TysKey(number))
    }

    fn mk_const(&mut self, kind: ConstForm<Self>) -> Result<Const<Self>, OutOfMemory>
        requires { IsTrue (known (const_tree (meaning_in self.old) kind)) }
        ensures grown { Extends (meaning_in self.old) (meaning_in self.new) }
        ensures sure { IfOk result (λ k. IsTrue (known ((meaning_in self.new).const_ k))) }
        ensures made { IfOk result (λ k. (meaning_in self.new).const_ k ≡ const_tree (meaning_in self.old) kind) }
        ensures refused { OnErr result (meaning_in self.new ≡ meaning_in self.old) }
        ensures there { RemakesConst (meaning_in self.old) (meaning_in self.new) kind result }
        ensures one_more { node_count self.new ≤ suc (node_count self.old) }
    {
        let number = self.intern(Node::Const(kind))?;
        Ok(ConstKey(number))
    }

    fn mk_valtree(&mut self, kind: ValTreeForm<Self>) -> Result<ValTree<Self>, OutOfMemory>
        requires { IsTrue (known (valtree_tree (meaning_in self.old) kind)) }
        ensures grown { Extends (meaning_in self.old) (meaning_in self.new) }
        ensures sure { IfOk result (λ k. IsTrue (known ((meaning_in self.new).valtree k))) }
        ensures made { IfOk result (λ k. (meaning_in self.new).valtree k ≡ valtree_tree (meaning_in self.old) kind) }
        ensures refused { OnErr result (meaning_in self.new ≡ meaning_in self.old) }
        ensures there { RemakesValTree (meaning_in self.old) (meaning_in self.new) kind result }
        ensures one_more { node_count self.new ≤ suc (node_count self.old) }
    {
        let number = self.intern(Node::ValTree(kind))?;
        Ok(ValTreeKey(number))
    }

    fn mk_pat(&mut self, kind: PatternForm<Self>) -> Result<Pat<Self>, OutOfMemory>
        requires { IsTrue (known (pattern_tree (meaning_in self.old) kind)) }
        ensures grown { Extends (meaning_in self.old) (meaning_in self.new) }
        ensures sure { IfOk result (λ k. IsTrue (known ((meaning_in self.new).pat k))) }
        ensures made { IfOk result (λ k. (meaning_in self.new).pat k ≡ pattern_tree (meaning_in self.old) kind) }
        ensures refused { OnErr result (meaning_in self.new ≡ meaning_in self.old) }
        ensures there { RemakesPat (meaning_in self.old) (meaning_in self.new) kind result }
        ensures one_more { node_count self.new ≤ suc (node_count self.old) }
    {
        let number = self.intern(Node::Pat(kind))?;
        Ok(PatKey(number))
    }

    fn mk_args(&mut self, args: &[GenericArg<Self>]) -> Result<GenericArgs<Self>, OutOfMemory>
        requires { IsTrue (known (list_tree (arg_tree (meaning_in self.old)) args.now)) }
        ensures grown { Extends (meaning_in self.old) (meaning_in self.new) }
        ensures sure { IfOk result (λ k. IsTrue (known ((meaning_in self.new).args k))) }
        ensures made { MakesArgs (meaning_in self.old) (meaning_in self.new) args.now result }
        ensures refused { OnErr result (meaning_in self.new ≡ meaning_in self.old) }
        ensures there { KeepsArgs (meaning_in self.old) (meaning_in self.new) args.now }
        ensures one_more { node_count self.new ≤ suc (node_count self.old) }
    {
        let list = ShortList::of(self.alloc, args)?;
        let number = self.intern(Node::Args(list))?;
        Ok(ArgsKey(number))
    }

    fn mk_branches(&mut self, branches: &[Const<Self>]) -> Result<Branches<Self>, OutOfMemory>
        requires { IsTrue (known (list_tree (meaning_in self.old).const_ branches.now)) }
        ensures grown { Extends (meaning_in self.old) (meaning_in self.new) }
        ensures sure { IfOk result (λ k. IsTrue (known ((meaning_in self.new).branches k))) }
        ensures made { MakesBranches (meaning_in self.old) (meaning_in self.new) branches.now result }
        ensures refused { OnErr result (meaning_in self.new ≡ meaning_in self.old) }
        ensures there { KeepsBranches (meaning_in self.old) (meaning_in self.new) branches.now }
        ensures one_more { node_count self.new ≤ suc (node_count self.old) }
    {
        let list = copied(self.alloc, branches)?;
        let number = self.intern(Node::Branches(list))?;
        Ok(BranchesKey(number))
    }

    fn mk_alternatives(
        &mut self,
        alternatives: &[Pat<Self>],
    ) -> Result<Alternatives<Self>, OutOfMemory>
        requires { IsTrue (known (list_tree (meaning_in self.old).pat alternatives.now)) }
        ensures grown { Extends (meaning_in self.old) (meaning_in self.new) }
        ensures sure { IfOk result (λ k. IsTrue (known ((meaning_in self.new).alternatives k))) }
        ensures made { MakesAlternatives (meaning_in self.old) (meaning_in self.new) alternatives.now result }
        ensures refused { OnErr result (meaning_in self.new ≡ meaning_in self.old) }
        ensures there { KeepsAlternatives (meaning_in self.old) (meaning_in self.new) alternatives.now }
        ensures one_more { node_count self.new ≤ suc (node_count self.old) }
    {
        let list = copied(self.alloc, alternatives)?;
        let number = self.intern(Node::Alternatives(list))?;
        Ok(AlternativesKey(number))
    }

    fn mk_existential_predicates(
        &mut self,
        predicates: &[ObjectPredicate<Self>],
    ) -> Result<ExistentialPredicates<Self>, OutOfMemory>
        requires { IsTrue (known (list_tree (object_predicate_tree (meaning_in self.old)) predicates.now)) }
        ensures grown { Extends (meaning_in self.old) (meaning_in self.new) }
        ensures sure { IfOk result (λ k. IsTrue (known ((meaning_in self.new).existential_predicates k))) }
        ensures made { MakesPredicates (meaning_in self.old) (meaning_in self.new) predicates.now result }
        ensures refused { OnErr result (meaning_in self.new ≡ meaning_in self.old) }
        ensures there { KeepsPredicates (meaning_in self.old) (meaning_in self.new) predicates.now }
        ensures one_more { node_count self.new ≤ suc (node_count self.old) }
    {
        let list = copied(self.alloc, predicates)?;
        let number = self.intern(Node::ExistentialPredicates(list))?;
        Ok(ExistentialPredicatesKey(number))
    }

    fn mk_bound_vars(
        &mut self,
        bound_vars: &[BoundVariable<Self>],
    ) -> Result<BoundVars<Self>, OutOfMemory>
        ensures grown { Extends (meaning_in self.old) (meaning_in self.new) }
        ensures made { MakesBoundVars (meaning_in self.old) (meaning_in self.new) bound_vars.now result }
        ensures refused { OnErr result (meaning_in self.new ≡ meaning_in self.old) }
        ensures there { KeepsBoundVars (meaning_in self.old) (meaning_in self.new) bound_vars.now }
        ensures one_more { node_count self.new ≤ suc (node_count self.old) }
    {
        let list = copied(self.alloc, bound_vars)?;
        let number = self.intern(Node::BoundVars(list))?;
        Ok(BoundVarsKey(number))
    }

    fn mk_predicate(&mut self, kind: PredicateForm<Self>) -> Result<Predicate<Self>, OutOfMemory>
        requires { IsTrue (known (predicate_tree (meaning_in self.old) kind)) }
        ensures grown { Extends (meaning_in self.old) (meaning_in self.new) }
        ensures sure { IfOk result (λ k. IsTrue (known ((meaning_in self.new).predicate k))) }
        ensures made { MakesPredicate (meaning_in self.old) (meaning_in self.new) kind result }
        ensures refused { OnErr result (meaning_in self.new ≡ meaning_in self.old) }
        ensures there { RemakesPredicate (meaning_in self.old) (meaning_in self.new) kind result }
        ensures one_more { node_count self.new ≤ suc (node_count self.old) }
    {
        let number = self.intern(Node::Predicate(kind))?;
        Ok(PredicateKey(number))
    }

    fn mk_clause(&mut self, kind: ClauseForm<Self>) -> Result<Clause<Self>, OutOfMemory>
        requires { IsTrue (known (clause_tree (meaning_in self.old) kind)) }
        ensures grown { Extends (meaning_in self.old) (meaning_in self.new) }
        ensures sure { IfOk result (λ k. IsTrue (known ((meaning_in self.new).clause k))) }
        ensures made { IfOk result (λ k. (meaning_in self.new).clause k ≡ clause_tree (meaning_in self.old) kind) }
        ensures refused { OnErr result (meaning_in self.new ≡ meaning_in self.old) }
        ensures there { RemakesClause (meaning_in self.old) (meaning_in self.new) kind result }
        ensures one_more { node_count self.new ≤ suc (node_count self.old) }
    {
        let number = self.intern(Node::Predicate(Binder {
            value: PredicateKind::Clause(kind.value),
            bound_vars: kind.bound_vars,
        }))?;
        Ok(ClauseKey(number))
    }

    fn mk_clauses(&mut self, clauses: &[Clause<Self>]) -> Result<Clauses<Self>, OutOfMemory>
        requires { IsTrue (known (list_tree (meaning_in self.old).clause clauses.now)) }
        ensures grown { Extends (meaning_in self.old) (meaning_in self.new) }
        ensures sure { IfOk result (λ k. IsTrue (known ((meaning_in self.new).clauses k))) }
        ensures made { MakesClauses (meaning_in self.old) (meaning_in self.new) clauses.now result }
        ensures refused { OnErr result (meaning_in self.new ≡ meaning_in self.old) }
        ensures there { KeepsClauses (meaning_in self.old) (meaning_in self.new) clauses.now }
        ensures one_more { node_count self.new ≤ suc (node_count self.old) }
    {
        let list = copied(self.alloc, clauses)?;
        let number = self.intern(Node::Clauses(list))?;
        Ok(ClausesKey(number))
    }

    fn mk_param_env(&mut self, clauses: Clauses<Self>) -> Result<ParamEnv<Self>, OutOfMemory>
        requires { IsTrue (known ((meaning_in self.old).clauses clauses)) }
        ensures grown { Extends (meaning_in self.old) (meaning_in self.new) }
        ensures sure { IfOk result (λ k. IsTrue (known ((meaning_in self.new).param_env k))) }
        ensures made { MakesEnv (meaning_in self.old) (meaning_in self.new) clauses result }
        ensures refused { OnErr result (meaning_in self.new ≡ meaning_in self.old) }
        ensures there { RemakesEnv (meaning_in self.old) (meaning_in self.new) clauses result }
        ensures no_more { node_count self.new ≡ node_count self.old }
    {
        Ok(ParamEnvKey(clauses.0))
    }

    fn empty_param_env(&mut self) -> Result<ParamEnv<Self>, OutOfMemory>
        ensures grown { Extends (meaning_in self.old) (meaning_in self.new) }
        ensures sure { IfOk result (λ k. IsTrue (known ((meaning_in self.new).param_env k))) }
        ensures made { IfOk result (λ k. (meaning_in self.new).param_env k ≡ node environment nil) }
        ensures refused { OnErr result (meaning_in self.new ≡ meaning_in self.old) }
        ensures there { RemakesEmptyEnv (meaning_in self.old) (meaning_in self.new) result }
        ensures one_more { node_count self.new ≤ suc (node_count self.old) }
    {
        let number = self.intern(Node::Clauses(Vec::new(self.alloc)))?;
        Ok(ParamEnvKey(number))
    }

    ghost same_ty = { λ a k l. same_law (items_in a) a.nodes a.distinct ty_node (k.0).0 (l.0).0 };

    ghost same_region = { λ a k l. same_law (items_in a) a.nodes a.distinct region_node (k.0).0 (l.0).0 };

    ghost same_tys = { λ a k l. same_law (items_in a) a.nodes a.distinct tys_node (k.0).0 (l.0).0 };

    ghost same_const = { λ a k l. same_law (items_in a) a.nodes a.distinct const_node (k.0).0 (l.0).0 };

    ghost same_args = { λ a k l. same_law (items_in a) a.nodes a.distinct args_node (k.0).0 (l.0).0 };

    ghost same_valtree = { λ a k l. same_law (items_in a) a.nodes a.distinct valtree_node (k.0).0 (l.0).0 };

    ghost same_branches = { λ a k l. same_law (items_in a) a.nodes a.distinct branches_node (k.0).0 (l.0).0 };

    ghost same_pat = { λ a k l. same_law (items_in a) a.nodes a.distinct pat_node (k.0).0 (l.0).0 };

    ghost same_alternatives = { λ a k l.
        same_law (items_in a) a.nodes a.distinct alternatives_node (k.0).0 (l.0).0 };

    ghost same_existential_predicates = { λ a k l.
        same_law (items_in a) a.nodes a.distinct predicates_node (k.0).0 (l.0).0 };

    ghost same_bound_vars = { λ a k l. same_kinds_law (items_in a) a.nodes a.distinct (k.0).0 (l.0).0 };

    ghost same_predicate = { λ a k l. same_law (items_in a) a.nodes a.distinct predicate_node (k.0).0 (l.0).0 };

    ghost same_clause = { λ a k l. same_clause_law (items_in a) a.nodes a.distinct (k.0).0 (l.0).0 };

    ghost same_clauses = { λ a k l. same_law (items_in a) a.nodes a.distinct clauses_node (k.0).0 (l.0).0 };

    ghost same_param_env = { λ a k l. same_env_law (items_in a) a.nodes a.distinct (k.0).0 (l.0).0 };

    ghost same_name = { λ a. same_name_law (items_in a) a.nodes };

    ghost same_id = { λ a. same_id_law (items_in a) a.nodes };

    ghost sorted = { λ a. all_sorted (items_in a) a.nodes };

    ghost states = { λ a. states_law (items_in a) a.nodes a.stated };
}
