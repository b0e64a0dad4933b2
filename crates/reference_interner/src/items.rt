//! Items, and how one is added.
ghost use Rattle.std.specs.Prelude.{◌≡◌, suc, IfOk, IsFalse, OnErr, length};

use crate::{ItemId, NoSpan, NodeKey, RefInterner, SymbolId};
use node_table::next_number;
use relation_terms::predicate::{AliasTermKind, TraitRef};
pub use relation_terms::terms::{GenericParam, GenericParamKind};
use relation_terms::terms::{
    Binder, ClauseKey, FreeConstAliasId, FreeTyAliasId, InherentAssocConstId, InherentAssocTyId,
    Interner, OpaqueTyId, OutOfMemory, TraitAssocConstId, TraitAssocTyId, TraitId,
    UnevaluatedConstId, Variance,
};

/// Which kind of item an item is.
#[derive(Clone, Copy, PartialEq, Eq)]
pub enum DefKind {
    /// A struct, an enum or a union.
    Adt,
    Fn,
    Closure,
    /// A closure that answers coroutines.
    CoroutineClosure,
    Coroutine,
    /// A type that is defined outside the language.
    Foreign,
    Trait,
    /// A type that a trait declares.
    AssocTy(TraitId<ItemId>),
    /// A constant that a trait declares.
    AssocConst(TraitId<ItemId>),
    /// A type of an `impl` without a trait.
    InherentAssocTy,
    /// A constant of an `impl` without a trait.
    InherentAssocConst,
    OpaqueTy,
    /// An alias of a type, in no trait.
    FreeTyAlias,
    /// An alias of a constant, in no trait.
    FreeConstAlias,
    /// A constant that is evaluated: an item's, or one in a type.
    AnonConst,
}

impl DefKind {
    ghost use Rattle.std.specs.Option.{option_map};
    ghost use Rattle.relation_terms.specs.Predicates.{alias_of};
    ghost use Rattle.reference_interner.specs.Items.{alias_kind_of};

    // The alias that an item of this kind is.
    pub(super) fn alias_term_kind(&self, id: ItemId) -> Option<AliasTermKind<ItemId>>
        ensures { result ≡ option_map (alias_of id) (alias_kind_of self.now) }
    {
        match self {
            DefKind::AssocTy(_) => Some(AliasTermKind::ProjectionTy {
                def_id: TraitAssocTyId(id),
            }),
            DefKind::AssocConst(_) => Some(AliasTermKind::ProjectionConst {
                def_id: TraitAssocConstId(id),
            }),
            DefKind::InherentAssocTy => Some(AliasTermKind::InherentTy {
                def_id: InherentAssocTyId(id),
            }),
            DefKind::InherentAssocConst => Some(AliasTermKind::InherentConst {
                def_id: InherentAssocConstId(id),
            }),
            DefKind::OpaqueTy => Some(AliasTermKind::OpaqueTy {
                def_id: OpaqueTyId(id),
            }),
            DefKind::FreeTyAlias => Some(AliasTermKind::FreeTy {
                def_id: FreeTyAliasId(id),
            }),
            DefKind::FreeConstAlias => Some(AliasTermKind::FreeConst {
                def_id: FreeConstAliasId(id),
            }),
            DefKind::AnonConst => Some(AliasTermKind::UnevaluatedConst {
                def_id: UnevaluatedConstId(id),
            }),
            DefKind::Adt
            | DefKind::Fn
            | DefKind::Closure
            | DefKind::CoroutineClosure
            | DefKind::Coroutine
            | DefKind::Foreign
            | DefKind::Trait => None,
        }
    }
}

/// What kind of item an item is, and its generic parameters.
#[derive(Drop)]
pub struct ItemKind {
    pub def: DefKind,
    pub params: Vec<GenericParam<SymbolId>>,
}

/// An item, as it was added.
#[derive(Drop)]
pub struct Item {
    pub kind: ItemKind,
    pub name: SymbolId,
    /// How the item varies with each of its generic parameters.
    pub variances: Vec<Variance>,
    /// Whether the item is an auto trait.
    pub is_auto: bool,
    /// Whether the item is the trait `Sized`.
    pub is_sized: bool,
    /// The super-predicates of a trait, each with its place.
    pub super_predicates: Vec<(ClauseKey<NodeKey>, NoSpan)>,
    /// All predicates that a trait implies, each with its place.
    pub implied_predicates: Vec<(ClauseKey<NodeKey>, NoSpan)>,
    /// The const bounds of a trait.
    pub const_bounds: Vec<Binder<NodeKey, TraitRef<NodeKey, ItemId>>>,
}

impl RefInterner {
    ghost use Rattle.reference_interner.specs.Adding.{items_of, item_count, meaning_in, SameTerms, OthersStand};
    ghost use Rattle.reference_interner.specs.Adding.{HasNoGenerics, HasAliasVariances, MakesNoLangItem};
    ghost use Rattle.reference_interner.specs.Adding.{StatesNothing};
    ghost use Rattle.reference_interner.specs.Items.{parent_of, alias_kind_of, params_of, IsPutBehind};
    ghost use Rattle.reference_interner.specs.Items.{changed_at, said_auto, said_sized};

    /// How many items were added.
    pub fn item_count(&self) -> usize
        ensures { result ≡ item_count self.now }
    {
        self.items.len()
    }

    /// The id of a new item, which has a generic parameter for each of the variances. Two items are never one, even
    /// where they are alike.
    ///
    /// # Errors
    /// `OutOfMemory` where a growth was refused, and where there are 2^32 items.
    pub fn add_item(
        &mut self,
        kind: ItemKind,
        name: SymbolId,
        variances: Vec<Variance>,
    ) -> Result<ItemId, OutOfMemory>
        ensures number { IfOk result (λ d. d.0 ≡ item_count self.old) }
        ensures recorded { IfOk result (λ d. IsPutBehind (items_of self.old) (items_of self.new) kind name variances) }
        ensures one_more { IfOk result (λ d. item_count self.new ≡ suc (item_count self.old)) }
        ensures fresh { IfOk result (λ d. HasNoGenerics (meaning_in self.old) d.0) }
        ensures terms { SameTerms (meaning_in self.old) (meaning_in self.new) }
        ensures generics { IfOk result (λ d. (meaning_in self.new).generics d.0 ≡ length variances.items) }
        ensures variances { IfOk result (λ d. (meaning_in self.new).variances d.0 ≡ variances.items) }
        ensures alias_variances { IfOk result (λ d. HasAliasVariances (meaning_in self.new) d.0 kind variances) }
        ensures parent { IfOk result (λ d. ((meaning_in self.new).tables).parent d.0 ≡ parent_of kind.def) }
        ensures alias_kind { IfOk result (λ d. ((meaning_in self.new).tables).alias_kind d.0 ≡ alias_kind_of kind.def) }
        ensures params { IfOk result (λ d. ((meaning_in self.new).tables).params d.0 ≡ params_of kind) }
        ensures no_auto { IfOk result (λ d. IsFalse (((meaning_in self.new).tables).is_auto d.0)) }
        ensures no_lang_item { MakesNoLangItem (meaning_in self.new) result }
        ensures nothing_stated { IfOk result (λ d. StatesNothing (meaning_in self.new) d.0) }
        ensures others { IfOk result (λ d. OthersStand (meaning_in self.old) (meaning_in self.new) d.0) }
        ensures refused { OnErr result (meaning_in self.new ≡ meaning_in self.old) }
        ensures none_recorded { OnErr result (items_of self.new ≡ items_of self.old) }
    {
        let number = next_number(self.item_count())?;
        self.items.push(Item {
            kind,
            name,
            variances,
            is_auto: false,
            is_sized: false,
            super_predicates: Vec::new(self.alloc),
            implied_predicates: Vec::new(self.alloc),
            const_bounds: Vec::new(self.alloc),
        })?;
        Ok(ItemId(number))
    }

    /// Says that a trait is an auto trait. Nothing changes where no item has the id.
    pub fn set_auto(&mut self, trait_id: TraitId<ItemId>)
        ensures recorded { items_of self.new ≡ changed_at said_auto (items_of self.old) (trait_id.0).0 }
        ensures terms { SameTerms (meaning_in self.old) (meaning_in self.new) }
        ensures solver { ((meaning_in self.new).tables).next_solver ≡ ((meaning_in self.old).tables).next_solver }
    {
        let number = trait_id.0.0 as usize;
        if number < self.items.len() {
            self.items[number].is_auto = true;
        }
    }

    /// Says that a trait is the one that the language knows as `Sized`. Nothing changes where no item has the id.
    pub fn set_sized(&mut self, trait_id: TraitId<ItemId>)
        ensures recorded { items_of self.new ≡ changed_at said_sized (items_of self.old) (trait_id.0).0 }
        ensures terms { SameTerms (meaning_in self.old) (meaning_in self.new) }
        ensures solver { ((meaning_in self.new).tables).next_solver ≡ ((meaning_in self.old).tables).next_solver }
    {
        let number = trait_id.0.0 as usize;
        if number < self.items.len() {
            self.items[number].is_sized = true;
        }
    }

    /// Says whether the next solver is on everywhere.
    pub fn set_solver_globally(&mut self, is_on: bool)
        ensures recorded { ((meaning_in self.new).tables).next_solver ≡ is_on }
        ensures items { items_of self.new ≡ items_of self.old }
        ensures terms { SameTerms (meaning_in self.old) (meaning_in self.new) }
    {
        self.next_solver = is_on;
    }
}
