//! Which parts of a type are gone into for its components.
//!
//! Of most forms these are all parts; of function items, closures, coroutines and aliases some of their arguments.
#![tactic(auto)]

ghost use Rattle.std.specs.Prelude.{◌≡◌, ◌+◌, ◌<◌, ◌≤◌, suc, IsTrue, option_map};
ghost use Rattle.relation_terms.specs.Trees.{Tree, known, count as tree_count};
ghost use Rattle.relation_terms.specs.Meaning.{Meaning, alias_id as id_of, kind_tree};
ghost use Rattle.relation_terms.specs.Closures.{is_type_sort};
ghost use Rattle.relation_terms.specs.Parts.{part_tree, part_sort};
ghost use Rattle.component_parts.specs.Components.{takes, alias_choice, is_region_sort};
ghost use Rattle.component_parts.specs.Choosing.{behind_all, choice_in, meant, takes_part};
ghost use Rattle.component_parts.specs.Choosing.{places_count as looked_at, chosen_at};
ghost use Rattle.component_parts.specs.declared.Chosen.TheVariants.{NotBivariant};

use relation_terms::terms::parts::visited_place;
use relation_terms::terms::{AliasTyKind, DefId, Interner, Part, PartOf, Parts, TyKind, Variance};

/// Which members of a list are gone into.
#[derive(Clone, Copy)]
pub enum Chosen<D> {
    /// All of them.
    Every,
    /// None of them.
    NoMember,
    /// All but regions.
    NoRegion,
    /// The types among the last so many.
    LastTypes(usize),
    /// The arguments of an alias of the item, but those that it is bivariant in.
    NotBivariant(DefId<D>),
}

/// What is gone into of the parts of a type of this form, where it is no component itself.
pub fn form_chosen<X: Copy, D: Copy, N: Copy>(kind: &TyKind<X, D, N>) -> Chosen<D>
    ensures { (m : Meaning X D N) → meant m result ≡ choice_in (kind_tree m kind.now) }
{
    match kind {
        TyKind::FnDef(..) => Chosen::NoRegion,
        TyKind::Closure(..) => Chosen::LastTypes(1),
        TyKind::CoroutineClosure(..) => Chosen::LastTypes(1),
        TyKind::Coroutine(..) => Chosen::LastTypes(2),
        TyKind::CoroutineWitness(..) => Chosen::NoMember,
        _ => Chosen::Every,
    }
}

/// What is gone into of the arguments of an alias of this kind.
pub fn alias_chosen<D: Copy>(kind: &AliasTyKind<D>) -> Chosen<D>
    ensures { result ≡ NotBivariant (record { 0 = id_of kind.now }) }
{
    match kind {
        AliasTyKind::Projection { def_id } => Chosen::NotBivariant(DefId(def_id.0)),
        AliasTyKind::Inherent { def_id } => Chosen::NotBivariant(DefId(def_id.0)),
        AliasTyKind::Opaque { def_id } => Chosen::NotBivariant(DefId(def_id.0)),
        AliasTyKind::Free { def_id } => Chosen::NotBivariant(DefId(def_id.0)),
    }
}

/// At how many places of a list of `count` members to look: no member at another is gone into.
pub fn places_count<D: Copy>(chosen: &Chosen<D>, count: usize) -> usize
    ensures is { result ≡ looked_at chosen.now count }
    ensures within { result ≤ count }
{
    match chosen {
        Chosen::NoMember => 0,
        Chosen::LastTypes(last) => (*last).min(count),
        _ => count,
    }
}

/// The place to look at behind `step` others, of a list of `count` members. Of the last types the last comes first.
pub fn chosen_place<X: Copy, D: Copy>(
    chosen: &Chosen<D>,
    parts: &Parts<X, D>,
    count: usize,
    step: usize,
) -> usize
    requires { step < count }
    ensures in_bounds { result < count }
    ensures place { result ≡ chosen_at chosen.now parts.now count step }
{
    match chosen {
        Chosen::LastTypes(_) => count - 1 - step,
        _ => visited_place(parts, count, step),
    }
}

/// Whether the member at a place of a list of `count` is gone into. The interner has to know it.
pub fn is_chosen<I: Interner>(
    cx: &I,
    chosen: &Chosen<I::Id>,
    count: usize,
    i: usize,
    part: &PartOf<I>,
) -> bool
    requires known { IsTrue (known (part_tree (I.meaning cx.now) part.now)) }
    requires in_bounds { i < count }
    ensures { (ts : Tree) → suc (i + tree_count ts) ≡ count →
        result ≡ takes_part (I.meaning cx.now) chosen.now i part.now ts }
{
    match chosen {
        Chosen::Every => true,
        Chosen::NoMember => false,
        Chosen::NoRegion => !is_region(part),
        Chosen::LastTypes(last) => is_type(part) & (count - 1 - i < *last),
        Chosen::NotBivariant(item) => is_not_bivariant(cx.opt_alias_variances(item), i),
    }
}

// Whether a part is a region.
fn is_region<X: Copy, D: Copy>(part: &Part<X, D>) -> bool
    ensures { result ≡ is_region_sort (part_sort part.now) }
{
    matches!(part, Part::Region(_))
}

// Whether a part is a type.
fn is_type<X: Copy, D: Copy>(part: &Part<X, D>) -> bool
    ensures { result ≡ is_type_sort (part_sort part.now) }
{
    matches!(part, Part::Ty(_))
}

// Whether the variance at a place is not the bivariant one, or none is there.
fn is_not_bivariant(variances: Option<&[Variance]>, i: usize) -> bool
    ensures { (t ts : Tree) → result ≡
        takes (behind_all i (alias_choice (option_map (λ list. list.now) variances.entry))) t ts }
{
    match variances {
        Some(list) if i < list.len() => !matches!(list[i], Variance::Bivariant),
        _ => true,
    }
}
