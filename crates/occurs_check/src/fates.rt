//! What becomes of a term to which a variable is bound, and of each part of it: the occurs check, and which variables and
//! placeholders the variable can name.
ghost use Rattle.std.specs.Prelude.{◌≡◌, ◌≢◌, ◌<◌, ℕ, IsTrue, IsFalse, IfSome, IfNone, Some, length};
ghost use Rattle.term_enums.specs.declared.Variance.TheVariants.{Invariant};
ghost use Rattle.relation_terms.specs.Heads.{variable, placeholder, BoundKind, bound_sort, region_sort, region_var};
ghost use Rattle.relation_terms.specs.Trees.{leaf, known};
ghost use Rattle.relation_terms.specs.Parts.{part_tree};
ghost use Rattle.relation_semantics.specs.Stores.{InContext, IsMade, universe_of};
ghost use Rattle.variable_tables.specs.Tables.{store_of, IsLawful};
ghost use Rattle.occurs_check.specs.TermVids.{vid_kind, vid_number};
ghost use Rattle.occurs_check.specs.Fates.{new_kind, IsFate};
ghost use Rattle.occurs_check.specs.declared.fates.Fate.TheVariants.{ByParts, GivesWay};

use crate::term_vid::{TermVid, is_same_vid, variable_of};
use relation_folds::error::TypeError;
use relation_semantics::relate::StructurallyRelateAliases;
use relation_terms::terms::{
    ConstKind, Interner, Keys, Part, PartOf, Region, RegionKind, RegionVid, TyKind, UniverseIndex,
    Variance,
};
use variable_tables::InferCtxtInner;

/// A variable that is bound, its universe, how aliases are related, and the error where it stands in what it is to be
/// bound to.
#[derive(Drop)]
pub struct Target<X, D, N> {
    pub vid: TermVid,
    pub universe: UniverseIndex,
    pub aliases: StructurallyRelateAliases,
    pub cyclic: TypeError<X, D, N>,
}

/// The same over an interner's representations.
pub type TargetOf<I> = Target<<I as Keys>::Key, <I as Keys>::Id, <I as Keys>::Name>;

/// What becomes of a term.
#[derive(Clone, Copy)]
pub enum Fate {
    /// It is the same over what its parts become; without parts, it stays.
    ByParts,
    /// It is a leaf that gives way to a new variable of its sort.
    GivesWay,
    /// It is the variable itself.
    Cycle,
    /// It is a placeholder that the variable can't name.
    Beyond,
}

// Whether a variance leaves nothing to vary.
fn is_invariant(variance: Variance) -> bool
    ensures is { IsTrue result → variance ≡ Invariant }
    ensures is_not { IsFalse result → variance ≢ Invariant }
{
    match variance {
        Variance::Invariant => true,
        Variance::Covariant | Variance::Contravariant | Variance::Bivariant => false,
    }
}

// A leaf stays, or gives way.
fn stays_if(stays: bool) -> Fate
    ensures stays { IsTrue stays → result ≡ ByParts }
    ensures gives_way { IsFalse stays → result ≡ GivesWay }
{
    if stays { Fate::ByParts } else { Fate::GivesWay }
}

// The universe of a type or a constant that is a placeholder.
fn placeholder_universe<I: Interner>(cx: &I, term: &PartOf<I>) -> Option<UniverseIndex>
    requires { IsTrue (known (part_tree (I.meaning cx.now) term.now)) }
    ensures is { IfSome result (λ w. (q : BoundKind) × (i : ℕ) ×
        (part_tree (I.meaning cx.now) term.now ≡ leaf (placeholder q w.0 i)) × (bound_sort q ≢ region_sort)) }
    ensures is_none { IfNone result ((q : BoundKind) (w i : ℕ) →
        part_tree (I.meaning cx.now) term.now ≡ leaf (placeholder q w i) → bound_sort q ≡ region_sort) }
{
    match term {
        Part::Ty(ty) => match cx.ty_kind(ty) {
            TyKind::Placeholder(placeholder) => Some(placeholder.universe),
            _ => None,
        },
        Part::Const(constant) => match cx.const_kind(constant) {
            ConstKind::Placeholder(placeholder) => Some(placeholder.universe),
            _ => None,
        },
        _ => None,
    }
}

// The universe of a region variable.
fn region_universe<I: Interner>(_cx: &I, inner: &InferCtxtInner<I::Key>, vid: RegionVid) -> usize
    requires { vid.0 < length inner.now.regions.items }
    ensures { result ≡ universe_of (store_of (I.meaning _cx.now) inner.now) region_var vid.0 }
{
    inner.regions.universe_of(vid.0).0
}

// What becomes of a region for a target, at a variance.
fn fate_of_region<I: Interner>(
    cx: &I,
    inner: &InferCtxtInner<I::Key>,
    region: &Region<I>,
    variance: Variance,
    target: &TargetOf<I>,
) -> Fate
    requires lawful { IsLawful (I.meaning cx.now) inner.now }
    requires term_known { IsTrue (known ((I.meaning cx.now).region region.now)) }
    requires term_in { InContext (store_of (I.meaning cx.now) inner.now) ((I.meaning cx.now).region region.now) }
    ensures { IsFate (store_of (I.meaning cx.now) inner.now) (vid_kind target.now.vid) (vid_number target.now.vid)
        target.now.universe.0 variance ((I.meaning cx.now).region region.now) (Some region_var) result }
{
    match cx.region_kind(region) {
        RegionKind::ReBound(..) => Fate::ByParts,
        RegionKind::ReVar(vid) => {
            let named = region_universe(cx, inner, vid) <= target.universe.0;
            stays_if(is_invariant(variance) && named)
        }
        RegionKind::RePlaceholder(placeholder) => {
            let named = placeholder.universe.0 <= target.universe.0;
            stays_if(is_invariant(variance) && named)
        }
        RegionKind::ReStatic => stays_if(is_invariant(variance)),
        RegionKind::ReEarlyParam(_) => stays_if(is_invariant(variance)),
    }
}

// What becomes of another variable than the target, at a variance.
fn fate_of_variable<I: Interner>(
    _cx: &I,
    inner: &InferCtxtInner<I::Key>,
    vid: TermVid,
    variance: Variance,
    target: &TargetOf<I>,
) -> Fate
    requires lawful { IsLawful (I.meaning _cx.now) inner.now }
    requires made { IsMade (store_of (I.meaning _cx.now) inner.now) (vid_kind vid) (vid_number vid) }
    requires other { vid ≢ target.now.vid }
    ensures { IsFate (store_of (I.meaning _cx.now) inner.now) (vid_kind target.now.vid) (vid_number target.now.vid)
        target.now.universe.0 variance (leaf (variable (vid_kind vid) (vid_number vid)))
        (Some (vid_kind vid)) result }
{
    match vid {
        TermVid::Ty(vid) => {
            let named = inner.types.universe_of(vid.0).0 <= target.universe.0;
            stays_if(is_invariant(variance) && named)
        }
        TermVid::Const(vid) => { stays_if(inner.consts.universe_of(vid.0).0 <= target.universe.0) }
    }
}

/// What becomes of a term for a target, at a variance.
pub fn fate_of<I: Interner>(
    cx: &I,
    inner: &InferCtxtInner<I::Key>,
    term: &PartOf<I>,
    variance: Variance,
    target: &TargetOf<I>,
) -> Fate
    requires lawful { IsLawful (I.meaning cx.now) inner.now }
    requires term_known { IsTrue (known (part_tree (I.meaning cx.now) term.now)) }
    requires term_in { InContext (store_of (I.meaning cx.now) inner.now) (part_tree (I.meaning cx.now) term.now) }
    ensures { IsFate (store_of (I.meaning cx.now) inner.now) (vid_kind target.now.vid) (vid_number target.now.vid)
        target.now.universe.0 variance (part_tree (I.meaning cx.now) term.now)
        (new_kind term.now) result }
{
    if let Part::Region(region) = term {
        return fate_of_region(cx, inner, region, variance, target);
    }
    if let Some(vid) = variable_of(cx, term) {
        if is_same_vid(vid, target.vid) {
            return Fate::Cycle;
        }
        return fate_of_variable(cx, inner, vid, variance, target);
    }
    if let Some(universe) = placeholder_universe(cx, term) {
        if universe.0 > target.universe.0 {
            return Fate::Beyond;
        }
    }
    Fate::ByParts
}
