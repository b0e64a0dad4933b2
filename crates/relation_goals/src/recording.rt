//! What relating records of regions, and the goals that it registers.
ghost use Rattle.std.specs.Prelude.{◌≡◌, ◌≢◌, IsTrue, IfOk, OnErr, OnOk};
ghost use Rattle.relation_terms.specs.Trees.{known};
ghost use Rattle.relation_terms.specs.Meaning.{Extends};
ghost use Rattle.relation_terms.specs.Predicates.{predicate_kind_tree};
ghost use Rattle.term_enums.specs.declared.Variance.TheVariants.{Bivariant};
ghost use Rattle.relation_semantics.specs.Stores.{all_bound};
ghost use Rattle.relation_semantics.specs.Steps.{StaysFull};
ghost use Rattle.relation_semantics.specs.Measures.{Goes};
ghost use Rattle.relation_semantics.specs.Contexts.{KnowsTy, HasRegion};
ghost use Rattle.relation_semantics.specs.ContextCalls.{Stands, Grows};
ghost use Rattle.relation_semantics.specs.Goals.{IsDirected};
ghost use Rattle.relation_goals.specs.Emitting.{AddsAsked, MakesAliasAt, MakesSubtypeAt, RegionsStayBuilt};
ghost use Rattle.relation_goals.specs.Emitting.{dummy_predicate};

use relation_semantics::infer_ctxt::{InferCtxtLike, VisibleForLeakCheck};
use relation_terms::predicate::{PredicateKind, SubtypePredicate};
use relation_terms::terms::{
    AliasRelationDirection, Binder, BoundVariable, Interner, Keys, OutOfMemory, Predicate, Region,
    Span, TermKind, Ty, Variance,
};

/// The outermost form of an interner's predicate, without its binder.
pub type PredicateKindOf<I> = PredicateKind<<I as Keys>::Key, <I as Keys>::Id, <I as Keys>::Name>;

/// Records what two regions that are related at a variance are asked for: at `Covariant` that the left one outlives the
/// right one, at `Contravariant` that the right one outlives the left one, at `Invariant` both.
///
/// # Errors
/// `OutOfMemory` where a growth was refused. Nothing was recorded then.
pub fn relate_regions<Infcx: InferCtxtLike>(
    infcx: &mut Infcx,
    variance: Variance,
    a: &Region<Infcx::Interner>,
    b: &Region<Infcx::Interner>,
    span: Span<Infcx::Interner>,
) -> Result<(), OutOfMemory>
    requires lawful { (Infcx.state infcx.old).lawful }
    requires decides { variance ≢ Bivariant }
    requires a_in { HasRegion (Infcx.state infcx.old) a.now }
    requires b_in { HasRegion (Infcx.state infcx.old) b.now }
    ensures stands { Stands (Infcx.state infcx.old) (Infcx.state infcx.new) }
    ensures adds { OnOk result (AddsAsked (Infcx.state infcx.old) (Infcx.state infcx.new) variance a.now b.now) }
    ensures refused { OnErr result ((Infcx.state infcx.new).store ≡ (Infcx.state infcx.old).store) }
    ensures goes { Goes 0 (Infcx.state infcx.old).store (Infcx.state infcx.new).store }
    ensures bound { all_bound (Infcx.state infcx.new).store ≡ all_bound (Infcx.state infcx.old).store }
    ensures full { StaysFull (Infcx.state infcx.old).store (Infcx.state infcx.new).store }
    ensures built { RegionsStayBuilt (Infcx.state infcx.old) (Infcx.state infcx.new) a.now b.now }
{
    match variance {
        Variance::Covariant => infcx.sub_regions(b, a, VisibleForLeakCheck::Yes, span),
        Variance::Contravariant => infcx.sub_regions(a, b, VisibleForLeakCheck::Yes, span),
        Variance::Invariant => infcx.equate_regions(a, b, VisibleForLeakCheck::Yes, span),
        Variance::Bivariant => unreachable!(),
    }
}

// The predicate of a form under a binder of no variables.
fn mk_dummy<I: Interner>(cx: &mut I, kind: PredicateKindOf<I>) -> Result<Predicate<I>, OutOfMemory>
    requires { IsTrue (known (predicate_kind_tree (I.meaning cx.old) kind)) }
    ensures grown { Extends (I.meaning cx.old) (I.meaning cx.new) }
    ensures made { let m = I.meaning cx.old in
        IfOk result (λ p. (I.meaning cx.new).predicate p ≡ dummy_predicate m kind) }
{
    let none: Vec<BoundVariable<I>> = Vec::new(cx.alloc());
    let bound_vars = cx.mk_bound_vars(&none)?;
    cx.mk_predicate(Binder {
        value: kind,
        bound_vars,
    })
}

/// The predicate of a form, which a context's interner has to know, under a binder of no variables: of upstream's
/// `Binder::dummy`. Nothing is recorded.
///
/// # Errors
/// `OutOfMemory` where a growth was refused.
pub fn dummy_predicate<Infcx: InferCtxtLike>(
    infcx: &mut Infcx,
    kind: PredicateKindOf<Infcx::Interner>,
) -> Result<Predicate<Infcx::Interner>, OutOfMemory>
    requires lawful { (Infcx.state infcx.old).lawful }
    requires kind_known { IsTrue (known (predicate_kind_tree (Infcx.state infcx.old).meaning kind)) }
    ensures grows { Grows (Infcx.state infcx.old) (Infcx.state infcx.new) }
    ensures same_store { (Infcx.state infcx.new).store ≡ (Infcx.state infcx.old).store }
    ensures made { let m = (Infcx.state infcx.old).meaning in let n = (Infcx.state infcx.new).meaning in
        IfOk result (λ p. n.predicate p ≡ dummy_predicate m kind) }
{
    infcx.lemma_interner_grows();
    mk_dummy(infcx.cx_mut(), kind)
}

/// What is asked of two type variables at a variance that is directed: that the one is a subtype of the other. Nothing is
/// recorded.
///
/// # Errors
/// `OutOfMemory` where a growth was refused.
pub fn subtype_asked<Infcx: InferCtxtLike>(
    infcx: &mut Infcx,
    variance: Variance,
    a: &Ty<Infcx::Interner>,
    b: &Ty<Infcx::Interner>,
) -> Result<Predicate<Infcx::Interner>, OutOfMemory>
    requires lawful { (Infcx.state infcx.old).lawful }
    requires directed { IsDirected variance }
    requires a_known { KnowsTy (Infcx.state infcx.old) a.now }
    requires b_known { KnowsTy (Infcx.state infcx.old) b.now }
    ensures grows { Grows (Infcx.state infcx.old) (Infcx.state infcx.new) }
    ensures same_store { (Infcx.state infcx.new).store ≡ (Infcx.state infcx.old).store }
    ensures made { MakesSubtypeAt (Infcx.state infcx.old) (Infcx.state infcx.new) variance a.now b.now result }
{
    match variance {
        Variance::Covariant => {
            let subtype = SubtypePredicate {
                a_is_expected: true,
                a: *a,
                b: *b,
            };
            dummy_predicate(infcx, PredicateKind::Subtype(subtype))
        }
        Variance::Contravariant => {
            let subtype = SubtypePredicate {
                a_is_expected: false,
                a: *b,
                b: *a,
            };
            dummy_predicate(infcx, PredicateKind::Subtype(subtype))
        }
        Variance::Invariant | Variance::Bivariant => unreachable!(),
    }
}

/// What is asked of two types, one an alias, at a variance: that they are in order, or one at `Invariant`. Nothing is
/// recorded.
///
/// # Errors
/// `OutOfMemory` where a growth was refused.
pub fn alias_asked<Infcx: InferCtxtLike>(
    infcx: &mut Infcx,
    variance: Variance,
    a: &Ty<Infcx::Interner>,
    b: &Ty<Infcx::Interner>,
) -> Result<Predicate<Infcx::Interner>, OutOfMemory>
    requires lawful { (Infcx.state infcx.old).lawful }
    requires decides { variance ≢ Bivariant }
    requires a_known { KnowsTy (Infcx.state infcx.old) a.now }
    requires b_known { KnowsTy (Infcx.state infcx.old) b.now }
    ensures grows { Grows (Infcx.state infcx.old) (Infcx.state infcx.new) }
    ensures same_store { (Infcx.state infcx.new).store ≡ (Infcx.state infcx.old).store }
    ensures made { MakesAliasAt (Infcx.state infcx.old) (Infcx.state infcx.new) variance a.now b.now result }
{
    let (x, y) = (TermKind::Ty(*a), TermKind::Ty(*b));
    match variance {
        Variance::Covariant => {
            let kind = PredicateKind::AliasRelate(x, y, AliasRelationDirection::Subtype);
            dummy_predicate(infcx, kind)
        }
        Variance::Contravariant => {
            let kind = PredicateKind::AliasRelate(y, x, AliasRelationDirection::Subtype);
            dummy_predicate(infcx, kind)
        }
        Variance::Invariant => {
            let kind = PredicateKind::AliasRelate(x, y, AliasRelationDirection::Equate);
            dummy_predicate(infcx, kind)
        }
        Variance::Bivariant => unreachable!(),
    }
}
