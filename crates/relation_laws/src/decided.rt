//! The relation of small variable-free terms, decided by plain recursion.
ghost use Rattle.std.specs.Prelude.{◌≡◌, ◌≢◌, ◌↔◌, ◌⊎◌, ℕ, ◌+◌, map, true, min, max, length};
ghost use Rattle.relation_terms.specs.Heads.{leaf_sort, head_sort};
ghost use Rattle.relation_terms.specs.Trees.{Tree, leaf};
ghost use Rattle.term_enums.specs.Variances.{xform};
ghost use Rattle.relation_semantics.specs.Relation.{Items, Interpretation, RegionRule, Rel, at, parts, part_at, IsError};
ghost use Rattle.relation_laws.specs.Decided.{leaf_of, head_of, small_parts, all_declare, pair_of};
ghost use Rattle.relation_laws.specs.Decided.{sort_meant, plain_leaf, Leads, Obeys, Decides};

use relation_terms::terms::{FloatTy, IntTy, Mutability, UintTy, Variance};

/// The forms without parts, and placeholders.
#[derive(Clone, Copy, PartialEq, Eq)]
pub enum SmallLeaf {
    Bool,
    Char,
    Str,
    Never,
    TypeError,
    Int(IntTy),
    Uint(UintTy),
    Float(FloatTy),
    Foreign(u64),
    TypeParam(u64, u64),
    Static,
    EarlyRegion(u64, u64),
    ConstError,
    ConstParam(u64, u64),
    ValueLeaf(u128, u8),
    NotNull,
    TypePlaceholder(u64, u64),
    RegionPlaceholder(u64, u64),
    ConstPlaceholder(u64, u64),
}

/// The forms over parts.
#[derive(Clone, Copy, PartialEq, Eq)]
pub enum SmallHead {
    Adt(u64),
    FnDef(u64),
    Closure(u64),
    CoroutineClosure(u64),
    Coroutine(u64),
    CoroutineWitness(u64),
    Array,
    Slice,
    PatternType,
    Tuple,
    RawPtr(Mutability),
    Ref(Mutability),
    Value,
    ValueType,
    ValueBranch,
    Expression(u64),
    RangePattern,
    OrPattern,
}

/// The sorts of these forms.
#[derive(Clone, Copy, PartialEq, Eq)]
pub enum SmallSort {
    Region,
    Type,
    Const,
    Value,
    ValueType,
    Pattern,
}

/// A variable-free term without aliases, binders and trait objects.
#[cycle(small)]
#[derive(Drop)]
pub enum SmallTerm {
    Simple(SmallLeaf),
    Form(SmallHead, Box<SmallParts>),
}

/// The parts of a form.
#[cycle(small)]
#[derive(Drop)]
pub enum SmallParts {
    End,
    Next(Box<SmallTerm>, Box<SmallParts>),
}

// A leaf without a parameter's name.
fn plain(leaf: SmallLeaf) -> SmallLeaf
    ensures { leaf_of result ≡ plain_leaf (leaf_of leaf) }
{
    match leaf {
        SmallLeaf::TypeParam(i, _) => SmallLeaf::TypeParam(i, 0),
        SmallLeaf::ConstParam(i, _) => SmallLeaf::ConstParam(i, 0),
        other => other,
    }
}

fn sort_of_leaf(leaf: SmallLeaf) -> SmallSort
    ensures { sort_meant result ≡ leaf_sort (leaf_of leaf) }
{
    match leaf {
        SmallLeaf::Static | SmallLeaf::EarlyRegion(_, _) | SmallLeaf::RegionPlaceholder(_, _) => {
            SmallSort::Region
        }
        SmallLeaf::ConstError | SmallLeaf::ConstParam(_, _) | SmallLeaf::ConstPlaceholder(_, _) =>
            SmallSort::Const,
        SmallLeaf::ValueLeaf(_, _) => SmallSort::Value,
        SmallLeaf::NotNull => SmallSort::Pattern,
        _ => SmallSort::Type,
    }
}

fn sort_of_head(head: SmallHead) -> SmallSort
    ensures { sort_meant result ≡ head_sort (head_of head) }
{
    match head {
        SmallHead::Value | SmallHead::Expression(_) => SmallSort::Const,
        SmallHead::ValueType => SmallSort::ValueType,
        SmallHead::ValueBranch => SmallSort::Value,
        SmallHead::RangePattern | SmallHead::OrPattern => SmallSort::Pattern,
        _ => SmallSort::Type,
    }
}

fn is_error(x: SmallLeaf) -> bool
    ensures { result ≡ true ↔ IsError (leaf (leaf_of x)) }
{
    match x {
        SmallLeaf::TypeError | SmallLeaf::ConstError => true,
        _ => false,
    }
}

fn same_leaf(a: SmallLeaf, b: SmallLeaf) -> bool
    ensures { result ≡ true ↔ a ≡ b }
{
    a == b
}

fn same_head(a: SmallHead, b: SmallHead) -> bool
    ensures { result ≡ true ↔ a ≡ b }
{
    a == b
}

fn same_sort(a: SmallSort, b: SmallSort) -> bool
    ensures { result ≡ true ↔ a ≡ b }
{
    a == b
}

fn both(a: bool, b: bool) -> bool
    ensures { result ≡ true ↔ (a ≡ true) × (b ≡ true) }
{
    a && b
}

fn either(a: bool, b: bool) -> bool
    ensures { result ≡ true ↔ (a ≡ true) ⊎ (b ≡ true) }
{
    a || b
}

// Whether the pairs lead from one region to another.
fn leads(pairs: &[(SmallLeaf, SmallLeaf)], a: SmallLeaf, b: SmallLeaf) -> bool
    ensures { result ≡ true ↔ Leads (map pair_of pairs.now) (leaf (leaf_of a)) (leaf (leaf_of b)) }
{
    match pairs.split_first() {
        None => same_leaf(a, b),
        Some((pair, rest)) => {
            either(
                leads(rest, a, b),
                both(leads(rest, a, pair.0), leads(rest, pair.1, b)),
            )
        }
    }
}

// What relates two regions at a variance: all outlive each other, or the pairs lead from one to the other.
fn regions_related(
    all: bool,
    pairs: &[(SmallLeaf, SmallLeaf)],
    v: Variance,
    a: SmallLeaf,
    b: SmallLeaf,
) -> bool
    ensures { (w : Interpretation) → Obeys w all pairs.now →
        (result ≡ true ↔ RegionRule w v (leaf (leaf_of a)) (leaf (leaf_of b))) }
{
    let forth = either(all, leads(pairs, a, b));
    let back = either(all, leads(pairs, b, a));
    match v {
        Variance::Covariant => forth,
        Variance::Contravariant => back,
        Variance::Invariant => both(forth, back),
        Variance::Bivariant => true,
    }
}

// Whether two terms without parts are related.
fn leaves_related(
    all: bool,
    pairs: &[(SmallLeaf, SmallLeaf)],
    v: Variance,
    a: SmallLeaf,
    b: SmallLeaf,
) -> bool
    requires { v ≢ Variance.Bivariant }
    ensures { (c : Items) (w : Interpretation) (e : Tree) → Obeys w all pairs.now →
        (result ≡ true ↔ Rel c w e (at v) (leaf (leaf_of a)) (leaf (leaf_of b))) }
{
    let alike = same_leaf(plain(a), plain(b));
    let one_sort = same_sort(sort_of_leaf(a), sort_of_leaf(b));
    let error = both(one_sort, either(is_error(a), is_error(b)));
    let left = same_sort(sort_of_leaf(a), SmallSort::Region);
    let right = same_sort(sort_of_leaf(b), SmallSort::Region);
    let regions = both(both(left, right), regions_related(all, pairs, v, a, b));
    either(alike, either(error, regions))
}

// Whether an error is related with a form: where both are of one sort.
fn error_related(error: SmallLeaf, head: SmallHead) -> bool
    ensures { result ≡ true ↔
        IsError (leaf (leaf_of error)) × (leaf_sort (leaf_of error) ≡ head_sort (head_of head)) }
{
    both(
        is_error(error),
        same_sort(sort_of_leaf(error), sort_of_head(head)),
    )
}

// The variance of the part at a place of a form that stands at a variance.
fn part_variance(declared: &[Variance], head: SmallHead, i: usize, v: Variance) -> Variance
    ensures { result ≡ part_at (all_declare declared.now) (head_of head) i v }
{
    match head {
        SmallHead::Adt(_) | SmallHead::FnDef(_) => {
            if i < declared.len() {
                compose(v, declared[i])
            } else {
                compose(v, Variance::Invariant)
            }
        }
        SmallHead::Closure(_)
        | SmallHead::CoroutineClosure(_)
        | SmallHead::Coroutine(_)
        | SmallHead::CoroutineWitness(_)
        | SmallHead::Expression(_) => compose(v, Variance::Invariant),
        SmallHead::RawPtr(Mutability::Mut) => compose(v, Variance::Invariant),
        SmallHead::Ref(Mutability::Mut) => {
            if i == 0 {
                compose(v, Variance::Covariant)
            } else {
                compose(v, Variance::Invariant)
            }
        }
        SmallHead::ValueType => Variance::Bivariant,
        _ => compose(v, Variance::Covariant),
    }
}

// How a variance is seen through another.
fn compose(v: Variance, w: Variance) -> Variance
    ensures { result ≡ xform v w }
{
    match v {
        Variance::Covariant => w,
        Variance::Contravariant => match w {
            Variance::Covariant => Variance::Contravariant,
            Variance::Contravariant => Variance::Covariant,
            other => other,
        },
        Variance::Invariant => Variance::Invariant,
        Variance::Bivariant => Variance::Bivariant,
    }
}

// The next place, as far as places are told apart.
fn next_place(declared: &[Variance], i: usize) -> usize
    ensures { (j : ℕ) → i ≡ min j (max (length declared.now) 1) →
        result ≡ min (j + 1) (max (length declared.now) 1) }
{
    if i < declared.len() {
        i + 1
    } else if i == 0 {
        1
    } else {
        i
    }
}

/// Whether two terms are related at a variance, where all regions outlive each other or these pairs say which do, and
/// where each item declares the same variances for its parameters.
#[cycle(related)]
pub fn related(
    all: bool,
    pairs: &[(SmallLeaf, SmallLeaf)],
    declared: &[Variance],
    v: Variance,
    a: &SmallTerm,
    b: &SmallTerm,
) -> bool
    ensures { (w : Interpretation) (e : Tree) → Obeys w all pairs.now → Decides result declared.now w e v a.now b.now }
{
    if let Variance::Bivariant = v {
        return true;
    }
    match (a, b) {
        (SmallTerm::Simple(x), SmallTerm::Simple(y)) => leaves_related(all, pairs, v, *x, *y),
        (SmallTerm::Simple(x), SmallTerm::Form(h, _)) => error_related(*x, *h),
        (SmallTerm::Form(h, _), SmallTerm::Simple(y)) => error_related(*y, *h),
        (SmallTerm::Form(h, xs), SmallTerm::Form(k, ys)) => {
            let parts = parts_related(all, pairs, declared, *h, 0, v, xs, ys);
            both(same_head(*h, *k), parts)
        }
    }
}

// Whether the parts of two forms of one head are related, from a place on.
#[cycle(related)]
fn parts_related(
    all: bool,
    pairs: &[(SmallLeaf, SmallLeaf)],
    declared: &[Variance],
    head: SmallHead,
    i: usize,
    v: Variance,
    xs: &SmallParts,
    ys: &SmallParts,
) -> bool
    ensures { (w : Interpretation) (e : Tree) (j : ℕ) → Obeys w all pairs.now →
        i ≡ min j (max (length declared.now) 1) →
        (result ≡ true ↔ Rel (all_declare declared.now) w e (parts (head_of head) j v)
        (small_parts xs.now) (small_parts ys.now)) }
{
    match (xs, ys) {
        (SmallParts::End, SmallParts::End) => true,
        (SmallParts::Next(x, xs), SmallParts::Next(y, ys)) => {
            let u = part_variance(declared, head, i, v);
            let first = related(all, pairs, declared, u, x, y);
            let i = next_place(declared, i);
            both(
                first,
                parts_related(all, pairs, declared, head, i, v, xs, ys),
            )
        }
        (SmallParts::End, SmallParts::Next(_, _)) => false,
        (SmallParts::Next(_, _), SmallParts::End) => false,
    }
}
