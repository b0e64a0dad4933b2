//! What the depth test compares of two outermost forms: whether they are alike, and what it goes on to inside them.
ghost use Rattle.std.specs.Prelude.{◌≡◌, ◌≢◌, ◌↔◌, IsTrue, cond, nat_eq};
ghost use Rattle.relation_terms.specs.Trees.{known, count};
ghost use Rattle.relation_terms.specs.Meaning.{kind_tree};
ghost use Rattle.relation_folds.specs.Clashes.{principal};
ghost use Rattle.fast_reject.specs.Pairs.{Pairs, IsOfList, IsOfItem};
ghost use Rattle.fast_reject.specs.declared.pairs.Pair.TheVariants.{Apart, Args};

use crate::trait_object::principal_def_id;
use relation_terms::terms::{
    ArgsKey, ConstKey, ExistentialPredicates, FnHeader, Interner, Mutability, TyForm, TyKey,
    TyKind, Tys, TysKey,
};

/// What is compared inside of two types, the left one's before the right one's.
#[derive(Clone, Copy)]
pub enum Pair<X> {
    /// Their forms are unlike.
    Apart,
    /// Nothing inside is compared.
    Nothing,
    Types(TyKey<X>, TyKey<X>),
    /// The types and the lengths of arrays.
    Arrays(TyKey<X>, TyKey<X>, ConstKey<X>, ConstKey<X>),
    Lists(TysKey<X>, TysKey<X>),
    Args(ArgsKey<X>, ArgsKey<X>),
}

fn is_same_id<I: Interner>(_cx: &I, id: &I::Id, other: &I::Id) -> bool
    ensures { IsTrue result ↔ ((I.meaning _cx.now).id id.now ≡ (I.meaning _cx.now).id other.now) }
{
    id == other
}

// Whether two lists have as many types.
#[inline(always)]
#[tactic(auto, using(relation_terms::proofs::Members::slice_counts))]
fn is_same_count<I: Interner>(cx: &I, tys: &Tys<I>, others: &Tys<I>) -> bool
    requires tys_known { IsTrue (known ((I.meaning cx.now).tys tys.now)) }
    requires others_known { IsTrue (known ((I.meaning cx.now).tys others.now)) }
    ensures { IsTrue result ↔ (count ((I.meaning cx.now).tys tys.now) ≡ count ((I.meaning cx.now).tys others.now)) }
{
    cx.tys(tys).len() == cx.tys(others).len()
}

fn is_mut_alike(mutability: Mutability, other: Mutability) -> bool
    ensures { IsTrue result ↔ (mutability ≡ other) }
{
    mutability == other
}

fn is_same_header(header: &FnHeader, other: &FnHeader) -> bool
    ensures { IsTrue result ↔ (header.now ≡ other.now) }
{
    header == other
}

// Whether two trait objects have one principal, or both none.
fn is_same_principal<I: Interner>(
    cx: &I,
    predicates: ExistentialPredicates<I>,
    others: ExistentialPredicates<I>,
) -> bool
    requires predicates_known { IsTrue (known ((I.meaning cx.now).existential_predicates predicates)) }
    requires others_known { IsTrue (known ((I.meaning cx.now).existential_predicates others)) }
    ensures { let m = I.meaning cx.now in IsTrue result ↔
        (principal (m.existential_predicates predicates) ≡ principal (m.existential_predicates others)) }
{
    match principal_def_id(cx, &predicates) {
        Some(one) => match principal_def_id(cx, &others) {
            Some(other) => is_same_id(cx, &one.0, &other.0),
            None => false,
        },
        None => principal_def_id(cx, &others).is_none(),
    }
}

// A pair of two types that are alike, if they are.
#[inline(always)]
fn if_alike<X: Copy>(alike: bool, pair: Pair<X>) -> Pair<X>
    ensures { result ≡ cond alike pair Apart }
{
    if alike { pair } else { Pair::Apart }
}

// What is compared inside of two types over items of one sort.
#[inline(always)]
fn items<I: Interner>(
    cx: &I,
    id: &I::Id,
    other: &I::Id,
    args: ArgsKey<I::Key>,
    others: ArgsKey<I::Key>,
) -> Pair<I::Key>
    ensures { let m = I.meaning cx.now in
        result ≡ cond (nat_eq (m.id id.now) (m.id other.now)) (Args args others) Apart }
{
    if_alike(is_same_id(cx, id, other), Pair::Args(args, others))
}

// What is compared inside of two types, the left one over an item or without parts.
#[inline(always)]
fn paired_items<I: Interner>(cx: &I, left: &TyForm<I>, right: &TyForm<I>) -> Pair<I::Key>
    requires left_known { IsTrue (known (kind_tree (I.meaning cx.now) left.now)) }
    requires right_known { IsTrue (known (kind_tree (I.meaning cx.now) right.now)) }
    requires differ { kind_tree (I.meaning cx.now) left.now ≢ kind_tree (I.meaning cx.now) right.now }
    requires of_item { IsOfItem (kind_tree (I.meaning cx.now) left.now) }
    ensures { let m = I.meaning cx.now in Pairs m (kind_tree m left.now) (kind_tree m right.now) result }
{
    match left {
        TyKind::Adt(def, args) => match right {
            TyKind::Adt(other, others) => items(cx, &def.0, &other.0, *args, *others),
            _ => Pair::Apart,
        },
        TyKind::FnDef(def, args) => match right {
            TyKind::FnDef(other, others) => items(cx, &def.0, &other.0, *args, *others),
            _ => Pair::Apart,
        },
        TyKind::Closure(def, args) => match right {
            TyKind::Closure(other, others) => items(cx, &def.0, &other.0, *args, *others),
            _ => Pair::Apart,
        },
        TyKind::CoroutineClosure(def, args) => match right {
            TyKind::CoroutineClosure(other, others) => items(cx, &def.0, &other.0, *args, *others),
            _ => Pair::Apart,
        },
        TyKind::Coroutine(def, args) => match right {
            TyKind::Coroutine(other, others) => items(cx, &def.0, &other.0, *args, *others),
            _ => Pair::Apart,
        },
        TyKind::CoroutineWitness(def, args) => match right {
            TyKind::CoroutineWitness(other, others) => items(cx, &def.0, &other.0, *args, *others),
            _ => Pair::Apart,
        },
        _ => Pair::Apart,
    }
}

// What is compared inside of two types, the left one over a list, over an item or without parts.
#[inline(always)]
fn paired_lists<I: Interner>(cx: &I, left: &TyForm<I>, right: &TyForm<I>) -> Pair<I::Key>
    requires left_known { IsTrue (known (kind_tree (I.meaning cx.now) left.now)) }
    requires right_known { IsTrue (known (kind_tree (I.meaning cx.now) right.now)) }
    requires differ { kind_tree (I.meaning cx.now) left.now ≢ kind_tree (I.meaning cx.now) right.now }
    requires of_list { IsOfList (kind_tree (I.meaning cx.now) left.now) }
    ensures { let m = I.meaning cx.now in Pairs m (kind_tree m left.now) (kind_tree m right.now) result }
{
    match left {
        TyKind::Tuple(tys) => match right {
            TyKind::Tuple(others) => {
                if_alike(is_same_count(cx, tys, others), Pair::Lists(*tys, *others))
            }
            _ => Pair::Apart,
        },
        TyKind::FnPtr(types, header) => match right {
            TyKind::FnPtr(others, other) => {
                let tys = types.value.inputs_and_output;
                let others = others.value.inputs_and_output;
                let pair = if_alike(is_same_count(cx, &tys, &others), Pair::Lists(tys, others));
                if_alike(is_same_header(header, other), pair)
            }
            _ => Pair::Apart,
        },
        TyKind::Dynamic(predicates, _) => match right {
            TyKind::Dynamic(others, _) => {
                if_alike(is_same_principal(cx, *predicates, *others), Pair::Nothing)
            }
            _ => Pair::Apart,
        },
        TyKind::Alias(alias) => match right {
            TyKind::Alias(other) => Pair::Args(alias.args, other.args),
            _ => Pair::Apart,
        },
        _ => paired_items(cx, left, right),
    }
}

/// What is compared inside of two types that differ, or that they are apart by their forms alone.
#[inline(always)]
pub fn paired<I: Interner>(cx: &I, left: &TyForm<I>, right: &TyForm<I>) -> Pair<I::Key>
    requires left_known { IsTrue (known (kind_tree (I.meaning cx.now) left.now)) }
    requires right_known { IsTrue (known (kind_tree (I.meaning cx.now) right.now)) }
    requires differ { kind_tree (I.meaning cx.now) left.now ≢ kind_tree (I.meaning cx.now) right.now }
    ensures { let m = I.meaning cx.now in Pairs m (kind_tree m left.now) (kind_tree m right.now) result }
{
    match left {
        TyKind::Array(ty, len) => match right {
            TyKind::Array(other, length) => Pair::Arrays(*ty, *other, *len, *length),
            _ => Pair::Apart,
        },
        TyKind::Pat(ty, _) => match right {
            TyKind::Pat(other, _) => Pair::Types(*ty, *other),
            _ => Pair::Apart,
        },
        TyKind::Slice(ty) => match right {
            TyKind::Slice(other) => Pair::Types(*ty, *other),
            _ => Pair::Apart,
        },
        TyKind::RawPtr(ty, mutability) => match right {
            TyKind::RawPtr(other, others) => {
                if_alike(is_mut_alike(*mutability, *others), Pair::Types(*ty, *other))
            }
            _ => Pair::Apart,
        },
        TyKind::Ref(_, ty, mutability) => match right {
            TyKind::Ref(_, other, others) => {
                if_alike(is_mut_alike(*mutability, *others), Pair::Types(*ty, *other))
            }
            _ => Pair::Apart,
        },
        TyKind::UnsafeBinder(ty) => match right {
            TyKind::UnsafeBinder(other) => Pair::Types(ty.value, other.value),
            _ => Pair::Apart,
        },
        _ => paired_lists(cx, left, right),
    }
}
