//! A related and an unrelated pair of each form, at covariance, contravariance and invariance.

use crate::decided::{SmallHead, SmallLeaf, SmallParts, SmallTerm, related};
use relation_terms::terms::{FloatTy, IntTy, Mutability, OutOfMemory, UintTy, Variance};
use std::alloc::Global;
use std::test::Fail;

type Made = Result<SmallTerm, OutOfMemory>;

// The answers at covariance, contravariance and invariance.
type Each = Result<(bool, bool, bool), OutOfMemory>;

// The regions 'a, 'b and 'c, of which 'a outlives 'b.
const A: SmallLeaf = SmallLeaf::EarlyRegion(0, 0);

const B: SmallLeaf = SmallLeaf::EarlyRegion(1, 0);

const C: SmallLeaf = SmallLeaf::EarlyRegion(2, 0);

const U8: SmallLeaf = SmallLeaf::Uint(UintTy::U8);

fn simple(leaf: SmallLeaf) -> Made {
    Ok(SmallTerm::Simple(leaf))
}

fn none(alloc: Global, head: SmallHead) -> Made {
    Ok(SmallTerm::Form(head, Box::new(alloc, SmallParts::End)?))
}

fn one(alloc: Global, head: SmallHead, part: SmallTerm) -> Made {
    let end = Box::new(alloc, SmallParts::End)?;
    let part = Box::new(alloc, part)?;
    Ok(SmallTerm::Form(head, Box::new(alloc, SmallParts::Next(part, end))?))
}

fn two(alloc: Global, head: SmallHead, first: SmallTerm, second: SmallTerm) -> Made {
    let end = Box::new(alloc, SmallParts::End)?;
    let second = Box::new(alloc, second)?;
    let rest = Box::new(alloc, SmallParts::Next(second, end))?;
    let first = Box::new(alloc, first)?;
    Ok(SmallTerm::Form(head, Box::new(alloc, SmallParts::Next(first, rest))?))
}

// A reference to `u8`, shared or not.
fn reference(alloc: Global, region: SmallLeaf, mutability: Mutability) -> Made {
    two(
        alloc,
        SmallHead::Ref(mutability),
        SmallTerm::Simple(region),
        SmallTerm::Simple(U8),
    )
}

fn shared(alloc: Global, region: SmallLeaf) -> Made {
    reference(alloc, region, Mutability::Not)
}

// A constant of a type with a value tree without parts.
fn value(alloc: Global, ty: SmallLeaf, bits: u128) -> Made {
    let ty = one(alloc, SmallHead::ValueType, SmallTerm::Simple(ty))?;
    two(
        alloc,
        SmallHead::Value,
        ty,
        SmallTerm::Simple(SmallLeaf::ValueLeaf(bits, 1)),
    )
}

// Whether the two are related at covariance, contravariance and invariance.
fn each(declared: &[Variance], a: &SmallTerm, b: &SmallTerm) -> (bool, bool, bool) {
    let pairs = [(A, B)];
    (
        related(false, &pairs, declared, Variance::Covariant, a, b),
        related(false, &pairs, declared, Variance::Contravariant, a, b),
        related(false, &pairs, declared, Variance::Invariant, a, b),
    )
}

fn leaves(a: SmallLeaf, b: SmallLeaf) -> (bool, bool, bool) {
    each(&[], &SmallTerm::Simple(a), &SmallTerm::Simple(b))
}

const ALWAYS: (bool, bool, bool) = (true, true, true);

const NEVER: (bool, bool, bool) = (false, false, false);

const FORTH: (bool, bool, bool) = (true, false, false);

const BACK: (bool, bool, bool) = (false, true, false);

// Terms without parts, and whether they are related at each variance.
const LEAVES: [(SmallLeaf, SmallLeaf, (bool, bool, bool)); 35] = [
    (SmallLeaf::Bool, SmallLeaf::Bool, ALWAYS),
    (SmallLeaf::Bool, SmallLeaf::Char, NEVER),
    (SmallLeaf::Char, SmallLeaf::Char, ALWAYS),
    (SmallLeaf::Char, SmallLeaf::Str, NEVER),
    (SmallLeaf::Str, SmallLeaf::Str, ALWAYS),
    (SmallLeaf::Str, SmallLeaf::Never, NEVER),
    (SmallLeaf::Never, SmallLeaf::Never, ALWAYS),
    (SmallLeaf::Never, SmallLeaf::Bool, NEVER),
    (SmallLeaf::Int(IntTy::I8), SmallLeaf::Int(IntTy::I8), ALWAYS),
    (SmallLeaf::Int(IntTy::I8), SmallLeaf::Int(IntTy::I16), NEVER),
    (U8, U8, ALWAYS),
    (U8, SmallLeaf::Uint(UintTy::U16), NEVER),
    (U8, SmallLeaf::Int(IntTy::I8), NEVER),
    (
        SmallLeaf::Float(FloatTy::F32),
        SmallLeaf::Float(FloatTy::F32),
        ALWAYS,
    ),
    (
        SmallLeaf::Float(FloatTy::F32),
        SmallLeaf::Float(FloatTy::F64),
        NEVER,
    ),
    (SmallLeaf::Foreign(1), SmallLeaf::Foreign(1), ALWAYS),
    (SmallLeaf::Foreign(1), SmallLeaf::Foreign(2), NEVER),
    (
        SmallLeaf::TypeParam(0, 1),
        SmallLeaf::TypeParam(0, 2),
        ALWAYS,
    ),
    (
        SmallLeaf::TypeParam(0, 1),
        SmallLeaf::TypeParam(1, 1),
        NEVER,
    ),
    (
        SmallLeaf::ConstParam(0, 1),
        SmallLeaf::ConstParam(0, 2),
        ALWAYS,
    ),
    (
        SmallLeaf::ConstParam(0, 1),
        SmallLeaf::ConstParam(1, 1),
        NEVER,
    ),
    (
        SmallLeaf::TypePlaceholder(1, 0),
        SmallLeaf::TypePlaceholder(1, 0),
        ALWAYS,
    ),
    (
        SmallLeaf::TypePlaceholder(1, 0),
        SmallLeaf::TypePlaceholder(2, 0),
        NEVER,
    ),
    (
        SmallLeaf::ConstPlaceholder(1, 0),
        SmallLeaf::ConstPlaceholder(1, 0),
        ALWAYS,
    ),
    (
        SmallLeaf::ConstPlaceholder(1, 0),
        SmallLeaf::ConstPlaceholder(1, 1),
        NEVER,
    ),
    (SmallLeaf::TypeError, U8, ALWAYS),
    (U8, SmallLeaf::TypeError, ALWAYS),
    (SmallLeaf::TypeError, A, NEVER),
    (SmallLeaf::ConstError, SmallLeaf::ConstParam(0, 0), ALWAYS),
    (SmallLeaf::ConstError, U8, NEVER),
    (
        SmallLeaf::ValueLeaf(1, 1),
        SmallLeaf::ValueLeaf(1, 1),
        ALWAYS,
    ),
    (
        SmallLeaf::ValueLeaf(1, 1),
        SmallLeaf::ValueLeaf(2, 1),
        NEVER,
    ),
    (
        SmallLeaf::ValueLeaf(1, 1),
        SmallLeaf::ValueLeaf(1, 2),
        NEVER,
    ),
    (SmallLeaf::NotNull, SmallLeaf::NotNull, ALWAYS),
    (SmallLeaf::NotNull, SmallLeaf::ValueLeaf(1, 1), NEVER),
];

#[test]
fn terms_without_parts(rt: HostRuntime) {
    for (a, b, want) in LEAVES {
        assert!(rt; leaves(a, b) == want);
    }
}

#[test]
fn regions_by_what_outlives_what(rt: HostRuntime) {
    for (a, b, want) in [
        (A, A, ALWAYS),
        (A, B, FORTH),
        (B, A, BACK),
        (A, C, NEVER),
        (SmallLeaf::Static, SmallLeaf::Static, ALWAYS),
        (SmallLeaf::Static, A, NEVER),
        (
            SmallLeaf::RegionPlaceholder(1, 0),
            SmallLeaf::RegionPlaceholder(1, 0),
            ALWAYS,
        ),
        (
            SmallLeaf::RegionPlaceholder(1, 0),
            SmallLeaf::RegionPlaceholder(1, 1),
            NEVER,
        ),
    ] {
        assert!(rt; leaves(a, b) == want);
    }
    let a = SmallTerm::Simple(A);
    let c = SmallTerm::Simple(C);
    assert!(rt; related(true, &[], &[], Variance::Invariant, &a, &c));
    let through = [(A, B), (B, C)];
    assert!(rt; related(false, &through, &[], Variance::Covariant, &a, &c));
    assert!(rt; !related(false, &through, &[], Variance::Covariant, &c, &a));
}

// Two forms with one part each, and with two.
fn ones(
    alloc: Global,
    declared: &[Variance],
    heads: (SmallHead, SmallHead),
    x: Made,
    y: Made,
) -> Each {
    let a = one(alloc, heads.0, x?)?;
    let b = one(alloc, heads.1, y?)?;
    Ok(each(declared, &a, &b))
}

fn twos(alloc: Global, head: SmallHead, x: (Made, Made), y: (Made, Made)) -> Each {
    let a = two(alloc, head, x.0?, x.1?)?;
    let b = two(alloc, head, y.0?, y.1?)?;
    Ok(each(&[], &a, &b))
}

fn pair(x: Made, y: Made) -> Each {
    let a = x?;
    let b = y?;
    Ok(each(&[], &a, &b))
}

// Forms of one head over `&'a u8` and `&'b u8`, over `&'a u8` twice, and over `&'a u8` and `&'c u8`.
fn varying(alloc: Global, declared: &[Variance], head: SmallHead) -> Each {
    ones(
        alloc,
        declared,
        (head, head),
        shared(alloc, A),
        shared(alloc, B),
    )
}

fn equal(alloc: Global, declared: &[Variance], head: SmallHead) -> Each {
    ones(
        alloc,
        declared,
        (head, head),
        shared(alloc, A),
        shared(alloc, A),
    )
}

fn unlike(alloc: Global, declared: &[Variance], head: SmallHead) -> Each {
    ones(
        alloc,
        declared,
        (head, head),
        shared(alloc, A),
        shared(alloc, C),
    )
}

#[test]
fn pointers_and_slices(rt: HostRuntime) -> Result<(), Fail> {
    let alloc = rt.alloc();
    for (head, want) in [
        (SmallHead::RawPtr(Mutability::Not), FORTH),
        (SmallHead::RawPtr(Mutability::Mut), NEVER),
        (SmallHead::Slice, FORTH),
        (SmallHead::Tuple, FORTH),
    ] {
        assert!(rt; varying(alloc, &[], head)? == want);
        assert!(rt; equal(alloc, &[], head)? == ALWAYS);
        assert!(rt; unlike(alloc, &[], head)? == NEVER);
    }
    let pointers = (
        SmallHead::RawPtr(Mutability::Not),
        SmallHead::RawPtr(Mutability::Mut),
    );
    assert!(rt; ones(alloc, &[], pointers, shared(alloc, A), shared(alloc, A))? == NEVER);
    Ok(())
}

#[test]
fn references(rt: HostRuntime) -> Result<(), Fail> {
    let alloc = rt.alloc();
    assert!(rt; pair(shared(alloc, A), shared(alloc, A))? == ALWAYS);
    assert!(rt; pair(shared(alloc, A), shared(alloc, C))? == NEVER);
    assert!(rt; pair(shared(alloc, A), shared(alloc, B))? == FORTH);
    assert!(rt; pair(shared(alloc, B), shared(alloc, A))? == BACK);
    assert!(rt; pair(shared(alloc, A), reference(alloc, A, Mutability::Mut))? == NEVER);
    let fixed = SmallHead::Ref(Mutability::Mut);
    let long = (simple(A), shared(alloc, C));
    assert!(rt; twos(alloc, fixed, long, (simple(B), shared(alloc, C)))? == FORTH);
    let long = (simple(C), shared(alloc, A));
    assert!(rt; twos(alloc, fixed, long, (simple(C), shared(alloc, B)))? == NEVER);
    let long = (simple(C), shared(alloc, A));
    assert!(rt; twos(alloc, fixed, long, (simple(C), shared(alloc, A)))? == ALWAYS);
    Ok(())
}

#[test]
fn tuples(rt: HostRuntime) -> Result<(), Fail> {
    let alloc = rt.alloc();
    let tuple = SmallHead::Tuple;
    let longer = (shared(alloc, A), shared(alloc, A));
    assert!(rt; twos(alloc, tuple, longer, (shared(alloc, B), shared(alloc, A)))? == FORTH);
    let short = one(alloc, tuple, shared(alloc, A)?);
    let long = two(alloc, tuple, shared(alloc, A)?, shared(alloc, A)?);
    assert!(rt; pair(short, long)? == NEVER);
    assert!(rt; pair(none(alloc, tuple), none(alloc, tuple))? == ALWAYS);
    assert!(rt; pair(none(alloc, tuple), simple(U8))? == NEVER);
    assert!(rt; pair(none(alloc, tuple), simple(SmallLeaf::TypeError))? == ALWAYS);
    Ok(())
}

#[test]
fn declared_and_fixed_arguments(rt: HostRuntime) -> Result<(), Fail> {
    let alloc = rt.alloc();
    for (declared, want) in [
        (Variance::Covariant, FORTH),
        (Variance::Contravariant, BACK),
        (Variance::Invariant, NEVER),
        (Variance::Bivariant, (true, true, false)),
    ] {
        for head in [SmallHead::Adt(1), SmallHead::FnDef(1)] {
            assert!(rt; varying(alloc, &[declared], head)? == want);
            assert!(rt; equal(alloc, &[declared], head)? == ALWAYS);
        }
    }
    for head in [
        SmallHead::Closure(1),
        SmallHead::CoroutineClosure(1),
        SmallHead::Coroutine(1),
        SmallHead::CoroutineWitness(1),
        SmallHead::Expression(1),
    ] {
        assert!(rt; varying(alloc, &[Variance::Covariant], head)? == NEVER);
        assert!(rt; equal(alloc, &[Variance::Covariant], head)? == ALWAYS);
    }
    Ok(())
}

#[test]
fn arguments_of_unlike_items(rt: HostRuntime) -> Result<(), Fail> {
    let alloc = rt.alloc();
    for items in [
        (SmallHead::Adt(1), SmallHead::Adt(2)),
        (SmallHead::FnDef(1), SmallHead::FnDef(2)),
        (SmallHead::Closure(1), SmallHead::Closure(2)),
        (
            SmallHead::CoroutineClosure(1),
            SmallHead::CoroutineClosure(2),
        ),
        (SmallHead::Coroutine(1), SmallHead::Coroutine(2)),
        (
            SmallHead::CoroutineWitness(1),
            SmallHead::CoroutineWitness(2),
        ),
        (SmallHead::Expression(1), SmallHead::Expression(2)),
    ] {
        assert!(rt; ones(alloc, &[], items, shared(alloc, A), shared(alloc, A))? == NEVER);
    }
    Ok(())
}

#[test]
fn values_and_arrays(rt: HostRuntime) -> Result<(), Fail> {
    let alloc = rt.alloc();
    let array = SmallHead::Array;
    assert!(rt; pair(value(alloc, U8, 1), value(alloc, SmallLeaf::Bool, 1))? == ALWAYS);
    assert!(rt; pair(value(alloc, U8, 1), value(alloc, U8, 2))? == NEVER);
    let branches = (SmallHead::ValueBranch, SmallHead::ValueBranch);
    let one = value(alloc, U8, 1);
    assert!(rt; ones(alloc, &[], branches, one, value(alloc, SmallLeaf::Char, 1))? == ALWAYS);
    let one = value(alloc, U8, 1);
    assert!(rt; ones(alloc, &[], branches, one, value(alloc, U8, 2))? == NEVER);
    let long = (shared(alloc, A), value(alloc, U8, 2));
    assert!(rt; twos(alloc, array, long, (shared(alloc, A), value(alloc, U8, 2)))? == ALWAYS);
    let long = (shared(alloc, A), value(alloc, U8, 2));
    assert!(rt; twos(alloc, array, long, (shared(alloc, B), value(alloc, U8, 2)))? == FORTH);
    let long = (shared(alloc, A), value(alloc, U8, 2));
    assert!(rt; twos(alloc, array, long, (shared(alloc, A), value(alloc, U8, 3)))? == NEVER);
    Ok(())
}

#[test]
fn patterns(rt: HostRuntime) -> Result<(), Fail> {
    let alloc = rt.alloc();
    let range = SmallHead::RangePattern;
    let from = (value(alloc, U8, 1), value(alloc, U8, 2));
    assert!(rt;
        twos(
            alloc,
            range,
            from,
            (value(alloc, U8, 1), value(alloc, U8, 2))
        )? == ALWAYS
    );
    let from = (value(alloc, U8, 1), value(alloc, U8, 2));
    assert!(rt;
        twos(
            alloc,
            range,
            from,
            (value(alloc, U8, 1), value(alloc, U8, 3))
        )? == NEVER
    );
    let choices = (SmallHead::OrPattern, SmallHead::OrPattern);
    let not_null = simple(SmallLeaf::NotNull);
    assert!(rt; ones(alloc, &[], choices, not_null, simple(SmallLeaf::NotNull))? == ALWAYS);
    assert!(rt;
        ones(
            alloc,
            &[],
            choices,
            simple(SmallLeaf::NotNull),
            none(alloc, range)
        )? == NEVER
    );
    assert!(rt; pair(simple(SmallLeaf::NotNull), none(alloc, range))? == NEVER);
    Ok(())
}

#[test]
fn pattern_types(rt: HostRuntime) -> Result<(), Fail> {
    let alloc = rt.alloc();
    let range = SmallHead::RangePattern;
    let pattern = SmallHead::PatternType;
    let long = (shared(alloc, A), simple(SmallLeaf::NotNull));
    let short = (shared(alloc, A), simple(SmallLeaf::NotNull));
    assert!(rt; twos(alloc, pattern, long, short)? == ALWAYS);
    let long = (shared(alloc, A), simple(SmallLeaf::NotNull));
    let short = (shared(alloc, B), simple(SmallLeaf::NotNull));
    assert!(rt; twos(alloc, pattern, long, short)? == FORTH);
    let long = (shared(alloc, A), simple(SmallLeaf::NotNull));
    assert!(rt; twos(alloc, pattern, long, (shared(alloc, A), none(alloc, range)))? == NEVER);
    Ok(())
}
