//! The rows, and their stored answers.
ghost use Rattle.std.specs.Prelude.{◌≡◌};
ghost use Rattle.relation_rows.specs.Rows.{row_named};

use std::alloc::{AllocError, Global};

/// A row: its name, the questions that it asks, as text, and the answers that they are to have. What no question can
/// ask, one without questions answers by calls.
#[derive(Clone, Copy)]
pub struct Row {
    pub name: &'static str,
    pub questions: &'static str,
    pub stored: &'static str,
}

// The row that a text is: its name, its questions behind that, and the answers behind those.
fn row_of(text: &'static str) -> Row {
    let (name, rest) = text.split_once(':').unwrap_or((text, ""));
    let (questions, stored) = rest.split_once(" => ").unwrap_or((rest, ""));
    Row {
        name,
        questions,
        stored,
    }
}

/// All rows, in the order of their numbers.
///
/// # Errors
/// `AllocError` where a growth was refused.
pub fn all_rows(alloc: Global) -> Result<Vec<Row>, AllocError> {
    let mut rows = Vec::new(alloc);
    for text in &ROWS {
        rows.push(row_of(*text))?;
    }
    Ok(rows)
}

/// The row of that name, if there is one: the first.
pub fn row_named(rows: &[Row], name: &str) -> Option<Row>
    ensures { result ≡ row_named rows.now name.now }
{
    for row in rows {
        if row.name == name {
            return Some(*row);
        }
    }
    None
}

// The rows: the name, the questions, and behind `=>` the answers.
static ROWS: [&str; 71] = [
    "r01: may unify[rigid, rigid] bool, char at 0; may unify[rigid, rigid] bool, char at 1; => true | false",
    "r02: may unify[rigid, rigid] bool, ?i0 at 0;
        may unify[rigid, rigid] ?i0, bool at 0; may unify[rigid, rigid] ?i0, bool at 1;
        => false | true | false",
    "r03: may unify[rigid, rigid] ?i0, ?f0; ?i0 == ?f0; => true | err Sorts(?i0, ?f0)",
    "r04: param 'a; walk &'a (i32, i32); => &'a (i32, i32) | 'a | (i32, i32) | i32 | end",
    "r05: struct Foo<T, U, V>; struct Bar<T>;
        walk Foo<Bar<i32>, Bar<i32>, i32> skip after 2;
        => Foo<Bar<i32>, Bar<i32>, i32> | Bar<i32> | i32 | end",
    "r06: => none | 33",
    "r07: (u8, u8) == (u8, u8, u8); () == (u8,); => err TupleSize(2, 3) | err Sorts((), (u8,))",
    "r08: ?0 == [?0]; => err CyclicTy([?0])",
    "r09: (?0, ?0) == (u8, bool); => err Sorts(u8, bool); bound=[?0=u8]",
    "r10: fn(&'static u8) <: for<'a> fn(&'a u8); => ok; regions=['!1.0: 'static]",
    "r11: for<'a, 'b> fn(&'a u8, &'b u8) == for<'a> fn(&'a u8, &'a u8);
        => ok; regions=['?0 == '!1.0, '?1 == '!1.0, '!2.0 == '?2, '!2.1 == '?2]",
    "r12: struct Vec<+T>; Vec<?0> <: ?1; => ok; goals=[Subtype(?0, ?2, true)]; bound=[?1=Vec<?2>]",
    "r13: trait Tr; type Tr::A; param T; <T as Tr>::A == u8; <T as Tr>::A === u8;
        => ok; goals=[AliasRelate(<T as Tr>::A, u8, Equate)] | err Sorts(<T as Tr>::A, u8)",
    "r14: param T; trait PartialEq; trait Eq; trait PartialOrd; trait Ord;
        super Eq: Self: PartialEq; super PartialOrd: Self: PartialEq;
        super Ord: Self: Eq, Self: PartialOrd;
        elaborate T: Ord limit 4;
        => T: Ord | T: PartialOrd | T: PartialEq | T: Eq | end",
    "r15: struct Vec<+T>; param U; trait Foo<T>; super Foo: Self: Foo<Vec<T>>;
        elaborate U: Foo<u8> limit 5 pulls 6;
        => U: Foo<u8> | U: Foo<Vec<u8>> | U: Foo<Vec<Vec<u8>>> | U: Foo<Vec<Vec<Vec<u8>>>> | limit | limit",
    "r16: param U, 'a, 'b; elaborate [U]: 'a; elaborate &'a U: 'b; elaborate for<'a> U: 'a;
        => [U]: 'a | U: 'a | end | &'a U: 'b | U: 'b | 'a: 'b | end | for<'a> U: 'a | end",
    "r17: budget 1; (?0, ?1) == (u8, bool); => budget; bound=[?0=u8]; left=0",
    "r18: closure c<T, U>; param 'a, 'b; components c<&'b u8, (&'a u8,)>; => 'a",
    "r19: param const N = 0, const M = 0;
        args may unify[rigid, rigid] [N], [M]; args [N] == [M];
        => false | ok",
    "r20: param 'a;
        may unify[rigid, rigid] &'a &'a &'a &'a &'a &'a &'a bool, &'a &'a &'a &'a &'a &'a &'a char;
        may unify[rigid, rigid] &'a &'a &'a &'a &'a &'a &'a &'a bool, &'a &'a &'a &'a &'a &'a &'a &'a char;
        may unify[rigid, rigid] &'a &'a &'a &'a &'a &'a &'a unsafe<> &'a &'a &'a &'a &'a &'a &'a bool,
        &'a &'a &'a &'a &'a &'a &'a unsafe<> &'a &'a &'a &'a &'a &'a &'a char;
        => false | true | false",
    "r21: param 'a;
        fn(u8) -> bool <: fn(u8) -> char; fn(&'a u8) <: fn(&'a mut u8);
        => err ArgumentSorts(bool, char, 1) | err ArgumentMutability(0)",
    "r22: [u8; 2] == [u8; 3]; => err ArraySize(2, 3)",
    "r23: param 'a, 'b;
        &'a u8 <: &'b u8; &'a u8 :> &'b u8; &'a u8 == &'b u8;
        => ok; regions=['a: 'b] | ok; regions=['b: 'a] | ok; regions=['a == 'b]",
    "r24: struct P<*T>; P<?0> <: P<u8>; P<?0> == P<u8>;
        => ok; goals=[WellFormed(P<?0>), WellFormed(P<u8>)] | ok; bound=[?0=u8]",
    "r25: param U, 'a; elaborate limit 0; elaborate [U]: 'a limit 0; => end | limit",
    "r26: fn f; param T;
        key rigid T; key T; key f; key (); key {error};
        => Placeholder | none | Closure(f) | Tuple(0) | Error",
    "r27: variables ?0; variables ?1 in 1; ?0 == !1.0; => err Mismatch",
    "r28: args may unify[rigid, rigid] [u8], [u8, bool]; => true",
    "r29: struct Vec<+T>; let a = Vec<?0>; let b = Vec<?1>; count goals
        (a, a, a, a, a, a, a, a, a, a, a, a, a, a, a, a, a, a, a, a) <:
        (b, b, b, b, b, b, b, b, b, b, b, b, b, b, b, b, b, b, b, b);
        => 17",
    "r30: ?i0 == u16; ?i0 == bool; => ok; bound=[?i0=u16] | err Sorts(?i0, bool)",
    "r31: trait PartialEq; trait Eq; trait PartialOrd; trait Ord;
        super Eq: Self: PartialEq; super PartialOrd: Self: PartialEq;
        super Ord: Self: Eq, Self: PartialOrd;
        trait A; trait B; super A: Self: B; super B: Self: A;
        supertraits Ord; supertraits A;
        => Ord | PartialOrd | PartialEq | Eq | end | A | B | end",
    "r32: => negative | [const] | ! | unevaluated constant",
    "r33: {error} == u8; => ok; tainted",
    "r34: param 'a, 'b, 'c, 'd;
        &'a mut &'b u8 <: &'c mut &'d u8;
        *const u8 <: *mut u8;
        => ok; regions=['a: 'c, 'b == 'd] | err Mutability",
    "r35: struct K<-T>; param 'a, 'b;
        K<&'a u8> <: K<&'b u8>; K<&'a u8> :> K<&'b u8>;
        => ok; regions=['b: 'a] | ok; regions=['a: 'b]",
    "r36: budget 1; (?0, ?i0) == (u8, u16); => ok; bound=[?0=u8, ?i0=u16]; left=0",
    "r37: [u8; ?c0] == [?0; 2]; => ok; bound=[?0=u8, ?c0=2]",
    "r38: trait Tr; type Tr::A; param T;
        <T as Tr>::A <: u8; <T as Tr>::A :> u8; ?i0 == <T as Tr>::A; ?i0 === <T as Tr>::A;
        => ok; goals=[AliasRelate(<T as Tr>::A, u8, Subtype)] | ok; goals=[AliasRelate(u8, <T as Tr>::A, Subtype)] | \
        ok; goals=[AliasRelate(?i0, <T as Tr>::A, Equate)] | err Sorts(?i0, <T as Tr>::A)",
    "r39: struct Vec<+T>; trait Tr; type Tr::A;
        ?0 == <?0 as Tr>::A; ?0 === <?0 as Tr>::A;
        Vec<(?0, <?1 as Tr>::A)> == Vec<(u8, Vec<?1>)>;
        => ok; goals=[AliasRelate(?1, <?0 as Tr>::A, Equate)]; bound=[?0=?1] | err CyclicTy(<?0 as Tr>::A) | \
        ok; goals=[AliasRelate(<?1 as Tr>::A, Vec<?1>, Equate)]; bound=[?0=u8]",
    "r40: opaque Op; solver old; mode coherence; Op == u8; mode analysis; Op == u8;
        solver next; Op == u8;
        => ok; goals=[Ambiguous] | err Sorts(Op, u8) | ok; goals=[AliasRelate(Op, u8, Equate)]",
    "r41: const K; [u8; K] <: [u8; 2]; [u8; K] === [u8; 2];
        => ok; goals=[AliasRelate(K, 2, Equate)] | err ArraySize(K, 2)",
    "r42: for<'a> fn(&'a u8) <: fn(&'static u8); for<'a> fn(&'a u8) :> fn(&'static u8);
        => ok; regions=['static: '?0] | ok; regions=['!1.0: 'static]",
    "r43: fn(u8, fn(u8)) <: fn(u8, fn(bool)); fn(u8) <: fn(); => err ArgumentSorts(u8, bool, 1) | err ArgCount",
    "r44: trait Tr; trait Us; param 'a, 'b;
        dyn Tr + 'a <: dyn Tr + 'b; dyn Tr + 'a <: dyn Us + 'a;
        => ok; regions=['a: 'b] | err Traits(Tr, Us)",
    "r45: u8 is 1..=2 == u8 is !null; u8 is 1..=2 == u8 is 1..=3; => err Mismatch | err ConstMismatch(2, 3)",
    "r46: unsafe<'a> &'a u8 == unsafe<> &'static u8; => ok; regions=['?0 == 'static, '!1.0 == 'static]",
    "r47: struct Vec<+T>; param 'a; let a = Vec<?0>; let b = Vec<?1>; count goals
        (a, a, a, a, a, a, a, a, a, a, a, a, a, a, a, a, a, a, a, a, &'a mut a) <:
        (b, b, b, b, b, b, b, b, b, b, b, b, b, b, b, b, b, b, b, b, &'a mut b);
        then one ?0, ?1;
        => 17 | true",
    "r48: struct Vec<+T>; let a = Vec<?0>; let b = Vec<?1>; count goals
        (a, a, a, a, a, a, a, a, a, a, a, a, a, a, a, a, a, a, a, a, ?0, a) <:
        (b, b, b, b, b, b, b, b, b, b, b, b, b, b, b, b, b, b, b, b, u32, b);
        then binding ?1;
        => 17 | none",
    "r49: => [u8, bool, P] | T: StreamingIterator | ['a]",
    "r50: => PartialEq<u32> | bool: PartialEq<u32>",
    "r51: => 'a: 'b | 'b: 'a | end | true | false",
    "r52: => err PolarityMismatch(positive, negative) | err Traits(Tr, Us)",
    "r53: trait Tr<T>; type Tr::A; param 'a; walk dyn Tr<bool, A = u8> + 'a;
        => dyn Tr<bool, A = u8> + 'a | bool | u8 | 'a | end",
    "r54: fn f<'x, U>; coroutine witness w<'x>; trait Tr<'x>; type Tr::A; param T, 'a, 'b;
        components &'a (T, &'b T); components f<'a, &'b u8>; components w<'a>;
        components for<'a> fn(<T as Tr<'a>>::A);
        => 'a, T, 'b | 'b | none | escaping[T]",
    "r55: param T, 'a, 'b; assumptions (&'a T, u8): 'b; => 'a: 'b | (&'a T, u8): 'b | T: 'b",
    "r56: param T; trait MetaSized; trait Sized; sized Sized; super Sized: Self: MetaSized;
        elaborate T: Sized; elaborate[sized] T: Sized;
        => T: Sized | end | T: Sized | T: MetaSized | end",
    "r57: param T; trait PartialEq; trait Eq; trait PartialOrd; trait Ord;
        super Eq: Self: PartialEq; super PartialOrd: Self: PartialEq;
        super Ord: Self: Eq, Self: PartialOrd;
        trait A; trait B; const super A: Self: B;
        elaborate T: !Ord; elaborate T: const A;
        => T: !Ord | end | T: const A | T: const B | end",
    "r58: param T; trait PartialEq; trait Eq; trait PartialOrd; trait Ord;
        super Eq: Self: PartialEq; super PartialOrd: Self: PartialEq;
        super Ord: Self: Eq, Self: PartialOrd;
        trait A; trait B; super A: Self: B; super B: Self: A;
        elaborate T: Ord limit 3 pulls 3; elaborate T: A limit 2;
        => T: Ord | limit | limit | T: A | T: B | end",
    "r59: param T;
        may unify[rigid, rigid] T, u8; may unify[infer, infer] T, u8; may unify[rigid, infer] T, u8;
        may unify[rigid, infer] u8, T;
        => false | true | false | true",
    "r60: trait Tr; type Tr::A; trait Of<T>; param T, 'a;
        may unify[rigid, rigid] <T as Tr>::A, u8;
        may unify[rigid, rigid] (u8, <T as Tr>::A), (bool, u8);
        may unify[rigid, rigid] dyn Of<u8> + 'a, dyn Of<bool> + 'a;
        may unify[rigid, rigid] fn(u8), unsafe fn(u8);
        => true | false | true | false",
    "r61: => 61 | 0",
    "r62: => 18",
    "r63: fn(?0) <: for<'a> fn(&'a u8); fn(?0) == for<'a> fn(&'a u8);
        fn(?0) <: for<^0> fn(^0);
        => ok; regions=['!1.0: '?0]; bound=[?0=&'?0 u8] | \
        ok; regions=['?0 == '!1.0, '?0 == '?1]; bound=[?0=&'?0 u8] | err Mismatch",
    "r64: => true | err Sorts(bool, char)",
    "r65: => 999 | limit",
    "r66: budget 0; ?0 == ?1; ?0 == u8; ?0 == [?0]; ?i0 == u8;
        => ok; left=0 | budget; left=0 | budget; left=0 | ok; bound=[?i0=u8]; left=0",
    "r67: struct C<const N>; budget 1; ?0 == [?0]; budget 0; C<{?c0}> == C<{3}>;
        => err CyclicTy([?0]); left=1 | budget; left=0",
    "r68: param U, 'a; elaborate [U]: 'a limit 1 pulls 2; elaborate U: 'a limit 1; => limit | limit | U: 'a | end",
    "r69: struct C<const N>;
        may unify[rigid, rigid] C<{?c0, 2}>, C<{1, 2}>;
        may unify[rigid, rigid] C<{?c0, 2}>, C<{1, 3}>;
        may unify[rigid, rigid] C<{1}>, C<{1, 2}>;
        C<{?c0, 2}> == C<{1, 2}>;
        => true | false | false | ok; bound=[?c0=1]",
    "r70: trait Tr; type Tr::A; param T, 'a, 'b, 'c, 'd;
        (&'a u8, &'b mut u8) <: (&'c u8, &'d mut u8); (&'a u8, &'b mut u8) :> (&'c u8, &'d mut u8);
        (<T as Tr>::A, &'a u8) <: (u8, &'b u8);
        => ok; regions=['a: 'c, 'b: 'd] | ok; regions=['c: 'a, 'd: 'b] | \
        ok; goals=[AliasRelate(<T as Tr>::A, u8, Subtype)]; regions=['a: 'b]",
    "r71: param 'a, 'b; let a = &'a u8; let b = &'b u8; count regions
        (a, a, a, a, a, a, a, a, a, a, a, a, a, a, a, a, a, a, a, a, a, a, a, a, a, a, a, a, a, a,
        a, a, a, a, a, a, a, a, a, a) <:
        (b, b, b, b, b, b, b, b, b, b, b, b, b, b, b, b, b, b, b, b, b, b, b, b, b, b, b, b, b, b,
        b, b, b, b, b, b, b, b, b, b);
        => 33 | 1",
];
