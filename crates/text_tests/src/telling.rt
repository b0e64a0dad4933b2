//! What is told of wrong texts: each error of reading and of looking up names, with its place.
use relation_rows::running::{RowFault, asked};
use std::alloc::Global;
use std::fmt::{self, Write};
use std::test::Fail;
use text_reading::telling::{tell_unnamed, tell_unread};

/// The answers to the questions of a text, or what is wrong with it.
pub fn told(alloc: Global, text: &str) -> Result<String, fmt::Error> {
    match asked(alloc, text) {
        Ok(answers) => Ok(answers),
        Err(fault) => why(alloc, text, &fault),
    }
}

// What is told of a text that has no answers.
fn why(alloc: Global, text: &str, fault: &RowFault) -> Result<String, fmt::Error> {
    let mut out = String::new(alloc);
    match fault {
        RowFault::Memory => out.write_str("memory")?,
        RowFault::Unread(error) => tell_unread("text", text.as_bytes(), error, &mut out)?,
        RowFault::Unnamed(error) => tell_unnamed("text", text, error, &mut out)?,
    }
    Ok(out)
}

// Wrong texts, and what is told of each.
const WRONG: &str = "\
    struct => text:1:7: expected a name, found the end\n\
    T => text:1:2: expected `<:`, `:>`, `==` or `===`, found the end\n\
    T == [T, T]; => text:1:8: expected `]`, found `,`\n\
    T == (T; T); => text:1:8: expected `,` or `)`, found `;`\n\
    T == 340282366920938463463374607431768211456; => text:1:6: the number is too large\n\
    &T == u8; => text:1:2: expected a region, found `T`\n\
    *T == T => text:1:2: expected `const` or `mut`, found `T`\n\
    budget x; => text:1:8: expected a number, found `x`\n\
    solver 2; => text:1:8: expected a name, found `2`\n\
    mode then; => text:1:6: expected a name, found `then`\n\
    assume u8; => text:1:10: expected `:`, found `;`\n\
    trait Tr; assume u8: Tr,; => text:1:25: expected a term, found `;`\n\
    T == = T; => text:1:6: expected a term, found `=`\n\
    variables ?i0; => text:1:11: expected a variable, found `?i0`\n\
    variables in 1; => text:1:11: expected a variable, found `in`\n\
    variables ?0 in; => text:1:16: expected a number, found `;`\n\
    variables ?0 in 1, ?1; => text:1:18: expected `;`, found `,`\n\
    fold T; => text:1:7: expected `with`, found `;`\n\
    visit T stop A skip B; => text:1:16: expected `;`, found `skip`\n\
    walk T skip 2; => text:1:13: expected `after`, found `2`\n\
    walk T skip after; => text:1:18: expected a number, found `;`\n\
    walk T stop U; => text:1:8: expected `;`, found `stop`\n\
    visit {error, T}; => text:1:13: expected `}`, found `,`\n\
    visit const T; => text:1:13: expected a placeholder or `{error}`, found `T`\n\
    visit const {T}; => text:1:14: expected `error`, found `T`\n\
    visit T is 1; => text:1:13: expected `..=`, found `;`\n\
    visit T is !; => text:1:13: expected `null`, found `;`\n\
    visit T is 1..=2 |; => text:1:19: expected a term, found `;`\n\
    visit T is (1..=2; => text:1:18: expected `)`, found `;`\n\
    visit T is 1..=2 is 3..=4; => text:1:18: expected `;`, found `is`\n\
    visit '!1; => text:1:8: no word begins here\n\
    visit ?i; => text:1:9: no word begins here\n\
    visit ^x; => text:1:8: no word begins here\n\
    visit ^1.; => text:1:9: no word begins here\n\
    visit '^; => text:1:9: no word begins here\n\
    visit &^0 T; => text:1:8: expected a region, found `^0`\n\
    visit for<^0.0> fn(); => text:1:11: expected a variable of a binder, found `^0.0`\n\
    struct for; => text:1:8: expected a name, found `for`\n\
    visit for<T> fn(); => text:1:11: expected a variable of a binder, found `T`\n\
    visit for<const 'a> fn(); => text:1:17: expected a constant of a binder, found `'a`\n\
    visit for<'a> T; => text:1:15: expected `fn`, found `T`\n\
    visit unsafe T; => text:1:14: expected `fn`, found `T`\n\
    visit extern fn(); => text:1:14: expected `\"C\"` or `\"system\"`, found `fn`\n\
    visit extern \"Rust\" fn(); => text:1:14: no word begins here\n\
    count T <: U; => text:1:7: expected `goals` or `regions`, found `T`\n\
    count goals T, U; => text:1:14: expected `<:`, `:>`, `==` or `===`, found `,`\n\
    one ?0; => text:1:7: expected `,`, found `;`\n\
    one ?0, T; => text:1:9: expected a variable of any kind, found `T`\n\
    binding '!1a; => text:1:9: expected a variable of any kind, found `'!1a`\n\
    let one = T; => text:1:5: expected a name, found `one`\n\
    may T, U; => text:1:5: expected `unify`, found `T`\n\
    args T; => text:1:6: expected `[`, found `T`\n\
    args [T]; => text:1:9: expected `==`, found `;`\n\
    may unify[infer, rigid] T, U; => text:1:18: expected `infer`, found `rigid`\n\
    may unify[rigid, T] T, U; => text:1:18: expected `rigid` or `infer`, found `T`\n\
    may unify[rigid, rigid] T; => text:1:26: expected `,`, found `;`\n\
    visit dyn A; => text:1:12: expected `+`, found `;`\n\
    visit dyn + 'a; => text:1:11: expected a name, found `+`\n\
    visit dyn A::B + 'a; => text:1:16: expected `==`, found `+`\n\
    visit dyn A<B = C D> + 'a; => text:1:19: expected `,` or `>`, found `D`\n\
    type A::; => text:1:9: expected a name, found `;`\n\
    opaque A::B; => text:1:9: expected `;`, found `::`\n\
    inherent A; => text:1:10: expected `type` or `const`, found `A`\n\
    visit <A; => text:1:9: expected `as`, found `;`\n\
    visit <A as B; => text:1:14: expected `>`, found `;`\n\
    visit <A as B>; => text:1:15: expected `::`, found `;`\n\
    visit <A as &'a B>::C; => text:1:13: expected a name, found `&`\n\
    auto fn f; => text:1:6: expected `trait`, found `fn`\n\
    visit fn(.., u8); => text:1:12: expected `)`, found `,`\n\
    visit fn() -> ; => text:1:15: expected a term, found `;`\n\
    X == u8; => text:1:1: `X` is no type yet; `param X;` declares one\n\
    Vec<u8> == u8; => text:1:1: `Vec` is no item yet; `struct Vec<+T>;` declares one\n\
    [u8; N] == u8; => text:1:6: `N` is no constant yet; `param const N;` declares one\n\
    visit dyn Tr + 'static; => text:1:11: `Tr` is no trait yet; `trait Tr;` declares one\n\
    struct u8; => text:1:8: expected a new name, found `u8`\n\
    struct K<T, T>; => text:1:13: expected a new name, found `T`\n\
    struct K<'a>; K<u8> == u8; => text:1:17: expected a region, found a type\n\
    [u8; u8] == u8; => text:1:6: expected a constant, found a type\n\
    param 'a; 'a == 'a; => text:1:11: expected a type, found a region\n\
    2 == 2; => text:1:1: expected a type, found a constant\n\
    struct K<T>; K == u8; => text:1:14: expected 1 argument, found 0\n\
    fn f; f<u8> == u8; => text:1:7: expected 0 arguments, found 1\n\
    param T; T<u8> == u8; => text:1:10: expected an item, found `T`\n\
    extern type F<T>; => text:1:15: expected no parameter, found `T`\n\
    [u8; 256u8] == u8; => text:1:6: the number is too large\n\
    [u8; 2x] == u8; => text:1:6: expected a number of a type of numbers, found `2x`\n\
    ?10000 == u8; => text:1:1: expected a variable below 10000, found `?10000`\n\
    variables '?10000; => text:1:11: expected a variable below 10000, found `'?10000`\n\
    variables ?0, ?c10000; => text:1:15: expected a variable below 10000, found `?c10000`\n\
    variables ?0 in 10000; => text:1:17: expected a universe from 0 to 9999, found `10000`\n\
    variables ?0 in 1u8; => text:1:17: expected a number alone, found `1u8`\n\
    repeat 0 u8 == u8; => text:1:8: expected a number above 0, found `0`\n\
    then u8 == u8; => text:1:1: expected a question before this, found none\n\
    budget 1u8; => text:1:8: expected a number alone, found `1u8`\n\
    solver older; => text:1:8: expected `old` or `next`, found `older`\n\
    mode Analysis; => text:1:6: expected a typing mode, found `Analysis`\n\
    !1.x == u8; => text:1:1: expected a place by its number, found `!1.x`\n\
    let t = t; => text:1:9: `t` is no type yet; `param t;` declares one\n\
    param T = 4294967295, U; => text:1:23: the number is too large\n\
    param 'a; fold u8 with u8 = 'a; => text:1:29: expected a type, found a region\n\
    param 'a; rigid 'a; => text:1:17: expected a type, found a region\n\
    visit ?0 is 1..=u8; => text:1:17: expected a constant, found a type\n\
    visit 2 is 1..=2; => text:1:7: expected a type, found a constant\n\
    struct K<T>; visit K<?c0>; => text:1:22: expected a type, found a constant\n\
    visit [u8; ?i0]; => text:1:12: expected a constant, found a type\n\
    visit ?f10000; => text:1:7: expected a variable below 10000, found `?f10000`\n\
    one ?9999, ?i10000; => text:1:12: expected a variable below 10000, found `?i10000`\n\
    then binding '?10000; => text:1:14: expected a variable below 10000, found `'?10000`\n\
    then one ?0, ?0; => text:1:1: expected a question before this, found none\n\
    visit '!1.x; => text:1:7: expected a place by its number, found `'!1.x`\n\
    then visit u8; => text:1:1: expected a question before this, found none\n\
    visit fn(^0); => text:1:10: `^0` is no variable of a binder around it; `for<^0> fn()` binds one\n\
    visit fn(^18446744073709551615.0); => text:1:10: the number is too large\n\
    visit [u8; ^1.0]; => text:1:12: expected a constant, found a type\n\
    rigid '^0; => text:1:7: expected a type, found a region\n\
    components 'static; => text:1:12: expected a type, found a region\n\
    visit for<'a, 'a> fn(); => text:1:15: expected a new name, found `'a`\n\
    visit for<'static> fn(); => text:1:11: expected a new name, found `'static`\n\
    visit for<'a> fn('a); => text:1:18: expected a type, found a region\n\
    visit for<^0> fn([u8; ^0]); => text:1:23: expected a constant, found a type\n\
    visit (for<'a> fn(&'a u8), &'a u8); => text:1:29: `'a` is no lifetime yet; `param 'a;` declares one\n\
    trait A; visit A; => text:1:16: expected no trait, found `A`\n\
    struct A; param 'a; visit dyn A + 'a; => text:1:31: expected a trait, found `A`\n\
    type u8::A; => text:1:6: expected a trait, found `u8`\n\
    auto trait A<T>; => text:1:14: expected no parameter, found `T`\n\
    trait A; type A::B; const A::B; => text:1:30: expected a new name, found `B`\n\
    trait A<T>; visit dyn A + 'static; => text:1:23: expected 1 argument, found 0\n\
    trait A; visit dyn A<B = u8> + 'static; => text:1:22: `B` is no item of the trait yet; `type Tr::B;` declares one\n\
    trait A; const A::L; visit dyn A<L = u8> + 'static; => text:1:38: expected a constant, found a type\n\
    trait A; type A::B; visit dyn A<B = u8>::B == u8 + 'static; => text:1:33: expected an argument, found `B = u8`\n\
    trait A; type A::B; visit dyn A::B<B = u8> == u8 + 'static; => text:1:36: expected an argument, found `B = u8`\n\
    trait A<T>; type A::B<T>; visit dyn A<u8, B = u8> + 'static; => text:1:43: expected 1 argument, found 0\n\
    trait A<T>; type A::B; visit dyn A<u8>::B<u8> == u8 + 'static; => text:1:41: expected 0 arguments, found 1\n\
    struct A; visit <u8 as A>::B; => text:1:24: expected a trait, found `A`\n\
    trait A; visit <u8 as A>::B; => text:1:27: `B` is no item of the trait yet; `type Tr::B;` declares one\n\
    trait A<T>; type A::B; visit <u8 as A>::B; => text:1:37: expected 1 argument, found 0\n\
    trait A; type A::B; visit <2 as A>::B; => text:1:28: expected a type, found a constant\n\
    trait A; const A::B; visit [<u8 as A>::B]; => text:1:29: expected a type, found a constant\n\
    trait A; type A::B; visit <u8 as A<B = u8>>::B; => text:1:36: expected an argument, found `B = u8`\n\
    opaque A<T>; visit A; => text:1:20: expected 1 argument, found 0\n\
    const A; visit &'static A; => text:1:25: expected a type, found a constant\n\
    trait A; type A::B; visit B; => text:1:27: `B` is no type yet; `param B;` declares one\n\
    trait A; type A::B<T>; visit dyn A::B<u8> == 2 + 'static; => text:1:46: expected a type, found a constant\n\
    may unify[rigid, rigid] u8, u8 at 1u8; => text:1:35: expected a number alone, found `1u8`\n\
    args may unify[rigid, rigid] [u8], [2]; => text:1:37: expected a type, found a constant\n\
    param 'a; key 'a; => text:1:15: expected a type, found a region\n\
    visit unsafe<'a> 2; => text:1:18: expected a type, found a constant\n\
    trait A; trait B; overlap impl A for u8, impl B for u8; => text:1:47: expected the trait of the impl before, found `B`\n\
    trait A; trait B; impl A for u8; impl B for u8; overlap 1, 2; => text:1:60: expected the trait of the impl before, found `2`\n\
    trait A; impl A for u8; overlap 1, 2; => text:1:36: expected the number of an impl before, found `2`\n\
    trait A; overlap 0, 1; impl A for u8; => text:1:18: expected the number of an impl before, found `0`\n\
    trait A; overlap impl<T, T> A for u8, impl A for u8; => text:1:26: expected a new name, found `T`\n\
    trait A; overlap impl<^0> A for u8, impl A for u8; => text:1:23: expected a parameter, found `^0`\n\
    overlap impl A for u8, impl A for u8; => text:1:14: `A` is no trait yet; `trait A;` declares one\n\
    methods{impl<const N> N=>a}of u8; => text:1:23: expected a type, found a constant\n\
    methods{u8=>a}of u8; => text:1:9: expected `impl`, found `u8`\n\
    trait A; impl<T> A for T where T: !A; => text:1:10: expected that a trait is implemented, or what its type is, found `impl<T> A for T where T: !A`\n\
    impl A for u8; => text:1:6: `A` is no trait yet; `trait A;` declares one\n\
    trait A; prove u8: !A; => text:1:10: expected that a trait is implemented, or what its type is, found `prove u8: !A`\n\
    trait A; prove u8: A at 129; => text:1:25: the number is too large\n\
    solve where u8: 'static; => text:1:13: expected a region, found a type";

#[test]
fn wrong_texts_are_told(rt: HostRuntime) -> Result<(), Fail> {
    for line in WRONG.lines() {
        let (text, why) = line.split_once(" => ").unwrap_or((line, ""));
        assert_eq!(rt; told(rt.alloc(), text)?.trim_end(), why, "{text}");
    }
    Ok(())
}

// Texts of several lines, and what is told of each. An empty one asks nothing.
const OF_LINES: [(&str, &str); 6] = [
    ("", ""),
    ("T == u8;\n//é\n  é", "text:3:3: no word begins here\n"),
    ("() == (); #", "text:1:11: no word begins here\n"),
    (
        "param T;\n  param T;",
        "text:2:9: expected a new name, found `T`\n",
    ),
    (
        "variables ?0 in 2;\nvariables ?1 in 1;",
        "text:2:17: expected a universe from 2 to 9999, found `1`\n",
    ),
    (
        "u8 == u8; then [u8] == 'a;",
        "text:1:24: `'a` is no lifetime yet; `param 'a;` declares one\n",
    ),
];

#[test]
fn lines_are_counted(rt: HostRuntime) -> Result<(), Fail> {
    for (text, why) in OF_LINES {
        assert_eq!(rt; told(rt.alloc(), text)?.as_str(), why);
    }
    Ok(())
}
