//! Questions about a term go through each part once, however often it stands there, and their answers are cut off.
use crate::telling::told;
use std::alloc::Global;
use std::fmt::{self, Write};
use std::test::Fail;

// How many times the name of a parameter is doubled, so that few of its leaves fill an answer.
const NAME_DOUBLINGS: usize = 16;

// A name of 65,536 letters.
fn long_name(alloc: Global) -> Result<String, fmt::Error> {
    let mut name = String::new(alloc);
    name.write_str("T")?;
    for _ in 0..NAME_DOUBLINGS {
        let mut doubled = String::new(alloc);
        doubled.write_str(&name)?;
        doubled.write_str(&name)?;
        name = doubled;
    }
    Ok(name)
}

// A tower of 60 doublings of a variable and a parameter, `t60`, and a question.
fn over_tower(alloc: Global, question: &str) -> Result<String, fmt::Error> {
    let name = long_name(alloc)?;
    let mut text = String::new(alloc);
    write!(text, "param {name}; let t0 = (?2, {name});")?;
    for level in 0..60 {
        let next = level + 1;
        write!(text, "let t{next} = (t{level}, t{level});")?;
    }
    text.write_str(question)?;
    Ok(text)
}

// The answers to questions over the tower.
fn answer_of(alloc: Global, questions: &str) -> Result<String, fmt::Error> {
    let text = over_tower(alloc, questions)?;
    told(alloc, text.as_str())
}

// How many bytes are told of an answer that is cut off, with the mark behind them.
const TOLD: usize = 1_048_578;

// Each answer is longer than what is told of one. That it comes at all shows that the terms were gone through at once:
// a tower has 2^60 leaves.
#[test]
fn towers_are_gone_through_at_once(rt: HostRuntime) -> Result<(), Fail> {
    for question in [
        "?1 == t60;",
        "(?0, ?1) == (u8, (?0, t60));",
        "?0 == (t60, ?0);",
        "u8 == t60;",
        "count goals u8 <: t60;",
        "args [?0] == [t60];",
        "walk t60;",
        "visit t60;",
        "fold t60 with ?2 = u8;",
        "param 'a; assumptions t60: 'a;",
        "trait Tr; elaborate t60: Tr;",
        "trait Tr; supertraits t60: Tr;",
    ] {
        let answer = answer_of(rt.alloc(), question)?;
        assert_eq!(rt; answer.len(), TOLD);
        assert!(rt; answer.as_str().ends_with(".."));
    }
    Ok(())
}

// Of what is told of a tower nothing is cut off where it is short, and a question behind one that was goes on.
#[test]
fn short_answers_are_whole(rt: HostRuntime) -> Result<(), Fail> {
    let answer = answer_of(
        rt.alloc(),
        "escapes t60; infers t60; rigid t60; ?0 == ?1; then one ?0, ?1;",
    )?;
    assert_eq!(rt; answer.as_str(), "false | true | true | ok | true");
    Ok(())
}

// Binds each variable from one on, so many, to a slice of the next one.
fn write_chain(first: usize, count: usize, out: &mut String) -> fmt::Result {
    let behind = first.saturating_add(count);
    out.write_str("count goals (")?;
    for number in first..behind {
        write!(out, "?{number}, ")?;
    }
    out.write_str(") == (")?;
    for number in first..behind {
        let next = number.saturating_add(1);
        write!(out, "[?{next}], ")?;
    }
    out.write_str(");")
}

const ANSWERS: &str = "0; left=9000 | [?1] | 0; left=8999 | \
    not asked: what it comes to may be too deep for the stack | \
    not asked: what it comes to may be too deep for the stack | none";

// A question whose terms may form too long a chain is not asked, nor one that would make a chain of those before too
// long; the questions behind it are.
#[test]
fn long_chains_are_not_asked(rt: HostRuntime) -> Result<(), Fail> {
    let mut text = String::from_str(rt.alloc(), "budget 10000;")?;
    write_chain(0, 1000, &mut text)?;
    text.push_str("then binding ?0; then count goals ?1000 == u8; then ")?;
    write_chain(1001, 40, &mut text)?;
    write_chain(0, 1100, &mut text)?;
    text.push_str("then binding ?0;")?;
    let all = told(rt.alloc(), text.as_str())?;
    assert_eq!(rt; all.as_str(), ANSWERS);
    Ok(())
}

// A tower of so many levels.
fn levels(alloc: Global, count: usize) -> Result<String, fmt::Error> {
    let mut text = String::new(alloc);
    text.write_str("let t1 = u8;")?;
    for level in 1..count {
        let next = level.saturating_add(1);
        write!(text, "let t{next} = (t{level}, t{level});")?;
    }
    Ok(text)
}

// A term has at most 1,024 levels, brackets counted.
#[test]
fn deep_terms_are_told(rt: HostRuntime) -> Result<(), Fail> {
    let mut text = levels(rt.alloc(), 1024)?;
    text.write_str("t1024 == t1024;")?;
    assert_eq!(rt; told(rt.alloc(), text.as_str())?.as_str(), "ok");
    text.write_str("\n[t1024] == u8;")?;
    let why = told(rt.alloc(), text.as_str())?;
    assert_eq!(rt;
        why.as_str(),
        "text:2:1: the term has more than 1024 levels\n"
    );
    let mut text = String::new(rt.alloc());
    for _ in 0..10_000 {
        text.write_str("[")?;
    }
    let why = told(rt.alloc(), text.as_str())?;
    assert_eq!(rt;
        why.as_str(),
        "text:1:1025: the term has more than 1024 levels\n"
    );
    Ok(())
}
