//! What a text says, once its names are looked up: how much there is of it, and how each question is asked.
use std::alloc::Global;
use std::fmt::{self, Write};
use std::test::Fail;
use text_reading::naming::{Program, look_up};
use text_reading::reading::read;

// Writes how many items, names, terms, parts and questions there are; how many variables of each kind contexts have in
// each universe; and of each question for how many of these statements, for which solver and in which mode it is asked.
fn write_said<W: Write>(program: &Program, out: &mut W) -> fmt::Result {
    write!(
        out,
        "{} {} {} {} {}",
        program.items.len(),
        program.names.len(),
        program.terms.len(),
        program.parts.len(),
        program.questions.len()
    )?;
    for said in &program.variables {
        let (types, consts, regions) = (said.types, said.consts, said.regions);
        write!(out, "; {types} {consts} {regions} in {}", said.universe)?;
    }
    for question in &program.questions {
        let (count, setup) = (question.variables, question.setup);
        write!(out, "; {count} {} {:?}", setup.next_solver, setup.mode)?;
    }
    Ok(())
}

// What is said in a text that is read and named.
fn said(alloc: Global, text: &str) -> Result<String, Fail> {
    let tree = read(alloc, text.as_bytes())?;
    let program = look_up(alloc, text, &tree)?;
    let mut out = String::new(alloc);
    write_said(&program, &mut out)?;
    Ok(out)
}

// Texts, and what they say.
const SAID: [(&str, &str); 4] = [
    (
        "struct Vec<+T>; param T, 'a; Vec<?0> <: Vec<&'a u8>; then ?0 == T;",
        "1 2 27 4 2; 0 true Analysis; 0 true Analysis",
    ),
    (
        "struct C<const N>; param const N; repeat 3 C<!1N> == C<{1u8, N}>;",
        "1 1 26 4 1; 0 true Analysis",
    ),
    (
        "rigid u8; variables ?4, '?2, ?c1, ?0; rigid u8; variables ?3 in 2; variables '?0, ?5;
        rigid u8; variables ?c9999 in 2; variables ?0 in 9999; rigid u8;",
        "0 0 20 0 4; 5 2 3 in 0; 4 0 0 in 2; 6 0 1 in 2; 0 10000 0 in 2; 1 0 0 in 9999; 0 true Analysis; \
         1 true Analysis; 3 true Analysis; 5 true Analysis",
    ),
    (
        "rigid u8; solver old; rigid u8; mode coherence; rigid u8; mode borrowck; solver next; rigid u8;
        mode post_borrowck; solver next; rigid u8; mode post_analysis; then rigid u8; mode analysis; rigid u8;",
        "0 0 20 0 7; 0 true Analysis; 0 false Analysis; 0 false Coherence; 0 true Borrowck; \
         0 true PostBorrowckAnalysis; 0 true PostAnalysis; 0 true Analysis",
    ),
];

#[test]
fn names_are_looked_up(rt: HostRuntime) -> Result<(), Fail> {
    for (text, wanted) in SAID {
        assert_eq!(rt; said(rt.alloc(), text)?.as_str(), wanted);
    }
    Ok(())
}
