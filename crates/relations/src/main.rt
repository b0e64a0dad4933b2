//! Prints the answers of worked rows: what relating two types answers, and what it leaves recorded.
#![tactic(auto)]

use relation_rows::rows::all_rows;
use relation_rows::running::run;
use std::process::ExitCode;
use std::{env, io};
use text_asking::programs::tell_unbegun;

// The words behind the program's name.
fn words_of(rt: &HostRuntime) -> io::Result<Vec<String>> {
    let words = env::args(rt)?.skip(1).collect(rt.alloc())?;
    Ok(words)
}

// The status of a run with these words.
fn status_of_run(rt: &HostRuntime) -> io::Result<u8> {
    let words = words_of(rt)?;
    let rows = all_rows(rt.alloc())?;
    let mut out = rt.stdout();
    let mut err = rt.stderr();
    let status = run(rt.alloc(), &rows, words.as_slice(), &mut out, &mut err);
    Ok(status)
}

fn main(rt: HostRuntime) -> io::Result<ExitCode> {
    let status = match status_of_run(&rt) {
        Ok(status) => status,
        Err(error) => {
            let mut err = rt.stderr();
            tell_unbegun("relations", "the row's name", &error, &mut err)
        }
    };
    Ok(ExitCode::from(status))
}
