//! Answers questions that are asked as text, each on a line of its own.
#![tactic(auto)]

mod answering;

use answering::{STDIN, answer, bytes_of, is_stdin, print_help, write_usage};
use std::io::{BufWriter, Write};
use std::process::ExitCode;
use std::{env, fs, io};
use text_asking::programs::{WRONG, is_help, tell_unbegun};

// What a word of the program's names, where it can't be read.
const NAMED: &str = "the file's name";

// The words behind the program's name.
fn words_of(rt: &HostRuntime) -> io::Result<Vec<String>> {
    let words = env::args(rt)?.skip(1).collect(rt.alloc())?;
    Ok(words)
}

fn main(rt: HostRuntime) -> io::Result<ExitCode> {
    let mut err = rt.stderr();
    let words = match words_of(&rt) {
        Ok(words) => words,
        Err(error) => return Ok(ExitCode::from(tell_unbegun("ask", NAMED, &error, &mut err))),
    };
    let mut out = match BufWriter::new(rt.alloc(), rt.stdout()) {
        Ok(out) => out,
        Err(error) => return Ok(ExitCode::from(tell_unbegun("ask", NAMED, &error, &mut err))),
    };
    if words.len() > 1 {
        let _ = write_usage(&mut err);
        return Ok(ExitCode::from(WRONG));
    }
    let name = words.first().map_or("-", |word| word.as_str());
    if is_help(name) {
        return Ok(ExitCode::from(print_help(&mut out, &mut err)));
    }
    let (name, bytes) = if is_stdin(name) {
        (STDIN, bytes_of(rt.alloc(), rt.stdin()))
    } else {
        match fs::open(&rt, name) {
            Ok(file) => (name, bytes_of(rt.alloc(), file)),
            Err(error) => (name, Err(error)),
        }
    };
    match bytes {
        Ok(bytes) => {
            let status = answer(rt.alloc(), name, &bytes, &mut out, &mut err);
            Ok(ExitCode::from(status))
        }
        Err(error) => {
            let _ = writeln!(err, "{name}: {error}");
            Ok(ExitCode::from(WRONG))
        }
    }
}
