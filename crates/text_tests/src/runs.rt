//! Runs of the program of rows: their statuses and what they write, also where a write fails.
use relation_rows::rows::{Row, all_rows};
use relation_rows::running::{print, run};
use std::alloc::{AllocError, Global};
use std::io;
use std::test::Fail;

// The words of a run, its status, and what it writes.
const RUNS: [(&[&str], u8, &str, &str); 2] = [
    (
        &["r07"],
        0,
        "r07: err TupleSize(2, 3) | err Sorts((), (u8,))\n",
        "",
    ),
    (&["r07", "r08"], 2, "", "usage: relations [name]\n"),
];

fn texts(alloc: Global, words: &[&str]) -> Result<Vec<String>, AllocError> {
    let mut texts = Vec::new(alloc);
    for word in words {
        texts.push(String::from_str(alloc, word)?)?;
    }
    Ok(texts)
}

#[test]
fn runs_print_their_rows(rt: HostRuntime) -> Result<(), Fail> {
    for (words, status, printed, complaint) in &RUNS {
        let words = texts(rt.alloc(), words)?;
        let mut out = Vec::new(rt.alloc());
        let mut err = Vec::new(rt.alloc());
        let answered = run(
            rt.alloc(),
            &all_rows(rt.alloc())?,
            words.as_slice(),
            &mut out,
            &mut err,
        );
        let written = (out.as_slice(), err.as_slice());
        assert_eq!(rt; answered, *status);
        assert!(rt; written == (printed.as_bytes(), complaint.as_bytes()));
    }
    Ok(())
}

// Which rows there are.
const ROWS: &str =
    "rows: r01 r02 r03 r04 r05 r06 r07 r08 r09 r10 r11 r12 r13 r14 r15 r16 r17 r18 r19 r20 \
    r21 r22 r23 r24 r25 r26 r27 r28 r29 r30 r31 r32 r33 r34 r35 r36 r37 r38 r39 r40 \
    r41 r42 r43 r44 r45 r46 r47 r48 r49 r50 r51 r52 r53 r54 r55 r56 r57 r58 r59 r60 \
    r61 r62 r63 r64 r65 r66 r67 r68 r69 r70 r71\n";

// Where a word names no row it is told which there are, and so it is where it asks how the program is used.
#[test]
fn rows_are_named(rt: HostRuntime) -> Result<(), Fail> {
    for (word, status, told) in [
        ("r00", 2, "unknown row: r00\n"),
        ("", 2, "unknown row: \n"),
        (
            "--help",
            0,
            "usage: relations [name]\nPrints the answers of the row of that name, or of all rows.\n",
        ),
    ] {
        let words = texts(rt.alloc(), &[word])?;
        let mut out = Vec::new(rt.alloc());
        let mut err = Vec::new(rt.alloc());
        assert_eq!(rt;
            run(
                rt.alloc(),
                &all_rows(rt.alloc())?,
                words.as_slice(),
                &mut out,
                &mut err
            ),
            status
        );
        assert!(rt; out.is_empty() != err.is_empty());
        out.extend_from_slice(&err)?;
        let all = format!(in rt.alloc(); "{told}{ROWS}")?;
        assert!(rt; out.as_slice() == all.as_bytes());
    }
    Ok(())
}

// A row that is wrong, or whose answer is not the stored one, is not answered as stored; what is wrong is told.
#[test]
fn wrong_rows_are_told(rt: HostRuntime) -> Result<(), Fail> {
    for (questions, printed, complaint) in [
        ("u8 == u8", "", "row:1:9: expected `;`, found the end\n"),
        (
            "[T];",
            "",
            "row:1:4: expected `<:`, `:>`, `==` or `===`, found `;`\n",
        ),
        (
            "() ==\n  [T];",
            "",
            "row:2:4: `T` is no type yet; `param T;` declares one\n",
        ),
        ("u8 == u8;", "row: ok\n", ""),
    ] {
        let row = Row {
            name: "row",
            questions,
            stored: "err Mismatch",
        };
        let mut out = Vec::new(rt.alloc());
        let mut err = Vec::new(rt.alloc());
        assert!(rt; !print(rt.alloc(), &row, &mut out, &mut err)?);
        let written = (out.as_slice(), err.as_slice());
        assert!(rt; written == (printed.as_bytes(), complaint.as_bytes()));
    }
    Ok(())
}

// A writer that takes so many bytes and then fails.
#[derive(Drop)]
struct Full {
    bytes: Vec<u8>,
    room: usize,
}

impl io::Write for Full {
    fn write(&mut self, buffer: &[u8]) -> io::Result<usize> {
        if self.room == 0 {
            return Err(io::Error::from(AllocError));
        }
        let count = buffer.len().min(self.room);
        self.room -= count;
        self.bytes.extend_from_slice(&buffer[..count])?;
        Ok(count)
    }

    fn flush(&mut self) -> io::Result<()> {
        Ok(())
    }
}

// Where standard output fails after so many bytes, these are written, and standard error is told why.
#[test]
fn a_failed_write_is_status_1(rt: HostRuntime) -> Result<(), Fail> {
    for room in [0usize, 10, 60, 120] {
        let bytes = Vec::new(rt.alloc());
        let mut out = Full { bytes, room };
        let mut err = Vec::new(rt.alloc());
        let answered = run(rt.alloc(), &all_rows(rt.alloc())?, &[], &mut out, &mut err);
        assert_eq!(rt; answered, 1, "at {room}");
        assert!(rt; out.bytes.len() == room && err.starts_with(b"standard output: "));
    }
    Ok(())
}

// Where standard error fails too, the status is told all the same.
#[test]
fn a_failed_complaint_is_status_2(rt: HostRuntime) -> Result<(), Fail> {
    let mut out = Vec::new(rt.alloc());
    let bytes = Vec::new(rt.alloc());
    let mut err = Full { bytes, room: 0 };
    let words = texts(rt.alloc(), &["r99"])?;
    assert_eq!(rt;
        run(
            rt.alloc(),
            &all_rows(rt.alloc())?,
            words.as_slice(),
            &mut out,
            &mut err
        ),
        2
    );
    Ok(())
}
