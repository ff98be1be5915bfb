//! What `demo` writes, beside a text that another program made, and its first and last seed and number.

use crate::devices::{Answer, Failing, Held, attempt};
use crate::rows::{Row, assert_row};
use std::alloc::{AllocError, Global};
use std::process::Abort;
use std::test::Fail;
use std::thread::Threads;
use vx_io::Records;

/// What 60 sheets from the seed 7 come to, as another program worked it out.
const SIXTY: &str =
    "demo seed 7 sheets 60\npages 120 as truth 120 certified 120\nmarks 777\nreasons overvote 0 undervote 713 marginal 0 blank 0 write-in 25\nhollow 0\nplaces 15439677 19392252 scores 340218\n";

/// A demo that writes this text and ends so. It keeps nothing.
fn demo<'x>(words: &'x [&'x str], text: &'x str, status: &'x str) -> Row<'x> {
    Row {
        words,
        before: &[],
        text,
        status,
        after: &[],
    }
}

#[test]
fn sixty_sheets_are_as_another_program_made_them(rt: HostRuntime) -> Result<(), Fail> {
    let row = demo(&["demo", "7", "60"], SIXTY, "ok");
    assert_row(&rt, &[], &row, Failing::NONE)
}

/// What a demo does, over no file and no record, while calls fail.
fn run_demo<R: Threads + Sync + AllocGlobal>(
    rt: &R,
    seed: &str,
    sheets: &str,
    failing: Failing<'_>,
) -> Result<Answer, AllocError> {
    let none = Records::new(rt.alloc());
    let held = Held {
        files: &[],
        records: &none,
    };
    attempt(rt, held, &["demo", seed, sheets], failing)
}

/// The first two lines of a demo, all pages of which are as truth and certified.
fn front_of(alloc: Global, seed: &str, sheets: &str, pages: u32) -> Result<String, AllocError> {
    format!(in alloc;
        "demo seed {seed} sheets {sheets}\npages {pages} as truth {pages} certified {pages}\n"
    )
}

/// A demo is ok, and its text begins so.
fn assert_begins<R: Abort>(rt: &R, answer: &Answer, front: &str) {
    assert_eq!(rt; answer.status.as_str(), "ok");
    assert!(rt;
        answer.text.as_slice().starts_with(front.as_bytes()),
        "{front}"
    );
}

/// So many pages, and all of them as truth and certified, while calls fail.
fn assert_true<R: Threads + Sync + AllocGlobal + Abort>(
    rt: &R,
    seed: &str,
    sheets: &str,
    pages: u32,
    failing: Failing<'_>,
) -> Result<(), Fail> {
    let answer = run_demo(rt, seed, sheets, failing)?;
    let front = front_of(rt.alloc(), seed, sheets, pages)?;
    assert_begins(rt, &answer, front.as_str());
    Ok(())
}

#[test]
fn all_pages_are_as_truth(rt: HostRuntime) -> Result<(), Fail> {
    assert_true(&rt, "0", "3", 6, Failing::NONE)?;
    assert_true(&rt, "18446744073709551615", "1", 2, Failing::NONE)
}

#[test]
fn what_is_no_demo_is_usage(rt: HostRuntime) -> Result<(), Fail> {
    for words in [
        ["demo", "7", "1001"],
        ["demo", "7", "0"],
        ["demo", "18446744073709551616", "1"],
    ] {
        assert_row(&rt, &[], &demo(&words, "", "usage"), Failing::NONE)?;
    }
    Ok(())
}

#[test]
fn a_demo_asks_for_its_output_alone(rt: HostRuntime) -> Result<(), Fail> {
    let others = Failing {
        reads: &[1],
        keeps: &[(1, false)],
        ..Failing::NONE
    };
    assert_true(&rt, "7", "1", 2, others)?;
    let output = Failing {
        writes: &[1],
        ..Failing::NONE
    };
    let row = demo(&["demo", "7", "1"], "", "write fault");
    assert_row(&rt, &[], &row, output)
}
