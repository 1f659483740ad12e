//! A certificate of many rows: several workers read and test it, and give the answer of one.
use crate::changes::{answer_alone, code_of};
use crate::pieces::answer;
use pb_outside::OpenGate;
use std::alloc::{AllocError, Global};
use std::thread::Threads;

// The lines before the rows. The first row is in line 12.
const HEAD: &str = "pbnf-certificate 2
kind grid
width 6
weight 1 1
plan 4
3
3
1
1
cost 4
rows 15000
";

// What is wrong in two rows, besides that most states are none of the map.
#[derive(Clone, Copy)]
enum Change {
    Nothing,
    Order,
    Spelling,
}

// The line of the row in a place. Its state is the place.
fn row_line(alloc: Global, place: u64) -> Result<String, AllocError> {
    format!(in alloc; "{place:06x} 0 cut\n")
}

// The same, changed.
fn changed_line(alloc: Global, place: u64, change: Change) -> Result<String, AllocError> {
    match change {
        Change::Order if place == 7_000 || place == 13_000 => row_line(alloc, place - 1),
        Change::Spelling if place == 6_000 || place == 12_000 => {
            format!(in alloc; "{place:06x} 0 CUT\n")
        }
        _ => row_line(alloc, place),
    }
}

// A text of 210,000 bytes of rows, which three workers share.
fn long_text(alloc: Global, change: Change) -> Result<String, AllocError> {
    let mut text = String::new(alloc);
    text.push_str(HEAD)?;
    for place in 0..15_000u64 {
        let line = changed_line(alloc, place, change)?;
        text.push_str(line.as_str())?;
    }
    text.push_str("end\n")?;
    Ok(text)
}

// Whether this is the answer of one worker and of three.
fn is_answered<R: Threads + Sync>(
    rt: &R,
    alloc: Global,
    change: Change,
    wanted: (u32, u64, u128),
) -> Result<bool, AllocError> {
    let text = long_text(alloc, change)?;
    let bytes = text.as_bytes();
    Ok(
        code_of(answer_alone(alloc, bytes)) == wanted
            && code_of(answer(rt, alloc, bytes, 3, 1000, &OpenGate)) == wanted,
    )
}

#[test]
fn many_rows_have_one_answer(rt: HostRuntime) {
    let alloc = rt.alloc();
    // Each kind of fault is in several workers' shares, and that of the first row is reported.
    let state = is_answered(&rt, alloc, Change::Nothing, (12, 15, 0)).expect(&rt, "memory");
    assert!(rt; state);
    let order = is_answered(&rt, alloc, Change::Order, (11, 7_012, 0)).expect(&rt, "memory");
    assert!(rt; order);
    let spelling = is_answered(&rt, alloc, Change::Spelling, (3, 6_012, 0)).expect(&rt, "memory");
    assert!(rt; spelling);
}
