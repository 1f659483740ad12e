//! Searches of a corridor by several workers, whose only right answer is known.
use crate::gate::DelayGate;
use crate::lines::Lines;
use pb_outside::{MemShelf, MemSink, Memory};
use pb_test_run::{gated_outcome, outcome};
use std::alloc::Global;
use std::sync::Wait;
use std::thread::Threads;

// Nine cells in a row can be reached from the start in their middle, and the goal can't.
const CORRIDOR: &str = "type octile\nheight 3\nwidth 9\nmap\n@@@@.@@@@\n@@@@@@@@@\n.........\n";

const SCENARIO: &[u8] = b"version 1\n0\tm\t9\t3\t4\t2\t4\t0\t0\n";

// What the program is asked for: the words depend on the seed.
fn line(seed: u64) -> &'static str {
    match seed % 4 {
        0 => "solve grid map scenario --workers 2 --cert c --trace j",
        1 => "solve grid map scenario --workers 4 --lot 1 --cert c --trace j",
        2 => "solve grid map scenario --workers 8 --plain --cert c --trace j",
        _ => "solve grid map scenario --workers 16 --lot 3 --cert c --trace j",
    }
}

// How many lines of a certificate end with `closed`.
fn closed_rows(text: &[u8]) -> usize {
    let mut count = 0_usize;
    for line in text.split(|byte| *byte == b'\n') {
        if line.ends_with(b" closed") {
            // No text has so many lines, and the sum needs no bound this way.
            count = count.saturating_add(1);
        }
    }
    count
}

// Whether a delayed search finds that there is no plan and closes nine rows, and both files that it
// saves are accepted.
fn is_right<R: Threads + Wait + Sync>(rt: &R, alloc: Global, seed: u64) -> Result<bool, Memory> {
    let mut files = MemShelf::new(alloc)?;
    files.add("map", CORRIDOR.as_bytes())?;
    files.add("scenario", SCENARIO)?;
    files.reserve("c", 4096)?;
    files.reserve("j", 1_000_000)?;
    let mut sink = MemSink::new(alloc, 4096)?;
    let gate = DelayGate::new(seed);
    let solved = gated_outcome(rt, alloc, line(seed), &mut files, &mut sink, &gate)?;
    if solved != 1 || !files.has("c") {
        return Ok(false);
    }
    let closed = closed_rows(files.file("c"));
    let checked = outcome(
        rt,
        alloc,
        "check grid c map scenario",
        &mut files,
        &mut sink,
    )?;
    let judged = outcome(
        rt,
        alloc,
        "journal grid j map scenario",
        &mut files,
        &mut sink,
    )?;
    let said = sink.bytes().starts_with(b"none\naccepted none\njournal ");
    Ok(closed == 9 && checked == 0 && judged == 0 && said)
}

// How many of so many runs, each with a seed of its own, are right.
fn count_right<R: Threads + Wait + Sync>(
    rt: &R,
    alloc: Global,
    runs: u64,
    seed: u64,
) -> Result<u64, Memory> {
    let mut right = 0_u64;
    for number in 0..runs {
        // Any seed will do, so it may wrap.
        if is_right(rt, alloc, seed.wrapping_add(number))? {
            right = right.saturating_add(1);
        }
    }
    Ok(right)
}

/// How many of so many runs are right, each with a seed of its own from the first one on, as a
/// line. None if a word is no number.
pub(crate) fn right_runs<R: Threads + Wait + Sync>(
    rt: &R,
    alloc: Global,
    runs: &str,
    seed: &str,
) -> Result<Option<Lines>, Memory> {
    let (Ok(runs), Ok(seed)) = (runs.parse::<u64>(), seed.parse::<u64>()) else {
        return Ok(None);
    };
    let right = count_right(rt, alloc, runs, seed)?;
    let line = format!(in alloc; "{right} of {runs} runs are right, from seed {seed}\n")?;
    let mut lines = Lines::new(alloc);
    lines.first(line.as_str())?;
    Ok(Some(lines))
}
