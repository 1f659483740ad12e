//! A corridor that cannot be left, whose search a gate watches.
use pb_outside::{Gate, MemShelf, MemSink, Memory};
use pb_test_run::{gated_outcome, outcome};
use std::alloc::Global;
use std::sync::Wait;
use std::thread::Threads;

// Nine cells in a row can be reached from the start in their middle, and the goal can't.
const CORRIDOR: &str = "type octile\nheight 3\nwidth 9\nmap\n@@@@.@@@@\n@@@@@@@@@\n.........\n";

// A shelf with the corridor, and room for a certificate and a journal.
fn corridor(alloc: Global) -> Result<MemShelf, Memory> {
    let mut files = MemShelf::new(alloc)?;
    files.add("map", CORRIDOR.as_bytes())?;
    files.add("scenario", b"version 1\n0\tm\t9\t3\t4\t2\t4\t0\t0\n")?;
    files.reserve("c", 4096)?;
    files.reserve("j", 1_000_000)?;
    Ok(files)
}

/// The status of the search of the corridor. What it prints, then what the check of its certificate
/// prints, then what is said of its journal. And how many rows are closed.
pub fn corridor_words<R: Threads + Wait + Sync, G: Gate>(
    rt: &R,
    alloc: Global,
    line: &str,
    gate: &G,
) -> Result<(u8, MemSink, usize), Memory> {
    let mut files = corridor(alloc)?;
    let mut sink = MemSink::new(alloc, 4096)?;
    let status = gated_outcome(rt, alloc, line, &mut files, &mut sink, gate)?;
    let closed = if files.has("c") {
        closed_rows(files.file("c"))
    } else {
        0
    };
    outcome(
        rt,
        alloc,
        "check grid c map scenario",
        &mut files,
        &mut sink,
    )?;
    outcome(
        rt,
        alloc,
        "journal grid j map scenario",
        &mut files,
        &mut sink,
    )?;
    Ok((status, sink, closed))
}

// How many lines of a certificate end with `closed`.
fn closed_rows(text: &[u8]) -> usize {
    let mut count = 0usize;
    for line in text.split(|byte| *byte == b'\n') {
        if line.ends_with(b" closed") {
            // No text has so many lines, and the sum needs no bound this way.
            count = count.saturating_add(1);
        }
    }
    count
}
