//! Runs of a command line over files and output in memory. They have no clauses: so the proofs of
//! tests don't go through those of `run`.
use pb_outside::{Gate, MemShelf, MemSink, Memory, OpenGate};
use pb_run::{Looks, run};
use std::alloc::Global;
use std::sync::Wait;
use std::thread::Threads;

/// A map of 3 by 3 cells of land.
pub const OPEN_MAP: &str = "type octile\nheight 3\nwidth 3\nmap\n...\n...\n...\n";

/// From the upper left to the lower right cell of a map of 3 by 3 cells.
pub const SCENARIO: &str = "version 1\n0\tm\t3\t3\t0\t0\t2\t2\t0\n";

// The words of a command line.
fn words(alloc: Global, text: &str) -> Result<Vec<String>, Memory> {
    let mut words = Vec::new(alloc);
    for word in text.split(' ') {
        words.push(String::from_str(alloc, word)?)?;
    }
    Ok(words)
}

/// A shelf with these two files, and room for a certificate.
pub fn grid_shelf(alloc: Global, map: &str, scenario: &str) -> Result<MemShelf, Memory> {
    let mut shelf = MemShelf::new(alloc)?;
    shelf.add("map", map.as_bytes())?;
    shelf.add("scenario", scenario.as_bytes())?;
    shelf.reserve("c", 4096)?;
    Ok(shelf)
}

/// The status of a run of this command line, whose workers tell this gate of their leases.
pub fn gated_outcome<R: Threads + Wait + Sync, G: Gate>(
    rt: &R,
    alloc: Global,
    line: &str,
    shelf: &mut MemShelf,
    sink: &mut MemSink,
    gate: &G,
) -> Result<u8, Memory> {
    let words = words(alloc, line)?;
    let mut looks = Looks::new();
    Ok(run(rt, alloc, &words, shelf, sink, gate, &mut looks))
}

/// The status of a run of this command line.
pub fn outcome<R: Threads + Wait + Sync>(
    rt: &R,
    alloc: Global,
    line: &str,
    shelf: &mut MemShelf,
    sink: &mut MemSink,
) -> Result<u8, Memory> {
    gated_outcome(rt, alloc, line, shelf, sink, &OpenGate)
}
