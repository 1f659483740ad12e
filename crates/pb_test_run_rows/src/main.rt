//! Does the rows of the files that the words name, and prints how many each has and what differs.
//!
//! The first word of a row's command line says what it is about: the readers and tasks
//! (`readers`), searches whose workers are delayed (`delays`), the whole program after some looks
//! (`looked`), or else the whole program.
#![tactic(auto)]

mod delays;
mod gate;
mod ground;
mod kinds;
mod lifted;
mod lines;
mod looked;
mod made;
mod moves;
mod names;
mod prefixes;
mod readers;
mod tree;
mod trees;

use crate::lines::Lines;
use crate::looked::looked;
use pb_outside::{MemShelf, MemSink, Memory, OpenGate, Sink};
use pb_run::{Looks, run};
use pb_test_rows::{Command, do_files};
use std::alloc::Global;
use std::env;
use std::process::ExitCode;
use std::sync::Wait;
use std::thread::Threads;

// The whole program and its parts.
#[derive(Drop)]
struct Programs;

// The whole program. The function has no clauses, so its callers' proofs don't hold those of `run`.
fn plan<R: Threads + Wait + Sync>(
    rt: &R,
    alloc: Global,
    words: &[String],
    shelf: &mut MemShelf,
    sink: &mut MemSink,
    looks: Looks,
) -> u8 {
    let mut looks = looks;
    run(rt, alloc, words, shelf, sink, &OpenGate, &mut looks)
}

// Prints lines. The status is that of a report, or of a refusal if there are none.
fn print(sink: &mut MemSink, lines: Result<Option<Lines>, Memory>) -> u8 {
    match lines {
        Err(Memory) => 71,
        Ok(None) => 65,
        Ok(Some(lines)) => match sink.put(lines.text.as_bytes()) {
            Ok(()) => 0,
            Err(_) => 74,
        },
    }
}

impl Command for Programs {
    fn run<R: Threads + Wait + Sync>(
        &self,
        rt: &R,
        alloc: Global,
        words: &[String],
        shelf: &mut MemShelf,
        sink: &mut MemSink,
    ) -> u8 {
        if readers::is_asked(words) {
            return print(sink, readers::answer(alloc, words, shelf));
        }
        match words {
            [word, runs, seed] if word.as_str() == "delays" => {
                print(
                    sink,
                    delays::right_runs(rt, alloc, runs.as_str(), seed.as_str()),
                )
            }
            _ => {
                let (looks, words) = looked(words);
                plan(rt, alloc, words, shelf, sink, looks)
            }
        }
    }
}

fn main(rt: HostRuntime) -> ExitCode {
    let Ok(names) = env::args(&rt) else {
        return ExitCode::FAILURE;
    };
    match do_files(&rt, rt.alloc(), &Programs, names) {
        Ok(true) => ExitCode::SUCCESS,
        _ => ExitCode::FAILURE,
    }
}
