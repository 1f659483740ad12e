//! The planner. It reads a task from files, finds its cheapest plan or that it has none, and saves
//! a certificate of that and a journal of the search. It also checks certificates and journals, and
//! makes tasks.
//!
//! `main` gives `run` of `pb_run` the system's files and standard output, and a count of looks that
//! begins at 0. `run` is the whole program over any shelf, sink and gate.
#![tactic(auto)]

use pb_answer::Status;
use pb_outside::{FileShelf, OpenGate, OutSink};
use pb_run::{Looks, report_unread_words, run, words_of};
use std::alloc::AllocError;
use std::process::ExitCode;
use std::{env, io};

fn main(rt: HostRuntime) -> ExitCode {
    let mut out = OutSink::new(io::writer(&rt));
    let status = match env::args(&rt) {
        Ok(args) => match words_of(rt.alloc(), args) {
            Ok(words) => {
                let mut shelf = FileShelf::new(&rt);
                let mut looks = Looks::new();
                run(
                    &rt,
                    rt.alloc(),
                    &words,
                    &mut shelf,
                    &mut out,
                    &OpenGate,
                    &mut looks,
                )
            }
            Err(AllocError) => Status::OutOfMemory.number(),
        },
        Err(error) => report_unread_words(error, &mut out),
    };
    ExitCode::from(status)
}
