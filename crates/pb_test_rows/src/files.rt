//! Rows that stand in files.
use crate::command::Command;
use crate::rows::do_rows;
use std::alloc::Global;
use std::io::{self, ErrorKind};
use std::rt::Files;
use std::sync::Wait;
use std::thread::Threads;
use std::{env, fs};

// Does the rows of a file. Gives whether all is as they say.
fn do_file<R: Threads + Wait + Sync + Alloc + Print + Files, C: Command>(
    rt: &R,
    alloc: Global,
    command: &C,
    name: &str,
) -> io::Result<bool> {
    let text = fs::read_to_string(rt, name)?;
    let Ok(tally) = do_rows(rt, alloc, command, &text) else {
        return Err(io::Error::from(ErrorKind::OutOfMemory));
    };
    println!(rt; "{name}: {} rows", tally.rows)?;
    print!(rt; "{}", tally.differences)?;
    Ok(tally.differences.is_empty())
}

/// Does the rows of the files that the words after a program's name are, and prints how many each
/// has and what differs. Gives whether all is as they say.
pub fn do_files<R: Threads + Wait + Sync + Alloc + Print + Files, C: Command>(
    rt: &R,
    alloc: Global,
    command: &C,
    names: env::Args,
) -> io::Result<bool> {
    let mut all = true;
    for name in names.skip(1) {
        let same = do_file(rt, alloc, command, name.as_str())?;
        all = all && same;
    }
    Ok(all)
}
