//! Many runs of one command line.
use crate::bench::{Failing, Ran, Room, Runner, Setting, run_over, shelf_of};
use crate::command::Command;
use crate::directive::Runs;
use crate::notes::Notes;
use pb_outside::{MemShelf, Memory};
use std::alloc::Global;
use std::sync::Wait;
use std::thread::Threads;

// One of many runs: what the file `cut` has, and which call of the shelf or of the sink fails.
#[derive(Clone, Copy)]
struct Trial<'a> {
    cut: Option<&'a [u8]>,
    shelf: Option<Failing>,
    sink: Option<Failing>,
}

// The first so many bytes, or all.
fn beginning(bytes: &[u8], length: u64) -> &[u8] {
    bytes.get(..length as usize).unwrap_or(bytes)
}

// The run that the others are compared with: over the shortest beginning, or over a shelf and a
// sink that don't fail.
fn whole_trial(runs: Runs, bytes: &[u8]) -> Trial<'_> {
    let cut = match runs {
        Runs::Cuts(from, _) => Some(beginning(bytes, from)),
        _ => None,
    };
    Trial {
        cut,
        shelf: None,
        sink: None,
    }
}

// The run of this number, counted from 0, if there is one. The whole report has so many bytes.
fn trial_at(runs: Runs, number: u64, bytes: &[u8], report: usize) -> Option<Trial<'_>> {
    let mut trial = whole_trial(Runs::Once, bytes);
    match runs {
        Runs::Cuts(from, to) if from.saturating_add(number) <= to => {
            trial.cut = Some(beginning(bytes, from.saturating_add(number)));
        }
        Runs::EachShelfCall(kept) if number < 10_000 => {
            let call = number.saturating_add(1);
            trial.shelf = Some(Failing { call, kept });
        }
        Runs::EachSinkLength if number <= report as u64 => {
            let kept = number;
            trial.sink = Some(Failing { call: 1, kept });
        }
        _ => return None,
    }
    Some(trial)
}

// A shelf with the row's files and rooms, and what this run has on it.
fn shelf_for(alloc: Global, setting: Setting<'_>, trial: Trial<'_>) -> Result<MemShelf, Memory> {
    let mut shelf = shelf_of(alloc, setting)?;
    if let Some(bytes) = trial.cut {
        shelf.add("cut", bytes)?;
    }
    if let Some(failing) = trial.shelf {
        shelf.fail(failing.call, failing.kept)?;
    }
    Ok(shelf)
}

// Notes whether the run of this number isn't as it must be beside the whole one.
fn expect_like(
    notes: &mut Notes,
    runs: Runs,
    number: u64,
    ran: &Ran,
    whole: &Ran,
    rooms: &[Room],
) -> Result<(), Memory> {
    let printed = ran.sink.bytes();
    match runs {
        Runs::EachShelfCall(_) => {
            let right = ran.is_of_failed_shelf(whole, rooms);
            notes.expect(right, "not broken off", printed)
        }
        Runs::EachSinkLength => {
            let right = ran.is_of_failed_sink(whole, number as usize, rooms);
            notes.expect(right, "not kept as the sink does", printed)
        }
        _ => {
            let same = ran.status == whole.status && printed == whole.sink.bytes();
            notes.expect(same, "two lengths differ", printed)
        }
    }
}

fn run_trial<R: Threads + Wait + Sync, C: Command>(
    runner: &Runner<'_, R, C>,
    setting: Setting<'_>,
    line: &str,
    trial: Trial<'_>,
) -> Result<Ran, Memory> {
    let shelf = shelf_for(runner.alloc, setting, trial)?;
    run_over(runner, line, shelf, trial.sink)
}

// Runs a command line many times, and notes which run isn't as it must be. Gives the whole run, and
// how many others there were.
//
// - Over beginnings of a text, whose lengths lie between two numbers, all have the answer of the
//   first one.
// - Over a shelf that fails at each call in turn, until none does, the file in hand is a first part
//   of its text, an earlier one is whole, and nothing is printed.
// - Over a sink that keeps each number of bytes in turn, these are printed, and all is saved.
pub(crate) fn run_many<R: Threads + Wait + Sync, C: Command>(
    runner: &Runner<'_, R, C>,
    setting: Setting<'_>,
    line: &str,
    runs: Runs,
    bytes: &[u8],
    notes: &mut Notes,
) -> Result<(Ran, u64), Memory> {
    let whole = run_trial(runner, setting, line, whole_trial(runs, bytes))?;
    let report = whole.sink.bytes().len();
    let mut count = 0;
    for number in 0..u64::MAX {
        let Some(trial) = trial_at(runs, number, bytes, report) else {
            break;
        };
        let ran = run_trial(runner, setting, line, trial)?;
        if trial.shelf.is_some() && ran.status == whole.status {
            break;
        }
        expect_like(notes, runs, number, &ran, &whole, setting.rooms)?;
        count = number.saturating_add(1);
    }
    Ok((whole, count))
}
