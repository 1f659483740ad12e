//! A text of rows, read and done line by line.
use crate::bench::{Failing, Ran, Room, Runner, Setting, nothing_ran, run_over};
use crate::command::Command;
use crate::directive::{Directive, Given, Runs, read_directive};
use crate::notes::Notes;
use crate::runs::run_many;
use crate::said::{expect_kept, expect_said};
use crate::texts::{Text, add_line};
use pb_outside::{MemShelf, Memory};
use std::alloc::Global;
use std::mem;
use std::sync::Wait;
use std::thread::Threads;

/// How many rows a text has, and what differs from them, a line each.
#[derive(Drop)]
pub struct Tally {
    pub rows: u64,
    pub differences: String,
}

// The current row, and its last run.
#[derive(Drop)]
struct Row {
    files: Vec<Text>,
    rooms: Vec<Room>,
    ran: Ran,
    sink_fails: Option<Failing>,
    failed_calls: u64,
}

impl Row {
    fn new(alloc: Global, texts: &[Text]) -> Result<Row, Memory> {
        let ran = nothing_ran(alloc, texts)?;
        Ok(Row {
            files: Vec::new(alloc),
            rooms: Vec::new(alloc),
            ran,
            sink_fails: None,
            failed_calls: 0,
        })
    }

    // Puts a file on the row's shelf.
    fn add_file(&mut self, alloc: Global, name: &str, bytes: &[u8]) -> Result<(), Memory> {
        self.ran.shelf.add(name, bytes)?;
        self.files.push(Text::of(alloc, name, bytes)?)?;
        Ok(())
    }

    fn add_room(&mut self, alloc: Global, name: &str, bytes: u64) -> Result<(), Memory> {
        self.ran.shelf.reserve(name, u128::from(bytes))?;
        let name = String::from_str(alloc, name)?;
        self.rooms.push(Room { name, bytes })?;
        Ok(())
    }

    // Does what a line says of what there is before a run.
    fn take(&mut self, alloc: Global, given: Given<'_>, bytes: &[u8]) -> Result<(), Memory> {
        match given {
            Given::Text(name) => self.ran.shelf.add(name, bytes),
            Given::File(name) => self.add_file(alloc, name, bytes),
            Given::Room(name, room) => self.add_room(alloc, name, room),
            Given::ShelfFails(failing) => self.ran.shelf.fail(failing.call, failing.kept),
            Given::SinkFails(failing) => {
                self.sink_fails = Some(failing);
                Ok(())
            }
        }
    }

    // Runs a command line over the files that are there, with new output.
    fn run_once<R: Threads + Wait + Sync, C: Command>(
        &mut self,
        runner: &Runner<'_, R, C>,
        line: &str,
    ) -> Result<(), Memory> {
        // The run takes the shelf, and gives it back with what it saved.
        let shelf = mem::replace(&mut self.ran.shelf, MemShelf::new(runner.alloc)?);
        self.ran = run_over(runner, line, shelf, self.sink_fails)?;
        Ok(())
    }

    // Runs a command line, over all that a line says.
    fn run<R: Threads + Wait + Sync, C: Command>(
        &mut self,
        runner: &Runner<'_, R, C>,
        texts: &[Text],
        runs: Runs,
        line: &str,
        bytes: &[u8],
        notes: &mut Notes,
    ) -> Result<(), Memory> {
        if let Runs::Once = runs {
            self.run_once(runner, line)?;
        } else {
            let setting = Setting {
                texts,
                files: &self.files,
                rooms: &self.rooms,
            };
            let (ran, count) = run_many(runner, setting, line, runs, bytes, notes)?;
            self.ran = ran;
            if let Runs::EachShelfCall(_) = runs {
                self.failed_calls = count;
            }
        }
        self.sink_fails = None;
        Ok(())
    }
}

// Whether a line stands for bytes.
fn has_bytes(line: &str) -> bool {
    line.starts_with("|") || line.starts_with(">") || line.starts_with("=") || line.starts_with("*")
}

// Does what a line says, with the bytes below it. There may be no line.
fn do_line<R: Threads + Wait + Sync, C: Command>(
    runner: &Runner<'_, R, C>,
    texts: &mut Vec<Text>,
    row: &mut Row,
    line: &str,
    bytes: &[u8],
    notes: &mut Notes,
) -> Result<(), Memory> {
    let alloc = runner.alloc;
    match read_directive(line) {
        None => notes.expect(line.is_empty(), "isn't in form", line.as_bytes()),
        Some(Directive::Given(given)) => {
            if let Given::Text(name) = given {
                texts.push(Text::of(alloc, name, bytes)?)?;
            }
            row.take(alloc, given, bytes)
        }
        Some(Directive::Run(runs, line)) => {
            row.run(runner, texts, runs, line, bytes, notes)?;
            expect_kept(notes, &row.ran, &row.rooms, texts)?;
            expect_kept(notes, &row.ran, &row.rooms, &row.files)
        }
        Some(Directive::Said(said)) => {
            expect_said(notes, alloc, &row.ran, row.failed_calls, said, bytes)
        }
    }
}

// Does the lines of one row, whose first line has this number.
fn do_row<R: Threads + Wait + Sync, C: Command>(
    runner: &Runner<'_, R, C>,
    texts: &mut Vec<Text>,
    lines: &str,
    first: u64,
    notes: &mut Notes,
) -> Result<(), Memory> {
    let alloc = runner.alloc;
    let mut row = Row::new(alloc, texts)?;
    let mut line = String::new(alloc);
    let mut number = first;
    let mut bytes = Vec::new(alloc);
    for next in lines.lines() {
        if has_bytes(next) {
            let in_form = add_line(alloc, &mut bytes, texts, next)?;
            notes.expect(in_form, "isn't in form", next.as_bytes())?;
        } else if !next.is_empty() && !next.starts_with("#") {
            do_line(runner, texts, &mut row, line.as_str(), &bytes, notes)?;
            notes.come_to(number);
            line.clear();
            line.push_str(next)?;
            bytes.clear();
        }
        number = number.saturating_add(1);
    }
    do_line(runner, texts, &mut row, line.as_str(), &bytes, notes)
}

/// Does the rows of a text. An error is out of memory.
pub fn do_rows<R: Threads + Wait + Sync, C: Command>(
    rt: &R,
    alloc: Global,
    command: &C,
    text: &str,
) -> Result<Tally, Memory> {
    let runner = Runner { rt, alloc, command };
    let mut texts = Vec::new(alloc);
    let mut notes = Notes::new(alloc);
    let mut number = 1_u64;
    let mut pieces = 0_u64;
    for piece in text.split("\nrow ") {
        let lines = if pieces == 0 {
            piece
        } else {
            piece.split_once('\n').unwrap_or((piece, "")).1
        };
        let first = if pieces == 0 {
            1
        } else {
            number.saturating_add(1)
        };
        do_row(&runner, &mut texts, lines, first, &mut notes)?;
        pieces = pieces.saturating_add(1);
        number = number.saturating_add(piece.split('\n').count() as u64);
    }
    Ok(Tally {
        rows: pieces.saturating_sub(1),
        differences: notes.lines,
    })
}
