//! What a row puts on its shelf, and one run over it.
use crate::command::Command;
use crate::texts::Text;
use pb_outside::{MemShelf, MemSink, Memory};
use std::alloc::Global;
use std::sync::Wait;
use std::thread::Threads;

// What runs a command line.
#[derive(Drop)]
pub(crate) struct Runner<'a, R, C> {
    // What the command gets besides its words, files and output.
    pub(crate) rt: &'a R,
    pub(crate) alloc: Global,
    // The program that rows are about.
    pub(crate) command: &'a C,
}

// Room for so many bytes under a name.
#[derive(Drop)]
pub(crate) struct Room {
    pub(crate) name: String,
    pub(crate) bytes: u64,
}

// A call that fails, and how many bytes it keeps.
#[derive(Clone, Copy)]
pub(crate) struct Failing {
    pub(crate) call: u64,
    pub(crate) kept: u64,
}

// What a row puts on its shelf.
#[derive(Clone, Copy)]
pub(crate) struct Setting<'a> {
    pub(crate) texts: &'a [Text],
    pub(crate) files: &'a [Text],
    pub(crate) rooms: &'a [Room],
}

// What a run leaves.
#[derive(Drop)]
pub(crate) struct Ran {
    pub(crate) shelf: MemShelf,
    pub(crate) sink: MemSink,
    pub(crate) status: u8,
}

// How many bytes may be printed.
const REPORT: u128 = 1_048_576;

fn add_texts(shelf: &mut MemShelf, texts: &[Text]) -> Result<(), Memory> {
    for text in texts {
        shelf.add(text.name.as_str(), &text.bytes)?;
    }
    Ok(())
}

fn add_rooms(shelf: &mut MemShelf, rooms: &[Room]) -> Result<(), Memory> {
    for room in rooms {
        shelf.reserve(room.name.as_str(), u128::from(room.bytes))?;
    }
    Ok(())
}

// A shelf with the row's files and rooms.
pub(crate) fn shelf_of(alloc: Global, setting: Setting<'_>) -> Result<MemShelf, Memory> {
    let mut shelf = MemShelf::new(alloc)?;
    add_texts(&mut shelf, setting.texts)?;
    add_texts(&mut shelf, setting.files)?;
    add_rooms(&mut shelf, setting.rooms)?;
    Ok(shelf)
}

// Output that fails at a call, if it is to.
fn sink_of(alloc: Global, failing: Option<Failing>) -> Result<MemSink, Memory> {
    let mut sink = MemSink::new(alloc, REPORT)?;
    if let Some(failing) = failing {
        sink.fail(failing.call, failing.kept)?;
    }
    Ok(sink)
}

// What there is before the first run.
pub(crate) fn nothing_ran(alloc: Global, texts: &[Text]) -> Result<Ran, Memory> {
    let mut shelf = MemShelf::new(alloc)?;
    add_texts(&mut shelf, texts)?;
    let sink = sink_of(alloc, None)?;
    Ok(Ran {
        shelf,
        sink,
        status: 0,
    })
}

fn words_of(alloc: Global, line: &str) -> Result<Vec<String>, Memory> {
    let mut words = Vec::new(alloc);
    for word in line.split(' ') {
        words.push(String::from_str(alloc, word)?)?;
    }
    Ok(words)
}

// Runs a command line over these files, with new output.
pub(crate) fn run_over<R: Threads + Wait + Sync, C: Command>(
    runner: &Runner<'_, R, C>,
    line: &str,
    mut shelf: MemShelf,
    failing: Option<Failing>,
) -> Result<Ran, Memory> {
    let alloc = runner.alloc;
    let words = words_of(alloc, line)?;
    let mut sink = sink_of(alloc, failing)?;
    let command = runner.command;
    let status = command.run(runner.rt, alloc, &words, &mut shelf, &mut sink);
    Ok(Ran {
        shelf,
        sink,
        status,
    })
}

impl Ran {
    // The bytes of a file, if it is there.
    pub(crate) fn file(&self, name: &str) -> Option<&[u8]> {
        if self.shelf.has(name) {
            Some(self.shelf.file(name))
        } else {
            None
        }
    }

    // Whether a file isn't there, or is a first part of the whole one.
    fn is_begun(&self, whole: &Ran, name: &str) -> bool {
        match (self.file(name), whole.file(name)) {
            (Some(bytes), Some(text)) => text.starts_with(bytes),
            (bytes, _) => bytes.is_none(),
        }
    }

    // Whether the files with room are first parts of the whole ones, and one that isn't whole has
    // none after it.
    fn is_broken_off(&self, whole: &Ran, rooms: &[Room]) -> bool {
        let mut is_whole = true;
        let mut is_right = true;
        for room in rooms {
            let name = room.name.as_str();
            let begun = self.is_begun(whole, name);
            let first = is_whole || self.file(name).is_none();
            is_right = is_right && begun && first;
            is_whole = is_whole && self.file(name) == whole.file(name);
        }
        is_right
    }

    // Whether the files with room are there as the whole ones are.
    fn is_saved(&self, whole: &Ran, rooms: &[Room]) -> bool {
        let mut is_right = true;
        for room in rooms {
            let name = room.name.as_str();
            is_right = is_right && self.file(name).is_some() && self.file(name) == whole.file(name);
        }
        is_right
    }

    // Whether the shelf failed, nothing was printed, and the files are first parts of the whole
    // ones.
    pub(crate) fn is_of_failed_shelf(&self, whole: &Ran, rooms: &[Room]) -> bool {
        self.status == 73 && self.sink.bytes().is_empty() && self.is_broken_off(whole, rooms)
    }

    // Whether the sink failed after so many bytes of the whole report, and all is saved.
    pub(crate) fn is_of_failed_sink(&self, whole: &Ran, kept: usize, rooms: &[Room]) -> bool {
        let part = whole.sink.bytes().get(..kept).unwrap_or(&[]);
        self.status == 74 && self.sink.bytes() == part && self.is_saved(whole, rooms)
    }
}
