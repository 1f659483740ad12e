//! The program over files and output in memory: what it answers is handed out if it has room there.
ghost use Rattle.std.specs.Prelude.{◌≡◌, Some, [], map, string_bytes};
ghost use Rattle.pb_command.specs.Meaning.{reading_of_words};
ghost use Rattle.pb_outside.specs.Memory.{file_of, HasFile, HasRoom, CanTake};
ghost use Rattle.pb_run.specs.Asked.{files_of};
ghost use Rattle.pb_run.specs.InMemory.{HaveFiles, HasRoomFor, HasRoomToPut};
ghost use Rattle.pb_run.specs.Served.{CanServe, IsHandedOutIfItFits};
ghost use Rattle.pb_run.specs.Outcome.{outcome};
ghost use Rattle.pb_run.specs.Whole.{IsServed};

use crate::top::run;
use pb_outside::{Gate, MemShelf, MemSink};
use pb_strips::Looks;
use std::alloc::Global;
use std::sync::Wait;
use std::thread::Threads;

/// `run` over files and output in memory, of which no call is to fail, and where each file is that
/// the words name. Whatever is answered, the status is that of the answer if each file that is to
/// be saved has room under its name, and the report has room. Or memory ran out. With `--falling`
/// it may also break off at first claims that have no room.
pub fn run_in_memory<R: Threads + Wait + Sync, G: Gate>(
    rt: &R,
    alloc: Global,
    words: &[String],
    shelf: &mut MemShelf,
    out: &mut MemSink,
    gate: &G,
    looks: &mut Looks,
) -> u8
    requires shelf { shelf.old.calls.listed ≡ [] }
    requires sink { out.old.calls.listed ≡ [] }
    requires files { HaveFiles shelf.old
        (files_of (reading_of_words (map string_bytes words.now))) }
    ensures fits { IsHandedOutIfItFits (reading_of_words (map string_bytes words.now))
        (file_of shelf.old) result looks.new.taken (HasRoomFor shelf.old) (HasRoomToPut out.old) }
    // What is served is answered: the laws on rooms say when that is.
    ensures served { CanServe (reading_of_words (map string_bytes words.now))
        (Some (file_of shelf.old)) (HasFile shelf.old) (HasRoom shelf.old) (CanTake out.old)
        → IsServed (outcome (map string_bytes words.now) result looks.new.taken
        shelf.old.transcript shelf.new.transcript out.old.transcript out.new.transcript)
        (Some (file_of shelf.old)) }
{
    run(rt, alloc, words, shelf, out, gate, looks)
}
