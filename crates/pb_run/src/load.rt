//! Loading the files that the words name.
ghost use Rattle.std.specs.Prelude.{◌≡◌, ◌≢◌, [], Err, IfOk, IfErr, map, option_map};
ghost use Rattle.pb_outside.specs.Outside.{IfTold, KeepsAll, KeepsHolds};
ghost use Rattle.pb_outside.specs.Calls.{LoadFailed, Notes, KeepsLoads};
ghost use Rattle.pb_run.specs.Asked.{files_of, CanLoad};
ghost use Rattle.pb_run.specs.Read.{reading_of};
ghost use Rattle.pb_run.specs.Loads.{AreLoaded};
ghost use Rattle.pb_run.specs.Contents.{LoadsAll, LoadsUpTo};
ghost use Rattle.pb_run.specs.Files.{wanted_of, LoadsText};
ghost use Rattle.pb_run.specs.Fit.{FaultRose, IfShelf, NotesLoad, reason_of, status_of};

use crate::asked::{Asked, files_of};
use pb_answer::{Status, Texts};
use pb_command::LoadedFile;
use pb_outside::{Load, Shelf};
use std::alloc::{AllocError, Global};

/// Why nothing is answered.
#[derive(Clone, Copy, Debug, PartialEq, Eq)]
pub enum Fault {
    /// Memory ran out.
    OutOfMemory,
    /// The shelf failed.
    ShelfFailed,
}

// By hand, so that a clause can say which error `?` makes.
impl From<AllocError> for Fault {
    ghost use Rattle.std.specs.Prelude.{◌≡◌};
    ghost use Rattle.pb_run.specs.declared.load.Fault.TheVariants.{OutOfMemory};

    ghost from_gives = { λ _ e. e ≡ OutOfMemory };

    fn from(_error: AllocError) -> Fault {
        Fault::OutOfMemory
    }
}

impl Fault {
    /// The status if nothing is answered for this reason.
    pub fn status(self) -> Status
        ensures { result ≡ status_of self }
    {
        match self {
            Fault::OutOfMemory => Status::OutOfMemory,
            Fault::ShelfFailed => Status::ShelfFailed,
        }
    }
}

// The bytes of a file, or None if it is too long.
fn load<H: Shelf>(
    shelf: &mut H,
    alloc: Global,
    file: LoadedFile<'_>,
) -> Result<Option<Vec<u8>>, Fault>
    ensures text { IfOk result (λ loaded. LoadsText (H.files shelf.old) (wanted_of file.entry)
        (option_map (λ v. v.items) loaded)) }
    ensures calls { IfOk result (λ loaded. NotesLoad (H.calls shelf.old) (H.calls shelf.new)
        (wanted_of file.entry) (option_map (λ v. v.items) loaded)) }
    ensures calls_error { IfErr result (λ fault. Notes (H.calls shelf.old) (H.calls shelf.new)
        (LoadFailed (wanted_of file.entry).name (wanted_of file.entry).most (reason_of fault))) }
    ensures sure { H.can_load shelf.old (wanted_of file.entry).name
        → IfErr result (λ fault. IfShelf fault ⊥) }
    ensures same { IfTold (H.files shelf.old) (H.files shelf.new) KeepsAll }
    ensures holds { KeepsHolds (H.can_hold shelf.old) (H.can_hold shelf.new) }
    ensures loads { KeepsLoads (H.can_load shelf.old) (H.can_load shelf.new) }
    ensures fault { FaultRose (H.faults shelf.old) (H.faults shelf.new) result }
{
    match shelf.load(alloc, file.name, file.most) {
        Ok(bytes) => Ok(Some(bytes)),
        Err(Load::TooLong { seen: _ }) => Ok(None),
        Err(Load::Failed) => Err(Fault::ShelfFailed),
        Err(Load::Memory) => Err(Fault::OutOfMemory),
    }
}

// Loads the files one after another, up to the first that is too long.
fn load_all<H: Shelf>(
    alloc: Global,
    files: &[LoadedFile<'_>],
    shelf: &mut H,
) -> Result<Texts, Fault>
    ensures texts { IfOk result (λ texts. AreLoaded (H.files shelf.old) (map wanted_of files.now)
        texts) }
    ensures calls { IfOk result (λ texts. LoadsAll (H.calls shelf.old) (H.calls shelf.new)
        (map wanted_of files.now) texts) }
    ensures calls_error { IfErr result (LoadsUpTo (H.calls shelf.old) (H.calls shelf.new) (map wanted_of files.now)) }
    ensures sure { CanLoad (H.can_load shelf.old) (map wanted_of files.now)
        → IfErr result (λ fault. IfShelf fault ⊥) }
    ensures same { IfTold (H.files shelf.old) (H.files shelf.new) KeepsAll }
    ensures holds { KeepsHolds (H.can_hold shelf.old) (H.can_hold shelf.new) }
    ensures fault { FaultRose (H.faults shelf.old) (H.faults shelf.new) result }
{
    let mut texts = Texts::new(alloc);
    for file in files {
        match load(shelf, alloc, *file) {
            Ok(Some(text)) => {
                if texts.push(text).is_err() {
                    return Err(Fault::OutOfMemory);
                }
            }
            // The first file that is too long decides, so no later one is loaded.
            Ok(None) => return Ok(texts),
            Err(fault) => return Err(fault),
        }
    }
    Ok(texts)
}

/// Loads the files that a command names, in the order of its words, up to the first that is too
/// long.
pub fn load_files<H: Shelf>(alloc: Global, asked: &Asked<'_>, shelf: &mut H) -> Result<Texts, Fault>
    ensures texts { IfOk result (λ texts. AreLoaded (H.files shelf.old)
        (files_of (reading_of asked.now)) texts) }
    ensures calls { IfOk result (λ texts. LoadsAll (H.calls shelf.old) (H.calls shelf.new)
        (files_of (reading_of asked.now)) texts) }
    ensures calls_error { IfErr result (LoadsUpTo (H.calls shelf.old) (H.calls shelf.new)
        (files_of (reading_of asked.now))) }
    ensures sure { CanLoad (H.can_load shelf.old)
        (files_of (reading_of asked.now))
        → IfErr result (λ fault. IfShelf fault ⊥) }
    ensures same { IfTold (H.files shelf.old) (H.files shelf.new) KeepsAll }
    ensures holds { KeepsHolds (H.can_hold shelf.old) (H.can_hold shelf.new) }
    ensures fault { FaultRose (H.faults shelf.old) (H.faults shelf.new) result }
{
    match files_of(alloc, asked) {
        Ok(files) => load_all(alloc, &files, shelf),
        Err(AllocError) => Err(Fault::OutOfMemory),
    }
}
