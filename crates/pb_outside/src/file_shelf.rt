//! The files of the system as a shelf.
ghost use Rattle.std.specs.Prelude.{◌≡◌, ◌≤◌, ◌∷◌, ◌++◌, [], None, length, IfOk, IfErr, OnOk, OnErr};
ghost use Rattle.pb_outside.specs.Outside.{HasCause, HasLoadCause, SeesOneMore, count_after, count_after_load};
ghost use Rattle.pb_outside.specs.Calls.{Loaded, LoadFailed, Appended, create_call, Notes};
ghost use Rattle.pb_outside.specs.Streams.{IsAllOfFile, IsLongerFile, AppendsToFile, IsAppendFailure};

use crate::events::{Begun, Grown, PartlyGrown, Read, Unread};
use crate::streams::{read_whole, write_whole};
use crate::transcript::Transcript;
use crate::{Failed, Load, Shelf};
use std::alloc::Global;
use std::fs;
use std::fs::OpenOptions;
use std::marker::Model;
use std::rt::Files;

/// The files of the system. A name is a path: relative to the folder that the program runs in, or
/// absolute. The shelf counts its faults and notes its calls; its files' contents aren't known to
/// contracts. Whatever the system refuses is a fault, such as:
///
/// - There is no file of the name, or the name is of a folder, is empty or has a NUL.
/// - The program has no permission.
/// - The device is full, or the system is out of memory.
#[derive(Drop)]
pub struct FileShelf<'a, R: Files> {
    rt: &'a R,
    faults: u64,
    transcript: Transcript,
}

// A contract sees the shelf's count of faults and its calls.
impl<'a, R: Files> Model for FileShelf<'a, R> {
    ghost use Rattle.pb_outside.specs.Streams.{FilesView};

    ghost Value = { FilesView };

    ghost view = { λ s. record { faults = s.faults; transcript = s.transcript.calls } };
}

impl<'a, R: Files> FileShelf<'a, R> {
    /// The files that this runtime reaches.
    pub fn new(rt: &'a R) -> FileShelf<'a, R>
        ensures { result ≡ record { faults = 0; transcript = [] } }
    {
        FileShelf {
            rt,
            faults: 0,
            transcript: Transcript::new(),
        }
    }
}

// Reads a file of the system to its end.
fn read_file<R: Files>(rt: &R, alloc: Global, name: &str, most: u64) -> Result<Vec<u8>, Load>
    ensures short { IfOk result (λ bytes. length bytes.items ≤ most) }
    ensures seen { IfErr result (λ e. SeesOneMore most e) }
    ensures read { IfOk result (λ bytes. IsAllOfFile R.File.remaining bytes.items) }
    ensures longer { IfErr result (λ e. IsLongerFile R.File.remaining most e) }
{
    let Ok(mut file) = fs::open(rt, name) else {
        return Err(Load::Failed);
    };
    read_whole(alloc, &mut file, most)
}

// Writes the piece after the bytes of a file of the system. An error is the number of bytes that
// were written.
fn append_file<R: Files>(rt: &R, name: &str, piece: &[u8]) -> Result<(), usize>
    ensures written { OnOk result (AppendsToFile R.File.contents piece.now) }
    ensures within { IfErr result (λ kept. kept ≤ length piece.now) }
{
    let mut options = OpenOptions::new();
    // No file is created: a file that isn't there stays so, and the call fails.
    options.append(true);
    let Ok(mut file) = options.open(rt, name) else {
        return Err(0);
    };
    write_whole(&mut file, piece)
}

impl<'a, R: Files> Shelf for FileShelf<'a, R> {
    ghost calls = { λ s. s.transcript };

    ghost files = { λ _. None };

    ghost faults = { λ s. s.faults };

    fn load(&mut self, alloc: Global, name: &str, most: u64) -> Result<Vec<u8>, Load>
        ensures short { IfOk result (λ bytes. length bytes.items ≤ most) }
        ensures seen { IfErr result (λ e. SeesOneMore most e) }
        ensures noted { IfOk result (λ bytes. Notes self.old.transcript self.new.transcript
            (Loaded name.now most bytes.items)) }
        ensures noted_error { IfErr result (λ e. Notes self.old.transcript self.new.transcript
            (LoadFailed name.now most e)) }
        ensures cause { HasLoadCause self.old.faults self.new.faults result }

        // A file of the system was opened, and its bytes were read to the end, or beyond `most`.
        ensures read { IfOk result (λ bytes. IsAllOfFile R.File.remaining bytes.items) }
        ensures longer { IfErr result (λ e. IsLongerFile R.File.remaining most e) }
        ensures count { self.new.faults ≡ count_after_load self.old.faults result }
    {
        match read_file(self.rt, alloc, name, most) {
            Ok(bytes) => {
                let call = Read {
                    name,
                    most,
                    bytes: &bytes,
                };
                self.transcript = self.transcript.and(&call);
                Ok(bytes)
            }
            Err(why) => {
                // A file that is too long and a lack of memory are no faults of the outside.
                if why == Load::Failed {
                    self.faults = self.faults.saturating_add(1);
                }
                self.transcript = self.transcript.and(&Unread { name, most, why });
                Err(why)
            }
        }
    }

    fn create(&mut self, name: &str) -> Result<(), Failed>
        ensures noted { Notes self.old.transcript self.new.transcript
            (create_call name.now result) }
        ensures cause { HasCause self.old.faults self.new.faults result }

        // A file of the system was opened: the fact is that file.
        ensures opened { OnOk result R.File }
        ensures count { self.new.faults ≡ count_after self.old.faults result }
    {
        // The transcript has a call whether it succeeded or not.
        let done = fs::create(self.rt, name).is_ok();
        self.transcript = self.transcript.and(&Begun { name, done });
        if !done {
            self.faults = self.faults.saturating_add(1);
            return Err(Failed);
        }
        Ok(())
    }

    fn append(&mut self, name: &str, piece: &[u8]) -> Result<(), Failed>
        ensures noted { OnOk result (Notes self.old.transcript self.new.transcript
            (Appended name.now piece.now)) }
        ensures noted_error { OnErr result (IsAppendFailure self.old.transcript self.new.transcript name.now
            piece.now) }
        ensures cause { HasCause self.old.faults self.new.faults result }

        // A file of the system was opened, and all of the piece was written to it.
        ensures written { OnOk result (AppendsToFile R.File.contents piece.now) }
        ensures count { self.new.faults ≡ count_after self.old.faults result }
    {
        match append_file(self.rt, name, piece) {
            Ok(()) => {
                self.transcript = self.transcript.and(&Grown { name, piece });
                Ok(())
            }
            Err(kept) => {
                self.faults = self.faults.saturating_add(1);
                self.transcript = self.transcript.and(&PartlyGrown { name, piece, kept });
                Err(Failed)
            }
        }
    }
}
