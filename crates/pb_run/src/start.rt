//! The words of the command line as the system gives them.
ghost use Rattle.std.specs.Prelude.{◌≡◌, ◌≢◌, ◌⊎◌, ◌++◌, ◌∷◌, [], IfOk, codes, drop};
ghost use Rattle.std.specs.IoError.{error_kind};
ghost use Rattle.std.specs.Vec.Iter.{into_iter_items};
ghost use Rattle.pb_model.specs.Texts.{line};
ghost use Rattle.pb_outside.specs.Outside.{Rose};
ghost use Rattle.pb_outside.specs.Calls.{Put, Notes, NotesPutFailed};

use pb_answer::Status;
use pb_outside::Sink;
use std::alloc::{AllocError, Global};
use std::env;
use std::io::{self, ErrorKind};

/// The words after the first, which is the program's name. An error is out of memory.
pub fn words_of(alloc: Global, args: env::Args) -> Result<Vec<String>, AllocError>
    ensures { IfOk result (λ words. words.items ≡ drop 1 (into_iter_items args)) }
{
    let mut rest = args;
    // The program's own name comes first.
    let _name = rest.next();
    let mut words = Vec::new(alloc);
    // The label is the loop's name in its proof.
    'words: while let Some(word) = rest.next() {
        words.push(word)?;
    }
    Ok(words)
}

// What is printed if a word isn't UTF-8.
const NOT_UTF8: &[u8] = b"error: invalid UTF-8 was detected in one or more arguments\n";

/// The status if the words couldn't be read: out of memory, or a word that isn't UTF-8, which is a
/// faulty command line.
pub fn report_unread_words<K: Sink>(error: io::Error, out: &mut K) -> u8
    ensures memory { result ≡ 71 → (error_kind error ≡ ErrorKind.OutOfMemory)
        × (K.calls out.new ≡ K.calls out.old) }
    ensures words { result ≡ 64 → (error_kind error ≢ ErrorKind.OutOfMemory)
        × Notes (K.calls out.old) (K.calls out.new)
        (Put (line (codes "error: invalid UTF-8 was detected in one or more arguments"))) }
    ensures sink_fault { result ≡ 74 → (error_kind error ≢ ErrorKind.OutOfMemory)
        × Rose (K.faults out.old) (K.faults out.new) }
    ensures sink_left { result ≡ 74 → NotesPutFailed (K.calls out.old) (K.calls out.new)
        (K.written out.old) (K.written out.new)
        (line (codes "error: invalid UTF-8 was detected in one or more arguments")) }
    ensures statuses { (result ≡ 71) ⊎ (result ≡ 64) ⊎ (result ≡ 74) }
{
    match error.kind() {
        ErrorKind::OutOfMemory => Status::OutOfMemory.number(),
        _ => match out.put(NOT_UTF8) {
            Ok(()) => Status::WordsRefused.number(),
            Err(_) => Status::SinkFailed.number(),
        },
    }
}
