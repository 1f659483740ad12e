//! What the words ask for, read once.
ghost use Rattle.std.specs.Prelude.{◌≡◌, [], IfOk, map, string_bytes};
ghost use Rattle.pb_command.specs.Meaning.{reading_of_words};
ghost use Rattle.pb_run.specs.Asked.{files_of};
ghost use Rattle.pb_run.specs.Files.{wanted_of};
ghost use Rattle.pb_run.specs.Read.{reading_of, IsRead};

use pb_command::{
    CommandFault, CommandLine, CommandRefusal, LoadedFile, Message, loaded_files, read_words,
};
use std::alloc::{AllocError, Global};

/// What words ask for.
#[derive(Drop)]
pub enum Asked<'a> {
    /// They are this command.
    Command(CommandLine<'a>),
    /// They are no command line, since they fail this test. The message is what is printed then.
    NoCommand(CommandFault, Message),
}

/// Reads the words. An error is out of memory.
pub fn read_asked<'a>(alloc: Global, words: &'a [String]) -> Result<Asked<'a>, AllocError>
    ensures reading { IfOk result
        (λ a. reading_of_words (map string_bytes words.entry.now) ≡ reading_of a) }
    ensures read { IfOk result IsRead }
{
    match read_words(alloc, words) {
        Ok(command) => Ok(Asked::Command(command)),
        Err(CommandRefusal::Words(fault, message)) => Ok(Asked::NoCommand(fault, message)),
        Err(CommandRefusal::Memory) => Err(AllocError),
    }
}

/// The files that a command names to be read, in the order of its words; none if the words are no
/// command line. An error is out of memory.
pub fn files_of<'a>(alloc: Global, asked: &Asked<'a>) -> Result<Vec<LoadedFile<'a>>, AllocError>
    ensures { IfOk result (λ files. map wanted_of files.items
        ≡ files_of (reading_of asked.now)) }
{
    match asked {
        Asked::Command(command) => loaded_files(alloc, *command),
        Asked::NoCommand(_, _) => Ok(Vec::new(alloc)),
    }
}
