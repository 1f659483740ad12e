//! Laws on files that are too long and on the grounding of a task, as contracts of functions without
//! a body.
ghost use Rattle.pb_answer.specs.Loaded.{GroundingsAreAsAsked};
ghost use Rattle.pb_answer.specs.Long.{LongFilesAreRefused};

/// If a file was too long, so that its text and the later ones were not loaded, the texts are
/// refused with the line of that file.
pub fn long_files_are_refused()
    ensures { LongFilesAreRefused }
{}

/// The grounding of the task that the texts spell is the one that the command line asks for. For a
/// map and a board it is the one that leaves nothing out, whatever the command line says.
pub fn groundings_are_as_asked()
    ensures { GroundingsAreAsAsked }
{}
