//! The files that a command loads, each with its limit in bytes.
ghost use Rattle.std.specs.Prelude.{◌≡◌, ◌++◌, ◌∷◌, [], IfOk, OnOk, map, option_map};
ghost use Rattle.pb_command.specs.Causes.{input_meant, meaning_of, solve_meant};
ghost use Rattle.pb_command.specs.Files.{file_meant, input_file, input_files, loaded_files};
ghost use Rattle.pb_command.specs.Files.{record_file, solve_files, tables_files};

use crate::command::{CommandLine, Input, SolveCommand};
use std::alloc::{AllocError, Global};

// How many bytes a file of a task may have.
const LONGEST_INPUT: u64 = 16_777_216;

// How many bytes a certificate may have that is to be checked, a journal that is to be judged, or a
// file of tables.
const LONGEST_RECORD: u64 = 1_073_741_824;

// What is printed if a file is too long, whichever it is.
const TOO_LONG: &str = "input TooLong";

/// A file that is to be loaded.
#[derive(Clone, Copy, Debug)]
pub struct LoadedFile<'a> {
    /// Its name.
    pub name: &'a str,
    /// How many bytes it may have.
    pub most: u64,
    /// The line that is printed if it has more.
    pub fault: &'a str,
}

// A file of a task.
fn input_file<'a>(name: &'a str) -> LoadedFile<'a>
    ensures { file_meant result ≡ input_file name.entry.now }
{
    LoadedFile {
        name,
        most: LONGEST_INPUT,
        fault: TOO_LONG,
    }
}

// A file that is judged, or that has tables.
fn record_file<'a>(name: &'a str) -> LoadedFile<'a>
    ensures { file_meant result ≡ record_file name.entry.now }
{
    LoadedFile {
        name,
        most: LONGEST_RECORD,
        fault: TOO_LONG,
    }
}

// Adds a file.
fn push_file<'a>(files: &mut Vec<LoadedFile<'a>>, file: LoadedFile<'a>) -> Result<(), AllocError>
    ensures { OnOk result (map file_meant files.new.items
        ≡ map file_meant files.old.items ++ file_meant file.entry ∷ []) }
{
    // A failed push gives the file back; `?` drops it and leaves the `AllocError`.
    files.push(file)?;
    Ok(())
}

// Adds the files of a task.
fn push_input<'a>(files: &mut Vec<LoadedFile<'a>>, input: Input<'a>) -> Result<(), AllocError>
    ensures { OnOk result (map file_meant files.new.items
        ≡ map file_meant files.old.items ++ input_files (input_meant input.entry)) }
{
    match input {
        Input::Grid(names) => {
            push_file(files, input_file(names.map))?;
            push_file(files, input_file(names.scenario))
        }
        Input::Tiles(board) => push_file(files, input_file(board)),
        Input::Strips(names) => {
            push_file(files, input_file(names.domain))?;
            push_file(files, input_file(names.problem))
        }
    }
}

// Adds the file of tables, if one is given. It is loaded for a STRIPS problem alone.
fn push_tables<'a>(
    files: &mut Vec<LoadedFile<'a>>,
    input: Input<'a>,
    tables: Option<&'a str>,
) -> Result<(), AllocError>
    ensures { OnOk result (map file_meant files.new.items ≡ map file_meant files.old.items
        ++ tables_files (input_meant input.entry) (option_map (λ t. t.now) tables.entry)) }
{
    match (input, tables) {
        (Input::Strips(_), Some(name)) => push_file(files, record_file(name)),
        _ => Ok(()),
    }
}

// Adds the files of a search.
fn push_solve<'a>(
    files: &mut Vec<LoadedFile<'a>>,
    solve: SolveCommand<'a>,
) -> Result<(), AllocError>
    ensures { OnOk result (map file_meant files.new.items
        ≡ map file_meant files.old.items ++ solve_files (solve_meant solve.entry)) }
{
    push_input(files, solve.input)?;
    push_tables(files, solve.input, solve.tables)
}

/// The files that a command loads: the certificate or the journal that is judged, those of the
/// task, in the order of its words, and the file of tables. An error is out of memory.
pub fn loaded_files<'a>(
    alloc: Global,
    command: CommandLine<'a>,
) -> Result<Vec<LoadedFile<'a>>, AllocError>
    ensures { IfOk result (λ files. map file_meant files.items
        ≡ loaded_files (meaning_of command.entry)) }
{
    let mut files = Vec::new(alloc);
    match command {
        CommandLine::Solve(solve) => push_solve(&mut files, solve)?,
        CommandLine::Falling(falling) => push_solve(&mut files, falling.solve)?,
        CommandLine::Check(check) => {
            push_file(&mut files, record_file(check.certificate))?;
            push_input(&mut files, check.input)?;
        }
        CommandLine::Journal(journal) => {
            push_file(&mut files, record_file(journal.journal))?;
            push_input(&mut files, journal.input)?;
        }
        CommandLine::Make(_) => {}
    }
    Ok(files)
}
