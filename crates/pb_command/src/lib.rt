//! The command line: which command the words after the program's name are, or why they are none.
//!
//! What words mean is one definition, `reading_of_words` in `specs`, over what `clap` states of the
//! declared command.
#![tactic(auto)]

mod command;
mod files;
mod laws;
mod parser;
mod reader;
mod refusal;
mod table;
mod values;

pub use command::{
    CheckCommand, CommandLine, Engine, FallingCommand, GridFiles, Input, InputOptions,
    JournalCommand, MakeCommand, SolveCommand, StripsFiles,
};
pub use files::{LoadedFile, loaded_files};
pub use laws::{
    check_reads_options, check_tests_options, falling_reads_options, falling_tests_options,
    faults_are_found, journal_reads_options, make_reads_options, options_have_forms,
    options_out_of_form_are_refused, solve_reads_options, solve_tests_options, tests_come_in_order,
};
pub use reader::read_words;
pub use refusal::{CommandFault, CommandRefusal, Message};
pub use table::{FlagOption, ValuedOption};
