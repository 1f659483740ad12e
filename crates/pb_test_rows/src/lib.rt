//! Tests as rows of a text: what is on a shelf, the words of a command line, and what the run of it
//! has to answer, print and save.
//!
//! `do_rows` does them over files and output in memory, and over any `Command`. `do_files` does
//! those of files, and prints what differs.
#![tactic(auto)]

mod bench;
mod command;
mod directive;
mod files;
mod notes;
mod rows;
mod runs;
mod said;
mod texts;

pub use command::Command;
pub use files::do_files;
pub use rows::{Tally, do_rows};
