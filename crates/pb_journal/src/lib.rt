//! The journal of a search: every event of the lease machine, written as a text, and judged line by
//! line.
#![tactic(auto)]

mod checker;
mod effects;
mod error;
mod events;
mod header;
mod laws;
mod lines;
mod opened;
mod reading;
mod refusals;
mod replay;
mod stated;
mod writing;

pub use checker::check_journal;
pub use error::{JournalError, Why};
pub use header::read_header;
pub use laws::{
    accepted_journals_are_finished, cut_journals_are_refused, journal_texts_are_short,
    plain_journals_have_no_hot, plain_texts_have_no_hot, refused_lines_are_first,
    runs_are_accepted, searches_are_accepted, written_journals_are_accepted,
};
pub use opened::{OpenedJournal, open_journal};
pub use writing::write_journal;
