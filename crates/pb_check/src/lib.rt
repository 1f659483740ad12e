//! The certificate checker: whether bytes spell a certificate that is valid for a task, or else
//! their first fault.
//!
//! It trusts no planner: it reads the text, walks the plan and recomputes the successors of every
//! closed row.
#![tactic(auto)]

mod actions;
mod checker;
mod fault;
mod feeds;
mod found;
mod front;
mod front_shares;
mod heads;
mod judging;
mod kept;
mod laws;
mod line;
mod numbers;
mod passing;
mod pieces;
mod plans;
mod reading;
mod row_faults;
mod row_lines;
mod row_tests;
mod rows;
mod rows_to_judge;
mod sharing;
mod stated;
mod words;

pub use checker::check;
pub use fault::{CertificateFault, CheckError, Claim, Verdict};
pub use feeds::piece_for;
pub use heads::stated_choice;
pub use laws::{
    bounds_are_least, cases_are_refused, cut_certificates_are_refused, read_as_spelled,
    refusals_have_their_case, stated_choices_suit, texts_have_one_spelling,
};
pub use pieces::check_pieces;
