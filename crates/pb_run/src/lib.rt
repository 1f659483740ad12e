//! The whole program over any shelf, sink and gate: loads the files that the words name, has their
//! task answered, saves what is to be saved, and prints.
//!
//! What is answered of loaded texts is decided in `pb_answer`, and of `make` by `pb_made`. `run`
//! carries the headline as its contract.
#![tactic(auto)]

mod answer;
mod asked;
mod claims;
mod laws;
mod laws_falling;
mod lend;
mod load;
mod make;
mod memory;
mod output;
mod start;
mod top;

pub use laws::saved_certificates_are_accepted;
pub use memory::run_in_memory;
pub use pb_strips::{Looks, MOST_LOOKS};
pub use start::{report_unread_words, words_of};
pub use top::run;
