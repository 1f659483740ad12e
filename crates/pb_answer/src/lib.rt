//! What is answered of a command and of the texts that were loaded of its files: of `solve`, `check`
//! and `journal`. The input is read, the task is searched or its certificate or journal judged, and
//! report, certificate and journal are made. It reads no file and prints nothing.
#![tactic(auto)]

mod answer;
mod begin;
mod check;
mod checking;
mod choosing;
mod ended;
mod falling;
mod input;
mod journal;
mod kept;
mod laws;
mod leases;
mod owners;
mod solve;
mod status;
mod store;
mod tables;
mod texts;

pub use answer::{
    Answer, CertificateText, SavedCertificate, SavedJournal, answer_check, answer_journal,
    answer_solve,
};
pub use begin::{FallingBegin, begin_falling};
pub use falling::FallingSearch;
pub use kept::claimed_plan;
pub use laws::{groundings_are_as_asked, long_files_are_refused};
pub use status::Status;
pub use store::SearchedStore;
pub use texts::Texts;
