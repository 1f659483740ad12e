//! The plan and the certificate of a search that came to its end.
#![tactic(auto)]

mod certificate;
mod goal;
mod laws;
mod lines;
mod plan;
mod rewriting;
mod rows;
mod saving;
mod tracing;

pub use certificate::Certificate;
pub use laws::{
    lines_are_unique, rewritten_texts_are_accepted, shown_rows_can_be_traced, sound_rows_are_placed,
};
pub use plan::Plan;
pub use rewriting::{Rewriting, rewrite_to};
pub use tracing::trace;
