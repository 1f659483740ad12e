//! The owners of a hash-distributed search (Kishimoto, Fukunaga and Botea 2009): what each of them
//! does in its own thread in a round. It expands its own rows and sends letters, and only then it
//! takes letters in.
#![tactic(auto)]

mod expanding;
mod plan;
mod settling;
mod share;
mod taking;
mod working;

pub use plan::{Plan, Round};
pub use share::Share;
pub use taking::{take_in, take_left};
pub use working::{WorkEnd, work};
