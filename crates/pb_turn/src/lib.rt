//! A lock that hands a state on by moves.
//!
//! Each thread carries a pass. One pass at a time holds the turn. Its holder has the state itself,
//! which the last holder left, and puts it back when it leaves. Beside the state there is a number,
//! which every pass may read and lower at any time. What a pass knows is its view: plain data that
//! exists in proofs alone.
//!
//! A rule of the caller's ties the state and the number to the views of all passes, and holds
//! between any two steps. These callers show that the rule stays: one that leaves with another
//! state or view, reads or lowers the number, splits a pass, or lets one meet another.
#![tactic(auto)]

mod bounds;
mod held;
mod lifecycle;
mod lock;
mod number;
mod pass;
mod plays;
mod rule;
mod steps;
mod table_rule;
mod turn;

pub use lock::TurnLock;
pub use pass::{Held, Pass};
pub use rule::{Leaving, TurnRule};
