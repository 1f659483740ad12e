//! Letters between the owners of a hash-distributed search (Kishimoto, Fukunaga and Botea 2009):
//! offers of states that another owner has.
//!
//! Each owner has a queue, which all owners may put letters into and it alone takes letters from.
//! Each carries a pass, which knows what its owner sent to each other one and what it took. Once all
//! passes have met in the first one, it knows of each pair of owners what the one sent and the other
//! took.
#![tactic(auto)]

mod bounds;
mod calls;
mod letter;
mod lifecycle;
mod pass;
mod post;
mod queue;
mod rule;
mod view;

pub use letter::{Letter, Sent};
pub use pass::PostPass;
pub use post::Post;
pub use rule::LetterRule;
pub use view::View;
