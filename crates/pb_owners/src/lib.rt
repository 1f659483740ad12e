//! The rounds of a hash-distributed search (Kishimoto, Fukunaga and Botea 2009). In a round all
//! owners work at once, and then all take their letters in at once. After each of the two they are
//! joined. An owner with nothing to do takes no thread of its own.
#![tactic(auto)]

mod agreeing;
mod clearing;
mod drawing;
mod forking;
mod laws;
mod meeting;
mod owners;
mod part;
mod round;
mod rounds;
mod searching;
mod seat;
mod seating;
mod store;
mod together;

pub use laws::searches_are_alike;
pub use owners::Owners;
pub use rounds::run_owners;
pub use searching::search_by_owners;
