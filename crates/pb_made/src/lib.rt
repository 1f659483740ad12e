//! A task made of a seed and a size. Its texts are made and read, it is solved, and its certificate
//! is written and checked. Only then the program says what came out.
#![tactic(auto)]

mod answer;
mod certified;
mod made_task;
mod solving;

pub use answer::MadeAnswer;
pub use solving::solve_made;
