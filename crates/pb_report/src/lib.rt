//! The texts that the program prints, each made in memory before a byte of it is written.
#![tactic(auto)]

mod pieces;
mod report;
mod words;

pub use report::Report;
