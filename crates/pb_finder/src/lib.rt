//! A finder of tables: sums over patterns, found by saturated cost partitioning.
//!
//! Whatever it finds is judged by `Tables::suit`. So nothing has to be proved of how it is found.
#![tactic(auto)]

mod costs;
mod effort;
mod find;
mod fitted;
mod groups;
mod images;
mod lists;
mod numbers;
mod operators;
mod orders;
mod partitioning;
mod patterns;
mod rules;
mod sample;
mod steps;
mod variables;

pub use find::find_tables;

#[cfg(test)]
mod tests;
