//! Tests of checking by pieces, with real threads.
#![tactic(auto)]

#[cfg(test)]
mod changes;
#[cfg(test)]
mod long;
#[cfg(test)]
mod pieces;
#[cfg(test)]
mod tables;
