//! Tests of whole runs that a gate watches or holds, and of words that can't be read.
#![tactic(auto)]

#[cfg(test)]
mod corridor;
#[cfg(test)]
mod held;
#[cfg(test)]
mod kept;
#[cfg(test)]
mod leased;
#[cfg(test)]
mod unread;
#[cfg(test)]
mod waiting;
