//! Tests of command lines: the command that the words are, or what is wrong with them.
#![tactic(auto)]

#[cfg(test)]
mod solve_words;
#[cfg(test)]
mod words;
