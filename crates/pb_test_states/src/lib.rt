//! Tests of packed states, of rows and texts over them, and of the outside: files, output and the
//! gate.
#![tactic(auto)]

#[cfg(test)]
mod again;
#[cfg(test)]
mod lists;
#[cfg(test)]
mod outside;
#[cfg(test)]
mod packed;
#[cfg(test)]
mod print;
#[cfg(test)]
mod widths;
