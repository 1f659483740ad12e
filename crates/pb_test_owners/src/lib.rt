//! Tests of whole searches by owners, each owner in a thread of its own.
#![tactic(auto)]

#[cfg(test)]
mod gates;
#[cfg(test)]
mod samples;
#[cfg(test)]
mod searches;
