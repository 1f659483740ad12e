//! Tests of `pb_mail`.
#![tactic(auto)]

#[cfg(test)]
mod posting;
