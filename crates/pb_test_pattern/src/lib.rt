//! Tests of pattern values, which were counted by hand, of estimators that look them up or
//! look up tables, and of lines that state tables.
#![tactic(auto)]

#[cfg(test)]
mod estimators;
#[cfg(test)]
mod table_lines;
#[cfg(test)]
mod tables;
#[cfg(test)]
mod values;
