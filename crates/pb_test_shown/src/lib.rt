//! Tests of plans, certificates, journals and reports: what no row of the program shows.
#![tactic(auto)]

#[cfg(test)]
mod halves;
#[cfg(test)]
mod journals;
#[cfg(test)]
mod reports;
#[cfg(test)]
mod saved;
