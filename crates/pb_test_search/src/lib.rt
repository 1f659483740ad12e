//! Tests of the search: the turn, the lease graph, the yard that workers share, and whole searches by
//! one worker and by several.
#![tactic(auto)]

#[cfg(test)]
mod counting;
#[cfg(test)]
mod falling;
#[cfg(test)]
mod gates;
#[cfg(test)]
mod graphs;
#[cfg(test)]
mod lowering;
#[cfg(test)]
mod patterns;
#[cfg(test)]
mod samples;
#[cfg(test)]
mod searches;
#[cfg(test)]
mod tables;
#[cfg(test)]
mod waiting;
#[cfg(test)]
mod watched;
#[cfg(test)]
mod workers;
