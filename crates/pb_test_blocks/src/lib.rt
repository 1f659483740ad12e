//! Tests of estimates and blocks: distances and the costs of atoms, the abstract graphs of maps,
//! boards and sets of atoms, and the bundles of rows by block.
#![tactic(auto)]

#[cfg(test)]
mod atom_costs;
#[cfg(test)]
mod atoms;
#[cfg(test)]
mod bundles;
#[cfg(test)]
mod distances;
#[cfg(test)]
mod graphs;
