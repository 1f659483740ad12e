//! State spaces, the rows of a search and the work on them, certificates, and their laws.
//!
//! The definitions are in `specs`. Each law is the contract of a function without a body, whose
//! name says it.
#![tactic(auto)]

mod key;
mod laws;
mod row;

pub use key::Key;
pub use laws::{
    best_keys_are_unique, bounds_hold, costs_grow_by_work, costs_never_rise, first_rows_are_best,
    first_rows_are_unique, goals_are_plans, incumbents_are_backed, incumbents_are_shown,
    incumbents_never_rise, quiet_incumbents_hold, quiet_is_best, quiet_stores_certify,
    rows_are_traced, steps_are_successors, traces_are_walks, valid_certificates_hold,
    walks_are_determined, weights_stay, work_by_rows, work_goes_on, work_in_one_part,
    work_is_local, work_keeps_sound,
};
pub use row::{Estimate, Row, Status, Succ};
