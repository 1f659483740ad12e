//! The open and closed list of a part of a search: the rows of its states, and the first of those
//! that are Opened.
#![tactic(auto)]

mod any_rows;
mod bucket;
mod buckets;
mod bundle;
mod heap;
mod laws;
mod narrow_row;
mod narrow_rows;
mod reopening;
mod rows;
mod rules;
mod store;
mod wide_entries;
mod wide_rows;
mod word_entries;
mod word_entry;

pub use bundle::{Bundle, FirstRow, Offer};
pub use laws::{entries_are_rows, keys_are_ordered};
pub use reopening::OpenedSet;
pub use rules::may_be_cut;
pub use store::Store;
