//! Lists on the heap, which contracts see as lists.
#![tactic(auto)]

mod listed;

pub use listed::Listed;
