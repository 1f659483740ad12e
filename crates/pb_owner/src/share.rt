//! What one owner has: its rows and its copy of the incumbent.

use pb_lists::Bundle;

/// What one owner has: the rows of its states, and its own copy of the incumbent.
#[derive(Drop)]
pub struct Share {
    pub bundle: Bundle,
    pub incumbent: Option<u64>,
}
