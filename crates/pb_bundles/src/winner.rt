//! A block with its key.
use pb_model::Key;

/// A block, and the key of its first Opened row when last noted.
#[derive(Clone, Copy)]
pub struct Winner {
    pub key: Option<Key>,
    pub block: u32,
}
