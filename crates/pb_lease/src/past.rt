//! What a search did before its present run.

/// What earlier runs on the same rows did: each began where the one before it had ended, with
/// another weight. Both numbers are 0 in a first run.
#[derive(Debug, Clone, Copy, PartialEq, Eq)]
pub struct Past {
    /// How often the search was opened again.
    pub reopenings: u32,
    /// How many expansions the earlier runs spent of the one budget.
    pub spent: u64,
}

impl Past {
    /// What a first run has behind it.
    pub const NONE: Past = Past {
        reopenings: 0,
        spent: 0,
    };
}
