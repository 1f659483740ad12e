//! The settings of a search, with their ranges and standard values.

/// The settings of a search.
#[derive(Clone, Copy, PartialEq, Eq)]
pub struct Settings {
    /// How many workers there are: 1 to 64.
    pub workers: u32,
    /// The weight of the search is `num / den` (Pohl, 1970), with 1 <= den <= num <= 1000.
    pub num: u64,
    /// See `num`.
    pub den: u64,
    /// How many expansions the search may make: 1 to 2^40.
    pub budget: u64,
    /// How many expansions a lease may make at most before it is renewed: 1 to 2^20.
    pub lot: u64,
    /// How many blocks are wished for: 16 to 4,096.
    pub wish: u32,
    /// Whether no block is ever marked hot.
    pub plain: bool,
    /// The number of the pattern database (Culberson and Schaeffer, 1998): 1 to 12, or 0 for none.
    pub pattern: u32,
}

/// The settings of a search of which nothing is asked: one worker, the weight 1 and no pattern
/// database.
pub const STANDARD: Settings = Settings {
    workers: 1,
    num: 1,
    den: 1,
    budget: 16_777_216,
    lot: 256,
    wish: 256,
    plain: false,
    pattern: 0,
};
