//! The cells of the blank and of two tiles, by which boards are mapped to blocks.

/// The cells of a board that the blank and the tiles 1 and 2 are in.
#[derive(Clone, Copy)]
pub struct Placing {
    /// The blank's cell.
    pub blank: u32,
    /// The cell of the tile 1.
    pub first: u32,
    /// The cell of the tile 2.
    pub second: u32,
}
