//! The projections: how the states of a task are mapped to blocks.

use crate::tracked::TrackedAtoms;

/// How the states of a task are mapped to blocks.
#[derive(Clone, Copy)]
pub enum Projection {
    /// On a grid: by the square of cells that the state's cell lies in.
    Squares {
        /// How many cells a side of a square has.
        side: u32,
        /// How many squares are side by side.
        columns: u32,
    },
    /// For tiles: by the blank's cell.
    Blank,
    /// For tiles: by the cells of the blank and the tile 1.
    BlankAndOne,
    /// For tiles: by the cells of the blank and the tiles 1 and 2.
    BlankAndTwo,
    /// For STRIPS: by which of these atoms hold.
    Atoms(TrackedAtoms),
}
