//! Why a text is not read as sliding tiles.
ghost use Rattle.std.specs.Prelude.{◌≡◌};
ghost use Rattle.pb_tiles.specs.declared.error.TilesError.TheVariants.{Memory};

use std::alloc::{AllocError, AllocFailed};

/// Why a text was not read as sliding tiles.
#[derive(Clone, Copy, PartialEq, Eq)]
pub enum TilesError {
    /// This line, counted from 1, has a word that is neither a number nor the first `goal` after at
    /// least two numbers.
    Syntax { line: u64 },
    /// The board doesn't have 2 to 4 rows and 2 to 4 columns.
    Size,
    /// There are not as many numbers as are wanted: of rows and columns, of the board, or of the
    /// goal.
    Count { seen: u64, wanted: u64 },
    /// A number is too great for the board: the one at this place, counted from 0, among all
    /// numbers of the text.
    Number { at: u64 },
    /// This number came before in the same board.
    Twice { number: u64 },
    /// Out of memory.
    Memory,
}

impl From<AllocError> for TilesError {
    ghost from_gives = { λ _ e. e ≡ Memory };

    fn from(_: AllocError) -> Self {
        TilesError::Memory
    }
}

impl<T: Drop> From<AllocFailed<T>> for TilesError {
    ghost from_gives = { λ _ e. e ≡ Memory };

    fn from(_: AllocFailed<T>) -> Self {
        TilesError::Memory
    }
}
