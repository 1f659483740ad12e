//! Why the texts of a map and a scenario are refused.
ghost use Rattle.std.specs.Prelude.{◌≡◌};
ghost use Rattle.pb_grid.specs.declared.error.GridError.TheVariants.{Memory};

use std::alloc::{AllocError, AllocFailed};

/// Why two texts were not read as a grid. Lines and columns are counted from 1, rows of a scenario
/// from 0. If several of these fit, the first in the order of these names is reported, but a map's
/// rows are judged line by line.
#[derive(Clone, Copy, PartialEq, Eq)]
pub enum GridError {
    /// This line of the map, one of its first four, is missing or does not say what it must.
    Header { line: u64 },
    /// The map's height or width is not 1 to 2,048.
    Size,
    /// This line of the map must be a row of as many bytes as the map is wide, but is no such row
    /// or is missing. Or the line lies below the last row and is not blank.
    Rows { line: u64 },
    /// The byte in this column of a row of the map represents no cell.
    Cell { line: u64, col: u64 },
    /// This line of the scenario is malformed: the first line does not begin with `version`, or the
    /// chosen row does not have nine words or more with six numbers in their places.
    Scenario { line: u64 },
    /// The scenario has only `rows` rows, and the number of the chosen row is not below that.
    NoRow { row: u64, rows: u64 },
    /// The row's width or height is not the map's.
    ScenarioSize,
    /// The start or the goal does not lie on the map.
    Outside,
    /// The start is a blocked cell.
    StartBlocked,
    /// The goal is a blocked cell.
    GoalBlocked,
    /// Out of memory.
    Memory,
}

impl From<AllocError> for GridError {
    ghost from_gives = { λ _ e. e ≡ Memory };

    fn from(_: AllocError) -> Self {
        GridError::Memory
    }
}

impl<T: Drop> From<AllocFailed<T>> for GridError {
    ghost from_gives = { λ _ e. e ≡ Memory };

    fn from(_: AllocFailed<T>) -> Self {
        GridError::Memory
    }
}
