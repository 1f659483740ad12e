//! Small boards of tiles.

use pb_task::{Board, Task, TilesParts};
use std::alloc::{AllocError, Global};

/// A board of 3 by 3 cells, four steps before its goal: 1 4 2 / 3 5 8 / 6 7 0. Its one cheapest
/// plan costs 4.
pub fn near_board(alloc: Global) -> Result<Task, AllocError> {
    let task = Task::of_tiles(TilesParts {
        rows: 3,
        cols: 3,
        start: Board::of(vec![in alloc; 1, 4, 2, 3, 5, 8, 6, 7, 0]?),
        goal: Board::of(vec![in alloc; 0, 1, 2, 3, 4, 5, 6, 7, 8]?),
    });
    Ok(task)
}

/// A board of 2 by 2 cells, one step before its goal: 1 0 / 2 3.
pub fn one_step_board(alloc: Global) -> Result<Task, AllocError> {
    let task = Task::of_tiles(TilesParts {
        rows: 2,
        cols: 2,
        start: Board::of(vec![in alloc; 1, 0, 2, 3]?),
        goal: Board::of(vec![in alloc; 0, 1, 2, 3]?),
    });
    Ok(task)
}

/// A board of 2 by 2 cells that is its goal.
pub fn solved_board(alloc: Global) -> Result<Task, AllocError> {
    let task = Task::of_tiles(TilesParts {
        rows: 2,
        cols: 2,
        start: Board::of(vec![in alloc; 0, 1, 2, 3]?),
        goal: Board::of(vec![in alloc; 0, 1, 2, 3]?),
    });
    Ok(task)
}

/// A board of 2 by 2 cells that never becomes its goal: 0 2 / 1 3.
pub fn other_ring(alloc: Global) -> Result<Task, AllocError> {
    let task = Task::of_tiles(TilesParts {
        rows: 2,
        cols: 2,
        start: Board::of(vec![in alloc; 0, 2, 1, 3]?),
        goal: Board::of(vec![in alloc; 0, 1, 2, 3]?),
    });
    Ok(task)
}
