//! Small maps.

use pb_task::{Cells, Class, GridParts, Swamp, Task};
use std::alloc::{AllocError, Global};

/// A map of 3 by 3 cells of land, from its upper left to its lower right cell. Its cheapest plans
/// cost 4.
pub fn open_square(alloc: Global) -> Result<Task, AllocError> {
    let land = Class::Land;
    let task = Task::of_grid(GridParts {
        width: 3,
        height: 3,
        cells: Cells::of(vec![in alloc; land, land, land, land, land, land, land, land, land]?),
        swamp: Swamp::none(9),
        start: (0, 0),
        goal: (2, 2),
    });
    Ok(task)
}

/// A map of two cells, land and water, from the one to the other. There is no plan.
pub fn shore(alloc: Global) -> Result<Task, AllocError> {
    let task = Task::of_grid(GridParts {
        width: 2,
        height: 1,
        cells: Cells::of(vec![in alloc; Class::Land, Class::Water]?),
        swamp: Swamp::none(2),
        start: (0, 0),
        goal: (1, 0),
    });
    Ok(task)
}

/// A map of two cells of water, from the left to the right one.
pub fn two_cells(alloc: Global) -> Result<Task, AllocError> {
    let task = Task::of_grid(GridParts {
        width: 2,
        height: 1,
        cells: Cells::of(vec![in alloc; Class::Water, Class::Water]?),
        swamp: Swamp::none(2),
        start: (0, 0),
        goal: (1, 0),
    });
    Ok(task)
}

/// A map of 9 by 3 cells: one cell of land in the middle of the first row, a row of walls, and a
/// row of land. The start is in the middle of the last row, and the goal is the lone cell, so there
/// is no plan.
pub fn corridor(alloc: Global) -> Result<Task, AllocError> {
    let (wall, land) = (Class::Blocked, Class::Land);
    let classes = vec![in alloc;
        wall, wall, wall, wall, land, wall, wall, wall, wall, wall, wall, wall, wall, wall, wall,
        wall, wall, wall, land, land, land, land, land, land, land, land, land,
    ]?;
    let task = Task::of_grid(GridParts {
        width: 9,
        height: 3,
        cells: Cells::of(classes),
        swamp: Swamp::none(27),
        start: (4, 2),
        goal: (4, 0),
    });
    Ok(task)
}
