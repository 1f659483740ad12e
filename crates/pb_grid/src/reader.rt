//! The grid of a map and of the chosen row of a scenario.
ghost use Rattle.std.specs.Prelude.{◌≡◌, ◌≢◌, IfOk, IfErr, Ok, Err};
ghost use Rattle.pb_task.specs.declared.parts.GridParts.{GridParts};
ghost use Rattle.pb_task.specs.declared.parts.TaskParts.TheVariants.{Grid};
ghost use Rattle.pb_grid.specs.declared.error.GridError.{GridError};
ghost use Rattle.pb_grid.specs.declared.error.GridError.TheVariants.{Memory};
ghost use Rattle.pb_grid.specs.Cases.{IsCaseOf};
ghost use Rattle.pb_grid.specs.Form.{SpellsGrid};
ghost use Rattle.pb_grid.specs.Reading.{Gives, grid_reading, grid_of_parts, is_on_map, is_free, task_of};

use crate::error::GridError;
use crate::map::{MapParts, read_map};
use crate::scenario::{ScenarioParts, read_scenario};
use pb_task::{Class, GridParts, Swamp, Task};
use std::alloc::Global;

// Whether a cell lies on a map of this size.
fn is_on_map(width: u32, height: u32, cell: (u32, u32)) -> bool
    ensures { result ≡ is_on_map width height cell }
{
    cell.0 < width && cell.1 < height
}

// Whether a cell is land or water.
fn is_free(grid: &GridParts, cell: (u32, u32)) -> bool
    ensures { result ≡ is_free grid.now cell }
{
    match grid.class_at(cell.0, cell.1) {
        Class::Land | Class::Water => true,
        Class::Blocked => false,
    }
}

// The grid of a map, its swamp and a scenario.
#[tactic(auto, unfolding(crate::specs::Reading::grid_of_parts))]
fn grid_of_parts(
    map: MapParts,
    swamp: Swamp,
    scenario: ScenarioParts,
) -> Result<GridParts, GridError>
    ensures { Gives (λ x. x) result (grid_of_parts map swamp scenario) }
{
    // The tests are in the order of `GridError`, whose first name that fits is reported.
    if scenario.width != map.width || scenario.height != map.height {
        return Err(GridError::ScenarioSize);
    }
    if !(is_on_map(map.width, map.height, scenario.start)
        && is_on_map(map.width, map.height, scenario.goal))
    {
        return Err(GridError::Outside);
    }
    let grid = GridParts {
        width: map.width,
        height: map.height,
        cells: map.cells,
        swamp,
        start: scenario.start,
        goal: scenario.goal,
    };
    if !is_free(&grid, grid.start) {
        return Err(GridError::StartBlocked);
    }
    if !is_free(&grid, grid.goal) {
        return Err(GridError::GoalBlocked);
    }
    Ok(grid)
}

#[tactic(auto, unfolding(crate::specs::Reading::grid_reading))]
fn parts_of_texts(
    alloc: Global,
    map: &[u8],
    scenario: &[u8],
    row: u64,
    swamp: bool,
) -> Result<GridParts, GridError>
    ensures { Gives (λ x. x) result (grid_reading map.now scenario.now row swamp) }
{
    // The whole map is judged before the scenario, so its refusals come first.
    let (parts, marks) = read_map(alloc, map, swamp)?;
    let chosen = read_scenario(scenario, row)?;
    grid_of_parts(parts, marks, chosen)
}

/// Reads the grid that the texts of a map and of a scenario spell, and reports the first refusal if
/// they spell none. `row` is the chosen row of the scenario, counted from 0. With `swamp` a cell
/// whose byte is `S` costs 2 to enter, and without it 1, as each other cell does. The memory that
/// it reserves grows with the bytes of the map that it has read.
pub fn read_grid(
    alloc: Global,
    map: &[u8],
    scenario: &[u8],
    row: u64,
    swamp: bool,
) -> Result<Task, GridError>
    // Which grid or refusal it is, unless memory ran out.
    ensures exact { Gives (λ task. task) result
        (task_of (grid_reading map.now scenario.now row swamp)) }
    // What is read is a grid that the texts spell.
    ensures spelled { IfOk result (λ task. (grid : GridParts) × (task ≡ Grid grid)
        × SpellsGrid map.now scenario.now row swamp grid) }
    // A grid that the texts spell is read, unless memory ran out.
    ensures only { (grid : GridParts) → SpellsGrid map.now scenario.now row swamp grid
        → Gives (λ task. task) result (Ok (Grid grid)) }
    // A refusal comes only in its case: all that is judged before is well-formed, and then comes
    // the fault.
    ensures refused { IfErr result (λ error. error ≢ Memory
        → IsCaseOf map.now scenario.now row error) }
    // In its case a refusal is reported, unless memory ran out.
    ensures told { (error : GridError) → IsCaseOf map.now scenario.now row error
        → Gives (λ task. task) result (Err error) }
{
    let grid = parts_of_texts(alloc, map, scenario, row, swamp)?;
    Ok(Task::of_grid(grid))
}
