//! Whole searches by owners, and what the tests see of them.
ghost use Rattle.std.specs.Prelude.{◌≤◌};
ghost use Rattle.pb_machine.specs.Settings.{AreInRange};

use pb_estimate::Choice;
use pb_lists::Store;
use pb_machine::{End, STANDARD, Settings};
use pb_outside::Gate;
use pb_owners::search_by_owners;
use pb_task::{Board, Cells, Class, GridParts, Swamp, Task, TilesParts};
use std::alloc::{AllocError, Global};
use std::sync::{Arc, Wait};
use std::thread::Threads;

// So many owners, with this budget and lot.
pub(crate) fn settings_of(workers: u32, budget: u64, lot: u64) -> Settings
    requires { (1 ≤ workers) × (workers ≤ 64) }
    ensures { AreInRange result }
{
    Settings {
        workers,
        budget: budget.max(1).min(1 << 40),
        lot: lot.max(1).min(1 << 20),
        ..STANDARD
    }
}

// How a search ended, its incumbent, and how many rows were expanded.
#[derive(Clone, Copy, PartialEq, Eq, Debug)]
pub(crate) struct Seen {
    pub(crate) end: End,
    pub(crate) incumbent: Option<u64>,
    pub(crate) spent: u64,
}

pub(crate) fn search_task<R: Threads + Wait + Sync, G: Gate>(
    rt: &R,
    alloc: Global,
    task: Task,
    settings: Settings,
    gate: &G,
) -> Result<Seen, AllocError>
    requires { AreInRange settings }
{
    let task = Arc::new(alloc, task)?;
    let (end, owners) = search_by_owners(rt, alloc, &task, Choice::plain(), settings, gate)?;
    Ok(Seen {
        end,
        incumbent: owners.incumbent(),
        spent: owners.spent(),
    })
}

// A board of 3 by 3 cells whose cheapest plans cost 20.
pub(crate) fn far_board(alloc: Global) -> Result<Task, AllocError> {
    let task = Task::of_tiles(TilesParts {
        rows: 3,
        cols: 3,
        start: Board::of(vec![in alloc; 6, 3, 8, 5, 0, 4, 7, 2, 1]?),
        goal: Board::of(vec![in alloc; 0, 1, 2, 3, 4, 5, 6, 7, 8]?),
    });
    Ok(task)
}

// A map of three cells of land, one below the other, from the middle to the last one. Each cell is
// a block, and with three owners each of these has one.
pub(crate) fn three_cells(alloc: Global) -> Result<Task, AllocError> {
    let land = Class::Land;
    let task = Task::of_grid(GridParts {
        width: 1,
        height: 3,
        cells: Cells::of(vec![in alloc; land, land, land]?),
        swamp: Swamp::of(vec![in alloc; false; 3]?),
        start: (0, 1),
        goal: (0, 2),
    });
    Ok(task)
}
