//! Tasks of each kind by their texts: their parts, states and steps.
use crate::lines::Lines;
use crate::moves::{add_applied, add_state, add_steps, add_walk};
use crate::trees::trees_of;
use pb_grid::{GridError, read_grid};
use pb_outside::Memory;
use pb_packed::Packed;
use pb_report::Report;
use pb_strips::{Looks, StripsError, ground_with};
use pb_task::{Grounding, Task, TaskParts};
use pb_tiles::{TilesError, read_tiles};
use std::alloc::Global;

fn strips_of(
    alloc: Global,
    grounding: Grounding,
    domain: &[u8],
    problem: &[u8],
) -> Result<Option<Task>, Memory> {
    let Some((domain, problem)) = trees_of(alloc, domain, problem)? else {
        return Ok(None);
    };
    match ground_with(alloc, grounding, &domain, &problem, &mut Looks::endless()) {
        Ok(task) => Ok(Some(task)),
        Err(StripsError::Memory) => Err(Memory),
        Err(_) => Ok(None),
    }
}

fn grid_of(alloc: Global, map: &[u8], row: &[u8], swamp: bool) -> Result<Option<Task>, Memory> {
    match read_grid(alloc, map, row, 0, swamp) {
        Ok(task) => Ok(Some(task)),
        Err(GridError::Memory) => Err(Memory),
        Err(_) => Ok(None),
    }
}

fn tiles_of(alloc: Global, board: &[u8]) -> Result<Option<Task>, Memory> {
    match read_tiles(alloc, board) {
        Ok(task) => Ok(Some(task)),
        Err(TilesError::Memory) => Err(Memory),
        Err(_) => Ok(None),
    }
}

/// The task that two texts spell, if they do. The first alone spells a board.
pub(crate) fn task_of(
    alloc: Global,
    kind: &str,
    first: &[u8],
    second: &[u8],
) -> Result<Option<Task>, Memory> {
    match kind {
        "grid" => grid_of(alloc, first, second, false),
        "swamp" => grid_of(alloc, first, second, true),
        "tiles" => tiles_of(alloc, first),
        "reachable" => strips_of(alloc, Grounding::Reachable, first, second),
        _ => strips_of(alloc, Grounding::All, first, second),
    }
}

/// Numbers, up to the first word that isn't one.
pub(crate) fn numbers_of(alloc: Global, words: &[String]) -> Result<Vec<u32>, Memory> {
    let mut numbers = Vec::new(alloc);
    for word in words {
        let Ok(number) = word.as_str().parse::<u32>() else {
            return Ok(numbers);
        };
        numbers.push(number)?;
    }
    Ok(numbers)
}

// What a task is made of: of a map its sizes, start and goal, and the cells 8 and 9; of a board its
// sizes and both boards; of ground actions how many atoms there are, whether the goal never holds,
// how many actions there are, and the last one's name.
fn parts_text(alloc: Global, parts: &TaskParts) -> Result<String, Memory> {
    let text = match parts {
        TaskParts::Grid(grid) => {
            let (width, height) = (grid.width, grid.height);
            let (from, to) = (grid.start, grid.goal);
            let (last, none) = (grid.cells.get(8), grid.cells.get(9));
            format!(in alloc; "grid {width} {height} {from:?} {to:?} {last:?} {none:?}\n")
        }
        TaskParts::Tiles(tiles) => {
            let (start, goal) = (tiles.start.numbers(), tiles.goal.numbers());
            format!(in alloc; "tiles {} {} {start:?} {goal:?}\n", tiles.rows, tiles.cols)
        }
        TaskParts::Strips(strips) => {
            let count = strips.actions.len();
            let last = if count == 0 {
                ""
            } else {
                strips.actions.name(count - 1)
            };
            let (atoms, never) = (strips.atoms, strips.never);
            format!(in alloc; "strips {atoms} {never} {count} {last}\n")
        }
    };
    Ok(text?)
}

fn add_parts(alloc: Global, lines: &mut Lines, task: &Task) -> Result<(), Memory> {
    let text = parts_text(alloc, task.parts())?;
    lines.first(text.as_str())?;
    add_state(lines, &task.initial())?;
    lines.end()
}

/// The parts of the grid of a scenario's row, or why there is none.
pub(crate) fn row_line(
    alloc: Global,
    map: &[u8],
    scenario: &[u8],
    words: &[String],
) -> Result<Option<Lines>, Memory> {
    let Some(word) = words.first() else {
        return Ok(None);
    };
    let Ok(row) = word.as_str().parse::<u64>() else {
        return Ok(None);
    };
    let mut lines = Lines::new(alloc);
    match read_grid(alloc, map, scenario, row, false) {
        Ok(task) => add_parts(alloc, &mut lines, &task)?,
        Err(error) => {
            let report = Report::of_grid_error(alloc, &error)?;
            lines.bytes(report.as_slice())?;
        }
    }
    Ok(Some(lines))
}

// The class of a cell, and whether it is swamp.
fn add_cell(alloc: Global, lines: &mut Lines, task: &Task, cell: &[u32]) -> Result<(), Memory> {
    match (task.parts(), cell) {
        (TaskParts::Grid(grid), [x, y]) => {
            let (class, swamp) = (grid.class_at(*x, *y), grid.is_swamp(*x, *y));
            let text = format!(in alloc; "{class:?} {swamp}\n")?;
            lines.first(text.as_str())
        }
        _ => Ok(()),
    }
}

// Only values that threads may share and hand on are taken.
fn crosses_threads<T: Send + Sync>(value: &T) -> &T {
    value
}

// How many actions there are, how many successors a state has at most, and what the actions are
// called.
fn add_actions(alloc: Global, lines: &mut Lines, task: &Task) -> Result<(), Memory> {
    let degree = crosses_threads(task).max_degree();
    let text = format!(in alloc; "{} {degree}", task.actions())?;
    lines.first(text.as_str())?;
    for action in 0..task.actions() {
        let name = task.action_text(alloc, action)?;
        lines.word(name.as_str())?;
    }
    lines.end()
}

// The state that a word's hexadecimal digits spell.
fn state_of(words: &[String]) -> Option<Packed> {
    let word = words.first()?;
    Packed::of_hex(word.as_str().as_bytes())
}

/// What is printed of a task: its parts, its actions, a cell, or what is asked of a state.
pub(crate) fn task_line(
    alloc: Global,
    task: &Task,
    question: &str,
    words: &[String],
) -> Result<Option<Lines>, Memory> {
    let mut lines = Lines::new(alloc);
    let numbers = numbers_of(alloc, words)?;
    match question {
        "parts" => add_parts(alloc, &mut lines, task)?,
        "actions" => add_actions(alloc, &mut lines, task)?,
        "cell" => add_cell(alloc, &mut lines, task, numbers.as_slice())?,
        "walk" => add_walk(alloc, &mut lines, task, numbers.as_slice())?,
        _ => match state_of(words) {
            Some(state) => add_of_state(alloc, &mut lines, task, question, &state, words)?,
            None => return Ok(None),
        },
    }
    Ok(Some(lines))
}

// Whether a state is one and whether it is a goal, its successors, or where one action leads.
fn add_of_state(
    alloc: Global,
    lines: &mut Lines,
    task: &Task,
    question: &str,
    state: &Packed,
    words: &[String],
) -> Result<(), Memory> {
    match question {
        "steps" => add_steps(alloc, lines, task, state),
        "apply" => {
            let actions = numbers_of(alloc, words.get(1..).unwrap_or(&[]))?;
            add_applied(alloc, lines, task, state, actions.as_slice())
        }
        _ => {
            let (is_state, is_goal) = (task.is_state(state), task.is_goal(state));
            let text = format!(in alloc; "state {is_state} goal {is_goal}\n")?;
            lines.first(text.as_str())
        }
    }
}
