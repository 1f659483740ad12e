//! Sliding tiles from the numbers of a text: its size, its start and its goal.
ghost use Rattle.std.specs.Prelude.{◌≡◌, ◌≢◌, ◌≤◌, Ok, Err, IfOk, IfErr, MatchResult};
ghost use Rattle.pb_task.specs.Tiles.{IsTiles};
ghost use Rattle.pb_task.specs.declared.parts.TilesParts.{TilesParts};
ghost use Rattle.pb_task.specs.declared.parts.TaskParts.TheVariants.{Tiles};
ghost use Rattle.pb_tiles.specs.Reading.{is_side, count_fault, boards_fault, boards_reading, reading, tiles_reading};
ghost use Rattle.pb_tiles.specs.Spelling.{SpellsTiles};
ghost use Rattle.pb_tiles.specs.Cases.{IsCaseOf};
ghost use Rattle.pb_tiles.specs.declared.error.TilesError.{TilesError};
ghost use Rattle.pb_tiles.specs.declared.error.TilesError.TheVariants.{Memory};

use crate::boards::{board_fault, board_of, usual_goal};
use crate::error::TilesError;
use crate::said::Numbers;
use crate::words::read_words;
use pb_task::{Task, TilesParts};
use std::alloc::Global;

/// Reads the tiles that a text spells. What it reserves grows with the bytes that it reads.
pub fn read_tiles(alloc: Global, text: &[u8]) -> Result<Task, TilesError>
    ensures exact { IfOk result (λ task. (tiles : TilesParts) × (task ≡ Tiles tiles)
        × (tiles_reading text.now ≡ Ok tiles)) }
    ensures spelled { IfOk result (λ task. (tiles : TilesParts) × (task ≡ Tiles tiles)
        × SpellsTiles text.now tiles) }
    ensures only { (tiles : TilesParts) → SpellsTiles text.now tiles
        → MatchResult result (λ task. task ≡ Tiles tiles) (λ e. e ≡ Memory) }
    ensures refused { IfErr result (λ e. e ≢ Memory → tiles_reading text.now ≡ Err e) }
    // A refusal comes only in its case: all that is judged before is well-formed, and then comes
    // the fault.
    ensures due { IfErr result (λ e. e ≢ Memory → IsCaseOf text.now e) }
    // In its case a refusal is reported, unless memory ran out.
    ensures told { (error : TilesError) → IsCaseOf text.now error
        → MatchResult result (λ _. ⊥) (λ e. e ≢ Memory → e ≡ error) }
{
    match tiles_in(alloc, text) {
        Ok(parts) => Ok(Task::of_tiles(parts)),
        Err(error) => Err(error),
    }
}

// The tiles that a text is read as.
fn tiles_in(alloc: Global, text: &[u8]) -> Result<TilesParts, TilesError>
    ensures read { IfOk result (λ tiles. tiles_reading text.now ≡ Ok tiles) }
    ensures refused { IfErr result (λ e. e ≢ Memory → tiles_reading text.now ≡ Err e) }
    ensures lawful { IfOk result IsTiles }
{
    let numbers = read_words(alloc, text)?;
    tiles_of(alloc, &numbers)
}

// The tiles that numbers say.
fn tiles_of(alloc: Global, numbers: &Numbers) -> Result<TilesParts, TilesError>
    ensures said { IfOk result (λ tiles. reading numbers.now ≡ Ok tiles) }
    ensures refused { IfErr result (λ e. e ≢ Memory → reading numbers.now ≡ Err e) }
    ensures lawful { IfOk result IsTiles }
{
    match numbers.before() {
        [] => Err(TilesError::Count { seen: 0, wanted: 2 }),
        [_rows] => Err(TilesError::Count { seen: 1, wanted: 2 }),
        [rows, cols, start @ ..] => {
            if !is_side(*rows) || !is_side(*cols) {
                return Err(TilesError::Size);
            }
            if numbers.has_goal() {
                boards(alloc, *rows, *cols, start, numbers.behind())
            } else {
                // It is judged like a written goal, and never has a fault.
                // So the order of refusals is one.
                let goal = usual_goal(alloc, *rows * *cols)?;
                boards(alloc, *rows, *cols, start, goal.as_slice())
            }
        }
    }
}

// Whether a board may have so many rows or columns.
fn is_side(cells: u32) -> bool
    ensures { result ≡ is_side cells }
{
    2 <= cells && cells <= 4
}

// The tiles of a start and a goal.
fn boards(
    alloc: Global,
    rows: u32,
    cols: u32,
    start: &[u32],
    goal: &[u32],
) -> Result<TilesParts, TilesError>
    requires rows { (2 ≤ rows) × (rows ≤ 4) }
    requires cols { (2 ≤ cols) × (cols ≤ 4) }
    ensures said { IfOk result (λ tiles. boards_reading rows cols start.now goal.now ≡ Ok tiles) }
    ensures refused { IfErr result (λ e. e ≢ Memory → boards_reading rows cols start.now goal.now
        ≡ Err e) }
    ensures lawful { IfOk result IsTiles }
{
    if let Some(fault) = boards_fault(rows * cols, start, goal) {
        return Err(fault);
    }
    let start = board_of(alloc, start)?;
    let goal = board_of(alloc, goal)?;
    Ok(TilesParts {
        rows,
        cols,
        start,
        goal,
    })
}

// The first fault of a start and a goal, if there is one.
fn boards_fault(count: u32, start: &[u32], goal: &[u32]) -> Option<TilesError>
    requires { count ≤ 16 }
    ensures { result ≡ boards_fault count start.now goal.now }
{
    if let Some(fault) = count_fault(count, start) {
        return Some(fault);
    }
    if let Some(fault) = count_fault(count, goal) {
        return Some(fault);
    }
    // The numbers of rows and of columns are the first two of the text.
    if let Some(fault) = board_fault(count, 2, start) {
        return Some(fault);
    }
    board_fault(count, 2 + u64::from(count), goal)
}

// Whether a board has as many numbers as are wanted.
fn count_fault(count: u32, board: &[u32]) -> Option<TilesError>
    ensures { result ≡ count_fault count board.now }
{
    let seen = board.len() as u64;
    let wanted = u64::from(count);
    if seen == wanted {
        None
    } else {
        Some(TilesError::Count { seen, wanted })
    }
}
