//! The plain estimate of a board of tiles: the sum of the tiles' Manhattan distances.
ghost use Rattle.std.specs.Prelude.{◌≡◌, ◌<◌, ◌≤◌, ◌==◌, length, position, IfSome};
ghost use Rattle.pb_task.specs.Tiles.{IsTiles, board_of, cell_count};
ghost use Rattle.pb_estimate.specs.Estimates.{cell_with, place_of, way_home, ways_home};
ghost use Rattle.pb_estimate.specs.Tables.{AreWaysHome};

use crate::distance::manhattan;
use pb_packed::Packed;
use pb_task::TilesParts;

// How many numbers a state can have in a cell.
const NUMBERS: usize = 16;

// How many distances there are: one for each number from 0 to 15 in each cell from 0 to 15.
const WAYS: usize = 256;

/// The distance of each number in each cell from the number's cell on the goal board, in steps.
/// That of a number in a cell is at 16 times the cell, plus the number. The blank's are 0.
pub fn ways_home(tiles: &TilesParts) -> [u8; WAYS]
    requires { IsTiles tiles.now }
    ensures { AreWaysHome tiles.now.cols tiles.now.goal result }
{
    let mut ways = [0; WAYS];
    for place in 0..WAYS {
        ways[place] = way_home(tiles, (place / NUMBERS) as u32, (place % NUMBERS) as u8);
    }
    ways
}

// The distance of the tile in a cell from its cell on the goal board, in steps.
fn way_home(tiles: &TilesParts, cell: u32, number: u8) -> u8
    requires tiles { IsTiles tiles.now }
    requires cell { cell < 16 }
    ensures { result ≡ way_home tiles.now.cols tiles.now.goal cell number }
{
    if number == 0 {
        return 0;
    }
    let home = u32::from(cell_with(tiles.goal.numbers(), number));
    manhattan(place(tiles.cols, cell), place(tiles.cols, home)) as u8
}

// The cell of a board that a number is in. 0 if it is in none.
fn cell_with(board: &[u8], number: u8) -> u8
    requires { length board.now ≤ 16 }
    ensures cell { result ≡ cell_with board.now number }
    ensures small { result < 16 }
{
    match find(board, number) {
        Some(cell) => cell as u8,
        None => 0,
    }
}

// The first cell of a board that a number is in.
fn find(board: &[u8], number: u8) -> Option<usize>
    ensures cell { result ≡ position (λ other. other == number) board.now }
    ensures within { IfSome result (λ cell. cell < length board.now) }
{
    board.iter().position(|other| *other == number)
}

// The column and the row of a board's cell.
fn place(cols: u32, cell: u32) -> (u32, u32)
    requires cols { 2 ≤ cols }
    ensures place { result ≡ place_of cols cell }
{
    (cell % cols, cell / cols)
}

/// The sum of the distances of a state's tiles from their cells on the goal board, in steps. The
/// blank is not counted. `ways` has the distance of each number in each cell.
pub fn distance(tiles: &TilesParts, ways: &[u8; WAYS], state: &Packed) -> u64
    requires tiles { IsTiles tiles.now }
    requires ways { AreWaysHome tiles.now.cols tiles.now.goal ways.now }
    ensures { result ≡ ways_home tiles.now.cols tiles.now.goal
        (board_of (cell_count tiles.now) state.now) (cell_count tiles.now) }
{
    let count = (tiles.rows * tiles.cols) as usize;
    // One read for the whole board: each read looks at the state's form.
    let mut rest = state.bits(0, 64);
    let mut sum = 0;
    for cell in 0..count {
        let number = (rest % 16) as usize;
        sum += u64::from(ways[NUMBERS * cell + number]);
        rest /= 16;
    }
    sum
}
