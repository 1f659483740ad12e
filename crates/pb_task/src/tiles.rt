//! Sliding tiles: boards as states, and the steps that move the blank.
ghost use Rattle.std.specs.Prelude.{◌≡◌, ◌+◌, ◌*◌, ◌/◌, ◌%◌, ◌<◌, ◌≤◌, ◌^◌, ◌==◌, true, IsTrue, IfSome, Some, length, take, swap, nat_lt, vec_capacity};
ghost use Rattle.std.specs.List.{list_all};
ghost use Rattle.pb_task.specs.Tiles.{IsTiles, cell_count, are_distinct, is_board, board_state, board_of, is_board_state, cell_on, neighbour, blank_of, slide_on, tiles_step, tiles_space};
ghost use Rattle.pb_task.specs.Grid.{cell_beside};
ghost use Rattle.pb_model.specs.Space.{steps};

use crate::grid;
use crate::parts::TilesParts;
use crate::steps::push_step;
use pb_model::Succ;
use pb_packed::Packed;

// The greatest number of cells that a board has.
const MOST_CELLS: usize = 16;

// How many bits of a state hold the number in a cell.
const BITS: u32 = 4;

/// The state that represents a board.
pub fn pack(board: &[u8]) -> Packed
    requires few { length board.now ≤ 16 }
    requires small { list_all (λ number. nat_lt number 16) board.now ≡ true }
    ensures { result ≡ board_state board.now }
{
    let mut word: u64 = 0;
    // The first cell is in the lowest bits, so it is put in last.
    for cell in (0..board.len()).rev() {
        word = word * 16 + u64::from(board[cell]);
    }
    Packed::of_word(word)
}

// The numbers in the first cells of a state, which has no others, from the first on.
fn unpack(word: u64, count: usize) -> [u8; MOST_CELLS]
    requires { count ≤ 16 }
    ensures { take count result ≡ board_of count word }
{
    let mut cells = [0; MOST_CELLS];
    let mut rest = word;
    for cell in 0..count {
        cells[cell] = (rest % 16) as u8;
        rest /= 16;
    }
    cells
}

/// Whether a state is a board of these tiles.
pub fn is_state(tiles: &TilesParts, state: &Packed) -> bool
    requires { IsTiles tiles.now }
    ensures { result ≡ is_board_state (cell_count tiles.now) state.now }
{
    let count = tiles.rows * tiles.cols;
    let word = state.bits(0, BITS * count);
    // A state with a bit on beyond the cells is no board.
    if Packed::of_word(word) != *state {
        return false;
    }
    let cells = unpack(word, count as usize);
    is_board(&cells[..count as usize])
}

// Whether a list has each number below its length once.
fn is_board(board: &[u8]) -> bool
    ensures { result ≡ is_board (length board.now) board.now }
{
    are_below(board, board.len()) && are_distinct(board)
}

// Whether all numbers of a list are below a bound.
fn are_below(numbers: &[u8], bound: usize) -> bool
    ensures { result ≡ list_all (λ number. nat_lt number bound) numbers.now }
{
    numbers.iter().all(|number| usize::from(*number) < bound)
}

// Whether no number is twice in a list.
fn are_distinct(numbers: &[u8]) -> bool
    ensures { result ≡ are_distinct numbers.now }
{
    for at in 0..numbers.len() {
        if numbers[at + 1..].contains(&numbers[at]) {
            return false;
        }
    }
    true
}

// The cell beside the one in a column and a row in an action's direction, if the board has one.
fn neighbour(tiles: &TilesParts, column: u32, row: u32, action: u32) -> Option<u32>
    requires tiles { IsTiles tiles.now }
    requires column { column < 16 }
    requires row { row < 16 }
    ensures { result ≡ cell_on tiles.now.rows tiles.now.cols (cell_beside column row action) }
{
    let (x, y) = grid::cell_beside(column, row, action)?;
    if x < tiles.cols && y < tiles.rows {
        Some(y * tiles.cols + x)
    } else {
        None
    }
}

impl TilesParts {
    /// The cell beside a cell in an action's direction, if the board has one. Cells are numbered
    /// row by row from 0.
    pub fn neighbour(&self, cell: u32, action: u32) -> Option<u32>
        requires tiles { IsTiles self.now }
        requires cell { cell < 16 }
        ensures cell { result ≡ neighbour self.now.rows self.now.cols cell action }
        ensures within { IfSome result (λ to. to < cell_count self.now) }
    {
        neighbour(self, cell % self.cols, cell / self.cols, action)
    }
}

// The cell that the blank of a board is in.
fn blank(board: &[u8]) -> Option<usize>
    ensures { result ≡ blank_of board.now }
{
    board.iter().position(|number| *number == 0)
}

// The step that moves the blank of a board.
fn slide(tiles: &TilesParts, board: &mut [u8], action: u32) -> Option<(Packed, u64)>
    requires tiles { IsTiles tiles.now }
    requires board { IsTrue (is_board (cell_count tiles.now) board.old) }
    ensures { result ≡ slide_on tiles.now.rows tiles.now.cols board.old action }
{
    let from = blank(board)?;
    let cell = from as u32;
    let to = neighbour(tiles, cell % tiles.cols, cell / tiles.cols, action)?;
    board.swap(from, to as usize);
    Some((pack(board), 1))
}

/// The step from a state by an action.
pub fn step(tiles: &TilesParts, from: &Packed, action: u32) -> Option<(Packed, u64)>
    requires tiles { IsTiles tiles.now }
    requires state { IsTrue (is_board_state (cell_count tiles.now) from.now) }
    ensures { result ≡ tiles_step tiles.now from.now action }
{
    let count = tiles.rows * tiles.cols;
    let mut cells = unpack(from.bits(0, BITS * count), count as usize);
    slide(tiles, &mut cells[..count as usize], action)
}

// The cell that the blank is in, in the board that a word represents.
fn blank_in(word: u64, count: u32) -> Option<u32>
    requires { count ≤ 16 }
    ensures { result ≡ blank_of (board_of count word) }
{
    let mut rest = word;
    for cell in 0..count {
        if rest % 16 == 0 {
            return Some(cell);
        }
        rest /= 16;
    }
    None
}

// The word in which the blank and the number in another cell have changed places.
fn exchanged(word: u64, count: u32, blank: u32, other: u32) -> u64
    requires count { count ≤ 16 }
    requires word { word < 16 ^ count }
    requires blank { blank_of (board_of count word) ≡ Some blank }
    requires other { other < count }
    requires fits { board_state (swap (board_of count word) blank other) < 2 ^ 64 }
    ensures { result ≡ board_state (swap (board_of count word) blank other) }
{
    // Only the contract needs the number of cells.
    let _ = count;
    let number = (word >> (BITS * other)) % 16;
    // The bits of the blank's cell are 0, so the addition puts the number there.
    word - (number << (BITS * other)) + (number << (BITS * blank))
}

// The step that moves the blank of the board that a word represents. The state is a word too.
#[inline]
fn slide_word(
    tiles: &TilesParts,
    word: u64,
    blank: u32,
    column: u32,
    row: u32,
    action: u32,
) -> Option<(u64, u64)>
    requires tiles { IsTiles tiles.now }
    requires state { IsTrue (is_board_state (cell_count tiles.now) word) }
    requires blank { blank_of (board_of (cell_count tiles.now) word) ≡ Some blank }
    requires column { column ≡ blank % tiles.now.cols }
    requires row { row ≡ blank / tiles.now.cols }
    ensures { result ≡ slide_on tiles.now.rows tiles.now.cols (board_of (cell_count tiles.now) word)
        action }
{
    let other = neighbour(tiles, column, row, action)?;
    let moved = exchanged(word, tiles.rows * tiles.cols, blank, other);
    Some((moved, 1))
}

/// Replaces the list by all successors of a state, in order of the actions. The state is read once.
pub fn successors(tiles: &TilesParts, from: &Packed, out: &mut Vec<Succ>)
    requires tiles { IsTiles tiles.now }
    requires state { IsTrue (is_board_state (cell_count tiles.now) from.now) }
    requires room { 4 ≤ vec_capacity out.old }
    ensures successors { out.new.items ≡ steps (tiles_space tiles.now) from.now }
    ensures room { vec_capacity out.old ≤ vec_capacity out.new }
{
    out.clear();
    let word = from.bits(0, 64);
    // Each board has a blank, so the list is never left empty here.
    let Some(blank) = blank_in(word, tiles.rows * tiles.cols) else {
        return;
    };
    let column = blank % tiles.cols;
    let row = blank / tiles.cols;
    for action in 0..grid::DIRECTIONS {
        let step = slide_word(tiles, word, blank, column, row, action);
        push_step(out, action, step);
    }
}

/// Whether a state represents a board.
pub fn is_at(board: &[u8], state: &Packed) -> bool
    requires few { length board.now ≤ 16 }
    requires small { list_all (λ number. nat_lt number 16) board.now ≡ true }
    ensures { result ≡ (state.now == board_state board.now) }
{
    let word = state.bits(0, 64);
    // The cells come first, since the first one that differs ends the comparison.
    has_numbers(word, board) && Packed::of_word(word) == *state
}

// Whether a word represents a board. The board is read up to the first cell that differs.
fn has_numbers(word: u64, board: &[u8]) -> bool
    requires small { list_all (λ number. nat_lt number 16) board.now ≡ true }
    ensures { result ≡ (word == board_state board.now) }
{
    let mut rest = word;
    for cell in 0..board.len() {
        if rest % 16 != u64::from(board[cell]) {
            return false;
        }
        rest /= 16;
    }
    rest == 0
}
