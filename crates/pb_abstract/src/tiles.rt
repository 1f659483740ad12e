//! The blocks of boards of tiles, and their scopes by the moves of the blank.
ghost use Rattle.std.specs.Prelude.{◌≡◌, ◌*◌, ◌+◌, ◌<◌, ◌≤◌, ◌^◌, ◌↔◌, ◌⊎◌, ℕ, [], IsTrue, IfOk, IfSome, length, slice_index, slice_index_or};
ghost use Rattle.pb_task.specs.Tiles.{IsTiles, cell_count, board_of, is_board, is_board_state, neighbour};
ghost use Rattle.pb_abstract.specs.Placings.{IsPlacing, placing_count, placing_number, placing_of, placing_after, tile_after, number_after, cell_with, IsTileEdge};
ghost use Rattle.pb_abstract.specs.Graph.{has};

use crate::lists::{BlockList, scope_of};
use crate::numbers::{placing_at, placing_count, placing_number};
use crate::placing::Placing;
use crate::projection::Projection;
use pb_packed::Packed;
use pb_task::TilesParts;
use std::alloc::{AllocError, Global};

// How many bits of a state hold the number in a cell.
const BITS: u32 = 4;

// How many numbers a state can have in a cell.
const NUMBERS: usize = 16;

// The cell of a tile after the blank moved: the blank's old cell if the two met.
fn tile_after(blank: u32, to: u32, tile: u32) -> u32
    ensures { result ≡ tile_after blank to tile }
{
    if tile == to { blank } else { tile }
}

// The placing after the blank moved to a cell.
fn placing_after(placing: &Placing, to: u32) -> Placing
    ensures { result ≡ placing_after placing.now to }
{
    Placing {
        blank: to,
        first: tile_after(placing.blank, to, placing.first),
        second: tile_after(placing.blank, to, placing.second),
    }
}

// The block that the blank's move in an action's direction leads to.
fn beyond(
    tiles: &TilesParts,
    projection: &Projection,
    placing: &Placing,
    action: u32,
) -> Option<u32>
    requires tiles { IsTiles tiles.now }
    requires placing { IsPlacing (cell_count tiles.now) placing.now }
    ensures { result ≡ number_after (cell_count tiles.now) projection.now placing.now
        (neighbour tiles.now.rows tiles.now.cols placing.now.blank action) }
{
    let to = tiles.neighbour(placing.blank, action)?;
    let after = placing_after(placing, to);
    Some(placing_number(tiles.rows * tiles.cols, *projection, &after))
}

// The scope of a block: itself, and those that the blank's moves lead to.
fn scope(
    alloc: Global,
    tiles: &TilesParts,
    projection: &Projection,
    block: u32,
) -> Result<BlockList, AllocError>
    requires tiles { IsTiles tiles.now }
    requires block { block < placing_count (cell_count tiles.now) projection.now }
    ensures { IfOk result (λ list. (c : ℕ) → IsTrue (has list c)
        ↔ ((block ≡ c) ⊎ IsTileEdge tiles.now projection.now block c)) }
{
    let placing = placing_at(tiles.rows * tiles.cols, *projection, block);
    let beyond = [
        beyond(tiles, projection, &placing, 0),
        beyond(tiles, projection, &placing, 1),
        beyond(tiles, projection, &placing, 2),
        beyond(tiles, projection, &placing, 3),
    ];
    scope_of(alloc, block, beyond)
}

/// The scopes of all blocks, in order of their numbers.
pub fn scopes(
    alloc: Global,
    tiles: &TilesParts,
    projection: &Projection,
) -> Result<Vec<BlockList>, AllocError>
    requires { IsTiles tiles.now }
    ensures count { IfOk result (λ scopes. length scopes.items
        ≡ placing_count (cell_count tiles.now) projection.now) }
    ensures scope { IfOk result (λ scopes. (block other : ℕ)
        → block < placing_count (cell_count tiles.now) projection.now
        → IsTrue (has (slice_index_or scopes.items block []) other)
        ↔ ((block ≡ other) ⊎ IsTileEdge tiles.now projection.now block other)) }
{
    let mut scopes = Vec::new(alloc);
    for block in 0..placing_count(tiles.rows * tiles.cols, *projection) {
        scopes.push(scope(alloc, tiles, projection, block)?)?;
    }
    Ok(scopes)
}

// The cell of each number of a board, whose cell i has the number in the bits 4i to 4i+3.
fn cells_of(board: u64, count: u32) -> [u8; NUMBERS]
    requires few { count ≤ 16 }
    requires board { IsTrue (is_board count (board_of count board)) }
    ensures { (number : ℕ) → number < count → slice_index result number
        ≡ cell_with (board_of count board) number }
{
    let mut cells = [0; NUMBERS];
    let mut rest = board;
    for cell in 0..count {
        cells[(rest % 16) as usize] = cell as u8;
        rest /= 16;
    }
    cells
}

/// The block of a state.
pub fn block(tiles: &TilesParts, projection: Projection, state: &Packed) -> u32
    requires tiles { IsTiles tiles.now }
    requires state { IsTrue (is_board_state (cell_count tiles.now) state.now) }
    ensures { result ≡ placing_number (cell_count tiles.now) projection
        (placing_of (board_of (cell_count tiles.now) state.now)) }
{
    let count = tiles.rows * tiles.cols;
    let cells = cells_of(state.bits(0, BITS * count), count);
    let placing = Placing {
        blank: u32::from(cells[0]),
        first: u32::from(cells[1]),
        second: u32::from(cells[2]),
    };
    placing_number(count, projection, &placing)
}
