//! The blocks of a grid: squares of cells, and which squares lie beside each other.
ghost use Rattle.std.specs.Prelude.{◌≡◌, ◌<◌, ◌≤◌, ◌^◌, ◌*◌, ◌↔◌, ◌⊎◌, ℕ, [], IsTrue, IfOk, length, slice_index_or};
ghost use Rattle.std.specs.Int.{div_ceil};
ghost use Rattle.pb_packed.specs.Bits.{bits_of};
ghost use Rattle.pb_task.specs.Grid.{IsGrid, are_connected, cell_beside, class_of_state, is_passable};
ghost use Rattle.pb_abstract.specs.Squares.{column_count, square_count, square_of, IsSquareEdge, IsLeastSide};
ghost use Rattle.pb_abstract.specs.Borders.{border_cell, are_joined, crosses, beyond};
ghost use Rattle.pb_abstract.specs.Graph.{has};

use crate::lists::{BlockList, scope_of};
use pb_packed::Packed;
use pb_task::{GridParts, are_connected, cell_beside};
use std::alloc::{AllocError, Global};

// How many bits of a state hold its two coordinates.
const BITS: u32 = 22;

// How many columns, or rows, of cells a state can distinguish.
const SIDE: u32 = 2048;

/// How many squares with this side there are.
pub fn square_count(grid: &GridParts, side: u32) -> u32
    requires grid { IsGrid grid.now }
    requires side { 1 ≤ side }
    ensures { result ≡ square_count grid.now side }
{
    grid.width.div_ceil(side) * grid.height.div_ceil(side)
}

/// The least side with which there are at most so many squares.
pub fn least_side(grid: &GridParts, wish: u32) -> u32
    requires grid { IsGrid grid.now }
    requires wish { 1 ≤ wish }
    ensures least { IsLeastSide grid.now wish result }
    ensures small { result ≤ 2048 }
{
    let mut side = 1;
    // No side of a grid has more than 2,048 cells. At that side there is one square, so the loop
    // ends.
    while wish < square_count(grid, side) {
        side += 1;
    }
    side
}

/// The square that has the cell of a state, if `columns` squares are side by side.
pub fn square(grid: &GridParts, side: u32, columns: u32, state: &Packed) -> u32
    requires grid { IsGrid grid.now }
    requires side { 1 ≤ side }
    requires columns { columns ≡ column_count grid.now side }
    ensures { result ≡ square_of grid.now side (bits_of state.now 0 11) (bits_of state.now 11 11) }
{
    let word = state.bits(0, BITS) as u32;
    let (x, y) = (word % SIDE, word / SIDE);
    (y / side) * columns + x / side
}

// Whether a cell can be left in the action's direction.
fn are_joined(grid: &GridParts, cell: (u32, u32), action: u32) -> bool
    requires x { cell.0 < 2 ^ 24 }
    requires y { cell.1 < 2 ^ 24 }
    ensures { result ≡ are_joined grid.now cell action }
{
    match cell_beside(cell.0, cell.1, action) {
        Some((x, y)) => are_connected(grid.class_at(cell.0, cell.1), grid.class_at(x, y)),
        None => false,
    }
}

// Cell `i` on the border of a square in the action's direction.
fn border_cell(side: u32, column: u32, row: u32, action: u32, i: u32) -> (u32, u32)
    requires side { 1 ≤ side }
    requires small { side ≤ 2048 }
    requires column { column < 4096 }
    requires row { row < 4096 }
    requires i { i < side }
    ensures cell { result ≡ border_cell side column row action i }
    ensures x { result.0 < 2 ^ 24 }
    ensures y { result.1 < 2 ^ 24 }
{
    let (x, y) = (column * side, row * side);
    match action {
        0 => (x + i, y),
        1 => (x + i, y + (side - 1)),
        2 => (x, y + i),
        _ => (x + (side - 1), y + i),
    }
}

// Whether a cell on the border of a square in the action's direction can be left there.
fn crosses(grid: &GridParts, side: u32, column: u32, row: u32, action: u32) -> bool
    requires side { 1 ≤ side }
    requires small { side ≤ 2048 }
    requires column { column < 4096 }
    requires row { row < 4096 }
    ensures { result ≡ crosses grid.now side column row action }
{
    for i in 0..side {
        if are_joined(grid, border_cell(side, column, row, action, i), action) {
            return true;
        }
    }
    false
}

// The square beside a square in the action's direction, if a cell on the border between them can be
// left for the cell beyond it.
fn beyond(grid: &GridParts, side: u32, block: u32, action: u32) -> Option<u32>
    requires grid { IsGrid grid.now }
    requires side { 1 ≤ side }
    requires small { side ≤ 2048 }
    requires block { block < 4096 }
    ensures { result ≡ beyond grid.now side (div_ceil grid.now.width side) block action }
{
    let columns = grid.width.div_ceil(side);
    let (column, row) = (block % columns, block / columns);
    if !crosses(grid, side, column, row, action) {
        return None;
    }
    let (x, y) = cell_beside(column, row, action)?;
    Some(y * columns + x)
}

// The scope of a square: itself, and those that a cell of it has a cell of its class beside it in.
fn scope(alloc: Global, grid: &GridParts, side: u32, block: u32) -> Result<BlockList, AllocError>
    requires grid { IsGrid grid.now }
    requires side { 1 ≤ side }
    requires small { side ≤ 2048 }
    requires few { square_count grid.now side ≤ 4096 }
    requires block { block < square_count grid.now side }
    ensures { IfOk result (λ list. (c : ℕ) → IsTrue (has list c)
        ↔ ((block ≡ c) ⊎ IsSquareEdge grid.now side block c)) }
{
    let beyond = [
        beyond(grid, side, block, 0),
        beyond(grid, side, block, 1),
        beyond(grid, side, block, 2),
        beyond(grid, side, block, 3),
    ];
    scope_of(alloc, block, beyond)
}

/// The scopes of all squares, in order of their numbers.
pub fn scopes(alloc: Global, grid: &GridParts, side: u32) -> Result<Vec<BlockList>, AllocError>
    requires grid { IsGrid grid.now }
    requires side { 1 ≤ side }
    requires small { side ≤ 2048 }
    requires few { square_count grid.now side ≤ 4096 }
    ensures count { IfOk result (λ scopes. length scopes.items ≡ square_count grid.now side) }
    ensures scope { IfOk result (λ scopes. (block other : ℕ) → block < square_count grid.now side
        → IsTrue (has (slice_index_or scopes.items block []) other)
        ↔ ((block ≡ other) ⊎ IsSquareEdge grid.now side block other)) }
{
    let mut scopes = Vec::new(alloc);
    for block in 0..square_count(grid, side) {
        scopes.push(scope(alloc, grid, side, block)?)?;
    }
    Ok(scopes)
}
