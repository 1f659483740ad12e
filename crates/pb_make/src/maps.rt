//! The texts of a map with drawn cells and of its scenario.
ghost use Rattle.std.specs.Prelude.{◌≡◌, ◌≤◌, ◌*◌, ◌++◌, IfOk, OnOk, length, map, vec_len};
ghost use Rattle.pb_make.specs.Draws.{draws};
ghost use Rattle.pb_make.specs.Lines.{line, lines, rows_of};
ghost use Rattle.pb_make.specs.Maps.{cell, map_cells, map_header, map_text, scenario_text};

use crate::draws::Generator;
use std::alloc::{AllocError, Global};

/// The text of a square map with so many cells on each side. A quarter of the cells is blocked, but
/// never the first and the last. An error is out of memory.
pub fn make_map(alloc: Global, seed: u32, side: u32) -> Result<Vec<u8>, AllocError>
    requires some { 1 ≤ side }
    requires most { side ≤ 2048 }
    ensures { IfOk result (λ text. text.items ≡ map_text seed side) }
{
    // The cells take their size twice, here and in the text: at most 4 MiB each time.
    let cells = make_cells(alloc, seed, side)?;
    let mut text = make_header(alloc, side)?;
    push_rows(&mut text, cells.as_slice(), side as usize, side as usize)?;
    Ok(text)
}

/// The text of a scenario for a map of this side: its one row goes from the first cell to the last.
/// An error is out of memory.
pub fn make_scen(alloc: Global, side: u32) -> Result<Vec<u8>, AllocError>
    requires some { 1 ≤ side }
    requires most { side ≤ 2048 }
    ensures { IfOk result (λ text. text.items ≡ scenario_text side) }
{
    let last = side - 1;
    let text = format!(in alloc; "version 1\n0\tmade\t{side}\t{side}\t0\t0\t{last}\t{last}\t0\n")?;
    Vec::from_slice(alloc, text.as_bytes())
}

// The lines of a map before its rows.
fn make_header(alloc: Global, side: u32) -> Result<Vec<u8>, AllocError>
    ensures { IfOk result (λ text. text.items ≡ map_header side) }
{
    let text = format!(in alloc; "type octile\nheight {side}\nwidth {side}\nmap\n")?;
    Vec::from_slice(alloc, text.as_bytes())
}

// The cells of the map, row by row.
fn make_cells(alloc: Global, seed: u32, side: u32) -> Result<Vec<u8>, AllocError>
    requires some { 1 ≤ side }
    requires most { side ≤ 2048 }
    ensures cells { IfOk result (λ cells. cells.items ≡ map_cells seed side) }
    ensures count { IfOk result (λ cells. vec_len cells ≡ side * side) }
{
    let count = side as usize * side as usize;
    let mut cells = draw_cells(alloc, seed, count)?;
    cells[0] = b'.';
    cells[count - 1] = b'.';
    Ok(cells)
}

// So many cells, each of them drawn.
fn draw_cells(alloc: Global, seed: u32, count: usize) -> Result<Vec<u8>, AllocError>
    ensures cells { IfOk result (λ cells. cells.items ≡ map cell (draws count seed)) }
    ensures count { IfOk result (λ cells. vec_len cells ≡ count) }
{
    let mut generator = Generator::new(seed);
    let mut cells = Vec::with_capacity(alloc, count)?;
    for _drawn in 0..count {
        cells.push(cell_of(generator.draw()))?;
    }
    Ok(cells)
}

// The byte of a cell: one of four is blocked.
fn cell_of(draw: u32) -> u8
    ensures { result ≡ cell draw }
{
    if draw % 4 == 0 { b'@' } else { b'.' }
}

// Appends the rows of a rectangle as lines.
fn push_rows(text: &mut Vec<u8>, cells: &[u8], rows: usize, width: usize) -> Result<(), AllocError>
    requires { length cells.now ≡ rows * width }
    ensures { OnOk result (text.new.items ≡ text.old.items
        ++ lines (rows_of rows width cells.now)) }
{
    let mut rest = cells;
    for _row in 0..rows {
        let (row, below) = rest.split_at(width);
        push_line(text, row)?;
        rest = below;
    }
    Ok(())
}

fn push_line(text: &mut Vec<u8>, row: &[u8]) -> Result<(), AllocError>
    ensures { OnOk result (text.new.items ≡ text.old.items ++ line row.now) }
{
    text.extend_from_slice(row)?;
    text.push(b'\n')?;
    Ok(())
}
