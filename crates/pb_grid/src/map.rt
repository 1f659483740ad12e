//! The map that a text spells, read a row at a time: each byte gives its cell's class and its mark
//! of swamp.
ghost use Rattle.std.specs.Prelude.{◌≡◌, ◌+◌, ◌≤◌, ◌^◌, ◌&&◌, ◌++◌, true, false, length, take, drop, map, replicate, vec_len, IfOk};
ghost use Rattle.std.specs.List.{concat};
ghost use Rattle.pb_grid.specs.Lines.{lines_of};
ghost use Rattle.pb_grid.specs.Reading.{Gives, added_to, is_side, cells_of, row_of_map, rows_of_map, below_map, map_reading, is_swamp_byte, swamp_of};

use crate::classes::ClassTable;
use crate::error::GridError;
use crate::header::size_of_map;
use crate::lines::split_line;
use crate::words::is_blank_line;
use pb_task::{Cells, Class, Swamp};
use std::alloc::{AllocError, Global};

// How many cells a side of a map may have.
const LONGEST_SIDE: u32 = 2048;

// The number of the line of a map's first row.
const FIRST_ROW: u64 = 5;

/// What the text of a map says.
#[derive(Drop)]
pub struct MapParts {
    pub width: u32,
    pub height: u32,
    pub cells: Cells,
}

// Adds the cells that a row's bytes represent.
fn add_cells(
    cells: &mut Vec<Class>,
    classes: &ClassTable,
    line: u64,
    row: &[u8],
) -> Result<(), GridError>
    ensures gives { Gives (λ _. cells.new.items) result
        (added_to cells.old.items (cells_of line 1 row.now)) }
    ensures len { IfOk result (λ _. vec_len cells.new ≡ vec_len cells.old + length row.now) }
{
    // The text has all of the row's bytes, so room for them all may be reserved.
    cells.reserve(row.len())?;
    let mut col = 1;
    for byte in row {
        let Some(class) = classes.get(*byte) else {
            return Err(GridError::Cell { line, col });
        };
        cells.push_reserved(class);
        col += 1;
    }
    Ok(())
}

// Adds the cells of a row, which has as many bytes as the map is wide.
#[tactic(auto, unfolding(crate::specs::Reading::row_of_map))]
fn add_row(
    cells: &mut Vec<Class>,
    classes: &ClassTable,
    width: u32,
    line: u64,
    row: &[u8],
) -> Result<(), GridError>
    ensures gives { Gives (λ _. cells.new.items) result
        (added_to cells.old.items (row_of_map width line row.now)) }
    ensures len { IfOk result (λ _. vec_len cells.new ≡ vec_len cells.old + length row.now) }
{
    // The length is judged before the bytes, as the order of refusals has it.
    if row.len() != width as usize {
        return Err(GridError::Rows { line });
    }
    add_cells(cells, classes, line, row)
}

// Adds for each byte of a row whether its cell is swamp, where swamp is asked for.
fn add_swamp(marks: &mut Vec<bool>, row: &[u8]) -> Result<(), AllocError>
    ensures { IfOk result (λ _. marks.new.items ≡ marks.old.items
        ++ map (is_swamp_byte true) row.now) }
{
    marks.reserve(row.len())?;
    for byte in row {
        marks.push_reserved(*byte == b'S');
    }
    Ok(())
}

// Adds for each byte of a row whether its cell is swamp, if swamp is asked for. Else no mark is
// kept.
fn add_marks(marks: &mut Vec<bool>, swamp: bool, row: &[u8]) -> Result<(), AllocError>
    ensures { IfOk result (λ _. swamp ≡ true → marks.new.items ≡ marks.old.items
        ++ map (is_swamp_byte true) row.now) }
{
    if swamp { add_swamp(marks, row) } else { Ok(()) }
}

// The swamp among this many cells: that of the marks, if swamp is asked for.
fn swamp_among(swamp: bool, marks: Vec<bool>, count: usize) -> Swamp
    ensures marks { swamp ≡ true → result ≡ marks.items }
    ensures none { swamp ≡ false → result ≡ replicate count false }
{
    if swamp {
        Swamp::of(marks)
    } else {
        Swamp::none(count)
    }
}

// The cells of a map's rows, which of them are swamp, and the text below the rows.
fn rows_of_map(
    alloc: Global,
    width: u32,
    height: u32,
    text: &[u8],
    swamp: bool,
) -> Result<(Vec<Class>, Swamp, &[u8]), GridError>
    ensures gives { Gives (λ x. x.0.items) result (rows_of_map width height 5 (lines_of text.now)) }
    ensures swamp { IfOk result (λ x. x.1
        ≡ map (is_swamp_byte swamp) (concat (take height (lines_of text.now)))) }
    ensures rest { IfOk result (λ x. lines_of x.2.now ≡ drop height (lines_of text.now)) }
{
    // No room is reserved for the stated size, which the text may not have.
    let mut cells = Vec::new(alloc);
    let mut marks = Vec::new(alloc);
    let classes = ClassTable::new();
    let mut rest = text;
    for y in 0..height {
        let line = FIRST_ROW + u64::from(y);
        let Some((row, below)) = split_line(rest) else {
            return Err(GridError::Rows { line });
        };
        add_row(&mut cells, &classes, width, line, row)?;
        add_marks(&mut marks, swamp, row)?;
        rest = below;
    }
    let swamp = swamp_among(swamp, marks, cells.len());
    Ok((cells, swamp, rest))
}

// That each line of a text is blank. The first has this number.
fn below_map(first: u64, text: &[u8]) -> Result<(), GridError>
    requires { first ≤ 2 ^ 32 }
    ensures { Gives (λ _. true) result (below_map first (lines_of text.now)) }
{
    let mut line = first;
    let mut rest = text;
    while let Some((below, behind)) = split_line(rest) {
        if !is_blank_line(below) {
            return Err(GridError::Rows { line });
        }
        line += 1;
        rest = behind;
    }
    Ok(())
}

// Whether a side of a map may be so long.
fn is_side(cells: u32) -> bool
    ensures { result ≡ is_side cells }
{
    0 < cells && cells <= LONGEST_SIDE
}

// Whether a map may be so high and so wide.
fn is_size(height: u32, width: u32) -> bool
    ensures { result ≡ (is_side height && is_side width) }
{
    is_side(height) && is_side(width)
}

/// The map that a text spells, and which of its cells are swamp: none, unless swamp is asked for.
/// No refusal depends on the swamp.
#[tactic(auto, unfolding(crate::specs::Reading::map_reading))]
pub fn read_map(alloc: Global, text: &[u8], swamp: bool) -> Result<(MapParts, Swamp), GridError>
    ensures map { Gives (λ x. x.0) result (map_reading (lines_of text.now)) }
    ensures swamp { IfOk result (λ x. x.1 ≡ swamp_of swamp x.0.height (lines_of text.now)) }
{
    let (height, width, rows) = size_of_map(text)?;
    if !is_size(height, width) {
        return Err(GridError::Size);
    }
    let (cells, swamp, below) = rows_of_map(alloc, width, height, rows, swamp)?;
    below_map(FIRST_ROW + u64::from(height), below)?;
    let parts = MapParts {
        width,
        height,
        cells: Cells::of(cells),
    };
    Ok((parts, swamp))
}
