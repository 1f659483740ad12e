//! The text of a 3 by 3 board of tiles, after drawn moves of the blank from the goal.
ghost use Rattle.std.specs.Prelude.{◌≡◌, ◌≤◌, ◌<◌, ◌++◌, IfOk, IfSome, OnOk, length};
ghost use Rattle.pb_make.specs.Boards.{blank_of, board_text, cell_beside, made_board, moved, row_line, tiles_text};

use crate::draws::Generator;
use std::alloc::{AllocError, Global};

/// The text of a board of 3 by 3 after so many drawn moves of the blank from the goal. A move over
/// the edge does nothing. An error is out of memory.
pub fn make_tiles(alloc: Global, seed: u32, moves: u32) -> Result<Vec<u8>, AllocError>
    requires { moves ≤ 1000000 }
    ensures { IfOk result (λ text. text.items ≡ tiles_text seed moves) }
{
    let board = make_board(seed, moves);
    text_of_board(alloc, &board)
}

fn make_board(seed: u32, moves: u32) -> [u8; 9]
    ensures board { result ≡ made_board seed moves }
{
    let mut generator = Generator::new(seed);
    let mut board = [0, 1, 2, 3, 4, 5, 6, 7, 8];
    for _move in 0..moves {
        move_blank(&mut board, generator.draw());
    }
    board
}

// Moves the blank by a draw, if the board has the cell.
fn move_blank(board: &mut [u8], draw: u32)
    requires { length board.old ≡ 9 }
    ensures { board.new ≡ moved board.old draw }
{
    // It is looked for at each move, so no clause has to say that a kept place is the blank's.
    if let Some(blank) = find_blank(board) {
        if let Some(cell) = beside(blank, draw % 4) {
            board.swap(blank, cell);
        }
    }
}

// The cell that the blank is in.
fn find_blank(board: &[u8]) -> Option<usize>
    ensures cell { result ≡ blank_of board.now }
    ensures inside { IfSome result (λ cell. cell < length board.now) }
{
    board.iter().position(|tile| *tile == 0)
}

// The cell beside a cell: above it, below it, to its left or to its right.
fn beside(cell: usize, direction: u32) -> Option<usize>
    requires cell { cell < 9 }
    requires direction { direction < 4 }
    ensures cell { result ≡ cell_beside cell direction }
    ensures inside { IfSome result (λ other. other < 9) }
{
    match direction {
        0 => if cell < 3 { None } else { Some(cell - 3) },
        1 => if cell < 6 { Some(cell + 3) } else { None },
        2 => if cell % 3 == 0 { None } else { Some(cell - 1) },
        _ => if cell % 3 == 2 { None } else { Some(cell + 1) },
    }
}

fn text_of_board(alloc: Global, board: &[u8; 9]) -> Result<Vec<u8>, AllocError>
    ensures { IfOk result (λ text. text.items ≡ board_text board.now) }
{
    let [a, b, c, d, e, f, g, h, i] = *board;
    let mut text = Vec::from_slice(alloc, b"3 3\n")?;
    push_row(alloc, &mut text, a, b, c)?;
    push_row(alloc, &mut text, d, e, f)?;
    push_row(alloc, &mut text, g, h, i)?;
    Ok(text)
}

// Appends a row of a board as a line.
fn push_row(
    alloc: Global,
    text: &mut Vec<u8>,
    left: u8,
    middle: u8,
    right: u8,
) -> Result<(), AllocError>
    ensures { OnOk result (text.new.items ≡ text.old.items ++ row_line left middle right) }
{
    let row = format!(in alloc; "{left} {middle} {right}\n")?;
    text.extend_from_slice(row.as_bytes())
}
