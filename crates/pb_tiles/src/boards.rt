//! Boards of tiles: the first fault of one, and the usual goal.
ghost use Rattle.std.specs.Prelude.{◌≡◌, ◌+◌, ◌<◌, ◌^◌, [], true, nat_lt, length, IfOk};
ghost use Rattle.std.specs.List.{list_all, range_with_len};
ghost use Rattle.pb_tiles.specs.Reading.{board_fault};

use crate::error::TilesError;
use pb_task::Board;
use std::alloc::{AllocError, Global};

/// The first number of a board that can't be at its place, if there is one. `first` is the place of
/// the board's first number in the text.
pub fn board_fault(count: u32, first: u64, board: &[u32]) -> Option<TilesError>
    requires { first + length board.now < 2 ^ 64 }
    ensures { result ≡ board_fault count first [] board.now }
{
    for at in 0..board.len() {
        if count <= board[at] {
            return Some(TilesError::Number {
                at: first + at as u64,
            });
        }
        // A board has at most 16 numbers here, since its count was judged before.
        if board[..at].contains(&board[at]) {
            return Some(TilesError::Twice {
                number: u64::from(board[at]),
            });
        }
    }
    None
}

/// The board that has these numbers.
pub fn board_of(alloc: Global, numbers: &[u32]) -> Result<Board, AllocError>
    requires { list_all (λ number. nat_lt number 16) numbers.now ≡ true }
    ensures { IfOk result (λ board. board ≡ numbers.now) }
{
    let mut cells = Vec::new(alloc);
    for number in numbers {
        // The contract has each number below 16, so the cast loses nothing.
        cells.push(*number as u8)?;
    }
    Ok(Board::of(cells))
}

/// The numbers of the usual goal: 0, 1, 2 and so on.
pub fn usual_goal(alloc: Global, count: u32) -> Result<Vec<u32>, AllocError>
    ensures { IfOk result (λ numbers. numbers.items ≡ range_with_len 0 count) }
{
    let mut numbers = Vec::new(alloc);
    for number in 0..count {
        numbers.push(number)?;
    }
    Ok(numbers)
}
