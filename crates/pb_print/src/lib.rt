//! Texts that the program writes: bytes, lines and numbers, into a list of bytes or into a piece of
//! a fixed size, and the file in which a text is saved line by line.
#![tactic(auto)]

mod piece;
mod saving;
mod text;

pub use piece::Piece;
pub use saving::{NumberedLines, len_of_lines, save_lines};
pub use text::{push_line, push_number, push_text};
