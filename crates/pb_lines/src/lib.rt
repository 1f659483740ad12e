//! Lines, words and numbers of a text: cutting the text at a byte or after a piece, and reading
//! decimal numbers.
#![tactic(auto)]

mod laws;
mod short_numbers;
mod words;

pub use laws::{
    numbers_are_decimal, parts_are_joined, pieces_are_joined, short_numbers_are_digits,
    texts_are_equal,
};
pub use short_numbers::short_number_of;
pub use words::{behind, is_text, number_of, part};
