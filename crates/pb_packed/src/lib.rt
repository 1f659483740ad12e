//! A state of a planning task, packed into 1,024 bits.
//!
//! Contracts see a packed state as one number below 2^1024, whose bit 0 is the least. Equality,
//! order and hash are those of this number. No call takes memory.
#![tactic(auto)]

mod bits;
mod digits;
mod flat;
mod laws;
mod order;
mod packed;
mod packed_words;
mod sizes;
mod slices;
mod words;
mod words_bits;
mod words_order;

pub use laws::{digits_are_hex, digits_tell_numbers, fields_are_replaced};
pub use packed::Packed;
pub use sizes::{BITS, DIGITS, MOST_ATOMS, MOST_DIGITS};
pub use slices::compare;
pub use words::Words;
