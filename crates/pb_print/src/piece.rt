//! A piece of a text, in a buffer of a fixed size.
ghost use Rattle.std.specs.Prelude.{◌≡◌, ◌+◌, ◌≤◌, [], ◌++◌, length};
ghost use Rattle.std.specs.Fmt.{decimal};
ghost use Rattle.pb_packed.specs.Digits.{hex_digits};
ghost use Rattle.pb_packed.specs.Sizes.{most_digits};

use itoa::Buffer;
use pb_packed::{MOST_DIGITS, Packed};
use std::marker::Model;

/// A piece of a text, of at most 4,096 bytes, in a buffer of that size. No call takes memory.
#[derive(Drop)]
pub struct Piece {
    bytes: [u8; 4096],
    len: usize,
}

impl Model for Piece {
    ghost use Rattle.std.specs.Prelude.{ℕ, ◌≤◌, List, take};

    ghost Value = { List ℕ };

    ghost view = { λ p. take p.len p.bytes };

    ghost invariant = { λ p. p.len ≤ 4096 };
}

impl Piece {
    /// The greatest number of bytes in a piece.
    pub const SIZE: usize = 4096;

    /// A piece without a byte.
    pub fn new() -> Piece
        ensures { result ≡ [] }
    {
        Piece {
            bytes: [0; 4096],
            len: 0,
        }
    }

    /// How many bytes there are.
    pub fn len(&self) -> usize
        ensures len { result ≡ length self.now }
        ensures most { result ≤ 4096 }
    {
        self.len
    }

    /// The bytes.
    pub fn as_slice(&self) -> &[u8]
        ensures { result.now ≡ self.now }
    {
        &self.bytes[..self.len]
    }

    /// Removes all bytes.
    pub fn clear(&mut self)
        ensures { self.new ≡ [] }
    {
        self.len = 0;
    }

    /// Appends these bytes.
    pub fn push(&mut self, text: &[u8])
        requires { length self.old + length text.now ≤ 4096 }
        ensures { self.new ≡ self.old ++ text.now }
    {
        let end = self.len + text.len();
        self.bytes[self.len..end].copy_from_slice(text);
        self.len = end;
    }

    /// Appends a number in decimal digits: at most 20.
    pub fn push_number(&mut self, n: u64)
        requires { length self.old + 20 ≤ 4096 }
        ensures number { self.new ≡ self.old ++ decimal n }
        ensures short { length self.new ≤ length self.old + 20 }
    {
        let mut buffer = Buffer::new();
        self.push(buffer.format(n).as_bytes());
    }

    /// Appends a state in so many hexadecimal digits, the lowest ones: all of its number, if that is
    /// below 16 to the power of this count.
    pub fn push_hex(&mut self, state: &Packed, digits: u32)
        requires some { 1 ≤ digits }
        requires most { digits ≤ most_digits }
        requires room { length self.old + digits ≤ 4096 }
        ensures digits { self.new ≡ self.old ++ hex_digits digits state.now }
        ensures len { length self.new ≡ length self.old + digits }
    {
        let mut written = [0u8; MOST_DIGITS];
        state.hex(digits, &mut written);
        let (text, _rest) = written.as_slice().split_at(digits as usize);
        self.push(text);
    }
}
