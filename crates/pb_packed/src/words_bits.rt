//! The fields of bits of a number in words: reading and replacing them.
ghost use Rattle.std.specs.Prelude.{◌≡◌, ◌+◌, ◌*◌, ◌%◌, ◌^◌, ◌<◌, ◌≤◌, ◌↔◌, IsTrue};
ghost use Rattle.pb_packed.specs.Bits.{bits_of, with_bits_of, bit_number};

use crate::Words;

impl<const W: usize> Words<W> {
    /// The number in the `len` bits from bit `at` on.
    #[inline]
    pub fn bits(&self, at: u32, len: u32) -> u64
        requires short { len ≤ 64 }
        requires within { at + len ≤ 64 * W }
        ensures { result ≡ bits_of self.now at len }
    {
        if len == 0 {
            // A mask of `len` bits is made by a shift by `64 - len`, which may not be 64.
            return 0;
        }
        self.bits_of_some(at, len)
    }

    /// The same number with the `len` bits from bit `at` on replaced by the value.
    #[inline]
    pub fn with_bits(&self, at: u32, len: u32, value: u64) -> Words<W>
        requires short { len ≤ 64 }
        requires within { at + len ≤ 64 * W }
        requires fits { value < 2 ^ len }
        ensures { result ≡ with_bits_of self.now at len value }
    {
        if len == 0 {
            return *self;
        }
        self.with_some_bits(at, len, value)
    }

    /// Whether bit `i` is 1.
    #[inline]
    pub fn has(&self, i: u32) -> bool
        requires { i < 64 * W }
        ensures { IsTrue result ↔ (bits_of self.now i 1 ≡ 1) }
    {
        self.bits(i, 1) == 1
    }

    /// The same number with bit `i` on (1) or off (0).
    #[inline]
    pub fn with(&self, i: u32, on: bool) -> Words<W>
        requires { i < 64 * W }
        ensures { result ≡ with_bits_of self.now i 1 (bit_number on) }
    {
        self.with_bits(i, 1, u64::from(on))
    }
}
