//! The words of a state, for those who keep states and sets in flat arrays of words.
ghost use Rattle.std.specs.Prelude.{◌≡◌, ◌*◌, ◌^◌, ◌<◌, ◌≤◌};
ghost use Rattle.pb_packed.specs.Sizes.{state_bits};
ghost use Rattle.pb_packed.specs.Words.{number_of, AreWords};

use crate::Packed;
use crate::packed::Form;

impl Packed {
    /// How many words hold the number: 1, 4 or 16.
    #[inline]
    pub fn width(&self) -> usize
        ensures fits { self.now < 2 ^ (64 * result) }
        ensures some { 1 ≤ result }
        ensures most { 64 * result ≤ state_bits }
    {
        match &self.form {
            Form::Word(_) => 1,
            Form::Few(_) => 4,
            Form::Many(_) => 16,
        }
    }

    /// All words of the number, the lowest first.
    #[inline]
    pub fn to_words(&self) -> [u64; 16]
        ensures number { number_of result ≡ self.now }
        ensures words { AreWords 16 result }
    {
        self.words().to_array()
    }
}
