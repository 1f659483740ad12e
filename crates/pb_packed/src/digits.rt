//! A packed state as hexadecimal digits, read and written.
ghost use Rattle.std.specs.Prelude.{◌≡◌, ◌*◌, ◌^◌, ◌<◌, ◌≤◌, IfSome, IfNone, IsTrue, All, length, take, drop};
ghost use Rattle.pb_packed.specs.Digits.{hex_digit, hex_digits, is_hex_digit, AreHexDigits};
ghost use Rattle.pb_packed.specs.Sizes.{most_digits};

use crate::{MOST_DIGITS, Packed};

// The character of a digit.
fn character(digit: u64) -> u8
    requires { digit < 16 }
    ensures { result ≡ hex_digit digit }
{
    if digit < 10 {
        b'0' + digit as u8
    } else {
        b'a' + (digit as u8 - 10)
    }
}

// The digit that a character represents.
fn digit_of(character: u8) -> Option<u8>
    ensures digit { IfSome result (λ digit. digit < 16) }
    ensures character { IfSome result (λ digit. hex_digit digit ≡ character) }
    ensures none { IfNone result (¬ IsTrue (is_hex_digit character)) }
{
    match character {
        b'0'..=b'9' => Some(character - b'0'),
        b'a'..=b'f' => Some(character - b'a' + 10),
        _ => None,
    }
}

// The number that at most 16 digits spell, which fits a word.
fn word_spelled(digits: &[u8]) -> Option<u64>
    requires { length digits.now ≤ 16 }
    ensures some { IfSome result (λ word. digits.now ≡ hex_digits (length digits.now) word) }
    ensures small { IfSome result (λ word. word < 2 ^ (4 * length digits.now)) }
    ensures none { IfNone result (¬ All (λ c. IsTrue (is_hex_digit c)) digits.now) }
{
    let mut word = 0;
    for i in 0..digits.len() {
        let Some(digit) = digit_of(digits[i]) else {
            return None;
        };
        // At most 16 digits of 4 bits each fit the word, so this doesn't overflow.
        word = word * 16 + u64::from(digit);
    }
    Some(word)
}

// The number that digits spell, at most as many as a state has.
fn number_spelled(digits: &[u8]) -> Option<Packed>
    requires { length digits.now ≤ most_digits }
    ensures some { IfSome result (λ number. digits.now ≡ hex_digits (length digits.now) number) }
    ensures small { IfSome result (λ number. number < 2 ^ (4 * length digits.now)) }
    ensures none { IfNone result (¬ All (λ c. IsTrue (is_hex_digit c)) digits.now) }
{
    let mut number = Packed::zero();
    for i in 0..digits.len() {
        let Some(digit) = digit_of(digits[i]) else {
            return None;
        };
        let at = 4 * (digits.len() - 1 - i) as u32;
        number = number.with_bits(at, 4, u64::from(digit));
    }
    Some(number)
}

impl Packed {
    /// The number that 1 to 256 digits of `0123456789abcdef` spell, or None if the text isn't such
    /// digits.
    pub fn of_hex(digits: &[u8]) -> Option<Packed>
        ensures some { IfSome result (λ number. digits.now
            ≡ hex_digits (length digits.now) number) }
        ensures small { IfSome result (λ number. number < 2 ^ (4 * length digits.now)) }
        ensures digits { IfSome result (λ number. AreHexDigits digits.now) }
        ensures none { IfNone result (¬ AreHexDigits digits.now) }
    {
        if digits.len() == 0 {
            return None;
        }
        if MOST_DIGITS < digits.len() {
            return None;
        }
        // `number_spelled` makes a new state for each digit, which one word doesn't need.
        if digits.len() <= 16 {
            match word_spelled(digits) {
                Some(word) => Some(Packed::of_word(word)),
                None => None,
            }
        } else {
            number_spelled(digits)
        }
    }

    /// Writes so many digits of the number, the most significant first: all of them, and zeros before
    /// them, if the number is below 16 to the power of this count. Bytes after them stay.
    pub fn hex(&self, digits: u32, out: &mut [u8; MOST_DIGITS])
        requires some { 1 ≤ digits }
        requires most { digits ≤ most_digits }
        ensures written { take digits out.new ≡ hex_digits digits self.now }
        ensures rest { drop digits out.new ≡ drop digits out.old }
    {
        for i in 0..digits {
            let at = 4 * (digits - 1 - i);
            out[i as usize] = character(self.bits(at, 4));
        }
    }
}
