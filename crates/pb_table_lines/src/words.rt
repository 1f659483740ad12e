//! The states that words of hexadecimal digits spell.
ghost use Rattle.std.specs.Prelude.{◌≡◌, ◌≤◌, ◌<◌, ◌+◌, ◌-◌, ◌*◌, ◌^◌, if◌then◌else◌, length, drop, Some, None, Option, ℕ, IfSome};
ghost use Rattle.pb_packed.specs.Sizes.{most_digits};
ghost use Rattle.pb_packed.specs.Words.{number_of, AreWords};
ghost use Rattle.pb_table_lines.specs.Words.{words_for, hex_value, hex_after, state_of, read_by, word_of, behind_word};

use pb_lines::part;

// The value of a hexadecimal digit, and 16 for another byte.
fn hex_value(byte: u8) -> u64
    ensures { result ≡ hex_value byte }
{
    match byte {
        b'0'..=b'9' => u64::from(byte - b'0'),
        b'a'..=b'f' => u64::from(byte - b'a') + 10,
        _ => 16,
    }
}

// The number that these hexadecimal digits spell.
fn hex_number(digits: &[u8]) -> Option<u64>
    requires { length digits.now ≤ 16 }
    ensures number { result ≡ hex_after 0 digits.now }
    ensures small { IfSome result (λ n. n < 2 ^ 64) }
{
    // At most sixteen digits of four bits each, so the number fits.
    let mut number: u64 = 0;
    for byte in digits {
        let value = hex_value(*byte);
        if value == 16 {
            return None;
        }
        number = number * 16 + value;
    }
    Some(number)
}

/// How many words of 64 bits a state of so many hexadecimal digits takes.
pub fn words_for(digits: u32) -> usize
    requires { digits ≤ most_digits }
    ensures words { result ≡ words_for digits }
    ensures most { result ≤ 16 }
{
    ((digits + 15) / 16) as usize
}

// Reads the digits behind those of the highest word, sixteen a word. Whether all are digits.
fn read_sixteens(word: &[u8], words: &mut [u64]) -> bool
    requires some { 1 ≤ length words.old }
    requires long { 16 * length words.old ≤ length word.now + 15 }
    requires words { AreWords (length words.old) words.old }
    ensures state { read_by result words.new
        ≡ hex_after (number_of (drop (length words.old - 1) words.old))
        (drop (length word.now - 16 * (length words.old - 1)) word.now) }
    ensures words { AreWords (length words.old) words.new }
{
    let count = words.len();
    for i in 1..count {
        let left = count - i;
        let from = word.len() - 16 * left;
        match hex_number(&word[from..from + 16]) {
            None => return false,
            Some(number) => words[left - 1] = number,
        }
    }
    true
}

// Reads a state of this many digits, the lowest word first. Whether all are digits.
fn read_digits(word: &[u8], words: &mut [u64]) -> bool
    requires some { 1 ≤ length words.old }
    requires least { 16 * (length words.old - 1) < length word.now }
    requires most { length word.now ≤ 16 * length words.old }
    requires words { AreWords (length words.old) words.old }
    ensures state { read_by result words.new ≡ hex_after 0 word.now }
    ensures words { AreWords (length words.old) words.new }
{
    // The highest word may have fewer than sixteen digits; each other word has sixteen.
    let last = words.len() - 1;
    match hex_number(&word[..word.len() - 16 * last]) {
        None => false,
        Some(number) => {
            words[last] = number;
            read_sixteens(word, words)
        }
    }
}

/// Reads the state that exactly so many digits spell into its words, the lowest word first. Whether
/// there is one.
pub fn read_state(digits: u32, word: &[u8], words: &mut [u64]) -> bool
    requires some { 1 ≤ digits }
    requires most { digits ≤ most_digits }
    requires long { length words.old ≡ words_for digits }
    requires words { AreWords (length words.old) words.old }
    ensures state { read_by result words.new ≡ state_of digits word.now }
    ensures words { AreWords (length words.old) words.new }
{
    if word.len() == digits as usize {
        read_digits(word, words)
    } else {
        false
    }
}

/// The text before the first blank, and the text from it on.
pub fn cut_word(text: &[u8]) -> (&[u8], &[u8])
    ensures word { result.0.now ≡ word_of text.now }
    ensures behind { result.1.now ≡ behind_word text.now }
{
    match part(text, b' ') {
        Some((front, _)) => text.split_at(front.len()),
        None => text.split_at(text.len()),
    }
}
