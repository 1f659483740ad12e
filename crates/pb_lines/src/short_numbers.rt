//! Numbers of at most nine digits.
ghost use Rattle.std.specs.Prelude.{◌≡◌, true};
ghost use Rattle.std.specs.Char.{is_ascii_digit};
ghost use Rattle.std.specs.List.{list_all};
ghost use Rattle.pb_lines.specs.ShortNumbers.{value_behind, is_short_number, short_number_of};

// How many digits a short number may have.
const LONGEST_NUMBER: usize = 9;

// Whether all bytes of a word are decimal digits.
fn are_digits(word: &[u8]) -> bool
    ensures { result ≡ list_all is_ascii_digit word.now }
{
    word.iter().all(|byte| byte.is_ascii_digit())
}

// Whether a word is one to nine decimal digits.
fn is_short_number(word: &[u8]) -> bool
    ensures { result ≡ is_short_number word.now }
{
    !word.is_empty() && word.len() <= LONGEST_NUMBER && are_digits(word)
}

/// The number that a word of one to nine decimal digits spells. It may begin with zeros.
#[tactic(auto, unfolding(crate::specs::ShortNumbers::short_number_of))]
pub fn short_number_of(word: &[u8]) -> Option<u32>
    ensures { result ≡ short_number_of word.now }
{
    if is_short_number(word) {
        Some(value_of(word))
    } else {
        None
    }
}

// The number that at most nine digits spell.
fn value_of(digits: &[u8]) -> u32
    requires { is_short_number digits.now ≡ true }
    ensures { result ≡ value_behind 0 digits.now }
{
    // Nine digits make a number below 2^32, so no step overflows.
    let mut value = 0;
    for digit in digits {
        value = value * 10 + u32::from(*digit - b'0');
    }
    value
}
