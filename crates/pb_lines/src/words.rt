//! Where a text is cut, and the numbers that its words spell.
ghost use Rattle.std.specs.Prelude.{◌≡◌, ◌≤◌, ◌+◌, ◌*◌, ◌<◌, ◌^◌, length, IfSome, IfNone, Some, None};
ghost use Rattle.pb_lines.specs.Words.{place_of, part, behind, is_text, number_of, number_after, is_digit};

// How many bytes come before the first of this kind.
fn place_of(text: &[u8], byte: u8) -> usize
    ensures place { result ≡ place_of byte text.now }
    ensures within { result ≤ length text.now }
{
    let mut place = 0;
    for b in text {
        if *b == byte {
            return place;
        }
        place += 1;
    }
    place
}

/// The text before the first such byte, and the text after it.
pub fn part(text: &[u8], byte: u8) -> Option<(&[u8], &[u8])>
    ensures some { IfSome result (λ x. part byte text.now ≡ Some (x.0.now, x.1.now)) }
    ensures shorter { IfSome result (λ x. length x.1.now + 1 ≤ length text.now) }
    ensures none { IfNone result (part byte text.now ≡ None) }
{
    let place = place_of(text, byte);
    if place < text.len() {
        // The byte itself is in neither part.
        let (front, _) = text.split_at(place);
        let (_, rest) = text.split_at(place + 1);
        Some((front, rest))
    } else {
        None
    }
}

/// What is left of a text after this piece, if the text begins with the piece.
#[tactic(auto, unfolding(crate::specs::Words::behind))]
pub fn behind<'a>(text: &'a [u8], piece: &[u8]) -> Option<&'a [u8]>
    ensures some { IfSome result (λ rest. behind piece.now text.now ≡ Some rest.now) }
    ensures none { IfNone result (behind piece.now text.now ≡ None) }
{
    match piece {
        [] => Some(text),
        [p, others @ ..] => match text {
            [] => None,
            [b, rest @ ..] => { if *p == *b { behind(rest, others) } else { None } }
        },
    }
}

/// Whether the text is this one.
pub fn is_text(text: &[u8], piece: &[u8]) -> bool
    ensures { result ≡ is_text piece.now text.now }
{
    match behind(text, piece) {
        Some(rest) => rest.len() == 0,
        None => false,
    }
}

/// The number that a word spells.
pub fn number_of(word: &[u8]) -> Option<u64>
    ensures number { result ≡ number_of word.now }
    ensures small { IfSome result (λ n. n < 2 ^ 63) }
{
    if word.len() == 0 {
        return None;
    }
    // A number has one spelling, so only 0 itself begins with a zero.
    if word[0] == b'0' && word.len() > 1 {
        return None;
    }
    digits(0, word)
}

// The number with these digits after it. A number from 2^63 on ends the recursion early, so it goes
// at most 20 digits deep.
#[tactic(auto, unfolding(crate::specs::Words::number_after))]
fn digits(value: u64, word: &[u8]) -> Option<u64>
    requires { value < 2 ^ 63 }
    ensures number { result ≡ number_after value word.now }
    ensures small { IfSome result (λ n. n < 2 ^ 63) }
{
    match word {
        [] => Some(value),
        [byte, rest @ ..] => {
            if *byte < b'0' || *byte > b'9' {
                return None;
            }
            // Ten times a number below 2^63 may not fit in 64 bits.
            let next = u128::from(value) * 10 + u128::from(*byte - b'0');
            if next >= 1 << 63 {
                return None;
            }
            digits(next as u64, rest)
        }
    }
}
