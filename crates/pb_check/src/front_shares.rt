//! The rows at the front of a text, spelled in pieces by several workers at once.
ghost use Rattle.std.specs.Thread.{IsSync};
ghost use Rattle.std.specs.Prelude.{◌≡◌, ◌≤◌, ◌<◌, ◌+◌, ◌++◌, ◌^◌, true, length, IfOk, IfSome};
ghost use Rattle.pb_packed.specs.Sizes.{most_digits};
ghost use Rattle.pb_check.specs.Words.{words_for};
ghost use Rattle.pb_check.specs.Fronts.{rows_while, is_whole};
ghost use Rattle.pb_check.specs.Reading.{text_of};
ghost use Rattle.pb_check.specs.Kept.{IsSpelledAs, GivesKept};

use crate::fault::CheckError;
use crate::feeds::{count_feeds, count_feeds_by};
use crate::front::{Spelled, room_by, spell};
use crate::reading::{front_at, text_by};
use crate::sharing::{BYTES_A_THREAD, workers_for};
use crate::stated::StatedText;
use pb_lines::part;
use std::alloc::{AllocError, Global};
use std::thread::{Threads, join};

// The parts of a text before and behind the first line feed from a place on, if something is
// behind it. No line is cut.
fn cut_behind(text: &[u8], at: usize) -> Option<(&[u8], &[u8])>
    requires { at ≤ length text.now }
    ensures whole { IfSome result (λ x. is_whole x.0.now ≡ true) }
    ensures all { IfSome result (λ x. text.now ≡ x.0.now ++ x.1.now) }
{
    let (_, behind) = text.split_at(at);
    match part(behind, b'\n') {
        None => None,
        Some((_, rest)) => {
            if rest.len() == 0 {
                None
            } else {
                Some(text.split_at(text.len() - rest.len()))
            }
        }
    }
}

// Where the last of so many shares of a text begins. A text of n bytes has n / piece pieces,
// rounded up.
fn last_share(long: usize, piece: u64, shares: u64) -> usize
    requires piece { 1 ≤ piece }
    requires shares { 1 ≤ shares }
    ensures { result ≤ long }
{
    let all = long as u64;
    let pieces = all.div_ceil(piece);
    let before = pieces - pieces / shares;
    // The product may pass the end of the text, and even 64 bits: then the share begins at the end.
    before.saturating_mul(piece).min(all) as usize
}

// What was found in two parts of a text, the first of which ends with a line.
fn joined(
    _width: u32,
    _front: &[u8],
    back: &[u8],
    one: Spelled,
    other: Spelled,
) -> Result<Spelled, AllocError>
    requires whole { is_whole _front.now ≡ true }
    requires long { length _front.now + length back.now < 2 ^ 63 }
    requires one { IsSpelledAs one (words_for _width) (rows_while _width _front.now) }
    requires other { IsSpelledAs other (words_for _width) (rows_while _width back.now) }
    ensures { IfOk result (λ x. IsSpelledAs x (words_for _width)
        (rows_while _width (_front.now ++ back.now))) }
{
    if one.left == 0 {
        Ok(Spelled {
            rows: one.rows.then(other.rows)?,
            count: one.count + other.count,
            left: other.left,
        })
    } else {
        Ok(Spelled {
            rows: one.rows,
            count: one.count,
            left: one.left + back.len(),
        })
    }
}

/// Reads the rows at the front of a text, by so many workers, each in a thread of its own. The text
/// is cut into pieces of so many bytes, and each cut is moved on past the next line feed. A worker
/// has pieces that lie side by side. The first one's arrays have room for all rows, and the others'
/// rows are added to them in the order of the text.
pub fn spell_shares<R: Threads + Sync>(
    rt: &R,
    alloc: Global,
    width: u32,
    text: &[u8],
    room: usize,
    piece: u64,
    shares: u64,
) -> Result<Spelled, AllocError>
    requires some { 1 ≤ width }
    requires most { width ≤ most_digits }
    requires long { length text.now < 2 ^ 63 }
    requires piece { 1 ≤ piece }
    ensures { IfOk result (λ x. IsSpelledAs x (words_for width) (rows_while width text.now)) }
{
    if shares < 2 {
        return spell(alloc, width, text, room);
    }
    match cut_behind(text, last_share(text.len(), piece, shares)) {
        None => spell_shares(rt, alloc, width, text, room, piece, shares - 1),
        Some((front, back)) => {
            let (one, other) = join(
                rt,
                || -> Result<Spelled, AllocError>
                    requires { IsSync R.row × (1 ≤ width) × (width ≤ most_digits)
                        × (length front.now < 2 ^ 63) × (1 ≤ piece) × (2 ≤ shares) }
                    ensures { IfOk result (λ x. IsSpelledAs x (words_for width)
                        (rows_while width front.entry.now)) }
                { spell_shares(rt, alloc, width, front, room, piece, shares - 1) },
                || -> Result<Spelled, AllocError>
                    requires { (1 ≤ width) × (width ≤ most_digits) }
                    ensures { IfOk result (λ x. IsSpelledAs x (words_for width)
                        (rows_while width back.entry.now)) }
                { spell(alloc, width, back, room_by(count_feeds(back), width, back)) },
            );
            joined(width, front, back, one?, other?)
        }
    }
}

/// What the bytes say, with the rows that are kept, or their first line that is not spelled as it
/// must be. The rows are spelled in pieces of so many bytes, by so many workers, but by fewer if
/// their text is short.
pub fn text_by_shares<'a, R: Threads + Sync>(
    rt: &R,
    alloc: Global,
    bytes: &'a [u8],
    piece: u64,
    workers: u64,
) -> Result<StatedText<'a>, CheckError>
    requires bytes { length bytes.now < 2 ^ 63 }
    requires piece { 1 ≤ piece }
    ensures kept { GivesKept result (text_of bytes.now) }
    ensures few { IfOk result (λ x. x.first + length x.certificate.lines < 2 ^ 63) }
{
    let (front, rest) = front_at(alloc, bytes)?;
    let width = front.spelling.width;
    let room = room_by(count_feeds_by(rt, rest, workers), width, rest);
    let shares = workers_for(rest.len() as u64, BYTES_A_THREAD, workers);
    let spelled = spell_shares(rt, alloc, width, rest, room, piece, shares)?;
    text_by(front, rest, spelled)
}
