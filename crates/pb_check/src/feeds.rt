//! How many line feeds a text has, and how many rows a piece has by them.
ghost use Rattle.std.specs.Thread.{IsSync};
ghost use Rattle.std.specs.Prelude.{◌≡◌, ◌≤◌, ◌<◌, ◌-◌, ◌*◌, length, max};
ghost use Rattle.std.specs.Int.{div_ceil};
ghost use Rattle.pb_lines.specs.Words.{line_feeds};
ghost use Rattle.pb_check.specs.Pieces.{bytes_a_thread};

use crate::sharing::{BYTES_A_THREAD, last_share, workers_for};
use std::thread::{Threads, join};

// How many line feeds a text of fewer than 256 bytes has.
fn count_few_feeds(text: &[u8]) -> u8
    requires { length text.now < 256 }
    ensures { result ≡ line_feeds text.now }
{
    let mut count: u8 = 0;
    for byte in text {
        count += u8::from(*byte == b'\n');
    }
    count
}

/// How many line feeds a text has. They are counted in parts whose numbers fit a byte, since many
/// bytes are then compared and added at once.
pub fn count_feeds(text: &[u8]) -> usize
    ensures { result ≡ line_feeds text.now }
{
    let mut count: usize = 0;
    let mut rest = text;
    while 128 < rest.len() {
        let (part, behind) = rest.split_at(128);
        count += usize::from(count_few_feeds(part));
        rest = behind;
    }
    count + usize::from(count_few_feeds(rest))
}

// The same by so many workers, each in a thread of its own. Each has text enough.
fn count_feeds_by_shares<R: Threads + Sync>(rt: &R, text: &[u8], shares: u64) -> usize
    requires worth { 2 ≤ shares → shares * bytes_a_thread ≤ length text.now }
    ensures { result ≡ line_feeds text.now }
{
    if shares < 2 {
        return count_feeds(text);
    }
    let (front, back) = text.split_at(last_share(0, text.len() as u64, shares) as usize);
    let (one, other) = join(
        rt,
        || -> usize
            requires { IsSync R.row × (2 ≤ shares)
                × ((shares - 1) * bytes_a_thread ≤ length front.now) }
            ensures { result ≡ line_feeds front.entry.now }
        { count_feeds_by_shares(rt, front, shares - 1) },
        || -> usize
            requires { bytes_a_thread ≤ length back.now }
            ensures { result ≡ line_feeds back.entry.now }
        { count_feeds(back) },
    );
    one + other
}

/// How many line feeds a text has. They are counted by so many workers, each in a thread of its
/// own, but by fewer if the text is short.
pub fn count_feeds_by<R: Threads + Sync>(rt: &R, text: &[u8], workers: u64) -> usize
    ensures { result ≡ line_feeds text.now }
{
    let shares = workers_for(text.len() as u64, BYTES_A_THREAD, workers);
    count_feeds_by_shares(rt, text, shares)
}

/// How many rows a piece has, so that each of so many workers gets at most one piece: the text's
/// line feeds divided by the workers, rounded up, and at least one. No certificate has more rows
/// than line feeds.
pub fn piece_for<R: Threads + Sync>(rt: &R, bytes: &[u8], workers: u64) -> u64
    requires { 1 ≤ workers }
    ensures { result ≡ max 1 (div_ceil (line_feeds bytes.now) workers) }
{
    let lines = count_feeds_by(rt, bytes, workers) as u64;
    1u64.max(lines.div_ceil(workers))
}
