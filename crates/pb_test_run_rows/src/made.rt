//! The texts of made tasks, and the lines of what comes out of them.
use crate::lines::Lines;
use pb_check::Claim;
use pb_make::{blocks_domain, make_map, make_problem, make_scen, make_tiles};
use pb_outside::Memory;
use pb_report::Report;
use std::alloc::Global;

// The number that a word spells.
fn number(words: &[String], i: usize) -> Option<u32> {
    words.get(i)?.as_str().parse::<u32>().ok()
}

// The bytes of a made text, if its size is in range.
fn bytes_of(alloc: Global, word: &str, seed: u32, size: u32) -> Result<Option<Vec<u8>>, Memory> {
    let bytes = match word {
        "made-map" if 1 <= size && size <= 2048 => make_map(alloc, seed, size),
        "made-scenario" if 1 <= size && size <= 2048 => make_scen(alloc, size),
        "made-board" if size <= 1_000_000 => make_tiles(alloc, seed, size),
        "made-problem" if 1 <= size && size <= 14 => make_problem(alloc, seed, size),
        "made-domain" => blocks_domain().to_vec(alloc),
        _ => return Ok(None),
    };
    Ok(Some(bytes?))
}

// The number of 64 bits that a word spells.
fn long_number(words: &[String], i: usize) -> Option<u64> {
    words.get(i)?.as_str().parse::<u64>().ok()
}

/// The line of an accepted plan if there are a cost and a bound, of a stop if there is a budget, or
/// else of no plan.
pub(crate) fn made_line(alloc: Global, words: &[String]) -> Result<Option<Lines>, Memory> {
    let line = match (long_number(words, 1), long_number(words, 2)) {
        (Some(cost), Some(bound)) => Report::of_made(alloc, &Claim::Bounded { cost, bound })?,
        (Some(budget), None) => Report::of_stop(alloc, budget)?,
        (None, _) => Report::of_made(alloc, &Claim::Unsolvable)?,
    };
    let mut lines = Lines::new(alloc);
    lines.bytes(line.as_slice())?;
    Ok(Some(lines))
}

/// The text that is made of a seed and a size.
pub(crate) fn made_text(alloc: Global, words: &[String]) -> Result<Option<Lines>, Memory> {
    let (Some(word), Some(seed), Some(size)) = (words.first(), number(words, 1), number(words, 2))
    else {
        return Ok(None);
    };
    let Some(bytes) = bytes_of(alloc, word.as_str(), seed, size)? else {
        return Ok(None);
    };
    let mut lines = Lines::new(alloc);
    lines.bytes(bytes.as_slice())?;
    Ok(Some(lines))
}
