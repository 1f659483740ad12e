//! Runs for which grounding has looked at rows before.
use pb_run::{Looks, MOST_LOOKS};

// How many looks are taken already, by a command line that begins with `looked N`.
fn taken(words: &[String]) -> Option<u64> {
    if words.first()?.as_str() != "looked" {
        return None;
    }
    words.get(1)?.as_str().parse::<u64>().ok()
}

/// The looks that are taken already, and the words after those that say so.
pub(crate) fn looked(words: &[String]) -> (Looks, &[String]) {
    match taken(words) {
        Some(taken) if taken <= MOST_LOOKS => {
            (Looks::after(taken), words.get(2..).unwrap_or(&[]))
        }
        _ => (Looks::new(), words),
    }
}
