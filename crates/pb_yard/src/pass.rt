//! What one worker carries.
ghost use Rattle.std.specs.Prelude.{◌≡◌, ◌+◌, ◌<◌, ◌%◌, ◌^◌, IsTrue, length};
ghost use Rattle.pb_turn.specs.Passes.{view, parts, whole, IsResting};
ghost use Rattle.pb_machine.specs.Settings.{AreInRange};

use crate::rule::YardRule;

/// What one worker carries: its number, and what it knows of the yard. It never holds the graph
/// between two calls. A pass that is dropped is never met, so that its yard can't be closed any
/// more.
#[derive(Drop)]
pub struct Pass {
    pub(crate) turn: pb_turn::Pass<YardRule>,
    pub(crate) worker: u32,
    // how many passes were made, as far as this pass counts them, modulo 2^32: there are 64 at most
    pub(crate) made: u32,
    pub(crate) seen: u64,
    // the least cost that it has read or reported
    pub(crate) last: Option<u64>,
    // the incumbent of the graph that the yard began with
    pub(crate) first: Option<u64>,
    ghost is_live: { IsTrue (view turn).journal.is_live },
    ghost worker_is: { (view turn).journal.own.worker ≡ worker },
    ghost made_is: { made ≡ (view turn).journal.made % 2 ^ 32 },
    ghost seen_is: { length (view turn).journal.seen ≡ seen },
    ghost last_is: { (view turn).last ≡ last },
    ghost first_is: { (view turn).begin.incumbent ≡ first },
    ghost in_range: { AreInRange (view turn).settings },
    ghost counts: { worker ≡ 0 → 0 < (view turn).journal.made },
    ghost has_parts: { worker ≡ 0 → whole < parts turn + (view turn).journal.made },
    ghost rests: { IsResting turn },
}
