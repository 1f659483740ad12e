//! How many workers share some work, and which part of it the last one has.
ghost use Rattle.std.specs.Prelude.{◌≡◌, ◌≤◌, ◌-◌, ◌*◌, ◌/◌, ℕ, min, max};

/// Fewer rows aren't worth a thread of their own.
pub const ROWS_A_THREAD: u64 = 1024;

/// Fewer bytes of text aren't worth a thread of their own.
pub const BYTES_A_THREAD: u64 = 65536;

/// How many of so many workers share so many things. Each has at least `least` of them, since fewer
/// aren't worth a thread. If there are too few for two, one worker has them all.
pub fn workers_for(things: u64, least: u64, workers: u64) -> u64
    requires { 1 ≤ least }
    ensures exact { result ≡ max 1 (min workers (things / least)) }
    ensures worth { 2 ≤ result → result * least ≤ things }
{
    1u64.max(workers.min(things / least))
}

/// Where the last of so many shares of some places begins. The other shares lie before it.
pub fn last_share(from: u64, to: u64, shares: u64) -> u64
    requires range { from ≤ to }
    requires shares { 1 ≤ shares }
    ensures from { from ≤ result }
    ensures to { result ≤ to }
    // If there are so many places a share, the last share has as many, and the others together too.
    ensures last { (least : ℕ) → shares * least ≤ to - from → least ≤ to - result }
    ensures others { (least : ℕ) → shares * least ≤ to - from
        → (shares - 1) * least ≤ result - from }
{
    to - (to - from) / shares
}
