//! The quotas of a round, and what was used of them.
ghost use Rattle.std.specs.Prelude.{◌≡◌, ◌≤◌, min, length};
ghost use Rattle.pb_model.specs.Store.{HasOpened};
ghost use Rattle.pb_lists.specs.Bundle.{row_of};
ghost use Rattle.pb_hashed.specs.Laws.{sum_below};
ghost use Rattle.pb_owners.specs.Seats.{EachPair, quota_at, used_at};
ghost use Rattle.pb_owners.specs.Rounds.{IsDrawn, AreLow};

use crate::seat::Seat;

// The lot, or what is left of it, if the owner has an Opened row.
fn quota_for(seat: &Seat, lot: u64, rest: u64) -> u64
    ensures opened { HasOpened (row_of seat.now.share.bundle) → result ≡ min lot rest }
    ensures none { (HasOpened (row_of seat.now.share.bundle) → ⊥) → result ≡ 0 }
    ensures within { result ≤ rest }
{
    if seat.has_opened() { lot.min(rest) } else { 0 }
}

/// Draws the lot, or what is left of it, for each owner that has an Opened row, in order of their
/// numbers, and nothing for each other one.
pub fn draw(seats: &mut [Seat], lot: u64, left: u64)
    ensures drawn { EachPair (IsDrawn lot left seats.new) seats.old seats.new }
    ensures within { sum_below (length seats.new) (quota_at seats.new) ≤ left }
{
    let mut rest = left;
    for at in 0..seats.len() {
        let quota = quota_for(&seats[at], lot, rest);
        rest -= quota;
        seats[at].quota = quota;
    }
}

/// How many rows the owners expanded in all.
pub fn used(seats: &[Seat]) -> u64
    requires few { length seats.now ≤ 64 }
    requires low { AreLow seats.now }
    ensures { result ≡ sum_below (length seats.now) (used_at seats.now) }
{
    let mut used = 0u64;
    for at in 0..seats.len() {
        used += seats[at].used;
    }
    used
}
