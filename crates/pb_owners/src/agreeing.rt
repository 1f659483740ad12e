//! One incumbent for all owners.
ghost use Rattle.std.specs.Prelude.{◌≡◌, length};
ghost use Rattle.pb_model.specs.Store.{lesser};
ghost use Rattle.pb_hashed.specs.Mailed.{least_of};
ghost use Rattle.pb_owners.specs.Seats.{EachPair};
ghost use Rattle.pb_owners.specs.Shares.{seat_at};
ghost use Rattle.pb_owners.specs.Rounds.{HasIncumbent};

use crate::seat::Seat;

// The lesser of two costs, of which one or both may be unknown.
fn lesser(first: Option<u64>, second: Option<u64>) -> Option<u64>
    ensures { result ≡ lesser first second }
{
    match (first, second) {
        (None, other) => other,
        (Some(cost), None) => Some(cost),
        (Some(cost), Some(other)) => Some(cost.min(other)),
    }
}

// The least of the owners' copies of the incumbent.
fn least(seats: &[Seat]) -> Option<u64>
    ensures { result ≡ least_of (length seats.now) (seat_at seats.now) }
{
    let mut least = None;
    for at in 0..seats.len() {
        least = lesser(least, seats[at].share.incumbent);
    }
    least
}

/// All copies of the incumbent become the least of them.
pub fn agree(seats: &mut [Seat])
    ensures { EachPair (HasIncumbent (least_of (length seats.old) (seat_at seats.old)))
        seats.old seats.new }
{
    let least = least(seats);
    for at in 0..seats.len() {
        seats[at].share.incumbent = least;
    }
}
