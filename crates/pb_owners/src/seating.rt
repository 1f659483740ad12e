//! A pass for each owner.
ghost use Rattle.std.specs.Prelude.{◌≡◌, ◌<◌, OnOk, length};
ghost use Rattle.pb_mail.specs.Passes.{owners_of};
ghost use Rattle.pb_owners.specs.Seats.{EachPair};
ghost use Rattle.pb_owners.specs.Passing.{IsSplitting, HasSeat};

use crate::seat::Seat;
use pb_mail::{LetterRule, Post, PostPass};
use std::alloc::{AllocError, Global};

/// Gives each owner its pass. Those of the others are split from the first one. An error is out of
/// memory.
pub fn give_passes<K: LetterRule>(
    alloc: Global,
    post: &Post<K>,
    first: PostPass,
    seats: &mut [Seat],
) -> Result<(), AllocError>
    requires splitting { IsSplitting post.now 1 first }
    requires many { length seats.old ≡ owners_of post.now }
    requires some { 0 < owners_of post.now }
    ensures { OnOk result (EachPair (HasSeat post.now) seats.old seats.new) }
{
    let mut first = first;
    for at in 1..seats.len() {
        match post.split(alloc, &mut first) {
            Ok(pass) => seats[at].pass = Some(pass),
            Err(error) => return Err(error),
        }
    }
    seats[0].pass = Some(first);
    Ok(())
}
