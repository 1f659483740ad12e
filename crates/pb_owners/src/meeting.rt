//! The first pass takes in all others.
ghost use Rattle.std.specs.Prelude.{◌≡◌, ◌<◌, Some, IsSome, length};
ghost use Rattle.pb_mail.specs.Passes.{owners_of};
ghost use Rattle.pb_owners.specs.Seats.{Each, EachPair};
ghost use Rattle.pb_owners.specs.Passing.{IsToMeet, IsWithoutPass, HasMetAll};

use crate::seat::Seat;
use pb_mail::{LetterRule, Post, PostPass};

// Takes the pass from a seat.
fn pass_of(seat: &mut Seat) -> PostPass
    requires { IsSome seat.old.pass }
    ensures pass { seat.old.pass ≡ Some result }
    ensures rest { IsWithoutPass seat.old seat.new }
{
    match seat.pass.take() {
        Some(pass) => pass,
        // Each owner has got its pass in this round.
        None => unreachable!(),
    }
}

/// The pass of owner 0, after it took in those of all other owners.
pub fn meet_all<K: LetterRule>(post: &Post<K>, seats: &mut [Seat]) -> PostPass
    requires many { length seats.old ≡ owners_of post.now }
    requires some { 0 < owners_of post.now }
    requires to_meet { Each (IsToMeet post.now) seats.old }
    ensures met { HasMetAll post.now seats.old result }
    ensures rest { EachPair (λ i. IsWithoutPass) seats.old seats.new }
{
    let mut pass = pass_of(&mut seats[0]);
    for at in 1..seats.len() {
        let other = pass_of(&mut seats[at]);
        post.meet(&mut pass, other);
    }
    pass
}
