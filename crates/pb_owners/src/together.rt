//! All owners at once, each in a thread of its own if it has much to do and a thread can be made.
ghost use Rattle.std.specs.Prelude.{◌≡◌, ◌<◌, ◌≤◌, ◌^◌, length};
ghost use Rattle.pb_owners.specs.Plans.{IsPlan};
ghost use Rattle.pb_owners.specs.Seats.{Each, EachPair};
ghost use Rattle.pb_owners.specs.Passing.{HasPassOf, HasLooked};
ghost use Rattle.pb_owners.specs.Rounds.{IsPostOf, IsReady, HasBegun, HasLeft, HasTaken};

use crate::forking::{Busy, for_each_owner};
use crate::part::{begin, end};
use crate::seat::Seat;
use pb_mail::{LetterRule, Post};
use pb_outside::Gate;
use pb_owner::Plan;
use std::sync::Wait;
use std::thread::Threads;

// The owners that may expand rows. One without a quota only cuts rows and takes goals, and one
// without an Opened row does nothing.
fn with_quota(seats: &[Seat]) -> Busy
    requires { length seats.now ≤ 64 }
{
    let mut busy = [false; 64];
    for at in 0..seats.len() {
        busy[at] = seats[at].quota > 0;
    }
    busy
}

// Whether the owner's queue has a letter, once all have sent theirs.
fn has_letters<K: LetterRule>(post: &Post<K>, seat: &mut Seat) -> bool
    requires { HasPassOf post.now seat.old }
    ensures { HasLooked post.now seat.old seat.new }
{
    match &mut seat.pass {
        Some(pass) => !post.is_empty(pass),
        None => unreachable!(),
    }
}

// The owners that have letters to take in.
fn with_letters<K: LetterRule>(post: &Post<K>, seats: &mut [Seat]) -> Busy
    requires few { length seats.old ≤ 64 }
    requires passes { Each (λ i. HasPassOf post.now) seats.old }
    ensures { EachPair (λ i. HasLooked post.now) seats.old seats.new }
{
    let mut busy = [false; 64];
    for at in 0..seats.len() {
        busy[at] = has_letters(post, &mut seats[at]);
    }
    busy
}

/// All owners work at once, and are joined. One without a quota gets no thread of its own.
pub fn begin_all<K: LetterRule + Send + Sync, R: Threads + Wait + Sync, G: Gate>(
    rt: &R,
    plan: &Plan,
    gate: &G,
    post: &Post<K>,
    seats: &mut [Seat],
)
    requires plan { IsPlan plan.now }
    requires post { IsPostOf plan.now K.fits post.now }
    requires many { length seats.old ≡ plan.now.owners }
    requires ready { Each (IsReady plan.now post.now) seats.old }
    ensures { EachPair (HasBegun plan.now post.now) seats.old seats.new }
{
    let part = |i: usize, seat: &mut Seat|
        requires { (i < 2 ^ 32) × IsPlan plan.now × IsPostOf plan.now K.fits post.now
            × IsReady plan.now post.now i seat.now }
        ensures { HasBegun plan.entry.now post.entry.now i seat.entry.now seat.exit.now }
    { begin(rt, plan, gate, post, i as u32, seat) };
    let busy = with_quota(seats);
    for_each_owner(rt, &part, &busy, seats);
}

/// All owners take letters in at once, and are joined. One without letters gets no thread of its
/// own.
pub fn end_all<K: LetterRule + Send + Sync, R: Threads + Wait + Sync, G: Gate>(
    rt: &R,
    plan: &Plan,
    gate: &G,
    post: &Post<K>,
    seats: &mut [Seat],
)
    requires plan { IsPlan plan.now }
    requires post { IsPostOf plan.now K.fits post.now }
    requires many { length seats.old ≡ plan.now.owners }
    requires ready { Each (HasLeft plan.now post.now) seats.old }
    ensures { EachPair (HasTaken plan.now post.now) seats.old seats.new }
{
    let part = |i: usize, seat: &mut Seat|
        requires { (i < 2 ^ 32) × IsPlan plan.now × IsPostOf plan.now K.fits post.now
            × HasLeft plan.now post.now i seat.now }
        ensures { HasTaken plan.entry.now post.entry.now i seat.entry.now seat.exit.now }
    { end(rt, plan, gate, post, i as u32, seat) };
    let busy = with_letters(post, seats);
    for_each_owner(rt, &part, &busy, seats);
}
