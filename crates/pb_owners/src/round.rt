//! A round.
ghost use Rattle.std.specs.Prelude.{◌≡◌, ℕ, false, IfOk};
ghost use Rattle.pb_owner.specs.Plans.{space_in};
ghost use Rattle.pb_owners.specs.Plans.{IsPlan};
ghost use Rattle.pb_owners.specs.Passing.{IsSplitting};
ghost use Rattle.pb_owners.specs.Rounds.{IsPostOf, IsToRun, HasRun, IsToRound, HasRounded, NoneFailed};

use crate::agreeing::agree;
use crate::clearing::clear;
use crate::drawing::{draw, used};
use crate::meeting::meet_all;
use crate::seat::Seat;
use crate::seating::give_passes;
use crate::together::{begin_all, end_all};
use pb_mail::{LetterRule, Post, PostPass};
use pb_outside::Gate;
use pb_owner::Plan;
use std::alloc::{AllocError, Global};
use std::sync::Wait;
use std::thread::Threads;

// Whether memory ran out in an owner's part.
fn any_failed(seats: &[Seat]) -> bool
    ensures { result ≡ false → NoneFailed seats.now }
{
    for at in 0..seats.len() {
        if seats[at].failed {
            return true;
        }
    }
    false
}

// A round of owners that have their quotas, with the first pass of a new post.
fn run_with<K: LetterRule + Send + Sync, R: Threads + Wait + Sync, G: Gate>(
    rt: &R,
    alloc: Global,
    plan: &Plan,
    gate: &G,
    post: &Post<K>,
    pass: PostPass,
    seats: &mut [Seat],
) -> Result<u64, AllocError>
    requires plan { IsPlan plan.now }
    requires post { IsPostOf plan.now K.fits post.now }
    requires splitting { IsSplitting post.now 1 pass }
    requires to_run { IsToRun plan.now seats.old }
    ensures { IfOk result (λ used. HasRun plan.now used seats.old seats.new) }
{
    give_passes(alloc, post, pass, seats)?;
    begin_all(rt, plan, gate, post, seats);
    if any_failed(seats) {
        return Err(AllocError);
    }
    // All letters were sent before any owner takes letters in.
    end_all(rt, plan, gate, post, seats);
    if any_failed(seats) {
        return Err(AllocError);
    }
    let mut pass = meet_all(post, seats);
    clear(rt, plan, post, &mut pass, seats)?;
    agree(seats);
    Ok(used(seats))
}

/// A round: all owners work within their quotas and send letters, and then all take letters in.
/// What is left is taken in here, and all copies of the incumbent become the least of them. Answers
/// how many rows were expanded. An error is out of memory.
pub fn run_round<K: LetterRule + Send + Sync, R: Threads + Wait + Sync, G: Gate>(
    rt: &R,
    alloc: Global,
    plan: &Plan,
    gate: &G,
    seats: &mut [Seat],
    lot: u64,
    left: u64,
) -> Result<u64, AllocError>
    requires plan { IsPlan plan.now }
    requires rule { (state : ℕ) → K.fits state ≡ (space_in plan.now).is_state state }
    requires ready { IsToRound plan.now left seats.old }
    ensures { IfOk result (λ used. HasRounded plan.now lot left used seats.old seats.new) }
{
    draw(seats, lot, left);
    let (post, pass) = Post::<K>::new(alloc, plan.owners)?;
    let result = run_with(rt, alloc, plan, gate, &post, pass, seats);
    // A post isn't dropped: it is closed whether or not memory ran out.
    post.close();
    result
}
