//! Taking in what is left, once all passes were met.
ghost use Rattle.std.specs.Prelude.{◌≡◌, ◌≤◌, OnOk, length};
ghost use Rattle.pb_mail.specs.Passes.{IsPassOf};
ghost use Rattle.pb_owners.specs.Plans.{HasTools};
ghost use Rattle.pb_owners.specs.Seats.{Each, EachPair};
ghost use Rattle.pb_owners.specs.Rounds.{IsPostOf, IsCleared};
ghost use Rattle.pb_owners.specs.Passing.{KeepsSent, MayTakeAll};

use crate::seat::Seat;
use pb_mail::{LetterRule, Post, PostPass};
use pb_owner::{Plan, take_left};
use std::alloc::AllocError;
use std::sync::Wait;

/// Takes all letters that are left in all queues, each for its owner. An error is out of memory.
pub fn clear<K: LetterRule, R: Wait>(
    rt: &R,
    plan: &Plan,
    post: &Post<K>,
    pass: &mut PostPass,
    seats: &mut [Seat],
) -> Result<(), AllocError>
    requires post { IsPostOf plan.now K.fits post.now }
    requires many { length seats.old ≡ plan.now.owners }
    requires few { plan.now.owners ≤ 64 }
    requires own { IsPassOf post.now pass.old }
    requires takes { MayTakeAll post.now pass.old }
    requires tools { Each (λ i. HasTools plan.now) seats.old }
    ensures own { OnOk result (IsPassOf post.now pass.new) }
    ensures kept { OnOk result (KeepsSent pass.old pass.new) }
    ensures cleared { OnOk result (EachPair (IsCleared plan.now pass.old pass.new)
        seats.old seats.new) }
{
    for at in 0..seats.len() {
        let Seat {
            share,
            estimator,
            ..
        } = &mut seats[at];
        match take_left(rt, plan, estimator, share, post, pass, at as u32) {
            Ok(()) => {}
            Err(error) => return Err(error),
        }
    }
    Ok(())
}
