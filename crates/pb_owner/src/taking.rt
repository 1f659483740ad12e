//! Taking letters in.
ghost use Rattle.std.specs.Prelude.{◌≡◌, ◌<◌, ◌++◌, ◌∷◌, List, [], IsTrue, OnOk, OnErr, ℕ};
ghost use Rattle.pb_estimate.specs.Tables.{IsOfTask};
ghost use Rattle.pb_mail.specs.declared.letter.Sent.{Sent};
ghost use Rattle.pb_mail.specs.Rule.{AreWhole};
ghost use Rattle.pb_mail.specs.Passes.{IsPassOf, owners_of, view_at};
ghost use Rattle.pb_mail.specs.Posted.{HasPosted};
ghost use Rattle.pb_owner.specs.Plans.{space_in};
ghost use Rattle.pb_owner.specs.Taking.{HasTakenIn, KeepsQueues};

use crate::expanding::offer;
use crate::plan::Plan;
use crate::share::Share;
use pb_estimate::Estimator;
use pb_mail::{LetterRule, Post, PostPass};
use std::alloc::AllocError;
use std::sync::Wait;

/// Takes letters from the owner's queue until it is found empty, and offers their states to the
/// owner's rows. If memory runs out, the last letter's state wasn't offered.
pub fn take_in<K: LetterRule, R: Wait>(
    rt: &R,
    plan: &Plan,
    estimator: &mut Estimator,
    share: &mut Share,
    post: &Post<K>,
    pass: &mut PostPass,
) -> Result<(), AllocError>
    requires tables { IsOfTask estimator.old plan.now.task.now plan.now.choice.now }
    requires own { IsPassOf post.now pass.old }
    requires states { (state : ℕ) → IsTrue (K.fits state)
        → IsTrue ((space_in plan.now).is_state state) }
    ensures taken { OnOk result ((takes : List Sent) × HasPosted post.now pass.old pass.new [] takes
        × HasTakenIn plan.now.task.now plan.now.choice.now takes share.old share.new) }
    ensures broken { OnErr result ((takes : List Sent) × (last : Sent)
        × HasPosted post.now pass.old pass.new [] (takes ++ last ∷ [])
        × HasTakenIn plan.now.task.now plan.now.choice.now takes share.old share.new) }
    ensures tables { IsOfTask estimator.new plan.now.task.now plan.now.choice.now }
{
    // `forever` marks a loop whose end isn't proved.
    for _ in rt.forever() {
        match post.take(rt, pass) {
            Some((_, letter)) => {
                match offer(plan, estimator, share, &letter) {
                    Ok(()) => {}
                    Err(error) => return Err(error),
                }
            }
            None => return Ok(()),
        }
    }
    unreachable!()
}

/// The same from any owner's queue, once that owner's pass was met.
pub fn take_left<K: LetterRule, R: Wait>(
    rt: &R,
    plan: &Plan,
    estimator: &mut Estimator,
    share: &mut Share,
    post: &Post<K>,
    pass: &mut PostPass,
    owner: u32,
) -> Result<(), AllocError>
    requires tables { IsOfTask estimator.old plan.now.task.now plan.now.choice.now }
    requires own { IsPassOf post.now pass.old }
    requires below { owner < owners_of post.now }
    requires takes { IsTrue (view_at pass.old owner).takes }
    requires states { (state : ℕ) → IsTrue (K.fits state)
        → IsTrue ((space_in plan.now).is_state state) }
    ensures own { IsPassOf post.now pass.new }
    ensures kept { KeepsQueues owner pass.old pass.new }
    ensures taken { OnOk result ((takes : List Sent)
        × ((view_at pass.new owner).taken ≡ (view_at pass.old owner).taken ++ takes)
        × HasTakenIn plan.now.task.now plan.now.choice.now takes share.old share.new) }
    ensures whole { OnOk result (AreWhole (view_at pass.new owner)) }
    ensures broken { OnErr result ((takes : List Sent) × (last : Sent)
        × ((view_at pass.new owner).taken ≡ (view_at pass.old owner).taken ++ (takes ++ last ∷ []))
        × HasTakenIn plan.now.task.now plan.now.choice.now takes share.old share.new) }
    ensures tables { IsOfTask estimator.new plan.now.task.now plan.now.choice.now }
{
    for _ in rt.forever() {
        match post.clear_next(rt, pass, owner) {
            Some((_, letter)) => {
                match offer(plan, estimator, share, &letter) {
                    Ok(()) => {}
                    Err(error) => return Err(error),
                }
            }
            None => return Ok(()),
        }
    }
    unreachable!()
}
