//! The expansion of a row: a successor that the owner has itself is offered at once, and each other
//! one by a letter to its owner.
ghost use Rattle.std.specs.Prelude.{◌≡◌, ◌<◌, ◌≤◌, ◌-◌, ◌==◌, ◌^◌, ℕ, Some, IsTrue, OnOk, OnErr, length, take, if◌then◌else◌, vec_capacity};
ghost use Rattle.pb_model.specs.Space.{steps, IsProper};
ghost use Rattle.pb_model.specs.Store.{HasOpened};
ghost use Rattle.pb_model.specs.Work.{offered_row};
ghost use Rattle.pb_lists.specs.Bundle.{row_of};
ghost use Rattle.pb_task.specs.Parts.{greatest_cost, max_degree_of};
ghost use Rattle.pb_estimate.specs.Estimates.{estimate_by};
ghost use Rattle.pb_estimate.specs.Tables.{IsOfTask};
ghost use Rattle.pb_abstract.specs.Graph.{IsGraphOf};
ghost use Rattle.pb_mail.specs.Passes.{IsPassOf, owners_of};
ghost use Rattle.pb_owner.specs.Shares.{AreOwnWithin, IsNextRow};
ghost use Rattle.pb_owner.specs.Plans.{space_in, guide_in, weight_in};
ghost use Rattle.pb_owner.specs.Expanding.{HasOffered, HasExpanded};

use crate::plan::{Plan, Round};
use crate::share::Share;
use pb_estimate::Estimator;
use pb_mail::{Letter, LetterRule, PostPass};
use pb_model::{Row, Succ};
use pb_packed::Packed;
use std::alloc::AllocError;
use std::sync::Wait;

/// Offers the state of a letter to the owner's rows. A state that has a row keeps that row's
/// estimate, and any other gets the task's. If memory runs out, the share is as it was.
pub fn offer(
    plan: &Plan,
    estimator: &mut Estimator,
    share: &mut Share,
    letter: &Letter,
) -> Result<(), AllocError>
    requires tables { IsOfTask estimator.old plan.now.task.now plan.now.choice.now }
    requires state { IsTrue ((space_in plan.now).is_state letter.now.state) }
    ensures rows { OnOk result ((other : ℕ) → row_of share.new.bundle other
        ≡ (if other == letter.now.state
        then Some (offered_row letter.now.g
        (estimate_by plan.now.task.now plan.now.choice.now letter.now.state)
        (Some letter.now.parent) letter.now.action (row_of share.old.bundle other))
        else row_of share.old.bundle other)) }
    ensures weight { share.new.bundle.weight ≡ share.old.bundle.weight }
    ensures incumbent { share.new.incumbent ≡ share.old.incumbent }
    ensures err { OnErr result (share.new ≡ share.old) }
    ensures tables { IsOfTask estimator.new plan.now.task.now plan.now.choice.now }
{
    let Letter {
        state,
        g,
        parent,
        action,
    } = letter;
    match share.bundle.place_of(state) {
        // The row keeps its estimate, which need not be computed again.
        Some(place) => match share.bundle.offer_at(place, *g, Some(parent), *action) {
            Ok(_) => Ok(()),
            Err(error) => Err(error),
        },
        None => {
            let estimate = estimator.estimate(plan.task, state);
            share
                .bundle
                .offer_new(state, *g, estimate, Some(parent), *action)
        }
    }
}

// Offers the successors of a row, one after another. If memory runs out, only the first of them
// were offered.
fn offer_all<K: LetterRule, R: Wait>(
    rt: &R,
    round: &Round<K>,
    estimator: &mut Estimator,
    share: &mut Share,
    succs: &[Succ],
    pass: &mut PostPass,
    parent: &(Packed, Row),
) -> Result<(), AllocError>
    requires tables { IsOfTask estimator.old round.now.plan.now.task.now
        round.now.plan.now.choice.now }
    requires of_task { IsGraphOf round.now.plan.now.task.now round.now.plan.now.abstraction.now }
    requires proper { IsProper (space_in round.now.plan.now) greatest_cost }
    requires succs { succs.now ≡ steps (space_in round.now.plan.now) parent.now.0 }
    requires cheap { parent.now.1.g < 2 ^ 61 }
    requires own { IsPassOf round.now.post.now pass.old }
    requires owners { owners_of round.now.post.now ≡ round.now.plan.now.owners }
    requires some { 0 < round.now.plan.now.owners }
    requires fits { (state : ℕ) → IsTrue ((space_in round.now.plan.now).is_state state)
        → IsTrue (K.fits state) }
    ensures offers { OnOk result (HasOffered (guide_in round.now.plan.now) round.now.number
        parent.now.0 parent.now.1.g succs.now round.now.post.now share.old share.new pass.old
        pass.new) }
    ensures broken { OnErr result ((count : ℕ) × (count < length succs.now)
        × HasOffered (guide_in round.now.plan.now) round.now.number parent.now.0 parent.now.1.g
        (take count succs.now) round.now.post.now share.old share.new pass.old pass.new) }
    ensures tables { IsOfTask estimator.new round.now.plan.now.task.now
        round.now.plan.now.choice.now }
{
    let plan = round.plan;
    for succ in succs {
        let letter = Letter {
            state: succ.state,
            g: parent.1.g + succ.cost,
            parent: parent.0,
            action: succ.action,
        };
        let to = plan.abstraction.block(plan.task, &succ.state) % plan.owners;
        if to == round.number {
            match offer(plan, estimator, share, &letter) {
                Ok(()) => {}
                Err(error) => return Err(error),
            }
        } else {
            match round.post.send(rt, pass, to, letter) {
                Ok(()) => {}
                Err(_) => return Err(AllocError),
            }
        }
    }
    Ok(())
}

/// Expands the first Opened row: its successors are offered, and it is Closed. If memory runs out,
/// only the first of them were offered, and the row is still Opened. The list is for successors
/// alone.
pub fn expand<K: LetterRule, R: Wait>(
    rt: &R,
    round: &Round<K>,
    estimator: &mut Estimator,
    share: &mut Share,
    succs: &mut Vec<Succ>,
    pass: &mut PostPass,
    next: &(Packed, Row),
) -> Result<(), AllocError>
    requires tables { IsOfTask estimator.old round.now.plan.now.task.now
        round.now.plan.now.choice.now }
    requires of_task { IsGraphOf round.now.plan.now.task.now round.now.plan.now.abstraction.now }
    requires proper { IsProper (space_in round.now.plan.now) greatest_cost }
    requires room { max_degree_of round.now.plan.now.task.now ≤ vec_capacity succs.old }
    requires within { AreOwnWithin (space_in round.now.plan.now) (guide_in round.now.plan.now)
        round.now.number (2 ^ 61 - 1) (row_of share.old.bundle) }
    requires next { IsNextRow (space_in round.now.plan.now) (weight_in round.now.plan.now)
        share.old next.now.0 next.now.1 }
    requires own { IsPassOf round.now.post.now pass.old }
    requires owners { owners_of round.now.post.now ≡ round.now.plan.now.owners }
    requires some { 0 < round.now.plan.now.owners }
    requires fits { (state : ℕ) → IsTrue ((space_in round.now.plan.now).is_state state)
        → IsTrue (K.fits state) }
    ensures expanded { OnOk result (HasExpanded (space_in round.now.plan.now)
        (guide_in round.now.plan.now) (weight_in round.now.plan.now) round.now.number 1 0
        round.now.post.now share.old share.new pass.old pass.new) }
    ensures broken { OnErr result (HasExpanded (space_in round.now.plan.now)
        (guide_in round.now.plan.now) (weight_in round.now.plan.now) round.now.number 0 1
        round.now.post.now share.old share.new pass.old pass.new) }
    ensures opened { OnErr result (HasOpened (row_of share.new.bundle)) }
    ensures weight { share.new.bundle.weight ≡ share.old.bundle.weight }
    ensures tables { IsOfTask estimator.new round.now.plan.now.task.now
        round.now.plan.now.choice.now }
    ensures room { vec_capacity succs.old ≤ vec_capacity succs.new }
{
    estimator.successors(round.plan.task, &next.0, succs);
    match offer_all(rt, round, estimator, share, succs.as_slice(), pass, next) {
        Ok(()) => {
            // Only now: a row whose successors weren't all offered must be expanded again.
            share.bundle.close_row(&next.0);
            Ok(())
        }
        Err(error) => Err(error),
    }
}
