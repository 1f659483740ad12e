//! What an owner does before it takes anything in.
ghost use Rattle.std.specs.Prelude.{◌≡◌, ◌+◌, ◌*◌, ◌<◌, ◌≤◌, ◌^◌, ◌↔◌, ℕ, IsTrue, vec_capacity};
ghost use Rattle.pb_model.specs.declared.row.Row.{Row};
ghost use Rattle.pb_model.specs.Space.{IsProper};
ghost use Rattle.pb_model.specs.Weight.{IsWeight};
ghost use Rattle.pb_model.specs.Store.{HasOpened};
ghost use Rattle.pb_lists.specs.Bundle.{row_of};
ghost use Rattle.pb_task.specs.Parts.{greatest_cost, max_degree_of};
ghost use Rattle.pb_estimate.specs.Tables.{IsOfTask};
ghost use Rattle.pb_abstract.specs.Graph.{IsGraphOf};
ghost use Rattle.pb_mail.specs.Passes.{IsPassOf, owners_of};
ghost use Rattle.pb_owner.specs.Shares.{AreOwnWithin, IsNextRow};
ghost use Rattle.pb_owner.specs.Plans.{space_in, guide_in, weight_in};
ghost use Rattle.pb_owner.specs.Expanding.{HasExpanded};
ghost use Rattle.pb_owner.specs.Working.{broken_at};
ghost use Rattle.pb_owner.specs.declared.working.WorkEnd.TheVariants.{Spent, Empty, Memory};

use crate::expanding::expand;
use crate::plan::Round;
use crate::settling::settle;
use crate::share::Share;
use pb_estimate::Estimator;
use pb_mail::{LetterRule, PostPass};
use pb_model::Succ;
use std::sync::Wait;

/// Why an owner's work ended.
#[derive(Clone, Copy, Debug, PartialEq, Eq)]
pub enum WorkEnd {
    /// The quota is used up, and the next turn would expand one more row of the owner.
    Spent,
    /// No row of the owner is Opened.
    Empty,
    /// Memory ran out at a successor of a row. The row is still Opened, and its expansion isn't
    /// counted.
    Memory,
}

/// Works on the owner's rows, in turns, as a best-first search does that opens rows again (Hart,
/// Nilsson, Raphael 1968). A turn cuts the first Opened row if it may be cut, takes it if it is a
/// goal's, and else expands it. The turns end when no row of the owner is Opened, or so many rows
/// were expanded: with no quota rows are still cut and goals taken. Answers how many rows were
/// expanded, and why the work ended. The list is for successors alone.
pub fn work<K: LetterRule, R: Wait>(
    rt: &R,
    round: &Round<K>,
    estimator: &mut Estimator,
    share: &mut Share,
    succs: &mut Vec<Succ>,
    pass: &mut PostPass,
    quota: u64,
) -> (u64, WorkEnd)
    requires tables { IsOfTask estimator.old round.now.plan.now.task.now
        round.now.plan.now.choice.now }
    requires of_task { IsGraphOf round.now.plan.now.task.now round.now.plan.now.abstraction.now }
    requires proper { IsProper (space_in round.now.plan.now) greatest_cost }
    requires room { max_degree_of round.now.plan.now.task.now ≤ vec_capacity succs.old }
    requires weight { IsWeight (weight_in round.now.plan.now) }
    requires of_weight { share.old.bundle.weight ≡ weight_in round.now.plan.now }
    requires within { (most : ℕ) × AreOwnWithin (space_in round.now.plan.now)
        (guide_in round.now.plan.now) round.now.number most (row_of share.old.bundle)
        × (most + greatest_cost * quota < 2 ^ 61) }
    requires own { IsPassOf round.now.post.now pass.old }
    requires owners { owners_of round.now.post.now ≡ round.now.plan.now.owners }
    requires some { 0 < round.now.plan.now.owners }
    requires fits { (state : ℕ) → IsTrue ((space_in round.now.plan.now).is_state state)
        → IsTrue (K.fits state) }

    // What was done: the counted expansions, and one that was broken off if memory ran out.
    ensures worked { HasExpanded (space_in round.now.plan.now) (guide_in round.now.plan.now)
        (weight_in round.now.plan.now) round.now.number result.0 (broken_at result.1)
        round.now.post.now share.old share.new pass.old pass.new }
    ensures quota { result.0 ≤ quota }

    // Why it ended.
    ensures spent { (result.1 ≡ Spent) ↔ (HasOpened (row_of share.new.bundle)
        × (result.0 ≡ quota)) }
    ensures empty { (result.1 ≡ Empty) ↔ (HasOpened (row_of share.new.bundle) → ⊥) }
    ensures memory { (result.1 ≡ Memory) ↔ (HasOpened (row_of share.new.bundle)
        × (result.0 < quota)) }
    ensures next { result.1 ≡ Spent → (state : ℕ) × (row : Row)
        × IsNextRow (space_in round.now.plan.now) (weight_in round.now.plan.now) share.new state
        row }

    // What stays.
    ensures of_weight { share.new.bundle.weight ≡ weight_in round.now.plan.now }
    ensures tables { IsOfTask estimator.new round.now.plan.now.task.now
        round.now.plan.now.choice.now }
    ensures room { vec_capacity succs.old ≤ vec_capacity succs.new }
{
    let plan = round.plan;
    let mut used = 0u64;
    while let Some(next) = settle(plan.task, plan.weight, share) {
        // Only here: with no quota left, rows are still cut and goals taken.
        if used == quota {
            return (used, WorkEnd::Spent);
        }
        match expand(rt, round, estimator, share, succs, pass, &next) {
            Ok(()) => used += 1,
            Err(_) => return (used, WorkEnd::Memory),
        }
    }
    (used, WorkEnd::Empty)
}
