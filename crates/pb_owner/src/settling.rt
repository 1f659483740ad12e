//! Cutting rows and taking goals until a row is to be expanded.
ghost use Rattle.std.specs.Prelude.{◌≡◌, ◌<◌, ℕ, List, Some, true, false, IfSome, IfNone};
ghost use Rattle.pb_model.specs.Guide.{Guide};
ghost use Rattle.pb_model.specs.Weight.{IsWeight};
ghost use Rattle.pb_model.specs.Store.{HasOpened, lesser};
ghost use Rattle.pb_model.specs.Key.{IsFirstRow};
ghost use Rattle.pb_lists.specs.Bundle.{row_of};
ghost use Rattle.pb_task.specs.Parts.{space_of};
ghost use Rattle.pb_mail.specs.declared.letter.Letter.{Letter};
ghost use Rattle.pb_owner.specs.Shares.{owner_of, weight_of, AreOwn, HasWorked, opened_in, IsNextRow};

use crate::share::Share;
use pb_lists::may_be_cut;
use pb_model::Row;
use pb_packed::Packed;
use pb_task::Task;

// The first Opened row, and its state.
fn first(share: &Share) -> Option<(Packed, Row)>
    ensures some { IfSome result (λ found. IsFirstRow share.now.bundle.weight
        (row_of share.now.bundle) found.0 found.1) }
    ensures none { IfNone result (HasOpened (row_of share.now.bundle) → ⊥) }
{
    let state = share.bundle.first()?;
    match share.bundle.row(&state) {
        Some(row) => Some((state, row)),
        // Each Opened state has a row.
        None => unreachable!(),
    }
}

// The lesser of a cost and the incumbent.
fn lowered(incumbent: Option<u64>, cost: u64) -> u64
    ensures { Some result ≡ lesser incumbent (Some cost) }
{
    match incumbent {
        Some(best) if best <= cost => best,
        _ => cost,
    }
}

// Cuts the first Opened row if it may be cut, or takes it if it is a goal's. Answers whether it did
// either.
fn settle_row(task: &Task, weight: (u64, u64), share: &mut Share, state: &Packed, row: &Row) -> bool
    requires weight { IsWeight (weight_of weight) }
    requires first { IsFirstRow (weight_of weight) (row_of share.old.bundle) state.now row.now }
    ensures worked { (guide : Guide) (number : ℕ) (letters : ℕ → List Letter)
        → AreOwn guide number (row_of share.old.bundle)
        → HasWorked (space_of task.now) guide (weight_of weight) number 0 0
        (owner_of share.old letters) (owner_of share.new letters) }
    ensures weight { share.new.bundle.weight ≡ share.old.bundle.weight }
    ensures fewer { result ≡ true → opened_in share.new.bundle < opened_in share.old.bundle }
    ensures same { result ≡ false → share.new ≡ share.old }
    ensures next { result ≡ false
        → IsNextRow (space_of task.now) (weight_of weight) share.new state.now row.now }
{
    if may_be_cut(weight, share.incumbent, row.g, row.estimate) {
        share.bundle.cut_row(state);
        true
    } else if task.is_goal(state) {
        share.incumbent = Some(lowered(share.incumbent, row.g));
        share.bundle.cut_row(state);
        true
    } else {
        false
    }
}

/// Cuts and takes rows until the first Opened one is to be expanded, and answers that row and its
/// state. It takes no memory.
pub fn settle(task: &Task, weight: (u64, u64), share: &mut Share) -> Option<(Packed, Row)>
    requires weight { IsWeight (weight_of weight) }
    requires of_weight { share.old.bundle.weight ≡ weight_of weight }
    ensures worked { (guide : Guide) (number : ℕ) (letters : ℕ → List Letter)
        → AreOwn guide number (row_of share.old.bundle)
        → HasWorked (space_of task.now) guide (weight_of weight) number 0 0
        (owner_of share.old letters) (owner_of share.new letters) }
    ensures of_weight { share.new.bundle.weight ≡ weight_of weight }
    ensures next { IfSome result (λ found.
        IsNextRow (space_of task.now) (weight_of weight) share.new found.0 found.1) }
    ensures none { IfNone result (HasOpened (row_of share.new.bundle) → ⊥) }
{
    while let Some((state, row)) = first(share) {
        if !settle_row(task, weight, share, &state, &row) {
            return Some((state, row));
        }
    }
    None
}
