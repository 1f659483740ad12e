//! What an owner has in a search.
ghost use Rattle.std.specs.Prelude.{◌≡◌, true, false, IfOk, option_copied};
ghost use Rattle.std.specs.Option.{option_map};
ghost use Rattle.std.specs.Arc.{arc_value};
ghost use Rattle.pb_model.specs.Store.{HasOpened};
ghost use Rattle.pb_lists.specs.Bundle.{row_of};
ghost use Rattle.pb_estimate.specs.Tables.{HasTable};
ghost use Rattle.pb_owner.specs.Plans.{weight_in};
ghost use Rattle.pb_owners.specs.Plans.{HasTools};

use pb_estimate::Estimator;
use pb_mail::PostPass;
use pb_model::Succ;
use pb_owner::{Plan, Share};
use pb_pattern::Table;
use std::alloc::{AllocError, Global};
use std::sync::Arc;

/// What an owner has: its share, an estimator and a list for successors. In a round it has a pass
/// too, its quota, how many rows it expanded, and whether memory ran out.
#[derive(Drop)]
pub struct Seat {
    pub share: Share,
    pub estimator: Estimator,
    pub succs: Vec<Succ>,
    pub pass: Option<PostPass>,
    pub quota: u64,
    pub used: u64,
    pub failed: bool,
}

impl Seat {
    /// The seat of an owner with this share, between rounds. An error is out of memory.
    pub fn new(
        alloc: Global,
        plan: &Plan,
        share: Share,
        table: Option<&Arc<Table>>,
    ) -> Result<Seat, AllocError>
        requires weight { share.bundle.weight ≡ weight_in plan.now }
        requires table { HasTable plan.now.task.now plan.now.choice.now
            (option_map arc_value (option_copied table)) }
        ensures share { IfOk result (λ seat. seat.share ≡ share) }
        ensures tools { IfOk result (HasTools plan.now) }
    {
        let estimator = Estimator::by(alloc, plan.task, plan.choice, table)?;
        let succs = Vec::with_capacity(alloc, plan.task.max_degree() as usize)?;
        Ok(Seat {
            share,
            estimator,
            succs,
            pass: None,
            quota: 0,
            used: 0,
            failed: false,
        })
    }

    /// Whether a row of the owner is Opened.
    pub fn has_opened(&self) -> bool
        ensures opened { result ≡ true → HasOpened (row_of self.now.share.bundle) }
        ensures none { result ≡ false → HasOpened (row_of self.now.share.bundle) → ⊥ }
    {
        self.share.bundle.first().is_some()
    }
}
