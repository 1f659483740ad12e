//! The owners of a search.
ghost use Rattle.std.specs.Prelude.{◌≡◌, ◌==◌, ℕ, Some, true, IfOk, slice_get, vec_len};
ghost use Rattle.std.specs.Arc.{arc_value};
ghost use Rattle.pb_model.specs.Weight.{IsWeight};
ghost use Rattle.pb_machine.specs.Settings.{AreInRange, weight_of};
ghost use Rattle.pb_task.specs.Parts.{space_of};
ghost use Rattle.pb_estimate.specs.Estimates.{estimate_by, suits};
ghost use Rattle.pb_abstract.specs.Graph.{IsGraphOf};
ghost use Rattle.pb_owner.specs.declared.share.Share.{Share};
ghost use Rattle.pb_owners.specs.Owners.{IsOpening, IsOpeningShare};

use pb_abstract::AbsGraph;
use pb_estimate::Choice;
use pb_lists::Bundle;
use pb_machine::Settings;
use pb_model::Estimate;
use pb_owner::Share;
use pb_packed::Packed;
use pb_task::Task;
use std::alloc::{AllocError, Global};
use std::marker::Model;
use std::sync::Arc;

/// The owners of a hash-distributed search. The owner of a state has the number of its block mod
/// the number of owners, and alone keeps its row.
#[derive(Drop)]
pub struct Owners {
    pub(crate) task: Arc<Task>,
    pub(crate) abstraction: Arc<AbsGraph>,
    pub(crate) choice: Choice,
    pub(crate) settings: Settings,
    pub(crate) spent: u64,
    pub(crate) shares: Vec<Share>,
}

impl Model for Owners {
    ghost use Rattle.std.specs.Prelude.{◌≤◌, vec_len};
    ghost use Rattle.std.specs.Arc.{arc_value};
    ghost use Rattle.pb_owners.specs.Owners.{OwnersValue};

    ghost Value = { OwnersValue };

    ghost view = { λ o. record {
      task = arc_value o.task;
      abstraction = arc_value o.abstraction;
      choice = o.choice;
      settings = o.settings;
      spent = o.spent;
      shares = o.shares.items;
    } };

    ghost invariant = { λ o. vec_len o.shares ≤ 64 };
}

// The first share of an owner. The start has a row if it is the owner's.
fn opening_share(
    alloc: Global,
    num: u64,
    den: u64,
    is_home: bool,
    start: Packed,
    estimate: Estimate,
) -> Result<Share, AllocError>
    requires { IsWeight (record { num = num; den = den }) }
    ensures { IfOk result (IsOpeningShare (record { num = num; den = den }) is_home start
        estimate) }
{
    let mut bundle = Bundle::new(alloc, num, den)?;
    if is_home {
        bundle.offer(start, 0, estimate, None, 0)?;
    }
    Ok(Share {
        bundle,
        incumbent: None,
    })
}

// The first shares.
fn opening_shares(
    alloc: Global,
    settings: &Settings,
    home: u32,
    start: Packed,
    estimate: Estimate,
) -> Result<Vec<Share>, AllocError>
    requires { AreInRange settings.now }
    ensures many { IfOk result (λ shares. vec_len shares ≡ settings.now.workers) }
    ensures each { IfOk result (λ shares. (owner : ℕ) (share : Share)
        → slice_get shares.items owner ≡ Some share
        → IsOpeningShare (weight_of settings.now) (owner == home) start estimate share) }
{
    let mut shares = Vec::with_capacity(alloc, settings.workers as usize)?;
    for at in 0..settings.workers {
        let share = opening_share(
            alloc,
            settings.num,
            settings.den,
            at == home,
            start,
            estimate,
        )?;
        shares.push_reserved(share);
    }
    Ok(shares)
}

impl Owners {
    /// The owners of a search that begins: as many as the settings have workers. The start alone
    /// has a row, which is Opened. The estimate is the start's, by the choice, which suits the
    /// task. An error means out of memory.
    pub fn new(
        alloc: Global,
        task: Arc<Task>,
        abstraction: Arc<AbsGraph>,
        choice: Choice,
        estimate: Estimate,
        settings: Settings,
    ) -> Result<Owners, AllocError>
        requires of_task { IsGraphOf (arc_value task) (arc_value abstraction) }
        requires suits { suits (arc_value task) choice ≡ true }
        requires estimate { estimate ≡ estimate_by (arc_value task) choice
            (space_of (arc_value task)).start }
        requires settings { AreInRange settings }
        ensures task { IfOk result (λ owners. owners.task ≡ arc_value task) }
        ensures abstraction { IfOk result (λ owners. owners.abstraction ≡ arc_value abstraction) }
        ensures choice { IfOk result (λ owners. owners.choice ≡ choice) }
        ensures settings { IfOk result (λ owners. owners.settings ≡ settings) }
        ensures opening { IfOk result IsOpening }
    {
        let start = task.initial();
        let home = abstraction.block(&task, &start) % settings.workers;
        let shares = opening_shares(alloc, &settings, home, start, estimate)?;
        Ok(Owners {
            task,
            abstraction,
            choice,
            settings,
            spent: 0,
            shares,
        })
    }

    /// How many rows were expanded.
    pub fn spent(&self) -> u64
        ensures { result ≡ self.now.spent }
    {
        self.spent
    }
}
