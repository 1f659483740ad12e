//! The graph of a search by leases.
ghost use Rattle.std.specs.Prelude.{◌≡◌, ◌<◌, ◌≤◌, ℕ, true, [], None, Some, IsFalse, IsSome, IfOk, List};
ghost use Rattle.std.specs.Arc.{arc_value};
ghost use Rattle.pb_model.specs.Store.{Rows};
ghost use Rattle.pb_model.specs.Work.{opening_store};
ghost use Rattle.pb_machine.specs.Settings.{AreInRange, weight_of};
ghost use Rattle.pb_machine.specs.Counts.{opening_counts};
ghost use Rattle.pb_machine.specs.History.{IsHistory};
ghost use Rattle.pb_machine.specs.Machine.{Machine, opening_machine};
ghost use Rattle.pb_task.specs.Parts.{space_of};
ghost use Rattle.pb_estimate.specs.Estimates.{estimate_by, suits};
ghost use Rattle.pb_abstract.specs.Graph.{IsGraphOf};
ghost use Rattle.pb_lists.specs.Bundle.{row_of};
ghost use Rattle.pb_bundles.specs.Homes.{content_at, home_rows};
ghost use Rattle.pb_machine.specs.Room.{room_after, KeepsWithinRoom};
ghost use Rattle.pb_lease.specs.Tables.{no_past, blocks, rooms};
ghost use Rattle.pb_lease.specs.Leased.{FitsScopes};
ghost use Rattle.pb_lease.specs.GraphValue.{setup_in, counts_in, IsLeaseGraph};
ghost use Rattle.pb_lease.specs.Choices.{is_out_in};
ghost use Rattle.pb_lease.specs.Moments.{IsMomentAt, IsMoment};
ghost use Rattle.pb_lease.specs.Begins.{begin_machine, IsBegin};

pub(crate) mod closing;
pub(crate) mod free;
pub(crate) mod granting;
pub(crate) mod home;
pub(crate) mod hot;
pub(crate) mod lowering;
pub(crate) mod reopen;
pub(crate) mod returning;
pub(crate) mod store;
pub(crate) mod switching;

use crate::graph::free::show_every;
use crate::tables::MachineTables;
use pb_abstract::AbsGraph;
use pb_bundles::{Homes, KeptRooms, KeyTree};
use pb_estimate::Choice;
use pb_lists::Bundle;
use pb_machine::{End, Event, Settings};
use pb_model::Estimate;
use pb_task::Task;
use std::alloc::{AllocError, Global};
use std::marker::Model;
use std::sync::Arc;

/// A search that gives out leases of its blocks. It has the task and its blocks, the choice of an
/// estimate, the rows at home, and the least cost at which a goal is known to be reached. It also has the numbers and the
/// journal of the lease machine. Each call that changes it is one event of the machine, maybe
/// followed by the end.
#[derive(Drop)]
pub struct LeaseGraph {
    pub(crate) task: Arc<Task>,
    pub(crate) choice: Choice,
    pub(crate) tables: MachineTables,
    pub(crate) homes: Homes,
    // the keys of the blocks that no hot block and no leased one forbids
    pub(crate) free: KeyTree,
    pub(crate) incumbent: Option<u64>,
    // emptied rooms of leases that came back, one a worker, for the bundles that leave next
    pub(crate) rooms: KeptRooms,
    // how many blocks the greatest scope has
    pub(crate) greatest: usize,
    // the allocator of the lists of bundles that leave with leases
    pub(crate) alloc: Global,
}

impl Model for LeaseGraph {
    ghost use Rattle.std.specs.Arc.{arc_value};
    ghost use Rattle.pb_lease.specs.GraphValue.{GraphValue};
    ghost use Rattle.pb_lease.specs.Free.{IsKeptGraph};

    ghost Value = { GraphValue };

    ghost view = { λ g. record {
      task = arc_value g.task;
      choice = g.choice;
      table = g.tables;
      homes = g.homes;
      incumbent = g.incumbent;
    } };

    ghost invariant = { λ g. IsKeptGraph
        (record {
          task = arc_value g.task;
          choice = g.choice;
          table = g.tables;
          homes = g.homes;
          incumbent = g.incumbent;
        }) g.free g.greatest };
}

impl LeaseGraph {
    /// The graph of a search that begins for the first time. The start alone has a row, which is Opened. Nothing is
    /// leased, all of the budget is left, no cost is known, and the journal is empty. The call
    /// takes room for all blocks and workers, for every worker's signing off and for one end. The
    /// estimate is the start's, by the choice, which suits the task. An error means out of memory.
    pub fn new(
        alloc: Global,
        task: Arc<Task>,
        abstraction: Arc<AbsGraph>,
        choice: Choice,
        estimate: Estimate,
        settings: Settings,
    ) -> Result<LeaseGraph, AllocError>
        requires of_task { IsGraphOf (arc_value task) (arc_value abstraction) }
        requires suits { suits (arc_value task) choice ≡ true }
        requires estimate { estimate ≡ estimate_by (arc_value task) choice
            (space_of (arc_value task)).start }
        requires settings { AreInRange settings }
        ensures task { IfOk result (λ g. g.task ≡ arc_value task) }
        ensures choice { IfOk result (λ g. g.choice ≡ choice) }
        ensures abstraction { IfOk result (λ g. g.table.abstraction ≡ arc_value abstraction) }
        ensures settings { IfOk result (λ g. g.table.settings ≡ settings) }
        ensures past { IfOk result (λ g. g.table.past ≡ no_past) }
        ensures counts { IfOk result (λ g. counts_in g ≡ opening_counts settings 0) }
        ensures journal { IfOk result (λ g. g.table.journal ≡ []) }
        ensures rooms { IfOk result (λ g. (worker : ℕ) → rooms g.table worker ≡ 0) }
        ensures incumbent { IfOk result (λ g. g.incumbent ≡ None) }
        ensures rows { IfOk result (λ g. (home state : ℕ)
            → home_rows g.homes home state
            ≡ (opening_store (setup_in g).space (setup_in g).guide (weight_of settings)).rows home
            state) }
        ensures moment { IfOk result (λ g. (recorded : (worker : ℕ) → Rows)
            → IsMoment g recorded (opening_machine (setup_in g))) }
        ensures begin { IfOk result IsBegin }
        ensures opening { IfOk result (λ g. begin_machine g ≡ opening_machine (setup_in g)) }
    {
        let start = task.initial();
        let block = abstraction.block(&task, &start);
        let rooms = KeptRooms::new(alloc, settings.workers as usize)?;
        let mut homes = Homes::new(alloc, abstraction.count(), settings.num, settings.den)?;
        homes.offer_start(block, start, estimate)?;
        let mut free = KeyTree::new(alloc, homes.count())?;
        show_every(&mut free, &homes);
        let greatest = greatest_scope(&abstraction);
        let tables = MachineTables::new(alloc, abstraction, settings)?;
        Ok(LeaseGraph {
            task,
            choice,
            tables,
            homes,
            free,
            incumbent: None,
            rooms,
            greatest,
            alloc,
        })
    }

    /// The events so far: a legal history, which keeps within the room of its leases.
    pub fn journal(&self) -> &[Event]
        ensures events { result.now ≡ self.now.table.journal }
        ensures legal { IsHistory (blocks self.now.table) self.now.table.settings
            self.now.table.past.spent self.now.table.journal (counts_in self.now) }
        ensures within { KeepsWithinRoom self.now.table.journal }
    {
        self.tables.journal()
    }

    /// The end, or None while the search has not ended.
    pub fn end(&self) -> Option<End>
        ensures { result ≡ self.now.table.end }
    {
        self.tables.end()
    }

    /// The least cost at which a goal is known to be reached, in the unit of the task's action
    /// costs. It is known from the leases that came back or were renewed. None if no cost is known.
    pub fn incumbent(&self) -> Option<u64>
        ensures { result ≡ self.now.incumbent }
    {
        self.incumbent
    }

    /// What the search is run with.
    pub fn settings(&self) -> &Settings
        ensures settings { result.now ≡ self.now.table.settings }
        ensures range { AreInRange self.now.table.settings }
    {
        self.tables.settings()
    }

    /// The choice of the estimate that the search goes by. It suits the task.
    pub fn choice(&self) -> &Choice
        ensures choice { result.now ≡ self.now.choice }
        ensures suits { suits self.now.task self.now.choice ≡ true }
    {
        &self.choice
    }

    /// The abstract graph: the blocks that are leased. The call also shows what is true of every
    /// graph: each lease has at most the room that the journal leaves it.
    pub fn abstraction(&self) -> &AbsGraph
        ensures abstraction { result.now ≡ self.now.table.abstraction }
        ensures lawful { IsLeaseGraph self.now }
        ensures room { (worker : ℕ) → rooms self.now.table worker
            ≤ room_after self.now.table.journal worker }
    {
        // The call shows that each lease has at most the room that the journal leaves it.
        let _ = self.tables.journal();
        self.tables.abstraction()
    }

    /// The abstract graph, which the caller shares with the graph. An error means out of memory.
    pub fn shared_abstraction(&self) -> Result<Arc<AbsGraph>, AllocError>
        ensures { IfOk result (λ shared. arc_value shared ≡ self.now.table.abstraction) }
    {
        self.tables.shared_abstraction()
    }

    /// For how many more events of the worker there is room in the journal, beside the return of
    /// its lease: renewals, hot marks, and marks taken away. It is 63 for a lease that was asked
    /// for anew. A lease that the worker went on to has what the one before left of it, less 2.
    pub fn room(&self, worker: u32) -> u32
        requires { IsSome ((counts_in self.now).leases worker) }
        ensures { result ≡ rooms self.now.table worker }
    {
        self.tables.room(worker)
    }

    /// The rows of a block, while no lease is out: those of every moment of the search that the
    /// graph is one of.
    pub fn bundle(&self, block: u32) -> &Bundle
        requires home { IsFalse (is_out_in self.now) }
        requires block { block < (blocks self.now.table).count }
        ensures bundle { content_at self.now.homes block ≡ Some result.now }
        ensures weight { result.now.weight ≡ weight_of self.now.table.settings }
        ensures moment { (recorded : (worker : ℕ) → Rows) (machine : Machine)
            → IsMomentAt self.now recorded machine → (state : ℕ)
            → machine.store.rows block state ≡ row_of result.now state }
    {
        self.homes.bundle(block)
    }
}

// How many blocks the greatest scope has.
fn greatest_scope(abstraction: &AbsGraph) -> usize
    ensures { FitsScopes abstraction.now result }
{
    let mut greatest: usize = 0;
    for block in 0..abstraction.count() {
        greatest = greatest.max(abstraction.scope(block).len());
    }
    greatest
}
