//! The tables of the lease machine.
ghost use Rattle.std.specs.Prelude.{◌≡◌, ◌<◌, ◌≤◌, ℕ, [], IfOk, IsSome, length, get_or};
ghost use Rattle.std.specs.Arc.{arc_value};
ghost use Rattle.pb_machine.specs.Settings.{AreInRange};
ghost use Rattle.pb_machine.specs.Counts.{opening_counts};
ghost use Rattle.pb_machine.specs.Counters.{busy_count, hot_count};
ghost use Rattle.pb_machine.specs.History.{IsHistory};
ghost use Rattle.pb_machine.specs.Room.{room_after, KeepsWithinRoom};
ghost use Rattle.pb_lease.specs.Tables.{no_past, blocks, counts_of, seat_of, rooms};

pub(crate) mod counters;
pub(crate) mod ending;
pub(crate) mod leasing;
pub(crate) mod marking;
pub(crate) mod marks;
pub(crate) mod reopening;
pub(crate) mod seats;
pub(crate) mod switching;

use crate::past::Past;
use crate::seat::Seat;
use crate::tables::marks::Marks;
use pb_abstract::AbsGraph;
use pb_machine::{End, Event, Settings};
use std::alloc::{AllocError, Global};
use std::marker::Model;
use std::sync::Arc;

/// The numbers of the lease machine and its journal: who has which lease, what is left of the
/// budget, which blocks are hot, who has signed off, and every event so far. Each call that changes
/// them adds its events to the journal.
#[derive(Drop)]
pub struct MachineTables {
    pub(crate) abstraction: Arc<AbsGraph>,
    pub(crate) settings: Settings,
    // what earlier runs on the same rows did
    pub(crate) past: Past,
    pub(crate) seats: Vec<Seat>,
    pub(crate) marks: Marks,
    // how many leased blocks are in the interference of each block
    pub(crate) busy: Vec<u32>,
    pub(crate) spent: u64,
    pub(crate) left: u64,
    pub(crate) end: Option<End>,
    pub(crate) journal: Vec<Event>,
    // for how many events that must not run out of memory the journal has room
    pub(crate) promised: usize,
}

impl Model for MachineTables {
    ghost use Rattle.std.specs.Prelude.{◌-◌, vec_len, vec_capacity};
    ghost use Rattle.std.specs.Arc.{arc_value};
    ghost use Rattle.pb_lease.specs.Tables.{Table};
    ghost use Rattle.pb_lease.specs.Kept.{IsKept};

    ghost Value = { Table };

    ghost view = { λ t. record {
      abstraction = arc_value t.abstraction;
      settings = t.settings;
      past = t.past;
      seats = t.seats.items;
      hot = t.marks.hot.items;
      spent = t.spent;
      left = t.left;
      end = t.end;
      journal = t.journal.items;
    } };

    ghost invariant = { λ t. IsKept (record {
      abstraction = arc_value t.abstraction;
      settings = t.settings;
      past = t.past;
      seats = t.seats.items;
      hot = t.marks.hot.items;
      spent = t.spent;
      left = t.left;
      end = t.end;
      journal = t.journal.items;
    }) t.busy.items t.marks.near.items t.promised (vec_capacity t.journal - vec_len t.journal) };
}

impl MachineTables {
    /// Tables of a search that begins for the first time: nothing is leased, all of the budget is left, and the
    /// journal is empty. They have room for every worker's signing off and for one end. An error
    /// means out of memory.
    pub fn new(
        alloc: Global,
        abstraction: Arc<AbsGraph>,
        settings: Settings,
    ) -> Result<MachineTables, AllocError>
        requires { AreInRange settings }
        ensures counts { IfOk result (λ t. counts_of t ≡ opening_counts settings 0) }
        ensures journal { IfOk result (λ t. t.journal ≡ []) }
        ensures abstraction { IfOk result (λ t. t.abstraction ≡ arc_value abstraction) }
        ensures settings { IfOk result (λ t. t.settings ≡ settings) }
        ensures past { IfOk result (λ t. t.past ≡ no_past) }
        ensures rooms { IfOk result (λ t. (worker : ℕ) → rooms t worker ≡ 0) }
    {
        let blocks = abstraction.count() as usize;
        let workers = settings.workers as usize;
        let promised = workers + 1;
        Ok(MachineTables {
            abstraction,
            settings,
            past: Past::NONE,
            seats: vec![in alloc; Seat::VACANT; workers]?,
            marks: Marks {
                hot: vec![in alloc; false; blocks]?,
                near: vec![in alloc; 0; blocks]?,
            },
            busy: vec![in alloc; 0; blocks]?,
            spent: 0,
            left: settings.budget,
            end: None,
            journal: Vec::with_capacity(alloc, promised)?,
            promised,
        })
    }

    /// The abstract graph of the blocks.
    pub fn abstraction(&self) -> &AbsGraph
        ensures { result.now ≡ self.now.abstraction }
    {
        &self.abstraction
    }

    /// The abstract graph, which the caller shares with the tables. An error means out of memory.
    pub fn shared_abstraction(&self) -> Result<Arc<AbsGraph>, AllocError>
        ensures { IfOk result (λ shared. arc_value shared ≡ self.now.abstraction) }
    {
        Ok(Arc::clone(&self.abstraction)?)
    }

    /// What the search is run with.
    pub fn settings(&self) -> &Settings
        ensures { result.now ≡ self.now.settings }
    {
        &self.settings
    }

    /// The events so far: a legal history, which leads to these counts, and which keeps within the
    /// room of its leases. Each lease has at most the room that they leave.
    pub fn journal(&self) -> &[Event]
        ensures events { result.now ≡ self.now.journal }
        ensures legal { IsHistory (blocks self.now) self.now.settings self.now.past.spent
            self.now.journal (counts_of self.now) }
        ensures within { KeepsWithinRoom self.now.journal }
        ensures room { (worker : ℕ) → rooms self.now worker ≤ room_after self.now.journal worker }
    {
        &self.journal
    }

    /// The end, or None while the search has not ended.
    pub fn end(&self) -> Option<End>
        ensures { result ≡ self.now.end }
    {
        self.end
    }

    /// How many expansions were settled, with those of earlier runs.
    pub fn spent(&self) -> u64
        ensures { result ≡ self.now.spent }
    {
        self.spent
    }

    /// How many expansions are left of the budget: the budget less those that were settled, and
    /// less the quotas of the leases that are out.
    pub fn left(&self) -> u64
        ensures { result ≡ self.now.left }
    {
        self.left
    }

    /// What the worker has.
    pub fn seat(&self, worker: u32) -> Seat
        requires { worker < self.now.settings.workers }
        ensures { result ≡ seat_of self.now.seats worker }
    {
        self.seats[worker as usize]
    }

    /// For how many events there is room in the journal, of a worker that has a lease. The return
    /// of its lease and its signing off have room beside that.
    pub fn room(&self, worker: u32) -> u32
        requires { IsSome ((counts_of self.now).leases worker) }
        ensures { result ≡ rooms self.now worker }
    {
        self.seats[worker as usize].room
    }

    /// How many leased blocks are in the interference of the block.
    pub fn leased_near(&self, block: u32) -> u32
        requires { block < (blocks self.now).count }
        ensures { result ≡ busy_count (blocks self.now) self.now.settings.workers
            (counts_of self.now).leases block }
    {
        self.busy[block as usize]
    }

    /// How many hot blocks are in the interference of the block.
    pub fn hot_near(&self, block: u32) -> u32
        requires { block < (blocks self.now).count }
        ensures { result ≡ hot_count (blocks self.now) (counts_of self.now).hot block }
    {
        self.marks.near[block as usize]
    }

    /// Whether the block is hot.
    pub fn is_hot(&self, block: u32) -> bool
        requires { block < (blocks self.now).count }
        ensures { result ≡ (counts_of self.now).hot block }
    {
        self.marks.hot[block as usize]
    }
}
