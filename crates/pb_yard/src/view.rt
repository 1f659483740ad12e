//! What a pass knows. No value of these types is made: they are what proofs see.
ghost use Rattle.std.specs.Prelude.{map};

use pb_abstract::AbsGraph;
use pb_estimate::Choice;
use pb_lease::{Lease, LeaseGraph};
use pb_machine::{Event, Settings};
use pb_task::Task;
use std::collections::LinkedList;
use std::marker::Model;

/// What a pass knows of the journal. To a contract it is the view of `pb_machine`'s laws of
/// journals.
pub struct JournalView {
    is_live: bool,
    worker: u32,
    events: LinkedList<Event>,
    seen: LinkedList<Event>,
    taken_in: LinkedList<(u32, LinkedList<Event>)>,
    made: u32,
}

impl Model for JournalView {
    ghost use Rattle.std.specs.Prelude.{map, ℕ, List};
    ghost use Rattle.pb_machine.specs.declared.event.Event.{Event};
    ghost use Rattle.pb_machine.specs.Views.{Share};
    ghost use Rattle.pb_machine.specs.Views as of_machine;

    ghost Value = { of_machine.View };

    ghost view = { λ v. record {
      is_live = v.is_live;
      own = record { worker = v.worker; events = v.events };
      seen = v.seen;
      taken_in = map (λ (s : ℕ × List Event). record { worker = s.0; events = s.1 }) v.taken_in;
      made = v.made;
    } };
}

/// What a pass knows.
pub struct View {
    /// The journal as it was last seen, the events that its own calls made, and those of the passes
    /// that it took in.
    pub journal: JournalView,
    /// The lease that it has, as it was given or last renewed.
    pub lent: Option<Lease>,
    /// What is searched.
    pub task: Task,
    /// By which blocks.
    pub abstraction: AbsGraph,
    /// With estimates by which choice.
    pub choice: Choice,
    /// With which settings.
    pub settings: Settings,
    /// The graph that the yard began with.
    pub begin: LeaseGraph,
    /// The least cost that it reported since its lease was given or last renewed.
    pub told: Option<u64>,
    /// The least cost that it has read or reported.
    pub last: Option<u64>,
    /// What each of its reads of the incumbent found, the last one first.
    pub read: LinkedList<Option<u64>>,
    /// How many events the journal had when it last read, if it held the graph then and did nothing
    /// since.
    pub read_at: Option<u64>,
    /// The workers that left the order: of its own worker and of those whose passes it took in.
    pub left_order: LinkedList<u32>,
}
