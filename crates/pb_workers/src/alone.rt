//! The search of one worker that has a graph for itself.
ghost use Rattle.std.specs.Prelude.{◌≡◌, ◌⊎◌, None, Some, IsTrue, IsFalse, OnOk, OnErr, option_map, option_copied};
ghost use Rattle.std.specs.Arc.{arc_value};
ghost use Rattle.pb_machine.specs.declared.event.End.TheVariants.{Quiet, Budget, Memory};
ghost use Rattle.pb_estimate.specs.Tables.{HasTable};
ghost use Rattle.pb_lease.specs.GraphValue.{counts_in};
ghost use Rattle.pb_lease.specs.Choices.{is_out_in};
ghost use Rattle.pb_workers.specs.Runs.{IsSameSearch, IsAnyMoment, RunsOn};
ghost use Rattle.pb_workers.specs.Ends.{IsBestEnd, IsSpentEnd};
ghost use Rattle.pb_machine.specs.History.{events_of};
ghost use Rattle.pb_yard.specs.Marking.{no_turn, MarksInTurn};
ghost use Rattle.pb_workers.specs.Turns.{HasTurn};
ghost use Rattle.pb_workers.specs.Serving.{Serves, searched_in};

use crate::closing::sign_off;
use crate::holding::hold;
use crate::worker::{Tools, Worker};
use pb_abstract::AbsGraph;
use pb_lease::{LeaseGraph, LeaseReply};
use pb_machine::End;
use pb_outside::Gate;
use pb_pattern::Table;
use pb_task::Task;
use std::alloc::{AllocError, Global};
use std::sync::Arc;

/// Searches as the only worker of the graph, from whatever moment it is at, until the search ends.
/// It leases blocks, best first, works on each and brings it back, and signs off. It waits for
/// nobody. The gate is called each time that a block was leased, and each time before a lease is
/// renewed or comes back. The table is what the graph's estimate looks up, if it looks up any. An
/// error is out of memory: then nothing was leased, or the search ended because of it.
pub fn run_alone<G: Gate>(
    alloc: Global,
    task: &Task,
    abstraction: &AbsGraph,
    graph: &mut LeaseGraph,
    gate: &G,
    table: Option<&Arc<Table>>,
) -> Result<(), AllocError>
    requires task { graph.old.task ≡ task.now }
    requires abstraction { graph.old.table.abstraction ≡ abstraction.now }
    requires alone { graph.old.table.settings.workers ≡ 1 }
    requires moment { IsAnyMoment graph.old }
    requires home { IsFalse (is_out_in graph.old) }
    requires stays { IsFalse ((counts_in graph.old).signed_off 0) }
    requires table { HasTable task.now graph.old.choice
        (option_map arc_value (option_copied table)) }

    // If the graph was a moment of a machine, a run in order leads on from that machine. Its events
    // are those that the journal got, and the graph is now at its end.
    ensures run { RunsOn graph.old graph.new }

    // How it ends.
    ensures signed_off { OnOk result (IsTrue ((counts_in graph.new).signed_off 0)) }
    ensures ended { OnOk result ((graph.new.table.end ≡ Some Quiet)
        ⊎ (graph.new.table.end ≡ Some Budget)) }
    ensures err { OnErr result ((graph.new ≡ graph.old)
        ⊎ (IsTrue ((counts_in graph.new).signed_off 0) × (graph.new.table.end ≡ Some Memory))) }
    ensures home { IsFalse (is_out_in graph.new) }

    // What the rows are then.
    ensures quiet { graph.new.table.end ≡ Some Quiet → IsBestEnd graph.new }
    ensures budget { graph.new.table.end ≡ Some Budget → IsSpentEnd graph.new }

    // If the worker's marks were in turn so far, they are in turn to the end.
    ensures marks { HasTurn graph.old 0 no_turn
        → MarksInTurn (events_of 0 graph.new.table.journal) }

    ensures same { IsSameSearch graph.old graph.new }
{
    // The call shows that the graph is lawful.
    let _ = graph.abstraction();
    let tools = Tools::new(alloc, task, graph.choice(), table)?;
    let mut worker = Worker::new(task, abstraction, tools);
    let end = search(&mut worker, graph, gate);
    sign_off(graph, end)
}

// Leases blocks and works on them until the search ends, and answers the end. Answers None if
// memory for a lease runs out.
fn search<G: Gate>(worker: &mut Worker, graph: &mut LeaseGraph, gate: &G) -> Option<End>
    requires serves { Serves worker.old (searched_in graph.old) }
    requires alone { graph.old.table.settings.workers ≡ 1 }
    requires moment { IsAnyMoment graph.old }
    requires home { IsFalse (is_out_in graph.old) }
    requires stays { IsFalse ((counts_in graph.old).signed_off 0) }
    ensures run { RunsOn graph.old graph.new }
    ensures same { IsSameSearch graph.old graph.new }
    ensures home { IsFalse (is_out_in graph.new) }
    ensures stays { IsFalse ((counts_in graph.new).signed_off 0) }
    ensures end { graph.new.table.end ≡ result }
    ensures turn { HasTurn graph.old 0 no_turn → HasTurn graph.new 0 no_turn }
{
    'leases: loop {
        match graph.lease(0) {
            LeaseReply::Leased(lease) => {
                gate.leased(0, lease.block());
                hold(worker, graph, gate, lease);
            }
            // A worker that asks has no lease, and there is no other worker to have one.
            LeaseReply::NotYet => unreachable!(),
            LeaseReply::Over(end) => return Some(end),
            LeaseReply::Memory => return None,
        }
    }
}
