//! The sign-off of a worker that searches alone.
ghost use Rattle.std.specs.Prelude.{◌≡◌, ◌<◌, ◌⊎◌, None, Some, IsTrue, IsFalse, OnOk, OnErr};
ghost use Rattle.pb_machine.specs.declared.event.End.TheVariants.{Quiet, Budget, Memory};
ghost use Rattle.pb_lease.specs.GraphValue.{counts_in, IsLeaseGraph};
ghost use Rattle.pb_lease.specs.Choices.{is_out_in};
ghost use Rattle.pb_yard.specs.Marking.{no_turn};
ghost use Rattle.pb_workers.specs.Runs.{IsSameSearch, RunsOn};
ghost use Rattle.pb_workers.specs.Turns.{HasTurn};

use pb_lease::LeaseGraph;
use pb_machine::End;
use std::alloc::AllocError;

/// The worker signs off if the search ended. Else it signs off with a report that it is out of
/// memory, and the search ends because of it. An error says that the search ended out of memory.
pub fn sign_off(graph: &mut LeaseGraph, end: Option<End>) -> Result<(), AllocError>
    requires workers { 0 < graph.old.table.settings.workers }
    requires vacant { (counts_in graph.old).leases 0 ≡ None }
    requires stays { IsFalse ((counts_in graph.old).signed_off 0) }
    requires end { graph.old.table.end ≡ end }
    ensures run { RunsOn graph.old graph.new }
    ensures same { IsSameSearch graph.old graph.new }
    ensures home { IsFalse (is_out_in graph.old) → IsFalse (is_out_in graph.new) }
    ensures signed_off { IsTrue ((counts_in graph.new).signed_off 0) }
    ensures ok { OnOk result ((graph.new.table.end ≡ Some Quiet)
        ⊎ (graph.new.table.end ≡ Some Budget)) }
    ensures err { OnErr result (graph.new.table.end ≡ Some Memory) }
    ensures turn { HasTurn graph.old 0 no_turn → HasTurn graph.new 0 no_turn }
    ensures lawful { IsLeaseGraph graph.new }
{
    graph.sign_off(0, end.is_none());
    // The call shows that the graph is lawful.
    let _ = graph.abstraction();
    match end {
        Some(End::Quiet) | Some(End::Budget) => Ok(()),
        Some(End::Memory) | None => Err(AllocError),
    }
}
