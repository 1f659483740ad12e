//! Graphs that are opened again with another weight, at the end of a run.
ghost use Rattle.std.specs.Prelude.{◌≡◌, ◌≤◌, ◌<◌, ℕ, Some, IsSome, IfOk, IfErr, OnOk, OnErr};
ghost use Rattle.pb_machine.specs.declared.event.End.TheVariants.{Quiet};
ghost use Rattle.pb_machine.specs.Counts.{opening_counts};
ghost use Rattle.pb_lease.specs.Tables.{rooms};
ghost use Rattle.pb_lease.specs.GraphValue.{counts_in};
ghost use Rattle.pb_lease.specs.Begins.{IsReopened, BeginsAgain};

use crate::graph::LeaseGraph;
use crate::graph::free::show_every;
use pb_machine::reopening_is_lawful;
use std::alloc::AllocError;

impl LeaseGraph {
    /// Opens the graph again at the weight num / den, after a run that ended quietly with a plan.
    /// Exactly the Cut rows that may not be cut at this weight, and under the incumbent, become
    /// Opened, and all else of the rows stays. The incumbent, the spent expansions and those that
    /// are left stay. No end stands, nobody has signed off, and the journal is empty. An error means
    /// out of memory, and the graph comes back as it was.
    pub fn reopen(self, num: u64, den: u64) -> Result<LeaseGraph, (AllocError, LeaseGraph)>
        requires quiet { self.table.end ≡ Some Quiet }
        requires incumbent { IsSome self.incumbent }
        requires positive { 1 ≤ den }
        requires at_least_one { den ≤ num }
        requires small { num ≤ 1000 }
        requires few { self.table.past.reopenings < 4294967295 }
        ensures reopened { IfOk result (λ g. IsReopened self (record { num = num; den = den }) g) }
        ensures counts { IfOk result (λ g. counts_in g
            ≡ opening_counts g.table.settings self.table.spent) }
        ensures left { IfOk result (λ g. g.table.left ≡ self.table.left) }
        ensures rooms { IfOk result (λ g. (worker : ℕ) → rooms g.table worker ≡ 0) }
        ensures begin { IfOk result (λ g. BeginsAgain self (record { num = num; den = den }) g) }
        ensures err { IfErr result (λ r. r.1 ≡ self) }
    {
        let mut graph = self;
        match graph.open_again(num, den) {
            Ok(()) => Ok(graph),
            Err(error) => Err((error, graph)),
        }
    }

    // Prepares all bundles and the numbers, and then lets all bundles adopt what was prepared.
    fn open_again(&mut self, num: u64, den: u64) -> Result<(), AllocError>
        requires quiet { self.old.table.end ≡ Some Quiet }
        requires incumbent { IsSome self.old.incumbent }
        requires positive { 1 ≤ den }
        requires at_least_one { den ≤ num }
        requires small { num ≤ 1000 }
        requires few { self.old.table.past.reopenings < 4294967295 }
        ensures reopened { OnOk result (IsReopened self.old (record { num = num; den = den })
            self.new) }
        ensures counts { OnOk result (counts_in self.new
            ≡ opening_counts self.new.table.settings self.old.table.spent) }
        ensures left { OnOk result (self.new.table.left ≡ self.old.table.left) }
        ensures rooms { OnOk result ((worker : ℕ) → rooms self.new.table worker ≡ 0) }
        ensures begin { OnOk result (BeginsAgain self.old (record { num = num; den = den })
            self.new) }
        ensures err { OnErr result (self.new ≡ self.old) }
    {
        let Some(bound) = self.incumbent else {
            unreachable!();
        };
        // What can fail comes before the first row changes: an error changes nothing.
        let sets = self.homes.prepare(self.alloc, num, den, bound)?;
        self.tables.reopen(num, den)?;
        self.homes.adopt(sets);
        show_every(&mut self.free, &self.homes);
        // The call shows that the keys are noted, and the law that a run may begin here.
        let _noted = self.homes.count();
        reopening_is_lawful();
        Ok(())
    }
}
