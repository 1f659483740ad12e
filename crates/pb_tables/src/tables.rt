//! All tables and traps of a task.
ghost use Rattle.std.specs.Prelude.{◌≡◌, IsTrue, None};
ghost use Rattle.pb_task.specs.Strips.{IsStrips};
ghost use Rattle.pb_tables.specs.Tables.{AreTables};
ghost use Rattle.pb_tables.specs.Suits.{suit, tables_fault, first_order_fault, first_step_fault, first_unpaid};
ghost use Rattle.pb_tables.specs.Estimate.{tables_estimate};

use crate::closed::{tables_step_fault, traps_step_fault};
use crate::estimate::{greatest_sum, is_trapped};
use crate::fault::TablesFault;
use crate::order::{tables_order_fault, traps_order_fault};
use crate::paid::first_unpaid;
use crate::table::Table;
use crate::trap::Trap;
use pb_model::Estimate;
use pb_packed::Packed;
use pb_task::StripsParts;
use std::marker::Model;

/// Sums over tables of values, and traps, within the limits that `AreTables` says. Threads may share
/// them.
#[derive(Drop)]
pub struct Tables {
    sums: usize,
    tables: Vec<Table>,
    traps: Vec<Trap>,
}

impl Model for Tables {
    ghost use Rattle.pb_tables.specs.Tables.{TablesValue, AreTables};

    ghost Value = { TablesValue };

    ghost view = { λ t. record { sums = t.sums; tables = t.tables.items; traps = t.traps.items } };

    ghost invariant = { λ t. AreTables (record {
      sums = t.sums;
      tables = t.tables.items;
      traps = t.traps.items;
    }) };
}

impl Tables {
    /// So many sums over these tables, and these traps. It takes no memory.
    pub fn of(sums: usize, tables: Vec<Table>, traps: Vec<Trap>) -> Tables
        requires { AreTables (record {
          sums = sums;
          tables = tables.items;
          traps = traps.items;
        }) }
        ensures { result ≡ record { sums = sums; tables = tables.items; traps = traps.items } }
    {
        Tables {
            sums,
            tables,
            traps,
        }
    }

    /// How many sums there are.
    pub fn sums(&self) -> usize
        ensures sums { result ≡ self.now.sums }
        ensures lawful { AreTables self.now }
    {
        self.sums
    }

    /// The tables.
    pub fn tables(&self) -> &[Table]
        ensures { result.now ≡ self.now.tables }
    {
        self.tables.as_slice()
    }

    /// The traps.
    pub fn traps(&self) -> &[Trap]
        ensures { result.now ≡ self.now.traps }
    {
        self.traps.as_slice()
    }

    /// The estimate of a state, in the unit of the task's action costs. It takes no memory, and one
    /// look-up by halving for each table and trap.
    pub fn estimate(&self, strips: &StripsParts, state: &Packed) -> Estimate
        requires strips { IsStrips strips.now }
        requires suit { IsTrue (suit strips.now self.now) }
        ensures { result ≡ tables_estimate strips.now self.now state.now }
    {
        if is_trapped(strips.atoms, &self.traps, state) {
            Estimate::Dead
        } else {
            Estimate::Cost(greatest_sum(strips.atoms, self.sums, &self.tables, state))
        }
    }

    // The first line that isn't written as one.
    fn first_order_fault(&self, strips: &StripsParts) -> Option<TablesFault>
        requires { IsStrips strips.now }
        ensures { result ≡ first_order_fault strips.now self.now }
    {
        match tables_order_fault(strips.atoms, &self.tables) {
            Some(fault) => Some(fault),
            None => traps_order_fault(strips.atoms, self.tables.len(), &self.traps),
        }
    }

    // The first line from which a step leads out, or with a goal that isn't as it should be.
    fn first_step_fault(&self, strips: &StripsParts) -> Option<TablesFault>
        requires strips { IsStrips strips.now }
        requires order { first_order_fault strips.now self.now ≡ None }
        ensures { result ≡ first_step_fault strips.now self.now }
    {
        match tables_step_fault(strips, self.sums, &self.tables) {
            Some(fault) => Some(fault),
            None => traps_step_fault(strips, self.tables.len(), &self.traps),
        }
    }

    // The least sum that some action lowers by more than its cost, and the least such action.
    fn first_unpaid(&self, strips: &StripsParts) -> Option<TablesFault>
        requires strips { IsStrips strips.now }
        requires order { first_order_fault strips.now self.now ≡ None }
        ensures { result ≡ first_unpaid strips.now self.now }
    {
        first_unpaid(strips, self.sums, &self.tables)
    }

    /// The first fault that keeps the tables from suiting a task, and None if they suit it. It looks
    /// first at how all lists are written, then at goals and where steps lead, and last at costs. It
    /// takes no memory.
    pub fn fault(&self, strips: &StripsParts) -> Option<TablesFault>
        requires { IsStrips strips.now }
        ensures { result ≡ tables_fault strips.now self.now }
    {
        // The order comes first: the others look images up by halving, so these must rise.
        if let Some(fault) = self.first_order_fault(strips) {
            return Some(fault);
        }
        match self.first_step_fault(strips) {
            Some(fault) => Some(fault),
            None => self.first_unpaid(strips),
        }
    }

    /// Whether the tables suit a task: if and only if they have no fault.
    pub fn suit(&self, strips: &StripsParts) -> bool
        requires { IsStrips strips.now }
        ensures { result ≡ suit strips.now self.now }
    {
        self.fault(strips).is_none()
    }
}
