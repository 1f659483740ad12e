//! The rows of a search by leases as a store, once all of them are at home.
ghost use Rattle.std.specs.Prelude.{◌≡◌, IsFalse};
ghost use Rattle.pb_machine.specs.Settings.{weight_of};
ghost use Rattle.pb_task.specs.Parts.{space_of};
ghost use Rattle.pb_abstract.specs.Graph.{home_of};
ghost use Rattle.pb_bundles.specs.Homes.{home_rows};
ghost use Rattle.pb_lease.specs.Tables.{blocks};
ghost use Rattle.pb_lease.specs.Choices.{is_out_in};
ghost use Rattle.pb_lease.specs.AtHome.{HomeRowsAreWhole};

use crate::LeaseGraph;
use pb_lists::{Bundle, Store};
use pb_packed::Packed;

/// A graph that gives out leases is a store of a part for each block of its abstract graph. It can
/// be read while no lease is out.
impl Store for LeaseGraph {
    ghost parts = { λ g. (blocks g.table).count };

    ghost rows = { λ g. home_rows g.homes };

    ghost home = { λ g. home_of g.task g.table.abstraction };

    ghost incumbent = { λ g. g.incumbent };

    ghost weight = { λ g. weight_of g.table.settings };

    ghost is_whole = { λ g. IsFalse (is_out_in g) };

    ghost is_of = { λ g space. space_of g.task ≡ space };

    fn parts(&self) -> u32 {
        self.abstraction().count()
    }

    fn part(&self, i: u32) -> &Bundle {
        self.bundle(i)
    }

    fn home(&self, state: &Packed) -> u32 {
        self.abstraction().block(&self.task, state)
    }

    fn incumbent(&self) -> Option<u64> {
        self.incumbent()
    }

    fn weight(&self) -> (u64, u64) {
        let settings = self.settings();
        (settings.num, settings.den)
    }
}

/// With no lease out, the store of the rows at home is that of each moment of the search that the
/// graph is.
pub fn home_rows_are_whole()
    ensures { HomeRowsAreWhole }
{}
