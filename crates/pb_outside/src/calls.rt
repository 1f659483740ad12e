//! The calls on an object in memory: how many there were, and which are to fail.
ghost use Rattle.std.specs.Prelude.{◌≡◌, ◌≤◌, [], OnOk, OnErr};
ghost use Rattle.pb_outside.specs.Outside.{counted};
ghost use Rattle.pb_outside.specs.Memory.{kept_at, kept_next, with_listed};

use crate::Memory;
use std::alloc::Global;
use std::marker::Model;

/// A call that is to fail: its number, from 1, and how many bytes it keeps.
#[derive(Clone, Copy)]
pub struct ListedFailure {
    pub call: u64,
    pub kept: u64,
}

// The calls so far, how often they failed, and those that are to fail.
#[derive(Drop)]
pub(crate) struct Calls {
    count: u64,
    faults: u64,
    listed: Vec<ListedFailure>,
}

impl Model for Calls {
    ghost use Rattle.pb_outside.specs.Memory.{CallsView};

    ghost Value = { CallsView };

    ghost view = { λ c. record { count = c.count; faults = c.faults; listed = c.listed.items } };
}

impl Calls {
    pub(crate) fn new(alloc: Global) -> Calls
        ensures { result ≡ record { count = 0; faults = 0; listed = [] } }
    {
        Calls {
            count: 0,
            faults: 0,
            listed: Vec::new(alloc),
        }
    }

    // Lists a call that is to fail.
    pub(crate) fn list(&mut self, call: u64, kept: u64) -> Result<(), Memory>
        ensures ok { OnOk result (self.new ≡ with_listed self.old call kept) }
        ensures err { OnErr result (self.new ≡ self.old) }
    {
        self.listed.push(ListedFailure { call, kept })?;
        Ok(())
    }

    // Counts a call. The answer is how many bytes the call keeps if it is to fail.
    pub(crate) fn begin(&mut self) -> Option<u64>
        ensures kept { result ≡ kept_next self.old }
        ensures after { self.new ≡ record self.old { count = counted self.old.count } }
    {
        // The count stays at its last number, as `counted` says.
        self.count = self.count.saturating_add(1);
        listed_at(&self.listed, self.count)
    }

    // Counts a fault.
    pub(crate) fn fault(&mut self)
        ensures after { self.new ≡ record self.old { faults = counted self.old.faults } }
        ensures later { self.old.faults ≤ self.new.faults }
    {
        self.faults = self.faults.saturating_add(1);
    }
}

// How many bytes the call of this number keeps if it is to fail.
fn listed_at(listed: &[ListedFailure], call: u64) -> Option<u64>
    ensures { result ≡ kept_at listed.now call }
{
    let (first, rest) = listed.split_first()?;
    if first.call == call {
        Some(first.kept)
    } else {
        listed_at(rest, call)
    }
}
