//! How often grounding looked at a row, and when it stops.
ghost use Rattle.std.specs.Prelude.{◌≡◌, ◌≤◌, Some, None, OnOk, OnErr, IfErr};
ghost use Rattle.pb_ground.specs.Looks.{TellsHalt, after_look, most_looks};

use crate::error::GroundError;
use std::marker::Model;

/// How many looks there may be.
pub const MOST_LOOKS: u64 = 268_435_456;

/// How many looks were taken. A look is one at a row: at the objects of an atom of `:init`, or at
/// those of an instance of an action. Only a look raises the number, by one. A contract sees the
/// number, and at which one the count began, or None if there is no limit.
#[derive(Drop)]
pub struct Looks {
    taken: u64,
    since: Option<u64>,
}

impl Model for Looks {
    ghost use Rattle.std.specs.Prelude.{◌≤◌};
    ghost use Rattle.pb_ground.specs.Looks.{LooksValue, most_looks};

    ghost Value = { LooksValue };

    ghost view = { λ l. record { taken = l.taken; since = l.since } };

    ghost invariant = { λ l. l.taken ≤ most_looks };
}

impl Looks {
    /// No look is taken, and there may be `MOST_LOOKS`.
    pub fn new() -> Looks
        ensures { result ≡ record { taken = 0; since = Some 0 } }
    {
        Looks {
            taken: 0,
            since: Some(0),
        }
    }

    /// So many looks are taken already, of `MOST_LOOKS`.
    pub fn after(taken: u64) -> Looks
        requires { taken ≤ most_looks }
        ensures { result ≡ record { taken = taken; since = Some taken } }
    {
        Looks {
            taken,
            since: Some(taken),
        }
    }

    /// There is no limit, and looks aren't counted.
    pub fn endless() -> Looks
        ensures { result ≡ record { taken = 0; since = None } }
    {
        Looks {
            taken: 0,
            since: None,
        }
    }

    /// How many looks were taken.
    pub fn taken(&self) -> u64
        ensures { result ≡ self.now.taken }
    {
        self.taken
    }

    /// Takes a look. `Stopped`: none is left.
    pub(crate) fn take(&mut self) -> Result<(), GroundError>
        ensures looked { OnOk result (self.new ≡ after_look self.old) }
        ensures same { OnErr result (self.new ≡ self.old) }
        ensures halted { IfErr result (TellsHalt self.new) }
        ensures since { self.new.since ≡ self.old.since }
        ensures rising { self.old.taken ≤ self.new.taken }
    {
        if self.since.is_none() {
            return Ok(());
        }
        if self.taken >= MOST_LOOKS {
            return Err(GroundError::Stopped);
        }
        self.taken += 1;
        Ok(())
    }
}
