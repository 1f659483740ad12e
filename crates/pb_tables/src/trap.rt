//! A trap: images of states from which no goal is reached.
ghost use Rattle.std.specs.Prelude.{◌≡◌};

use crate::images::ImageList;
use pb_packed::Packed;
use std::marker::Model;

/// Images from which no goal can be reached. Contracts see the tracked atoms and the images.
#[derive(Drop)]
pub struct Trap {
    tracked: Packed,
    listed: ImageList,
}

impl Model for Trap {
    ghost use Rattle.pb_tables.specs.Tables.{TrapValue};

    ghost Value = { TrapValue };

    ghost view = { λ t. record { tracked = t.tracked; listed = t.listed } };
}

impl Trap {
    /// The trap that tracks these atoms and lists these images. It takes no memory.
    pub fn of(tracked: Packed, listed: ImageList) -> Trap
        ensures tracked { result.tracked ≡ tracked }
        ensures listed { result.listed ≡ listed }
    {
        Trap { tracked, listed }
    }

    /// The tracked atoms.
    pub fn tracked(&self) -> &Packed
        ensures { result.now ≡ self.now.tracked }
    {
        &self.tracked
    }

    /// The images.
    pub fn listed(&self) -> &ImageList
        ensures { result.now ≡ self.now.listed }
    {
        &self.listed
    }
}
