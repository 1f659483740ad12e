//! A table: images of states with their values.
ghost use Rattle.std.specs.Prelude.{◌≡◌};

use crate::images::ImageList;
use pb_packed::Packed;
use std::marker::Model;

/// Values of images. Contracts see the tracked atoms, the images and the values: those of an image
/// stand together, one for each sum, in the order of the images.
#[derive(Drop)]
pub struct Table {
    tracked: Packed,
    listed: ImageList,
    values: Vec<u64>,
}

impl Model for Table {
    ghost use Rattle.pb_tables.specs.Tables.{TableValue};

    ghost Value = { TableValue };

    ghost view = { λ t. record {
      tracked = t.tracked;
      listed = t.listed;
      values = t.values.items;
    } };
}

impl Table {
    /// The table that tracks these atoms and lists these images, with these values. It takes no
    /// memory.
    pub fn of(tracked: Packed, listed: ImageList, values: Vec<u64>) -> Table
        ensures tracked { result.tracked ≡ tracked }
        ensures listed { result.listed ≡ listed }
        ensures values { result.values ≡ values.items }
    {
        Table {
            tracked,
            listed,
            values,
        }
    }

    /// The tracked atoms.
    pub fn tracked(&self) -> &Packed
        ensures { result.now ≡ self.now.tracked }
    {
        &self.tracked
    }

    /// The images.
    pub fn listed(&self) -> &ImageList
        ensures { result.now ≡ self.now.listed }
    {
        &self.listed
    }

    /// The values.
    pub fn values(&self) -> &[u64]
        ensures { result.now ≡ self.now.values }
    {
        self.values.as_slice()
    }
}
