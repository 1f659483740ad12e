//! How the lines of tables and traps are written.
ghost use Rattle.std.specs.Prelude.{◌≡◌, ◌+◌, ◌^◌, ◌<◌, ◌≤◌, length};
ghost use Rattle.pb_packed.specs.Sizes.{most_atoms};
ghost use Rattle.pb_tables.specs.Suits.{is_ordered, order_fault, tables_order_fault, traps_order_fault};

use crate::fault::TablesFault;
use crate::images::ImageList;
use crate::sets::{both, is_atom_set};
use crate::table::Table;
use crate::trap::Trap;
use pb_packed::Packed;

// Whether the image in a place is of tracked atoms, and above the one before it.
fn is_ordered(count: u32, tracked: &Packed, listed: &ImageList, place: usize) -> bool
    requires count { count ≤ most_atoms }
    requires tracked { tracked.now < 2 ^ count }
    requires place { place < length listed.now }
    ensures { result ≡ is_ordered count tracked.now listed.now place }
{
    let image = listed.at(place);
    both(count, &image, tracked) == image && (place == 0 || listed.at(place - 1) < image)
}

// The first line of a list that isn't written as one.
fn order_fault(count: u32, tracked: &Packed, listed: &ImageList) -> Option<usize>
    requires { count ≤ most_atoms }
    ensures { result ≡ order_fault count tracked.now listed.now }
{
    if !is_atom_set(count, tracked) {
        return Some(0);
    }
    for place in 0..listed.len() {
        if !is_ordered(count, tracked, listed, place) {
            return Some(place + 1);
        }
    }
    None
}

/// The first line of tables that isn't written as one.
pub fn tables_order_fault(count: u32, tables: &[Table]) -> Option<TablesFault>
    requires { count ≤ most_atoms }
    ensures { result ≡ tables_order_fault count tables.now }
{
    for list in 0..tables.len() {
        let table = &tables[list];
        if let Some(line) = order_fault(count, table.tracked(), table.listed()) {
            return Some(TablesFault::Line { list, line });
        }
    }
    None
}

/// The first line of traps that isn't written as one. The first trap has the number `before`.
pub fn traps_order_fault(count: u32, before: usize, traps: &[Trap]) -> Option<TablesFault>
    requires count { count ≤ most_atoms }
    requires before { before ≤ 4096 }
    requires few { length traps.now ≤ 4096 }
    ensures { result ≡ traps_order_fault count before traps.now }
{
    for number in 0..traps.len() {
        let trap = &traps[number];
        if let Some(line) = order_fault(count, trap.tracked(), trap.listed()) {
            let list = before + number;
            return Some(TablesFault::Line { list, line });
        }
    }
    None
}
