//! The places of a store's rows, in order of the states, and the line of a place.
ghost use Rattle.std.specs.Prelude.{◌≡◌, ◌++◌, ◌<◌, ◌^◌, IfOk, OnOk, Some, List, map, length, nat_eq, slice_get};
ghost use Rattle.std.specs.List.{IsDistinct};
ghost use Rattle.std.specs.List.Sorted.{IsPermutation};
ghost use Rattle.std.specs.Map.{keys_of};
ghost use Rattle.std.specs.Borrow.{Bor};
ghost use Rattle.pb_model.specs.Guide.{Guide};
ghost use Rattle.pb_model.specs.Store.{Rows};
ghost use Rattle.pb_model.specs.Certificate.{AreLinesOf, line_of};
ghost use Rattle.pb_lists.specs.Bundle.{Content};
ghost use Rattle.pb_lists.specs.Store.{IsPlaced, HasNoneFrom};
ghost use Rattle.pb_cert.specs.Listed.{entry_line, line_in, line_at, ArePartsOf};

use crate::certificate::Line;
use pb_lists::{Bundle, Store};
use pb_model::{Row, Status};
use pb_packed::Packed;
use std::alloc::{AllocError, Global};

/// Where a row is: the number of its part, and how many of that part's states got a row before its
/// own did.
#[derive(Clone, Copy)]
pub(crate) struct Place {
    pub(crate) part: u32,
    pub(crate) at: u64,
}

// The line of a state's row.
fn line_for(state: &Packed, row: &Row) -> Line
    ensures { result ≡ line_of state.now row.now }
{
    Line {
        state: *state,
        g: row.g,
        is_closed: row.status == Status::Closed,
    }
}

// The line of a row in a part, by its place there. A place beyond the rows has the line of zeros.
fn line_in(bundle: &Bundle, at: u64) -> Line
    ensures { result ≡ line_in bundle.now at }
{
    if at < bundle.len() {
        let (state, row) = bundle.at(at);
        line_for(&state, &row)
    } else {
        Line {
            state: Packed::zero(),
            g: 0,
            is_closed: false,
        }
    }
}

// The line of the row in a place of the parts. A place beyond them has the line of zeros.
pub(crate) fn line_at(parts: &[&Bundle], place: &Place) -> Line
    ensures { result ≡ line_at parts.now place.now }
{
    match parts.get(place.part as usize) {
        Some(bundle) => line_in(bundle, place.at),
        None => Line {
            state: Packed::zero(),
            g: 0,
            is_closed: false,
        },
    }
}

// Adds the places of the rows of a part, in order of the states.
fn add_places(
    places: &mut Vec<Place>,
    alloc: Global,
    part: u32,
    bundle: &Bundle,
) -> Result<(), AllocError>
    // Among parts of which this is the one of its number, its lines are added, in some order.
    ensures added { OnOk result ((parts : List (Bor Content)) (own : Bor Content)
        → slice_get parts part ≡ Some own → own.now ≡ bundle.now
        → IsPermutation (map (line_at parts) places.old.items ++ map entry_line bundle.now.entries)
        (map (line_at parts) places.new.items)) }
    ensures distinct { IsDistinct nat_eq (keys_of bundle.now.entries) }
{
    let mut own = Vec::new(alloc);
    'rows: for at in 0..bundle.len() {
        own.push(at)?;
    }
    own.sort_by_key(|at| line_in(bundle, *at).state)?;
    'places: for at in &own {
        places.push(Place { part, at: *at })?;
    }
    Ok(())
}

/// The parts of a store.
pub(crate) fn parts_of<'a, S: Store>(
    alloc: Global,
    store: &'a S,
) -> Result<Vec<&'a Bundle>, AllocError>
    requires whole { S.is_whole store.now }
    ensures parts { IfOk result (λ parts. ArePartsOf (S.rows store.now) (S.parts store.now)
        parts.items) }
    ensures few { IfOk result (λ parts. length parts.items < 2 ^ 32) }
    ensures beyond { HasNoneFrom (S.rows store.now) (S.parts store.now) }
{
    let mut parts = Vec::new(alloc);
    'parts: for i in 0..store.parts() {
        parts.push(store.part(i))?;
    }
    Ok(parts)
}

/// The places of all rows, by state. The places of each part are sorted, and listed one part after
/// the other. The last sort is std's, which keeps sorted pieces and merges them.
pub(crate) fn places_for(alloc: Global, parts: &[&Bundle]) -> Result<Vec<Place>, AllocError>
    requires few { length parts.now < 2 ^ 32 }
    ensures { IfOk result (λ places. (rows : Rows) (guide : Guide)
        → ArePartsOf rows (length parts.now) parts.now → HasNoneFrom rows (length parts.now)
        → IsPlaced guide.home rows
        → AreLinesOf guide rows (map (line_at parts.now) places.items)) }
{
    let mut places = Vec::new(alloc);
    'parts: for i in 0..parts.len() {
        add_places(&mut places, alloc, i as u32, parts[i])?;
    }
    places.sort_by_key(|place| line_at(parts, place).state)?;
    Ok(places)
}
