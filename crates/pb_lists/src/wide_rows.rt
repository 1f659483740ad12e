//! The rows of a bundle whose states or rows don't all fit narrow rows of one word.
//!
//! No call is inlined, so that the bundles of maps and boards, which have narrow rows of one word,
//! pay for one test alone.
ghost use Rattle.std.specs.Prelude.{◌≡◌, ◌≤◌, ◌<◌, ◌*◌, ◌^◌, true, ℕ, None, Some, [], IsSome, IfOk, IfSome, IfNone, OnOk, nat_eq, slice_get, length};
ghost use Rattle.std.specs.List.{IsDistinct};
ghost use Rattle.std.specs.Map.{keys_of};
ghost use Rattle.indexmap.specs.IndexMap.{insert_entry};
ghost use Rattle.pb_lists.specs.Bundle.{row_in};
ghost use Rattle.pb_lists.specs.Fields.{opened_costs};
ghost use Rattle.pb_lists.specs.ListedRows.{HasPlaceFor, IsAtLeast};
ghost use Rattle.pb_lists.specs.Rows.{wide_of};

use crate::any_rows::AnyRows;
use crate::narrow_rows::{NarrowRows, is_narrow};
use pb_model::{Estimate, Row, Status};
use pb_packed::Packed;
use std::alloc::{AllocError, Global};

// A table of rows that is wider than one word.
#[derive(Drop)]
pub(crate) enum WideRows {
    // states and parents of four words each
    Few(NarrowRows<4>),
    // states and parents of sixteen words each
    Many(NarrowRows<16>),
    // any states and rows
    Any(AnyRows),
}

impl WideRows {
    // How many states have a row.
    #[inline(never)]
    pub(crate) fn len(&self) -> u64
        ensures count { result ≡ length (wide_of self.now).entries }
        ensures distinct { IsDistinct nat_eq (keys_of (wide_of self.now).entries) }
    {
        match self {
            WideRows::Few(rows) => rows.len(),
            WideRows::Many(rows) => rows.len(),
            WideRows::Any(rows) => rows.len(),
        }
    }

    // The row of a state, or None if it has none.
    #[inline(never)]
    pub(crate) fn row(&self, state: &Packed) -> Option<Row>
        ensures { result ≡ row_in (wide_of self.now).entries state.now }
    {
        match self {
            WideRows::Few(rows) => rows.row(state),
            WideRows::Many(rows) => rows.row(state),
            WideRows::Any(rows) => rows.row(state),
        }
    }

    // The row at this place.
    #[inline(never)]
    pub(crate) fn row_at(&self, place: u64) -> Option<Row>
        ensures { (state : ℕ) (row : _)
            → slice_get (wide_of self.now).entries place ≡ Some (state, row)
            → result ≡ row_in (wide_of self.now).entries state }
    {
        match self {
            WideRows::Few(rows) => rows.row_at(place),
            WideRows::Many(rows) => rows.row_at(place),
            WideRows::Any(rows) => rows.row_at(place),
        }
    }

    // The g and the estimate of the row at this place, if that is Opened.
    #[inline(never)]
    pub(crate) fn opened_at(&self, place: u64) -> Option<(u64, Estimate)>
        ensures { (state : ℕ) (row : _)
            → slice_get (wide_of self.now).entries place ≡ Some (state, row)
            → result ≡ opened_costs (row_in (wide_of self.now).entries state) }
    {
        match self {
            WideRows::Few(rows) => rows.opened_at(place),
            WideRows::Many(rows) => rows.opened_at(place),
            WideRows::Any(rows) => rows.opened_at(place),
        }
    }

    // The state that got its row after i others, with that row.
    #[inline(never)]
    pub(crate) fn at(&self, i: u64) -> (Packed, Row)
        requires { i < length (wide_of self.now).entries }
        ensures { slice_get (wide_of self.now).entries i ≡ Some result }
    {
        match self {
            WideRows::Few(rows) => rows.at(i),
            WideRows::Many(rows) => rows.at(i),
            WideRows::Any(rows) => rows.at(i),
        }
    }

    // The state that got its row after i others.
    #[inline(never)]
    pub(crate) fn state_at(&self, i: u64) -> Packed
        requires { i < length (wide_of self.now).entries }
        ensures { (state : ℕ) (row : _)
            → slice_get (wide_of self.now).entries i ≡ Some (state, row) → result ≡ state }
    {
        match self {
            WideRows::Few(rows) => rows.state_at(i),
            WideRows::Many(rows) => rows.state_at(i),
            WideRows::Any(rows) => rows.state_at(i),
        }
    }

    // The g of the row that came after i others.
    #[inline(never)]
    pub(crate) fn g_at(&self, i: u64) -> u64
        requires { i < length (wide_of self.now).entries }
        ensures { (state : ℕ) (row : _)
            → slice_get (wide_of self.now).entries i ≡ Some (state, row) → result ≡ row.g }
    {
        match self {
            WideRows::Few(rows) => rows.g_at(i),
            WideRows::Many(rows) => rows.g_at(i),
            WideRows::Any(rows) => rows.g_at(i),
        }
    }

    // The g, the estimate and the status of the row that came after i others.
    #[inline(never)]
    pub(crate) fn costs_at(&self, i: u64) -> (u64, Estimate, Status)
        requires { i < length (wide_of self.now).entries }
        ensures { (state : ℕ) (row : _) → slice_get (wide_of self.now).entries i ≡ Some (state, row)
            → result ≡ (row.g, row.estimate, row.status) }
    {
        match self {
            WideRows::Few(rows) => rows.costs_at(i),
            WideRows::Many(rows) => rows.costs_at(i),
            WideRows::Any(rows) => rows.costs_at(i),
        }
    }

    // The place of a state's row, or None if it has none.
    #[inline(never)]
    pub(crate) fn place_of(&self, state: &Packed) -> Option<u64>
        ensures some { IfSome result (λ place. (row : _)
            × (row_in (wide_of self.now).entries state.now ≡ Some row)
            × (slice_get (wide_of self.now).entries place ≡ Some (state.now, row))) }
        ensures within { IfSome result (λ place. place < length (wide_of self.now).entries) }
        ensures none { IfNone result (row_in (wide_of self.now).entries state.now ≡ None) }
    {
        match self {
            WideRows::Few(rows) => rows.place_of(state),
            WideRows::Many(rows) => rows.place_of(state),
            WideRows::Any(rows) => rows.place_of(state),
        }
    }

    // Makes the table wider if it has no place for this state or this row. If memory runs out, the
    // table is as before.
    #[inline(never)]
    pub(crate) fn make_place(
        &mut self,
        alloc: Global,
        state: &Packed,
        row: &Row,
    ) -> Result<(), AllocError>
        ensures entries { (wide_of self.new).entries ≡ (wide_of self.old).entries }
        ensures place { OnOk result (HasPlaceFor (wide_of self.new) state.now row.now) }
    {
        let wider = match self {
            WideRows::Few(rows) => {
                if is_narrow::<4>(state, row) {
                    return Ok(());
                }
                widened::<4>(alloc, rows, state, row)?
            }
            WideRows::Many(rows) => {
                if is_narrow::<16>(state, row) {
                    return Ok(());
                }
                widened::<16>(alloc, rows, state, row)?
            }
            WideRows::Any(_) => return Ok(()),
        };
        *self = wider;
        Ok(())
    }

    // Makes room for one more row.
    #[inline(never)]
    pub(crate) fn reserve(&mut self) -> Result<(), AllocError>
        ensures entries { (wide_of self.new).entries ≡ (wide_of self.old).entries }
        ensures width { (wide_of self.new).width ≡ (wide_of self.old).width }
        ensures room { OnOk result (0 < (wide_of self.new).room) }
    {
        match self {
            WideRows::Few(rows) => rows.reserve(),
            WideRows::Many(rows) => rows.reserve(),
            WideRows::Any(rows) => rows.reserve(),
        }
    }

    // Gives a state this row. One that has a row keeps its place, and a new one goes last.
    #[inline(never)]
    pub(crate) fn insert(&mut self, state: &Packed, row: &Row)
        requires place { HasPlaceFor (wide_of self.old) state.now row.now }
        requires room { row_in (wide_of self.old).entries state.now ≡ None
            → 0 < (wide_of self.old).room }
        ensures entries { (wide_of self.new).entries
            ≡ insert_entry nat_eq (wide_of self.old).entries state.now row.now }
        ensures width { (wide_of self.new).width ≡ (wide_of self.old).width }
    {
        match self {
            WideRows::Few(rows) => rows.insert(state, row),
            WideRows::Many(rows) => rows.insert(state, row),
            WideRows::Any(rows) => rows.insert(state, row),
        }
    }

    // Writes the status of the row at this place. It looks up nothing.
    #[inline(never)]
    pub(crate) fn set_status_at(&mut self, place: u64, status: Status)
        ensures entries { (state : ℕ) (row : _)
            → slice_get (wide_of self.old).entries place ≡ Some (state, row)
            → (wide_of self.new).entries ≡ insert_entry nat_eq (wide_of self.old).entries state
            (record row { status = status }) }
    {
        match self {
            WideRows::Few(rows) => rows.set_status_at(place, status),
            WideRows::Many(rows) => rows.set_status_at(place, status),
            WideRows::Any(rows) => rows.set_status_at(place, status),
        }
    }

    // Replaces the row at this place, of this state. It looks up nothing.
    #[inline(never)]
    pub(crate) fn put_at(&mut self, place: u64, state: &Packed, row: &Row)
        requires { HasPlaceFor (wide_of self.old) state.now row.now }
        ensures entries { (was : _)
            → slice_get (wide_of self.old).entries place ≡ Some (state.now, was)
            → (wide_of self.new).entries
            ≡ insert_entry nat_eq (wide_of self.old).entries state.now row.now }
    {
        // Only the contract speaks of `state`.
        let _ = state;
        match self {
            WideRows::Few(rows) => rows.put_at(place, row),
            WideRows::Many(rows) => rows.put_at(place, row),
            WideRows::Any(rows) => rows.put_at(place, row),
        }
    }

    // Writes the status of a state's row, by one look-up.
    #[inline(never)]
    pub(crate) fn set_status(&mut self, state: &Packed, status: Status)
        requires found { IsSome (row_in (wide_of self.old).entries state.now) }
        ensures entries { (row : _) → row_in (wide_of self.old).entries state.now ≡ Some row
            → (wide_of self.new).entries ≡ insert_entry nat_eq (wide_of self.old).entries state.now
            (record row { status = status }) }
    {
        match self {
            WideRows::Few(rows) => rows.set_status(state, status),
            WideRows::Many(rows) => rows.set_status(state, status),
            WideRows::Any(rows) => rows.set_status(state, status),
        }
    }
}

// A wider table with the rows of a narrow one, in their order, and a place for this state and row.
#[inline(never)]
pub(crate) fn widened<const W: usize>(
    alloc: Global,
    rows: &NarrowRows<W>,
    state: &Packed,
    row: &Row,
) -> Result<WideRows, AllocError>
    requires { W ≤ 16 }
    ensures entries { IfOk result (λ wide. (wide_of wide).entries ≡ rows.now.entries) }
    ensures place { IfOk result (λ wide. HasPlaceFor (wide_of wide) state.now row.now) }
{
    let mut wide = empty::<W>(alloc, rows.len() as usize, state, row)?;
    // The label names the loop in its proof.
    'entries: for i in 0..rows.len() {
        let (known, its_row) = rows.at(i);
        // There is room already, but only this call has a clause that says so.
        wide.reserve()?;
        wide.insert(&known, &its_row);
    }
    Ok(wide)
}

// A table without a row that has a place for this state and row, and for all that have one at so
// many words.
fn empty<const W: usize>(
    alloc: Global,
    room: usize,
    state: &Packed,
    row: &Row,
) -> Result<WideRows, AllocError>
    requires { W ≤ 16 }
    ensures entries { IfOk result (λ wide. (wide_of wide).entries ≡ []) }
    ensures place { IfOk result (λ wide. HasPlaceFor (wide_of wide) state.now row.now) }
    ensures width { IfOk result (λ wide. IsAtLeast (wide_of wide).width W) }
{
    if W <= 4 && is_narrow::<4>(state, row) {
        Ok(WideRows::Few(NarrowRows::with_room(alloc, room)?))
    } else if is_narrow::<16>(state, row) {
        Ok(WideRows::Many(NarrowRows::with_room(alloc, room)?))
    } else {
        Ok(WideRows::Any(AnyRows::with_room(alloc, room)?))
    }
}
