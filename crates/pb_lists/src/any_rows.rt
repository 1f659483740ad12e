//! Rows of any states, in order of insertion.
ghost use Rattle.std.specs.Prelude.{◌≡◌, ◌<◌, ℕ, None, Some, [], IsSome, IfOk, IfSome, IfNone, OnOk, nat_eq, slice_get, length};
ghost use Rattle.std.specs.List.{IsDistinct};
ghost use Rattle.std.specs.Map.{keys_of};
ghost use Rattle.indexmap.specs.IndexMap.{insert_entry};
ghost use Rattle.pb_lists.specs.Bundle.{row_in};
ghost use Rattle.pb_lists.specs.Fields.{opened_costs};

use indexmap::IndexMap;
use pb_model::{Estimate, Row, Status};
use pb_packed::Packed;
use std::alloc::{AllocError, Global};
use std::marker::Model;

// A table with a place for each state and row.
#[derive(Drop)]
pub(crate) struct AnyRows {
    rows: IndexMap<Packed, Row>,
}

impl Model for AnyRows {
    ghost use Rattle.std.specs.Prelude.{None};
    ghost use Rattle.indexmap.specs.IndexMap.{spare};
    ghost use Rattle.pb_lists.specs.ListedRows.{ListedRows};

    ghost Value = { ListedRows };

    ghost view = { λ t. record { entries = t.rows.entries; width = None; room = spare t.rows } };
}

impl AnyRows {
    // No rows, and room for so many.
    pub(crate) fn with_room(alloc: Global, room: usize) -> Result<AnyRows, AllocError>
        ensures entries { IfOk result (λ rows. rows.entries ≡ []) }
        ensures width { IfOk result (λ rows. rows.width ≡ None) }
    {
        Ok(AnyRows {
            rows: IndexMap::with_capacity(alloc, room)?,
        })
    }

    // How many states have a row.
    pub(crate) fn len(&self) -> u64
        ensures count { result ≡ length self.now.entries }
        ensures distinct { IsDistinct nat_eq (keys_of self.now.entries) }
    {
        self.rows.len() as u64
    }

    // The row of a state, or None if it has none.
    pub(crate) fn row(&self, state: &Packed) -> Option<Row>
        ensures { result ≡ row_in self.now.entries state.now }
    {
        self.rows.get(state).copied()
    }

    // The row at this place.
    pub(crate) fn row_at(&self, place: u64) -> Option<Row>
        ensures { (state : ℕ) (row : _) → slice_get self.now.entries place ≡ Some (state, row)
            → result ≡ row_in self.now.entries state }
    {
        match self.rows.get_index(place as usize) {
            Some(entry) => Some(*entry.1),
            None => None,
        }
    }

    // The g and the estimate of the row at this place, if that is Opened.
    pub(crate) fn opened_at(&self, place: u64) -> Option<(u64, Estimate)>
        ensures { (state : ℕ) (row : _) → slice_get self.now.entries place ≡ Some (state, row)
            → result ≡ opened_costs (row_in self.now.entries state) }
    {
        match self.rows.get_index(place as usize) {
            Some(entry) => match entry.1.status {
                Status::Opened => Some((entry.1.g, entry.1.estimate)),
                _ => None,
            },
            None => None,
        }
    }

    // The state that got its row after i others, with that row.
    pub(crate) fn at(&self, i: u64) -> (Packed, Row)
        requires { i < length self.now.entries }
        ensures { slice_get self.now.entries i ≡ Some result }
    {
        match self.rows.get_index(i as usize) {
            Some(entry) => (*entry.0, *entry.1),
            None => unreachable!(),
        }
    }

    // The state that got its row after i others.
    pub(crate) fn state_at(&self, i: u64) -> Packed
        requires { i < length self.now.entries }
        ensures { (state : ℕ) (row : _) → slice_get self.now.entries i ≡ Some (state, row)
            → result ≡ state }
    {
        match self.rows.get_index(i as usize) {
            Some(entry) => *entry.0,
            None => unreachable!(),
        }
    }

    // The g of the row that came after i others.
    pub(crate) fn g_at(&self, i: u64) -> u64
        requires { i < length self.now.entries }
        ensures { (state : ℕ) (row : _) → slice_get self.now.entries i ≡ Some (state, row)
            → result ≡ row.g }
    {
        match self.rows.get_index(i as usize) {
            Some(entry) => entry.1.g,
            None => unreachable!(),
        }
    }

    // The g, the estimate and the status of the row that came after i others.
    pub(crate) fn costs_at(&self, i: u64) -> (u64, Estimate, Status)
        requires { i < length self.now.entries }
        ensures { (state : ℕ) (row : _) → slice_get self.now.entries i ≡ Some (state, row)
            → result ≡ (row.g, row.estimate, row.status) }
    {
        match self.rows.get_index(i as usize) {
            Some(entry) => (entry.1.g, entry.1.estimate, entry.1.status),
            None => unreachable!(),
        }
    }

    // The place of a state's row, or None if it has none.
    pub(crate) fn place_of(&self, state: &Packed) -> Option<u64>
        ensures some { IfSome result (λ place. (row : _)
            × (row_in self.now.entries state.now ≡ Some row)
            × (slice_get self.now.entries place ≡ Some (state.now, row))) }
        ensures within { IfSome result (λ place. place < length self.now.entries) }
        ensures none { IfNone result (row_in self.now.entries state.now ≡ None) }
    {
        match self.rows.get_full(state) {
            Some(found) => Some(found.0 as u64),
            None => None,
        }
    }

    // Makes room for one more row.
    pub(crate) fn reserve(&mut self) -> Result<(), AllocError>
        ensures entries { self.new.entries ≡ self.old.entries }
        ensures width { self.new.width ≡ self.old.width }
        ensures room { OnOk result (0 < self.new.room) }
    {
        self.rows.reserve(1)
    }

    // Gives a state this row. One that has a row keeps its place, and a new one goes last.
    pub(crate) fn insert(&mut self, state: &Packed, row: &Row)
        requires room { row_in self.old.entries state.now ≡ None → 0 < self.old.room }
        ensures entries { self.new.entries
            ≡ insert_entry nat_eq self.old.entries state.now row.now }
        ensures width { self.new.width ≡ self.old.width }
    {
        match self.rows.insert(*state, *row) {
            Ok(_) => {}
            // By the clause `room` the table has a place, so it takes no memory.
            Err(_) => unreachable!(),
        }
    }

    // Writes the status of the row at this place. It looks up nothing.
    pub(crate) fn set_status_at(&mut self, place: u64, status: Status)
        ensures entries { (state : ℕ) (row : _)
            → slice_get self.old.entries place ≡ Some (state, row)
            → self.new.entries ≡ insert_entry nat_eq self.old.entries state
            (record row { status = status }) }
        ensures width { self.new.width ≡ self.old.width }
    {
        let Some(row) = self.rows.get_index_mut(place as usize) else {
            return;
        };
        row.status = status;
    }

    // Replaces the row at this place. It looks up nothing.
    pub(crate) fn put_at(&mut self, place: u64, row: &Row)
        ensures entries { (state : ℕ) (was : _)
            → slice_get self.old.entries place ≡ Some (state, was)
            → self.new.entries ≡ insert_entry nat_eq self.old.entries state row.now }
        ensures width { self.new.width ≡ self.old.width }
    {
        // The contract says nothing of a place without a row.
        let Some(old) = self.rows.get_index_mut(place as usize) else {
            return;
        };
        *old = *row;
    }

    // Writes the status of a state's row, by one look-up.
    pub(crate) fn set_status(&mut self, state: &Packed, status: Status)
        requires found { IsSome (row_in self.old.entries state.now) }
        ensures entries { (row : _) → row_in self.old.entries state.now ≡ Some row
            → self.new.entries ≡ insert_entry nat_eq self.old.entries state.now
            (record row { status = status }) }
        ensures width { self.new.width ≡ self.old.width }
    {
        match self.rows.get_mut(state) {
            Some(row) => row.status = status,
            None => unreachable!(),
        }
    }
}
