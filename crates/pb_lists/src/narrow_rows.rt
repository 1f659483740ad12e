//! Narrow rows by states of so many words each, in order of insertion.
ghost use Rattle.std.specs.Prelude.{◌≡◌, ◌≤◌, ◌<◌, true, false, ℕ, None, Some, [], IsSome, IfOk, IfSome, IfNone, OnOk, nat_eq, option_copied, slice_get, length};
ghost use Rattle.std.specs.List.{IsDistinct};
ghost use Rattle.std.specs.Map.{keys_of};
ghost use Rattle.indexmap.specs.IndexMap.{insert_entry};
ghost use Rattle.pb_lists.specs.Bundle.{row_in};
ghost use Rattle.pb_lists.specs.Fields.{opened_costs};
ghost use Rattle.pb_lists.specs.NarrowRow.{FitsWords, IsNarrow};

use crate::narrow_row::NarrowRow;
use indexmap::IndexMap;
use pb_model::{Estimate, Row, Status};
use pb_packed::{Packed, Words};
use std::alloc::{AllocError, Global};
use std::marker::Model;

// A table of states of `W` words each, whose parents have as many.
#[derive(Drop)]
pub(crate) struct NarrowRows<const W: usize> {
    rows: IndexMap<Words<W>, NarrowRow<W>>,
}

impl<const W: usize> Model for NarrowRows<W> {
    ghost use Rattle.std.specs.Prelude.{◌≤◌, Some};
    ghost use Rattle.indexmap.specs.IndexMap.{spare};
    ghost use Rattle.pb_lists.specs.ListedRows.{ListedRows, HasWords};

    ghost Value = { ListedRows };

    ghost view = { λ t. record { entries = t.rows.entries; width = Some W; room = spare t.rows } };

    ghost invariant = { λ t. HasWords W t.rows.entries × (1 ≤ W) × (W ≤ 16) };
}

impl<const W: usize> NarrowRows<W> {
    // No rows. It takes no memory.
    pub(crate) fn new(alloc: Global) -> NarrowRows<W>
        requires some { 1 ≤ W }
        requires most { W ≤ 16 }
        ensures entries { result.entries ≡ [] }
        ensures width { result.width ≡ Some W }
    {
        NarrowRows {
            rows: IndexMap::new(alloc),
        }
    }

    // No rows, and room for so many.
    pub(crate) fn with_room(alloc: Global, room: usize) -> Result<NarrowRows<W>, AllocError>
        requires some { 1 ≤ W }
        requires most { W ≤ 16 }
        ensures entries { IfOk result (λ rows. rows.entries ≡ []) }
        ensures width { IfOk result (λ rows. rows.width ≡ Some W) }
    {
        Ok(NarrowRows {
            rows: IndexMap::with_capacity(alloc, room)?,
        })
    }

    // How many states have a row.
    pub(crate) fn len(&self) -> u64
        ensures count { result ≡ length self.now.entries }
        ensures distinct { IsDistinct nat_eq (keys_of self.now.entries) }
    {
        self.rows.len() as u64
    }

    // The row of the state of these words.
    fn found(&self, words: &Words<W>) -> Option<&NarrowRow<W>>
        ensures { option_copied result ≡ row_in self.now.entries words.now }
    {
        self.rows.get(words)
    }

    // The row of a state, or None if it has none.
    pub(crate) fn row(&self, state: &Packed) -> Option<Row>
        ensures { result ≡ row_in self.now.entries state.now }
    {
        // For the invariant: `W` is 1 to 16, as the calls for words need.
        let _ = &self.rows;
        match state.as_words::<W>() {
            Some(words) => match self.found(&words) {
                Some(row) => Some(row.row()),
                None => None,
            },
            None => None,
        }
    }

    // The row at this place.
    #[inline]
    pub(crate) fn row_at(&self, place: u64) -> Option<Row>
        ensures { (state : ℕ) (row : _) → slice_get self.now.entries place ≡ Some (state, row)
            → result ≡ row_in self.now.entries state }
    {
        match self.rows.get_index(place as usize) {
            Some(entry) => Some(entry.1.row()),
            None => None,
        }
    }

    // The g and the estimate of the row at this place, if that is Opened.
    #[inline]
    pub(crate) fn opened_at(&self, place: u64) -> Option<(u64, Estimate)>
        ensures { (state : ℕ) (row : _) → slice_get self.now.entries place ≡ Some (state, row)
            → result ≡ opened_costs (row_in self.now.entries state) }
    {
        match self.rows.get_index(place as usize) {
            Some(entry) => entry.1.opened(),
            None => None,
        }
    }

    // The state that got its row after i others, with that row.
    pub(crate) fn at(&self, i: u64) -> (Packed, Row)
        requires { i < length self.now.entries }
        ensures entry { slice_get self.now.entries i ≡ Some result }
        ensures state { FitsWords W result.0 }
        ensures row { IsNarrow W result.1 }
    {
        match self.rows.get_index(i as usize) {
            Some(entry) => (Packed::from_words(entry.0), entry.1.row()),
            None => unreachable!(),
        }
    }

    // The state that got its row after i others.
    pub(crate) fn state_at(&self, i: u64) -> Packed
        requires { i < length self.now.entries }
        ensures { (state : ℕ) (row : _) → slice_get self.now.entries i ≡ Some (state, row)
            → result ≡ state }
    {
        match self.rows.get_index(i as usize) {
            Some(entry) => Packed::from_words(entry.0),
            None => unreachable!(),
        }
    }

    // The g of the row that came after i others.
    pub(crate) fn g_at(&self, i: u64) -> u64
        requires { i < length self.now.entries }
        ensures { (state : ℕ) (row : _) → slice_get self.now.entries i ≡ Some (state, row)
            → result ≡ row.g }
    {
        match self.rows.get_index(i as usize) {
            Some(entry) => entry.1.g(),
            None => unreachable!(),
        }
    }

    // The g, the estimate and the status of the row that came after i others.
    pub(crate) fn costs_at(&self, i: u64) -> (u64, Estimate, Status)
        requires { i < length self.now.entries }
        ensures { (state : ℕ) (row : _) → slice_get self.now.entries i ≡ Some (state, row)
            → result ≡ (row.g, row.estimate, row.status) }
    {
        match self.rows.get_index(i as usize) {
            Some(entry) => entry.1.costs(),
            None => unreachable!(),
        }
    }

    // The place of a state's row, or None if it has none.
    pub(crate) fn place_of(&self, state: &Packed) -> Option<u64>
        ensures some { IfSome result (λ place. (row : _)
            × (row_in self.now.entries state.now ≡ Some row)
            × (slice_get self.now.entries place ≡ Some (state.now, row))) }
        ensures within { IfSome result (λ place. place < length self.now.entries) }
        ensures none { IfNone result (row_in self.now.entries state.now ≡ None) }
    {
        let _ = &self.rows;
        let words = state.as_words::<W>()?;
        match self.rows.get_full(&words) {
            Some(found) => Some(found.0 as u64),
            None => None,
        }
    }

    // Makes room for one more row.
    pub(crate) fn reserve(&mut self) -> Result<(), AllocError>
        ensures entries { self.new.entries ≡ self.old.entries }
        ensures width { self.new.width ≡ self.old.width }
        ensures room { OnOk result (0 < self.new.room) }
    {
        self.rows.reserve(1)
    }

    // Gives a state this row. One that has a row keeps its place, and a new one goes last.
    pub(crate) fn insert(&mut self, state: &Packed, row: &Row)
        requires state { FitsWords W state.now }
        requires row { IsNarrow W row.now }
        requires room { row_in self.old.entries state.now ≡ None → 0 < self.old.room }
        ensures entries { self.new.entries
            ≡ insert_entry nat_eq self.old.entries state.now row.now }
        ensures width { self.new.width ≡ self.old.width }
    {
        // For the invariant: `W` is 1 to 16, as the calls for words need.
        let _ = &self.rows;
        let Some(words) = state.as_words::<W>() else {
            unreachable!()
        };
        let Some(narrow) = NarrowRow::<W>::of(row) else {
            unreachable!()
        };
        self.insert_words(words, narrow);
    }

    // Gives the state of these words this row, as `insert` does.
    #[inline]
    pub(crate) fn insert_words(&mut self, words: Words<W>, row: NarrowRow<W>)
        requires state { FitsWords W words }
        requires room { row_in self.old.entries words ≡ None → 0 < self.old.room }
        ensures entries { self.new.entries
            ≡ insert_entry nat_eq self.old.entries words.entry row.entry }
        ensures width { self.new.width ≡ self.old.width }
    {
        match self.rows.insert(words, row) {
            Ok(_) => {}
            // By the clause `room` the table has a place, so it takes no memory.
            Err(_) => unreachable!(),
        }
    }

    // Writes the status of the row at this place. It looks up nothing.
    #[inline]
    pub(crate) fn set_status_at(&mut self, place: u64, status: Status)
        ensures entries { (state : ℕ) (row : _)
            → slice_get self.old.entries place ≡ Some (state, row)
            → self.new.entries ≡ insert_entry nat_eq self.old.entries state
            (record row { status = status }) }
        ensures width { self.new.width ≡ self.old.width }
    {
        let Some(row) = self.rows.get_index_mut(place as usize) else {
            return;
        };
        row.set_status(status);
    }

    // Replaces the row at this place. It looks up nothing.
    pub(crate) fn put_at(&mut self, place: u64, row: &Row)
        requires { IsNarrow W row.now }
        ensures entries { (state : ℕ) (was : _)
            → slice_get self.old.entries place ≡ Some (state, was)
            → self.new.entries ≡ insert_entry nat_eq self.old.entries state row.now }
        ensures width { self.new.width ≡ self.old.width }
    {
        let _ = &self.rows;
        let Some(narrow) = NarrowRow::<W>::of(row) else {
            unreachable!()
        };
        // The contract says nothing of a place without a row.
        let Some(old) = self.rows.get_index_mut(place as usize) else {
            return;
        };
        *old = narrow;
    }

    // Writes the status of a state's row, by one look-up.
    pub(crate) fn set_status(&mut self, state: &Packed, status: Status)
        requires found { IsSome (row_in self.old.entries state.now) }
        ensures entries { (row : _) → row_in self.old.entries state.now ≡ Some row
            → self.new.entries ≡ insert_entry nat_eq self.old.entries state.now
            (record row { status = status }) }
        ensures width { self.new.width ≡ self.old.width }
    {
        let _ = &self.rows;
        let Some(words) = state.as_words::<W>() else {
            unreachable!()
        };
        match self.rows.get_mut(&words) {
            Some(row) => row.set_status(status),
            None => unreachable!(),
        }
    }
}

// Whether a state and its row have a place at so many words.
pub(crate) fn is_narrow<const W: usize>(state: &Packed, row: &Row) -> bool
    requires some { 1 ≤ W }
    requires most { W ≤ 16 }
    ensures fits { result ≡ true → (FitsWords W state.now) × (IsNarrow W row.now) }
    ensures greater { result ≡ false → FitsWords W state.now → IsNarrow W row.now → ⊥ }
{
    state.as_words::<W>().is_some() && NarrowRow::<W>::of(row).is_some()
}
