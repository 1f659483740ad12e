//! The rows of a bundle by their states, in order of insertion, in few bytes if they fit.
ghost use Rattle.std.specs.Prelude.{◌≡◌, ◌<◌, ℕ, None, Some, [], IsSome, IfSome, IfNone, OnOk, nat_eq, option_copied, slice_get, length, if◌then◌else◌};
ghost use Rattle.std.specs.List.{IsDistinct};
ghost use Rattle.std.specs.Map.{keys_of};
ghost use Rattle.indexmap.specs.IndexMap.{insert_entry};
ghost use Rattle.pb_model.specs.declared.row.Status.TheVariants.{Opened};
ghost use Rattle.pb_lists.specs.Bundle.{row_in};
ghost use Rattle.pb_lists.specs.Fields.{opened_costs};
ghost use Rattle.pb_lists.specs.ListedRows.{HasPlaceFor};
ghost use Rattle.pb_lists.specs.NarrowRow.{FitsWords};

use crate::narrow_row::NarrowRow;
use crate::narrow_rows::{NarrowRows, is_narrow};
use crate::wide_rows::{WideRows, widened};
use pb_model::{Estimate, Row, Status};
use pb_packed::{Packed, Words};
use std::alloc::{AllocError, Global};
use std::marker::Model;

// The table of the rows.
#[derive(Drop)]
enum Table {
    // states and parents of one word each, with narrow rows
    Small(NarrowRows<1>),
    // all others, behind one test
    Wide(WideRows),
}

// The rows by their states, in order of insertion. The table becomes wider when a state or a row
// comes that it has no place for.
#[derive(Drop)]
pub(crate) struct Rows {
    table: Table,
    alloc: Global,
}

impl Model for Rows {
    ghost use Rattle.pb_lists.specs.ListedRows.{ListedRows};
    ghost use Rattle.pb_lists.specs.Rows.{listed_of};

    ghost Value = { ListedRows };

    ghost view = { λ r. listed_of r.table };
}

impl Rows {
    // No rows. It takes no memory.
    pub(crate) fn new(alloc: Global) -> Rows
        ensures { result.entries ≡ [] }
    {
        Rows {
            table: Table::Small(NarrowRows::new(alloc)),
            alloc,
        }
    }

    // How many states have a row.
    pub(crate) fn len(&self) -> u64
        ensures count { result ≡ length self.now.entries }
        ensures distinct { IsDistinct nat_eq (keys_of self.now.entries) }
    {
        match &self.table {
            Table::Small(rows) => rows.len(),
            Table::Wide(rows) => rows.len(),
        }
    }

    // The row of a state, or None if it has none.
    pub(crate) fn row(&self, state: &Packed) -> Option<Row>
        ensures { result ≡ row_in self.now.entries state.now }
    {
        match &self.table {
            Table::Small(rows) => rows.row(state),
            Table::Wide(rows) => rows.row(state),
        }
    }

    // The row at this place.
    #[inline]
    pub(crate) fn row_at(&self, place: u64) -> Option<Row>
        ensures { (state : ℕ) (row : _) → slice_get self.now.entries place ≡ Some (state, row)
            → result ≡ row_in self.now.entries state }
    {
        match &self.table {
            Table::Small(rows) => rows.row_at(place),
            Table::Wide(rows) => rows.row_at(place),
        }
    }

    // The g and the estimate of the row at this place, if that is Opened.
    #[inline]
    pub(crate) fn opened_at(&self, place: u64) -> Option<(u64, Estimate)>
        ensures { (state : ℕ) (row : _) → slice_get self.now.entries place ≡ Some (state, row)
            → result ≡ opened_costs (row_in self.now.entries state) }
    {
        match &self.table {
            Table::Small(rows) => rows.opened_at(place),
            Table::Wide(rows) => rows.opened_at(place),
        }
    }

    // The state that got its row after i others, with that row.
    pub(crate) fn at(&self, i: u64) -> (Packed, Row)
        requires { i < length self.now.entries }
        ensures { slice_get self.now.entries i ≡ Some result }
    {
        match &self.table {
            Table::Small(rows) => rows.at(i),
            Table::Wide(rows) => rows.at(i),
        }
    }

    // The state that got its row after i others.
    pub(crate) fn state_at(&self, i: u64) -> Packed
        requires { i < length self.now.entries }
        ensures { (state : ℕ) (row : _) → slice_get self.now.entries i ≡ Some (state, row)
            → result ≡ state }
    {
        match &self.table {
            Table::Small(rows) => rows.state_at(i),
            Table::Wide(rows) => rows.state_at(i),
        }
    }

    // The g of the row that came after i others.
    pub(crate) fn g_at(&self, i: u64) -> u64
        requires { i < length self.now.entries }
        ensures { (state : ℕ) (row : _) → slice_get self.now.entries i ≡ Some (state, row)
            → result ≡ row.g }
    {
        match &self.table {
            Table::Small(rows) => rows.g_at(i),
            Table::Wide(rows) => rows.g_at(i),
        }
    }

    // The g, the estimate and the status of the row that came after i others.
    pub(crate) fn costs_at(&self, i: u64) -> (u64, Estimate, Status)
        requires { i < length self.now.entries }
        ensures { (state : ℕ) (row : _) → slice_get self.now.entries i ≡ Some (state, row)
            → result ≡ (row.g, row.estimate, row.status) }
    {
        match &self.table {
            Table::Small(rows) => rows.costs_at(i),
            Table::Wide(rows) => rows.costs_at(i),
        }
    }

    // The place of a state's row, or None if it has none.
    pub(crate) fn place_of(&self, state: &Packed) -> Option<u64>
        ensures some { IfSome result (λ place. (row : _)
            × (row_in self.now.entries state.now ≡ Some row)
            × (slice_get self.now.entries place ≡ Some (state.now, row))) }
        ensures within { IfSome result (λ place. place < length self.now.entries) }
        ensures none { IfNone result (row_in self.now.entries state.now ≡ None) }
    {
        match &self.table {
            Table::Small(rows) => rows.place_of(state),
            Table::Wide(rows) => rows.place_of(state),
        }
    }

    // Makes the table wider if it has no place for this state or this row. If memory runs out, the
    // table is as before.
    pub(crate) fn make_place(&mut self, state: &Packed, row: &Row) -> Result<(), AllocError>
        ensures entries { self.new.entries ≡ self.old.entries }
        ensures place { OnOk result (HasPlaceFor self.new state.now row.now) }
    {
        match &mut self.table {
            Table::Small(rows) => {
                if !is_narrow::<1>(state, row) {
                    let wide = widened::<1>(self.alloc, rows, state, row)?;
                    self.table = Table::Wide(wide);
                }
                Ok(())
            }
            Table::Wide(rows) => rows.make_place(self.alloc, state, row),
        }
    }

    // Makes room for one more row.
    pub(crate) fn reserve(&mut self) -> Result<(), AllocError>
        ensures entries { self.new.entries ≡ self.old.entries }
        ensures width { self.new.width ≡ self.old.width }
        ensures room { OnOk result (0 < self.new.room) }
    {
        match &mut self.table {
            Table::Small(rows) => rows.reserve(),
            Table::Wide(rows) => rows.reserve(),
        }
    }

    // Gives a state this row. One that has a row keeps its place, and a new one goes last.
    pub(crate) fn insert(&mut self, state: &Packed, row: &Row)
        requires place { HasPlaceFor self.old state.now row.now }
        requires room { row_in self.old.entries state.now ≡ None → 0 < self.old.room }
        ensures entries { self.new.entries
            ≡ insert_entry nat_eq self.old.entries state.now row.now }
        ensures updates { (other : ℕ) → row_in self.new.entries other
            ≡ (if nat_eq state.now other then Some row.now else row_in self.old.entries other) }
    {
        self.put(state, row);
    }

    fn put(&mut self, state: &Packed, row: &Row)
        requires place { HasPlaceFor self.old state.now row.now }
        requires room { row_in self.old.entries state.now ≡ None → 0 < self.old.room }
        ensures { self.new.entries ≡ insert_entry nat_eq self.old.entries state.now row.now }
    {
        match &mut self.table {
            Table::Small(rows) => rows.insert(state, row),
            Table::Wide(rows) => rows.insert(state, row),
        }
    }

    // Makes the Opened row of these parts and the words of its state, if the table is small and has
    // a place for both.
    #[inline]
    pub(crate) fn opened_small(
        &self,
        state: &Packed,
        g: u64,
        estimate: &Estimate,
        parent: Option<&Packed>,
        action: u32,
    ) -> Option<(Words<1>, NarrowRow<1>)>
        ensures width { IfSome result (λ _. self.now.width ≡ Some 1) }
        ensures state { IfSome result (λ small. small.0 ≡ state.now) }
        ensures fits { IfSome result (λ small. FitsWords 1 small.0) }
        ensures row { IfSome result (λ small. small.1 ≡ record {
          g = g;
          estimate = estimate.now;
          parent = option_copied parent.entry;
          action = action;
          status = Opened;
        }) }
    {
        match &self.table {
            Table::Small(_) => {
                let words = state.as_words::<1>()?;
                let row = NarrowRow::<1>::new_opened(g, estimate, parent, action)?;
                Some((words, row))
            }
            Table::Wide(_) => None,
        }
    }

    // Gives the state of these words this row, as `insert` does, in a small table.
    #[inline]
    pub(crate) fn insert_small(&mut self, words: Words<1>, row: NarrowRow<1>)
        requires width { self.old.width ≡ Some 1 }
        requires fits { FitsWords 1 words }
        requires room { row_in self.old.entries words ≡ None → 0 < self.old.room }
        ensures entries { self.new.entries ≡ insert_entry nat_eq self.old.entries words row }
        ensures updates { (other : ℕ) → row_in self.new.entries other
            ≡ (if nat_eq words other then Some row else row_in self.old.entries other) }
    {
        self.put_small(words, row);
    }

    // Writes the row of the state of these words into a small table.
    #[inline]
    fn put_small(&mut self, words: Words<1>, row: NarrowRow<1>)
        requires width { self.old.width ≡ Some 1 }
        requires fits { FitsWords 1 words }
        requires room { row_in self.old.entries words ≡ None → 0 < self.old.room }
        ensures { self.new.entries ≡ insert_entry nat_eq self.old.entries words row }
    {
        match &mut self.table {
            Table::Small(rows) => rows.insert_words(words, row),
            // By the clause `width` the table is small.
            Table::Wide(_) => unreachable!(),
        }
    }

    // Writes the status of the row at this place. It looks up nothing.
    pub(crate) fn set_status_at(&mut self, place: u64, status: Status)
        ensures entries { (state : ℕ) (row : _)
            → slice_get self.old.entries place ≡ Some (state, row)
            → self.new.entries ≡ insert_entry nat_eq self.old.entries state
            (record row { status = status }) }
        ensures updates { (state : ℕ) (row : _)
            → slice_get self.old.entries place ≡ Some (state, row) → (other : _)
            → row_in self.new.entries other
            ≡ (if nat_eq state other then Some (record row { status = status })
            else row_in self.old.entries other) }
    {
        self.put_status_at(place, status);
    }

    fn put_status_at(&mut self, place: u64, status: Status)
        ensures { (state : ℕ) (row : _) → slice_get self.old.entries place ≡ Some (state, row)
            → self.new.entries ≡ insert_entry nat_eq self.old.entries state
            (record row { status = status }) }
    {
        match &mut self.table {
            Table::Small(rows) => rows.set_status_at(place, status),
            Table::Wide(rows) => rows.set_status_at(place, status),
        }
    }

    // Replaces the row at this place, of this state. It looks up nothing.
    pub(crate) fn put_at(&mut self, place: u64, state: &Packed, row: &Row)
        requires { HasPlaceFor self.old state.now row.now }
        ensures entries { (was : _) → slice_get self.old.entries place ≡ Some (state.now, was)
            → self.new.entries ≡ insert_entry nat_eq self.old.entries state.now row.now }
        ensures updates { (was : _) → slice_get self.old.entries place ≡ Some (state.now, was)
            → (other : ℕ) → row_in self.new.entries other
            ≡ (if nat_eq state.now other then Some row.now else row_in self.old.entries other) }
    {
        self.replace_at(place, state, row);
    }

    fn replace_at(&mut self, place: u64, state: &Packed, row: &Row)
        requires { HasPlaceFor self.old state.now row.now }
        ensures { (was : _) → slice_get self.old.entries place ≡ Some (state.now, was)
            → self.new.entries ≡ insert_entry nat_eq self.old.entries state.now row.now }
    {
        match &mut self.table {
            Table::Small(rows) => rows.put_at(place, row),
            Table::Wide(rows) => rows.put_at(place, state, row),
        }
    }

    // Writes the status of a state's row, by one look-up.
    pub(crate) fn set_status(&mut self, state: &Packed, status: Status)
        requires found { IsSome (row_in self.old.entries state.now) }
        ensures entries { (row : _) → row_in self.old.entries state.now ≡ Some row
            → self.new.entries ≡ insert_entry nat_eq self.old.entries state.now
            (record row { status = status }) }
        ensures updates { (row : _) → row_in self.old.entries state.now ≡ Some row → (other : _)
            → row_in self.new.entries other
            ≡ (if nat_eq state.now other then Some (record row { status = status })
            else row_in self.old.entries other) }
    {
        self.put_status(state, status);
    }

    fn put_status(&mut self, state: &Packed, status: Status)
        requires found { IsSome (row_in self.old.entries state.now) }
        ensures { (row : _) → row_in self.old.entries state.now ≡ Some row
            → self.new.entries ≡ insert_entry nat_eq self.old.entries state.now
            (record row { status = status }) }
    {
        match &mut self.table {
            Table::Small(rows) => rows.set_status(state, status),
            Table::Wide(rows) => rows.set_status(state, status),
        }
    }
}
