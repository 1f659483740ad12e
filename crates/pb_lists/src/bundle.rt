//! The bundle: the rows of one part of a search by state, and the first row that is Opened.
ghost use Rattle.std.specs.Prelude.{◌≡◌, false, ℕ, ◌<◌, ◌≤◌, Option, Some, None, [], IfOk, IfSome, IfNone, OnOk, OnErr, nat_eq, option_copied, slice_get, length};
ghost use Rattle.std.specs.Map.{keys_of};
ghost use Rattle.std.specs.List.{IsDistinct};
ghost use Rattle.pb_model.specs.Key.{IsBest, IsFirstRow};
ghost use Rattle.pb_model.specs.Store.{HasOpened};
ghost use Rattle.pb_model.specs.Work.{offered_row, reopened_row};
ghost use Rattle.pb_model.specs.declared.row.Status.TheVariants.{Opened, Closed, Cut};
ghost use Rattle.indexmap.specs.IndexMap.{insert_entry};
ghost use Rattle.pb_lists.specs.Bundle.{Content, row_in, row_of, put, SetsRow, SetsStatus, IsOpened};
ghost use Rattle.pb_lists.specs.Offers.{offer_of};
ghost use Rattle.pb_lists.specs.Fields.{is_opened};
ghost use Rattle.pb_lists.specs.Reopened.{reopened, weight_in, bound_in, IsPreparedFrom};

use crate::buckets::{Buckets, file, key_from, key_of, place_on_top, tidy};
use crate::reopening::{OpenedSet, opened_again, reopen_rows};
use crate::rows::Rows;
use pb_model::{Estimate, Key, Row, Status};
use pb_packed::Packed;
use std::alloc::{AllocError, Global};
use std::collections::BTreeMap;
use std::marker::Model;

/// The rows of one part of a search's store: the open and closed list of a block. Contracts see the
/// states with their rows, in the order in which the states got one, and the weight of the search.
#[derive(Drop)]
pub struct Bundle {
    rows: Rows,
    // each Opened row in the bucket of its key's sum
    opened: Buckets,
    pub(crate) num: u64,
    pub(crate) den: u64,
    alloc: Global,
}

impl Model for Bundle {
    ghost use Rattle.pb_lists.specs.Bundle.{Content};
    ghost use Rattle.pb_lists.specs.Fields.{weight_of};
    ghost use Rattle.pb_lists.specs.Buckets.{AreFields};

    ghost Value = { Content };

    ghost view = { λ b. record { entries = b.rows.entries; weight = weight_of b.num b.den } };

    ghost invariant = { λ b. AreFields (weight_of b.num b.den) b.rows.entries b.opened };
}

/// What became of an offer.
#[derive(Clone, Copy, PartialEq, Eq)]
pub enum Offer {
    /// The state had no row and has one now.
    New,
    /// The state had a row with a greater g, and has the offered one now.
    Better,
    /// The state has a row that is as cheap, and nothing changed.
    Worse,
}

/// The state of a bundle's first Opened row, with what an expansion reads of that row.
#[derive(Clone, Copy, Debug, PartialEq, Eq)]
pub struct FirstRow {
    pub state: Packed,
    /// The cost of a known walk from the start to the state.
    pub g: u64,
    /// The heuristic estimate of the state.
    pub estimate: Estimate,
}

impl Bundle {
    /// A bundle without a row, for a search at the weight num / den. An error means out of memory.
    pub fn new(alloc: Global, num: u64, den: u64) -> Result<Bundle, AllocError>
        requires positive { 1 ≤ den }
        requires at_least_one { den ≤ num }
        requires small { num ≤ 1000 }
        ensures { IfOk result (λ b. b ≡ record {
          entries = [];
          weight = record { num = num; den = den };
        }) }
    {
        Ok(Bundle {
            rows: Rows::new(alloc),
            opened: BTreeMap::new(alloc),
            num,
            den,
            alloc,
        })
    }

    /// The row of a state, or None if it has no row. That of the state that `first` gave is read
    /// without a look-up.
    pub fn row(&self, state: &Packed) -> Option<Row>
        ensures { result ≡ row_of self.now state.now }
    {
        match place_on_top(&self.opened, state) {
            Some(place) => self.rows.row_at(place),
            None => self.rows.row(state),
        }
    }

    /// How many states have a row.
    pub fn len(&self) -> u64
        ensures count { result ≡ length self.now.entries }
        ensures distinct { IsDistinct nat_eq (keys_of self.now.entries) }
    {
        self.rows.len()
    }

    /// The state that got its row after i others, with that row.
    pub fn at(&self, i: u64) -> (Packed, Row)
        requires { i < length self.now.entries }
        ensures { slice_get self.now.entries i ≡ Some result }
    {
        self.rows.at(i)
    }

    /// The state that got its row after i others. It is quicker than `at`, which makes a row too.
    pub fn state_at(&self, i: u64) -> Packed
        requires { i < length self.now.entries }
        ensures { (state : ℕ) (row : _) → slice_get self.now.entries i ≡ Some (state, row)
            → result ≡ state }
    {
        self.rows.state_at(i)
    }

    /// The place of a state's row, at which `at` and `offer_at` find the row without a look-up.
    /// None if the state has no row. A row keeps its place.
    pub fn place_of(&self, state: &Packed) -> Option<u64>
        ensures some { IfSome result (λ place. (row : _) × (row_of self.now state.now ≡ Some row)
            × (slice_get self.now.entries place ≡ Some (state.now, row))) }
        ensures within { IfSome result (λ place. place < length self.now.entries) }
        ensures none { IfNone result (row_of self.now state.now ≡ None) }
    {
        self.rows.place_of(state)
    }

    /// The state of the first Opened row: that of the least key, and of the least state among equal
    /// keys. None if no row is Opened.
    pub fn first(&self) -> Option<Packed>
        ensures some { IfSome result (λ state. (row : _)
            × IsFirstRow self.now.weight (row_of self.now) state row) }
        ensures none { IfNone result (HasOpened (row_of self.now) → ⊥) }
    {
        match self.opened.first_key_value() {
            Some((_, bucket)) => match bucket.top() {
                Some(top) => Some(top.1),
                None => None,
            },
            None => None,
        }
    }

    /// The state of the first Opened row, as `first` gives it, with the row's g and estimate. It is
    /// quicker than `first` and `row`: it makes no row and looks up nothing.
    pub fn first_row(&self) -> Option<FirstRow>
        ensures some { IfSome result (λ first. (row : _)
            × IsFirstRow self.now.weight (row_of self.now) first.state row
            × (row.g ≡ first.g) × (row.estimate ≡ first.estimate)) }
        ensures none { IfNone result (HasOpened (row_of self.now) → ⊥) }
    {
        let (_, bucket) = self.opened.first_key_value()?;
        // Most buckets have states of one word alone: then no entry with a whole state is made.
        if let Some((_, word, at)) = bucket.first_word() {
            let (g, estimate) = self.rows.opened_at(at)?;
            return Some(FirstRow {
                state: Packed::of_word(word),
                g,
                estimate,
            });
        }
        let (_, state, place) = bucket.top()?;
        let (g, estimate) = self.rows.opened_at(place)?;
        Some(FirstRow { state, g, estimate })
    }

    /// The least key of an Opened row, or None if no row is Opened.
    pub fn best(&self) -> Option<Key>
        ensures { IsBest self.now.weight (row_of self.now) result }
    {
        match self.opened.first_key_value() {
            Some((sum, bucket)) => match bucket.first() {
                Some(first) => Some(key_from(sum, first.0)),
                None => None,
            },
            None => None,
        }
    }

    /// Offers a state a row with this g, the cost of a walk that comes to it from the parent by the
    /// action. A state without a row gets this one, Opened. A row with a greater g gets this g,
    /// parent and action and is Opened again, whatever its status was (Hart, Nilsson, Raphael
    /// 1968); its estimate stays. Else nothing changes. An error means out of memory, and the
    /// bundle is as before.
    pub fn offer(
        &mut self,
        state: Packed,
        g: u64,
        estimate: Estimate,
        parent: Option<Packed>,
        action: u32,
    ) -> Result<Offer, AllocError>
        ensures put { OnOk result (self.new ≡ put self.old state
            (offered_row g estimate parent action (row_of self.old state))) }
        ensures sets { OnOk result (SetsRow (row_of self.old) (row_of self.new) state
            (offered_row g estimate parent action (row_of self.old state))) }
        ensures answer { IfOk result (λ answer. answer ≡ offer_of (row_of self.old state) g) }
        ensures err { OnErr result (self.new ≡ self.old) }
    {
        match self.place_of(&state) {
            None => {
                self.offer_new(&state, g, estimate, parent.as_ref(), action)?;
                Ok(Offer::New)
            }
            Some(place) => self.offer_at(place, g, parent.as_ref(), action),
        }
    }

    /// Offers the state at a place a row, as `offer` does, without a look-up. The row keeps its
    /// estimate.
    pub fn offer_at(
        &mut self,
        place: u64,
        g: u64,
        parent: Option<&Packed>,
        action: u32,
    ) -> Result<Offer, AllocError>
        requires { place < length self.old.entries }
        ensures put { OnOk result ((state : _) (row : _)
            → slice_get self.old.entries place ≡ Some (state, row)
            → self.new ≡ put self.old state
            (offered_row g row.estimate (option_copied parent.entry) action (Some row))) }
        ensures sets { OnOk result ((state : _) (row : _)
            → slice_get self.old.entries place ≡ Some (state, row)
            → SetsRow (row_of self.old) (row_of self.new) state
            (offered_row g row.estimate (option_copied parent.entry) action (Some row))) }
        ensures answer { IfOk result (λ answer. (state : ℕ) (row : _)
            → slice_get self.old.entries place ≡ Some (state, row)
            → answer ≡ offer_of (Some row) g) }
        ensures err { OnErr result (self.new ≡ self.old) }
    {
        // Called for its clause `distinct`: no state has two rows.
        let _ = self.len();
        if self.rows.g_at(place) <= g {
            return Ok(Offer::Worse);
        }
        let state = self.rows.state_at(place);
        let estimate = self.rows.costs_at(place).1;
        self.open_again(place, &state, &opened_row(g, estimate, parent, action))?;
        Ok(Offer::Better)
    }

    /// Offers a row to a state that has none, as `offer` does, with one look-up less.
    pub fn offer_new(
        &mut self,
        state: &Packed,
        g: u64,
        estimate: Estimate,
        parent: Option<&Packed>,
        action: u32,
    ) -> Result<(), AllocError>
        requires { row_of self.old state.now ≡ None }
        ensures put { OnOk result (self.new ≡ put self.old state.now
            (offered_row g estimate (option_copied parent.entry) action None)) }
        ensures sets { OnOk result (SetsRow (row_of self.old) (row_of self.new) state.now
            (offered_row g estimate (option_copied parent.entry) action None)) }
        ensures err { OnErr result (self.new ≡ self.old) }
    {
        let Some((words, row)) = self.rows.opened_small(state, g, &estimate, parent, action) else {
            return self.add(state, &opened_row(g, estimate, parent, action));
        };
        // The steps of `add`, in the same order. A small table needs no wider place.
        let key = key_of(self.num, self.den, g, &estimate);
        self.rows.reserve()?;
        let next = self.rows.len();
        file(self.alloc, &mut self.opened, &key, state, next)?;
        self.rows.insert_small(words, row);
        Ok(())
    }

    /// Closes an Opened row: its state was expanded. It takes no memory.
    pub fn close_row(&mut self, state: &Packed)
        requires { IsOpened (row_of self.old state.now) }
        ensures put { (row : _) → row_of self.old state.now ≡ Some row
            → self.new ≡ put self.old state.now (record row { status = Closed }) }
        ensures sets { SetsStatus (row_of self.old) (row_of self.new) state.now Closed }
        ensures weight { self.new.weight ≡ self.old.weight }
    {
        self.settle(state, Status::Closed);
    }

    /// Cuts an Opened row: its state needs no expansion. It takes no memory.
    pub fn cut_row(&mut self, state: &Packed)
        requires { IsOpened (row_of self.old state.now) }
        ensures put { (row : _) → row_of self.old state.now ≡ Some row
            → self.new ≡ put self.old state.now (record row { status = Cut }) }
        ensures sets { SetsStatus (row_of self.old) (row_of self.new) state.now Cut }
        ensures weight { self.new.weight ≡ self.old.weight }
    {
        self.settle(state, Status::Cut);
    }

    /// What the bundle needs to go on at the weight num / den, where `bound` is the incumbent of its
    /// search: its rows that are Opened or will be, in the order of this weight. An error means
    /// out of memory.
    pub fn prepare(&self, num: u64, den: u64, bound: u64) -> Result<OpenedSet, AllocError>
        requires positive { 1 ≤ den }
        requires at_least_one { den ≤ num }
        requires small { num ≤ 1000 }
        ensures prepared { IfOk result (λ set. IsPreparedFrom self.now set) }
        ensures weight { IfOk result (λ set. weight_in set ≡ record { num = num; den = den }) }
        ensures bound { IfOk result (λ set. bound_in set ≡ bound) }
    {
        Ok(OpenedSet {
            opened: opened_again(self.alloc, &self.rows, num, den, bound)?,
            num,
            den,
            bound,
        })
    }

    /// Goes on at the weight that the set was prepared for. Each Cut row that may not be cut at
    /// this weight and under the set's incumbent is Opened again, and all else stays. It takes no
    /// memory.
    pub fn adopt(&mut self, set: OpenedSet)
        requires { IsPreparedFrom self.old set }
        ensures reopened { self.new ≡ reopened (weight_in set) (bound_in set) self.old }
        ensures rows { (state : ℕ) → row_of self.new state
            ≡ reopened_row (weight_in set) (Some (bound_in set)) (row_of self.old state) }
        ensures weight { self.new.weight ≡ weight_in set }
    {
        // Nothing here can fail: `prepare` took the memory.
        reopen_rows(&mut self.rows, set.num, set.den, set.bound);
        self.opened = set.opened;
        self.num = set.num;
        self.den = set.den;
    }

    // Adds an Opened row for a state that has none. Room is taken in the table, then the state
    // enters its bucket, then the table gets its row: the steps that may fail come first. The row
    // goes last, so its place is the count of those that are there.
    fn add(&mut self, state: &Packed, row: &Row) -> Result<(), AllocError>
        requires absent { row_of self.old state.now ≡ None }
        requires opened { row.now.status ≡ Opened }
        ensures put { OnOk result (self.new ≡ put self.old state.now row.now) }
        ensures sets { OnOk result (SetsRow (row_of self.old) (row_of self.new) state.now row.now) }
        ensures err { OnErr result (self.new ≡ self.old) }
    {
        let key = key_of(self.num, self.den, row.g, &row.estimate);
        self.rows.make_place(state, row)?;
        self.rows.reserve()?;
        let place = self.rows.len();
        file(self.alloc, &mut self.opened, &key, state, place)?;
        self.rows.insert(state, row);
        Ok(())
    }

    // Replaces the row at a place by an Opened one, which enters its new bucket first. The state is
    // still in its old bucket, and leaves it when it comes first there.
    fn open_again(&mut self, place: u64, state: &Packed, row: &Row) -> Result<(), AllocError>
        requires place { (was : _) × (slice_get self.old.entries place ≡ Some (state.now, was)) }
        requires opened { row.now.status ≡ Opened }
        ensures put { OnOk result (self.new ≡ put self.old state.now row.now) }
        ensures sets { OnOk result (SetsRow (row_of self.old) (row_of self.new) state.now row.now) }
        ensures err { OnErr result (self.new ≡ self.old) }
    {
        let key = key_of(self.num, self.den, row.g, &row.estimate);
        self.rows.make_place(state, row)?;
        file(self.alloc, &mut self.opened, &key, state, place)?;
        self.rows.put_at(place, state, row);
        tidy(&mut self.opened, &self.rows, self.num, self.den);
        Ok(())
    }

    // Gives an Opened row another status. Only what the first bucket has on top must be Opened, so
    // no other settled row is followed by tidying. The entry on top has its row's place. The count
    // is read for its clause alone, that no state has two rows.
    fn settle(&mut self, state: &Packed, status: Status)
        requires opened { IsOpened (row_of self.old state.now) }
        requires settled { is_opened status ≡ false }
        ensures put { (row : _) → row_of self.old state.now ≡ Some row
            → self.new ≡ put self.old state.now (record row { status = status }) }
        ensures sets { SetsStatus (row_of self.old) (row_of self.new) state.now status }
        ensures weight { self.new.weight ≡ self.old.weight }
    {
        let _ = self.rows.len();
        match place_on_top(&self.opened, state) {
            Some(place) => {
                self.rows.set_status_at(place, status);
                tidy(&mut self.opened, &self.rows, self.num, self.den);
            }
            None => self.rows.set_status(state, status),
        }
    }
}

#[inline]
fn opened_row(g: u64, estimate: Estimate, parent: Option<&Packed>, action: u32) -> Row
    ensures { result ≡ record {
      g = g;
      estimate = estimate;
      parent = option_copied parent.entry;
      action = action;
      status = Opened;
    } }
{
    Row {
        g,
        estimate,
        parent: parent.copied(),
        action,
        status: Status::Opened,
    }
}
