//! Rows of a few words each, as those of most tasks are.
ghost use Rattle.std.specs.Prelude.{◌≡◌, ◌≤◌, ◌<◌, ◌*◌, ◌^◌, Some, IfSome, IfNone, option_copied};
ghost use Rattle.pb_model.specs.declared.row.Status.TheVariants.{Opened};
ghost use Rattle.pb_lists.specs.Fields.{opened_costs};
ghost use Rattle.pb_lists.specs.NarrowRow.{parent_of, estimate_of, FitsWords, FitsEstimate, FitsParent, IsNarrow};

use pb_model::{Estimate, Row, Status};
use pb_packed::{Packed, Words};
use std::marker::Model;

// A row whose parent has so many words, and whose g and estimate have 32 bits each: 24 bytes for one
// word, 48 for four, and 144 for sixteen. Contracts see the row.
#[derive(Drop)]
pub(crate) struct NarrowRow<const W: usize> {
    // 0 if the row has no parent
    parent: Words<W>,
    g: u32,
    // 0 if no goal is reached
    estimate: u32,
    action: u32,
    has_parent: bool,
    is_dead: bool,
    status: Status,
}

impl<const W: usize> Model for NarrowRow<W> {
    ghost use Rattle.pb_model.specs.declared.row.Row.{Row};
    ghost use Rattle.pb_lists.specs.NarrowRow.{parent_of, estimate_of, FitsWords};

    ghost Value = { Row };

    ghost view = { λ r. record {
      g = r.g;
      estimate = estimate_of r.is_dead r.estimate;
      parent = parent_of r.has_parent r.parent;
      action = r.action;
      status = r.status;
    } };

    ghost invariant = { λ r. FitsWords W r.parent };
}

impl<const W: usize> NarrowRow<W> {
    // The row as a narrow one, if it fits.
    pub(crate) fn of(row: &Row) -> Option<NarrowRow<W>>
        requires { 1 ≤ W }
        ensures some { IfSome result (λ narrow. narrow ≡ row.now) }
        ensures fits { IfSome result (λ _. IsNarrow W row.now) }
        ensures none { IfNone result (IsNarrow W row.now → ⊥) }
    {
        let (has_parent, parent) = narrow_parent(row.parent.as_ref())?;
        let (is_dead, estimate) = narrow_estimate(&row.estimate)?;
        let g = half_word(row.g)?;
        Some(NarrowRow {
            parent,
            g,
            estimate,
            action: row.action,
            has_parent,
            is_dead,
            status: row.status,
        })
    }

    // Makes the Opened row of these parts, if it fits.
    #[inline]
    pub(crate) fn new_opened(
        g: u64,
        estimate: &Estimate,
        parent: Option<&Packed>,
        action: u32,
    ) -> Option<NarrowRow<W>>
        requires { 1 ≤ W }
        ensures { IfSome result (λ narrow. narrow ≡ record {
          g = g;
          estimate = estimate.now;
          parent = option_copied parent.entry;
          action = action;
          status = Opened;
        }) }
    {
        let (has_parent, parent) = narrow_parent(parent)?;
        let (is_dead, estimate) = narrow_estimate(estimate)?;
        let g = half_word(g)?;
        Some(NarrowRow {
            parent,
            g,
            estimate,
            action,
            has_parent,
            is_dead,
            status: Status::Opened,
        })
    }

    // The row that this one represents.
    pub(crate) fn row(&self) -> Row
        requires some { 1 ≤ W }
        requires most { W ≤ 16 }
        ensures row { result ≡ self.now }
        ensures narrow { IsNarrow W result }
    {
        Row {
            g: u64::from(self.g),
            estimate: self.estimate(),
            parent: self.parent(),
            action: self.action,
            status: self.status,
        }
    }

    pub(crate) fn g(&self) -> u64
        ensures { result ≡ self.now.g }
    {
        u64::from(self.g)
    }

    // The g, the estimate and the status.
    pub(crate) fn costs(&self) -> (u64, Estimate, Status)
        ensures { result ≡ (self.now.g, self.now.estimate, self.now.status) }
    {
        (u64::from(self.g), self.estimate(), self.status)
    }

    // The g and the estimate, if the row is Opened.
    pub(crate) fn opened(&self) -> Option<(u64, Estimate)>
        ensures { result ≡ opened_costs (Some self.now) }
    {
        match self.status {
            Status::Opened => Some((u64::from(self.g), self.estimate())),
            _ => None,
        }
    }

    pub(crate) fn set_status(&mut self, status: Status)
        ensures { self.new ≡ record self.old { status = status } }
    {
        self.status = status;
    }

    fn estimate(&self) -> Estimate
        ensures estimate { result ≡ self.now.estimate }
        ensures narrow { FitsEstimate result }
    {
        if self.is_dead {
            Estimate::Dead
        } else {
            Estimate::Cost(u64::from(self.estimate))
        }
    }

    fn parent(&self) -> Option<Packed>
        requires some { 1 ≤ W }
        requires most { W ≤ 16 }
        ensures parent { result ≡ self.now.parent }
        ensures narrow { FitsParent W result }
    {
        if self.has_parent {
            Some(Packed::from_words(&self.parent))
        } else {
            None
        }
    }
}

// Whether there is a parent, and its words.
#[inline]
fn narrow_parent<const W: usize>(parent: Option<&Packed>) -> Option<(bool, Words<W>)>
    requires { 1 ≤ W }
    ensures some { IfSome result (λ narrow. parent_of narrow.0 narrow.1
        ≡ option_copied parent.entry) }
    ensures small { IfSome result (λ narrow. FitsWords W narrow.1) }
    ensures fits { IfSome result (λ _. FitsParent W (option_copied parent.entry)) }
    ensures none { IfNone result (FitsParent W (option_copied parent.entry) → ⊥) }
{
    match parent {
        Some(state) => Some((true, state.as_words()?)),
        None => Some((false, Words::zero())),
    }
}

// Whether no goal is reached, and the estimate.
#[inline]
fn narrow_estimate(estimate: &Estimate) -> Option<(bool, u32)>
    ensures some { IfSome result (λ narrow. estimate_of narrow.0 narrow.1 ≡ estimate.now) }
    ensures fits { IfSome result (λ _. FitsEstimate estimate.now) }
    ensures none { IfNone result (FitsEstimate estimate.now → ⊥) }
{
    match estimate {
        Estimate::Cost(h) => Some((false, half_word(*h)?)),
        Estimate::Dead => Some((true, 0)),
    }
}

// The number in 32 bits, if it fits them.
#[inline]
pub(crate) fn half_word(number: u64) -> Option<u32>
    ensures some { IfSome result (λ half. half ≡ number) }
    ensures fits { IfSome result (λ _. number < 2 ^ 32) }
    ensures none { IfNone result (2 ^ 32 ≤ number) }
{
    if number <= u64::from(u32::MAX) {
        Some(number as u32)
    } else {
        None
    }
}
