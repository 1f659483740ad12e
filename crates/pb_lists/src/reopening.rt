//! The rows of a bundle that is opened again with another weight.
ghost use Rattle.std.specs.Prelude.{◌≡◌, ◌≤◌, ◌<◌, ℕ, Some, IfOk, OnOk, nat_eq, slice_get, length};
ghost use Rattle.pb_model.specs.declared.row.Row.{Row};
ghost use Rattle.pb_model.specs.declared.row.Status.TheVariants.{Opened};
ghost use Rattle.pb_model.specs.Work.{reopened_status};
ghost use Rattle.pb_model.specs.Weight.{IsWeight};
ghost use Rattle.pb_lists.specs.Fields.{weight_of, key_at};
ghost use Rattle.pb_lists.specs.Buckets.{AreFields, HasState, IsTidy, HasPlaces, KeepsEntries};
ghost use Rattle.indexmap.specs.IndexMap.{insert_entry};
ghost use Rattle.pb_lists.specs.Reopened.{reopened_at, reopened_entries};

use crate::buckets::{Buckets, file, key_of};
use crate::rows::Rows;
use crate::rules::may_be_cut;
use pb_model::{Estimate, Status};
use std::alloc::{AllocError, Global};
use std::collections::BTreeMap;

/// What a bundle needs to be opened again with another weight: all its rows that are Opened, or
/// will be, in the order of the new weight.
#[derive(Drop)]
pub struct OpenedSet {
    pub(crate) opened: Buckets,
    pub(crate) num: u64,
    pub(crate) den: u64,
    pub(crate) bound: u64,
}

// The status of a row with these costs and this status after the reopening at the weight num / den
// under the incumbent `bound`.
fn reopened(num: u64, den: u64, bound: u64, costs: &(u64, Estimate, Status)) -> Status
    requires { IsWeight (weight_of num den) }
    ensures { result ≡ reopened_status (weight_of num den) bound costs.now.0 costs.now.1
        costs.now.2 }
{
    match costs.2 {
        Status::Cut => {
            if may_be_cut((num, den), Some(bound), costs.0, costs.1) {
                Status::Cut
            } else {
                Status::Opened
            }
        }
        status => status,
    }
}

// All rows that are Opened, or will be after the reopening, in the order of the new weight.
pub(crate) fn opened_again(
    alloc: Global,
    rows: &Rows,
    num: u64,
    den: u64,
    bound: u64,
) -> Result<Buckets, AllocError>
    requires { IsWeight (weight_of num den) }
    ensures { IfOk result (λ opened. AreFields (weight_of num den)
        (reopened_entries (weight_of num den) bound rows.now.entries) opened) }
{
    let mut opened = BTreeMap::new(alloc);
    // The label names the loop in its proof.
    'places: for place in 0..rows.len() {
        file_at(alloc, rows, &mut opened, place, num, den, bound)?;
    }
    Ok(opened)
}

// Files the row at a place if it is Opened, or will be.
fn file_at(
    alloc: Global,
    rows: &Rows,
    opened: &mut Buckets,
    place: u64,
    num: u64,
    den: u64,
    bound: u64,
) -> Result<(), AllocError>
    requires weight { IsWeight (weight_of num den) }
    requires place { place < length rows.now.entries }
    ensures kept { KeepsEntries opened.old opened.new }
    ensures filed { OnOk result ((state : ℕ) (row : Row)
        → slice_get (reopened_entries (weight_of num den) bound rows.now.entries) place
        ≡ Some (state, row) → row.status ≡ Opened
        → HasState opened.new (key_at (weight_of num den) row) state) }
    ensures tidy { OnOk result (IsTidy (weight_of num den)
        (reopened_entries (weight_of num den) bound rows.now.entries) opened.old
        → IsTidy (weight_of num den)
        (reopened_entries (weight_of num den) bound rows.now.entries) opened.new) }
    ensures placed { OnOk result (
        HasPlaces (reopened_entries (weight_of num den) bound rows.now.entries) opened.old
        → HasPlaces (reopened_entries (weight_of num den) bound rows.now.entries) opened.new) }
{
    // Called for its clause `distinct`: no state has two rows.
    let _ = rows.len();
    let costs = rows.costs_at(place);
    match reopened(num, den, bound, &costs) {
        Status::Opened => {
            let (state, _) = rows.at(place);
            let key = key_of(num, den, costs.0, &costs.1);
            file(alloc, opened, &key, &state, place)?;
            Ok(())
        }
        _ => Ok(()),
    }
}

// Opens each Cut row again that may not be cut at the weight num / den under the incumbent `bound`.
pub(crate) fn reopen_rows(rows: &mut Rows, num: u64, den: u64, bound: u64)
    requires { IsWeight (weight_of num den) }
    ensures { rows.new.entries
        ≡ reopened_entries (weight_of num den) bound rows.old.entries }
{
    // The label names the loop in its proof.
    'places: for place in 0..rows.len() {
        reopen_at(rows, place, num, den, bound);
    }
}

// Opens the row at a place again if it is Cut and may not be cut.
fn reopen_at(rows: &mut Rows, place: u64, num: u64, den: u64, bound: u64)
    requires weight { IsWeight (weight_of num den) }
    requires place { place < length rows.old.entries }
    ensures { (state : ℕ) (row : Row) → slice_get rows.old.entries place ≡ Some (state, row)
        → rows.new.entries ≡ insert_entry nat_eq rows.old.entries state
        (reopened_at (weight_of num den) bound row) }
{
    // Called for its clause `distinct`: no state has two rows.
    let _ = rows.len();
    let costs = rows.costs_at(place);
    if let Status::Cut = costs.2 {
        rows.set_status_at(place, reopened(num, den, bound, &costs));
    }
}
