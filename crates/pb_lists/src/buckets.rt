//! The Opened rows of a bundle, in buckets by the sum of their keys.
ghost use Rattle.std.specs.Prelude.{◌≡◌, ◌≤◌, true, false, ℕ, List, Some, OnOk, OnErr};
ghost use Rattle.std.specs.BTreeMap.{btree_map_len};
ghost use Rattle.pb_lists.specs.Bundle.{row_in};
ghost use Rattle.pb_lists.specs.Fields.{weight_of, has_key, is_open_at, sum_of, estimate_in, key_with};
ghost use Rattle.pb_model.specs.Key.{key_of};
ghost use Rattle.pb_model.specs.Weight.{Weight};
ghost use Rattle.pb_model.specs.declared.row.Row.{Row};
ghost use Rattle.pb_lists.specs.Heaped.{Entry};
ghost use Rattle.pb_lists.specs.Buckets.{has_entry, has_at, first_key_of, place_on_top, top_of};
ghost use Rattle.pb_lists.specs.Buckets.{KeepsLive, KeepsEntries, HasFiled, IsTidy, is_led};
ghost use Rattle.pb_lists.specs.Buckets.{IsPlaced, ArePlaced, HasPlaces};

use crate::bucket::Bucket;
use crate::rows::Rows;
use pb_model::{Estimate, Key};
use pb_packed::Packed;
use std::alloc::{AllocError, Global};
use std::collections::BTreeMap;

// For each sum its bucket. The key with that sum and the estimate 0 represents the sum.
pub(crate) type Buckets = BTreeMap<Key, Bucket>;

// The key of a row with this g and this estimate, at the weight num / den.
pub(crate) fn key_of(num: u64, den: u64, g: u64, estimate: &Estimate) -> Key
    requires num { num ≤ 1000 }
    requires den { den ≤ 1000 }
    ensures { result ≡ key_of (weight_of num den) g estimate.now }
{
    match estimate {
        Estimate::Dead => Key::Dead,
        // A weight's numbers are at most 1,000, so the sum fits 128 bits.
        Estimate::Cost(h) => Key::Sum {
            sum: den as u128 * g as u128 + num as u128 * *h as u128,
            h: *h,
        },
    }
}

// The sum of a key, by which its bucket is found.
fn sum_in(key: &Key) -> Key
    ensures { result ≡ sum_of key.now }
{
    match key {
        Key::Sum { sum, .. } => Key::Sum { sum: *sum, h: 0 },
        Key::Dead => Key::Dead,
    }
}

// The estimate of a key, by which a bucket is ordered.
fn h_in(key: &Key) -> u64
    ensures { result ≡ estimate_in key.now }
{
    match key {
        Key::Sum { h, .. } => *h,
        Key::Dead => 0,
    }
}

// The key of this sum and estimate.
pub(crate) fn key_from(sum: &Key, h: u64) -> Key
    ensures { result ≡ key_with sum.now h }
{
    match sum {
        Key::Sum { sum, .. } => Key::Sum { sum: *sum, h },
        Key::Dead => Key::Dead,
    }
}

// Puts a state into the bucket of its key's sum, with the place of its row. If memory runs out,
// each bucket keeps its entries.
pub(crate) fn file(
    alloc: Global,
    buckets: &mut Buckets,
    key: &Key,
    state: &Packed,
    place: u64,
) -> Result<(), AllocError>
    ensures kept { KeepsEntries buckets.old buckets.new }
    ensures filed { OnOk result (has_at buckets.new (sum_of key.now)
        (estimate_in key.now, state.now, place) ≡ true) }
    ensures placed { OnOk result ((entries : List (ℕ × Row))
        → IsPlaced entries (estimate_in key.now, state.now, place)
        → HasPlaces entries buckets.old → HasPlaces entries buckets.new) }
    ensures led { OnOk result ((weight : Weight) (entries : List (ℕ × Row))
        → is_open_at weight (row_in entries state.now) key.now ≡ true
        → IsTidy weight entries buckets.old → IsTidy weight entries buckets.new) }
    ensures err { OnErr result ((weight : Weight) (entries : List (ℕ × Row))
        → IsTidy weight entries buckets.old → IsTidy weight entries buckets.new) }
    ensures same { OnErr result ((entries : List (ℕ × Row))
        → HasPlaces entries buckets.old → HasPlaces entries buckets.new) }
{
    let sum = sum_in(key);
    let h = h_in(key);
    match buckets.get_mut(&sum) {
        Some(bucket) => {
            bucket.push(alloc, h, state, place)?;
            Ok(())
        }
        None => {
            // Filled before it is inserted, so no bucket without an entry is left if memory runs
            // out.
            let mut bucket = Bucket::new(alloc);
            bucket.push(alloc, h, state, place)?;
            buckets.insert(sum, bucket)?;
            Ok(())
        }
    }
}

// The place of this state's row, if the first bucket has the state on top. It looks up nothing.
#[inline]
pub(crate) fn place_on_top(buckets: &Buckets, state: &Packed) -> Option<u64>
    ensures { result ≡ place_on_top buckets.now.entries state.now }
{
    match buckets.first_key_value() {
        Some((_, bucket)) => bucket.place_if_first(state),
        None => None,
    }
}

// Takes entries from the first bucket until the row of its top entry is Opened at the entry's key.
// Takes out buckets that become empty.
pub(crate) fn tidy(buckets: &mut Buckets, rows: &Rows, num: u64, den: u64)
    requires num { num ≤ 1000 }
    requires den { den ≤ 1000 }
    requires placed { HasPlaces rows.now.entries buckets.old }
    ensures filed { HasFiled (weight_of num den) rows.now.entries buckets.old
        → HasFiled (weight_of num den) rows.now.entries buckets.new }
    ensures tidy { IsTidy (weight_of num den) rows.now.entries buckets.new }
    ensures placed { HasPlaces rows.now.entries buckets.new }
{
    while let Some(sum) = first_sum(buckets) {
        if clear_first(buckets, rows, num, den, &sum) {
            return;
        }
        buckets.pop_first();
    }
}

fn first_sum(buckets: &Buckets) -> Option<Key>
    ensures { result ≡ first_key_of buckets.now.entries }
{
    match buckets.first_key_value() {
        Some((sum, _)) => Some(*sum),
        None => None,
    }
}

// Clears the first bucket, that of this sum. The answer is whether an entry is left in it.
fn clear_first(buckets: &mut Buckets, rows: &Rows, num: u64, den: u64, sum: &Key) -> bool
    requires num { num ≤ 1000 }
    requires den { den ≤ 1000 }
    requires first { first_key_of buckets.old.entries ≡ Some sum.now }
    requires placed { HasPlaces rows.now.entries buckets.old }
    ensures filed { HasFiled (weight_of num den) rows.now.entries buckets.old
        → HasFiled (weight_of num den) rows.now.entries buckets.new }
    ensures tidy { result ≡ true → IsTidy (weight_of num den) rows.now.entries buckets.new }
    ensures placed { HasPlaces rows.now.entries buckets.new }
    ensures first { first_key_of buckets.new.entries ≡ Some sum.now }
    ensures empty { result ≡ false → (entry : Entry) → has_at buckets.new sum.now entry ≡ false }
    ensures len { btree_map_len buckets.new ≡ btree_map_len buckets.old }
{
    match buckets.get_mut(sum) {
        Some(bucket) => clear(bucket, rows, num, den, sum),
        None => unreachable!(),
    }
}

// Takes entries from the top of a bucket until the row of the top entry is Opened at the bucket's
// sum and the entry's estimate. The row is read at the entry's place, so no state is made or looked
// up. The answer is whether an entry is left.
fn clear(bucket: &mut Bucket, rows: &Rows, num: u64, den: u64, sum: &Key) -> bool
    requires num { num ≤ 1000 }
    requires den { den ≤ 1000 }
    requires placed { ArePlaced rows.now.entries bucket.old }
    ensures kept { KeepsLive (weight_of num den) rows.now.entries sum.now bucket.old bucket.new }
    ensures had { (entry : Entry) → has_entry bucket.new entry ≡ true
        → has_entry bucket.old entry ≡ true }
    ensures led { result ≡ true
        → is_led (weight_of num den) rows.now.entries sum.now (top_of bucket.new) ≡ true }
    ensures none { result ≡ false → (entry : Entry) → has_entry bucket.new entry ≡ false }
{
    while let Some(first) = bucket.first() {
        let key = key_from(sum, first.0);
        if is_at(rows.opened_at(first.1), num, den, &key) {
            return true;
        }
        bucket.pop();
    }
    false
}

// Whether the costs of an Opened row, if there is one, have this key.
fn is_at(costs: Option<(u64, Estimate)>, num: u64, den: u64, key: &Key) -> bool
    requires num { num ≤ 1000 }
    requires den { den ≤ 1000 }
    ensures { result ≡ has_key (weight_of num den) costs key.now }
{
    match costs {
        Some(costs) => key_of(num, den, costs.0, &costs.1) == *key,
        None => false,
    }
}
