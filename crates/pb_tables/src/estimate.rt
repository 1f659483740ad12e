//! The estimate of a state.
ghost use Rattle.std.specs.Prelude.{◌≡◌, ℕ, ◌+◌, ◌*◌, ◌^◌, ◌<◌, ◌≤◌, All, None, Some, if◌then◌else◌, length, slice_index};
ghost use Rattle.pb_packed.specs.Sizes.{most_atoms};
ghost use Rattle.pb_tables.specs.Below.{greatest_below};
ghost use Rattle.pb_tables.specs.Tables.{IsTable, value_at};
ghost use Rattle.pb_tables.specs.Order.{AreWritten, AreTrapsWritten};
ghost use Rattle.pb_tables.specs.Estimate.{is_trapped, is_unlisted, sum_of};

use crate::sets::both;
use crate::sums::{SUMS, no_sums};
use crate::table::Table;
use crate::trap::Trap;
use pb_packed::Packed;

/// Whether some trap has a state's image.
pub fn is_trapped(count: u32, traps: &[Trap], state: &Packed) -> bool
    requires count { count ≤ most_atoms }
    requires written { AreTrapsWritten count traps.now }
    ensures { result ≡ is_trapped count traps.now state.now }
{
    for number in 0..traps.len() {
        let trap = &traps[number];
        let image = both(count, state, trap.tracked());
        if trap.listed().place_of(&image).is_some() {
            return true;
        }
    }
    false
}

// Adds the values of the image in a place to the sums.
fn add_values(totals: &mut [u64; SUMS], sums: usize, values: &[u64], place: usize)
    requires sums { sums ≤ 64 }
    requires place { place * sums + sums ≤ length values.now }
    requires small { All (λ value. value ≤ 2 ^ 40) values.now }
    requires room { (sum : ℕ) → sum < sums → slice_index totals.old sum ≤ 2 ^ 52 }
    ensures { (sum : ℕ) → sum < sums → slice_index totals.new sum
        ≡ slice_index totals.old sum + value_at sums values.now sum place }
{
    for sum in 0..sums {
        totals[sum] += values[place * sums + sum];
    }
}

// The greatest of the first sums.
fn greatest(totals: &[u64; SUMS], sums: usize) -> u64
    requires sums { sums ≤ 64 }
    ensures { result ≡ greatest_below sums (slice_index totals.now) }
{
    let mut most = 0;
    for sum in 0..sums {
        most = most.max(totals[sum]);
    }
    most
}

/// The greatest sum of the values of a state's images, and 0 if one isn't listed.
pub fn greatest_sum(count: u32, sums: usize, tables: &[Table], state: &Packed) -> u64
    requires count { count ≤ most_atoms }
    requires sums { sums ≤ 64 }
    requires few { length tables.now ≤ 4096 }
    requires tables { All (IsTable sums) tables.now }
    requires written { AreWritten count tables.now }
    ensures { result ≡ (if is_unlisted count tables.now (length tables.now) state.now then 0
        else greatest_below sums (sum_of count sums tables.now (length tables.now) state.now)) }
{
    // At most 4,096 tables with values of at most 2^40: no sum exceeds 2^52.
    let mut totals = no_sums();
    for number in 0..tables.len() {
        let table = &tables[number];
        let image = both(count, state, table.tracked());
        match table.listed().place_of(&image) {
            Some(place) => add_values(&mut totals, sums, table.values(), place),
            None => return 0,
        }
    }
    greatest(&totals, sums)
}
