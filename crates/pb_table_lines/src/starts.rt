//! Where the lines of each table and trap begin.
ghost use Rattle.std.specs.Prelude.{◌≡◌, ℕ, ◌≤◌, ◌+◌, ◌-◌, ◌<◌, ◌^◌, IfOk, length, slice_index};
ghost use Rattle.pb_table_lines.specs.Lines.{listings, listing_at, tables_lines, lines_before};
ghost use Rattle.pb_table_lines.specs.Stated.{AreStarts};

use crate::listing::{self, listing_at};
use pb_tables::Tables;
use std::alloc::{AllocError, Global};
use std::marker::Model;

/// How many lines come before those of each table and trap, and at the end how many lines there are.
/// It borrows no tables. Contracts see these numbers, in the order of `listings`.
#[derive(Drop)]
pub struct LineStarts {
    starts: Vec<u128>,
}

impl Model for LineStarts {
    ghost use Rattle.std.specs.Prelude.{ℕ, List};

    ghost Value = { List ℕ };

    ghost view = { λ s. s.starts.items };
}

impl LineStarts {
    /// Where the lines of these tables and traps begin. It takes 16 bytes for each table and trap,
    /// and an error means out of memory.
    pub fn of(alloc: Global, tables: &Tables) -> Result<LineStarts, AllocError>
        ensures { IfOk result (λ starts. AreStarts tables.now starts) }
    {
        let mut starts = Vec::new(alloc);
        // Up to 8,192 lists of less than 2^63 images each: the sum needs more than 64 bits.
        let mut at = 1u128;
        for list in 0..listing::count(tables) {
            starts.push(at)?;
            at += 1 + listing_at(tables, list).listed.len() as u128;
        }
        // One more, behind the last list: how many lines there are.
        starts.push(at)?;
        Ok(LineStarts { starts })
    }

    /// How many lines state these tables, at any number of digits.
    pub fn count(&self, tables: &Tables) -> u128
        requires { AreStarts tables.now self.now }
        ensures lines { (digits : ℕ) → result ≡ length (tables_lines digits tables.now) }
        ensures some { 1 ≤ result }
        ensures few { result < 2 ^ 78 }
    {
        let starts = self.starts.as_slice();
        starts[listing::count(tables)]
    }

    // The number of the table or trap that has a line behind the first, and the line's number in
    // it: 0 is that of its tracked atoms.
    pub(crate) fn place_of(&self, _tables: &Tables, at: u128) -> (usize, u128)
        requires starts { AreStarts _tables.now self.now }
        requires some { 1 ≤ at }
        requires within { at < lines_before _tables.now (length (listings _tables.now)) }
        ensures list { result.0 < length (listings _tables.now) }
        ensures line { at ≡ lines_before _tables.now result.0 + result.1 }
        ensures within { result.1 ≤ length (listing_at (listings _tables.now) result.0).listed }
    {
        let starts = self.starts.as_slice();
        let list = last_from(starts, at);
        (list, at - starts[list])
    }
}

// The table or trap that has a line: its lines begin there or before, and those of the next one
// begin after it.
fn last_from(starts: &[u128], at: u128) -> usize
    requires some { 2 ≤ length starts.now }
    requires first { slice_index starts.now 0 ≤ at }
    requires last { at < slice_index starts.now (length starts.now - 1) }
    ensures within { result + 1 < length starts.now }
    ensures from { slice_index starts.now result ≤ at }
    ensures to { at < slice_index starts.now (result + 1) }
{
    let mut low = 0;
    let mut high = starts.len() - 1;
    while low + 1 < high {
        let middle = low + (high - low) / 2;
        if starts[middle] <= at {
            low = middle;
        } else {
            high = middle;
        }
    }
    low
}
