//! Tables and traps in one order, as their lines state them.
ghost use Rattle.std.specs.Prelude.{◌≡◌, ℕ, ◌≤◌, ◌+◌, ◌*◌, ◌<◌, ◌^◌, length};
ghost use Rattle.pb_tables.specs.Tables.{IsTable};
ghost use Rattle.pb_table_lines.specs.Lines.{listings, listing_at, table_listing, trap_listing, tables_lines, lines_before, line_number};

use pb_packed::Packed;
use pb_tables::{ImageList, Table, Tables, Trap};
use std::marker::Model;

/// A table or a trap as its lines state it: the word that its first line begins with, how many
/// values stand behind an image, and the images with these values.
#[derive(Drop)]
pub struct Listing<'a> {
    pub word: &'a [u8],
    pub sums: usize,
    pub tracked: &'a Packed,
    pub listed: &'a ImageList,
    pub values: &'a [u64],
}

impl<'a> Model for Listing<'a> {
    ghost use Rattle.pb_table_lines.specs.Lines.{Listing};

    ghost Value = { Listing };

    ghost view = { λ l. record {
      word = l.word.now;
      sums = l.sums;
      tracked = l.tracked.now;
      listed = l.listed.now;
      values = l.values.now;
    } };
}

fn table_listing(sums: usize, table: &Table) -> Listing<'_>
    ensures { result ≡ table_listing sums table.now }
{
    Listing {
        word: b"table",
        sums,
        tracked: table.tracked(),
        listed: table.listed(),
        values: table.values(),
    }
}

fn trap_listing(trap: &Trap) -> Listing<'_>
    ensures { result ≡ trap_listing trap.now }
{
    Listing {
        word: b"trap",
        sums: 0,
        tracked: trap.tracked(),
        listed: trap.listed(),
        values: &[],
    }
}

/// How many tables and traps there are.
pub fn count(tables: &Tables) -> usize
    ensures count { result ≡ length (listings tables.now) }
    ensures most { result ≤ 8192 }
{
    // Called for its clause `lawful`: there are at most 4,096 tables and as many traps.
    let _ = tables.sums();
    tables.tables().len() + tables.traps().len()
}

/// The table or trap of a number. The tables come before the traps.
pub fn listing_at(tables: &Tables, list: usize) -> Listing<'_>
    requires { list < length (listings tables.now) }
    ensures listing { result ≡ listing_at (listings tables.now) list }
    ensures long { length result.values ≡ length result.listed * result.sums }
    ensures few { result.sums ≤ 64 }
    ensures listed { length result.listed < 2 ^ 63 }
    ensures short { length result.word ≤ 8 }
{
    let sums = tables.sums();
    let count = tables.tables().len();
    if list < count {
        table_listing(sums, &tables.tables()[list])
    } else {
        trap_listing(&tables.traps()[list - count])
    }
}

// How many lines come before those of a table or trap.
fn lines_before(tables: &Tables, list: usize) -> u128
    requires { list ≤ length (listings tables.now) }
    ensures lines { result ≡ lines_before tables.now list }
    ensures few { result ≤ 1 + list * 2 ^ 63 }
{
    let mut lines = 1u128;
    for number in 0..list {
        lines += 1 + listing_at(tables, number).listed.len() as u128;
    }
    lines
}

/// How many lines state tables, at any number of digits.
pub fn line_count(tables: &Tables) -> u128
    ensures lines { (digits : ℕ) → result ≡ length (tables_lines digits tables.now) }
    ensures few { result < 2 ^ 78 }
{
    lines_before(tables, count(tables))
}

/// The number of a line of a table or trap, among all lines from 1 on. The tables are numbered from
/// 0, the traps after them. Line 0 of a list is that of its tracked atoms, and line 1 that of its
/// first image, as in `TablesFault::Line`.
pub fn line_number(tables: &Tables, list: usize, line: usize) -> u128
    ensures { result ≡ line_number tables.now list line }
{
    let lists = count(tables);
    // The contract takes any number. One above the last list's counts as that behind it.
    let before = lines_before(tables, if list <= lists { list } else { lists });
    before + line as u128 + 1
}
