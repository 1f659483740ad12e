//! Tables and traps are written, line by line.
ghost use Rattle.std.specs.Prelude.{◌≡◌, ◌≤◌, ◌+◌, ◌*◌, ◌<◌, ◌++◌, ⊤, IfOk, length, slice_index, take, drop};
ghost use Rattle.pb_packed.specs.Sizes.{most_digits};
ghost use Rattle.pb_model.specs.Texts.{line};
ghost use Rattle.pb_print.specs.Saved.{longest_line, PutsLine};
ghost use Rattle.pb_table_lines.specs.Lines.{values_text, image_line, list_line, counts_line, listing_lines, tables_lines};
ghost use Rattle.pb_table_lines.specs.Stated.{AreStarts, stated_lines, stated_text};

use crate::listing::{Listing, listing_at};
use crate::starts::LineStarts;
use pb_packed::Packed;
use pb_print::{NumberedLines, Piece};
use pb_tables::Tables;
use std::alloc::{AllocError, Global};
use std::marker::Model;

// Puts values at the piece's end, each behind a blank. It goes at most 64 values deep.
fn put_values(values: &[u64], out: &mut Piece)
    requires room { length out.old + 21 * length values.now ≤ 4096 }
    ensures text { out.new ≡ out.old ++ values_text values.now }
    ensures short { length out.new ≤ length out.old + 21 * length values.now }
{
    match values {
        [] => {}
        [value, others @ ..] => {
            out.push(b" ");
            out.push_number(*value);
            put_values(others, out);
        }
    }
}

// Puts the line of an image and its values at the piece's end.
fn put_image(digits: u32, image: &Packed, values: &[u64], out: &mut Piece)
    requires some { 1 ≤ digits }
    requires most { digits ≤ most_digits }
    requires few { length values.now ≤ 64 }
    requires room { length out.old + longest_line ≤ 4096 }
    ensures line { out.new ≡ out.old ++ line (image_line digits image.now values.now) }
    ensures short { length out.new ≤ length out.old + longest_line }
{
    out.push_hex(image, digits);
    put_values(values, out);
    out.push(b"\n");
}

// Puts the line of a table or trap's tracked atoms at the piece's end.
fn put_list(digits: u32, word: &[u8], tracked: &Packed, count: u64, out: &mut Piece)
    requires some { 1 ≤ digits }
    requires most { digits ≤ most_digits }
    requires word { length word.now ≤ 8 }
    requires room { length out.old + longest_line ≤ 4096 }
    ensures line { out.new ≡ out.old ++ line (list_line digits word.now tracked.now count) }
    ensures short { length out.new ≤ length out.old + longest_line }
{
    out.push(word);
    out.push(b" ");
    out.push_hex(tracked, digits);
    out.push(b" ");
    out.push_number(count);
    out.push(b"\n");
}

// Puts the first line at the piece's end.
fn put_counts(sums: u64, tables: u64, traps: u64, out: &mut Piece)
    requires room { length out.old + longest_line ≤ 4096 }
    ensures line { out.new ≡ out.old ++ line (counts_line sums tables traps) }
    ensures short { length out.new ≤ length out.old + longest_line }
{
    out.push(b"estimate tables ");
    out.push_number(sums);
    out.push(b" ");
    out.push_number(tables);
    out.push(b" ");
    out.push_number(traps);
    out.push(b"\n");
}

// Puts the line of an image of a table or trap at the piece's end.
fn put_image_at(listing: &Listing<'_>, digits: u32, place: usize, out: &mut Piece)
    requires some { 1 ≤ digits }
    requires most { digits ≤ most_digits }
    requires place { place < length listing.now.listed }
    requires long { length listing.now.values ≡ length listing.now.listed * listing.now.sums }
    requires few { listing.now.sums ≤ 64 }
    requires room { length out.old + longest_line ≤ 4096 }
    ensures line { out.new ≡ out.old ++ line (image_line digits
        (slice_index listing.now.listed place)
        (take listing.now.sums (drop (place * listing.now.sums) listing.now.values))) }
    ensures short { length out.new ≤ length out.old + longest_line }
{
    let first = place * listing.sums;
    let values = &listing.values[first..first + listing.sums];
    put_image(digits, &listing.listed.at(place), values, out);
}

// Puts a line of a table or trap at the piece's end.
fn put_listing(listing: &Listing<'_>, digits: u32, at: u128, out: &mut Piece)
    requires some { 1 ≤ digits }
    requires most { digits ≤ most_digits }
    requires word { length listing.now.word ≤ 8 }
    requires at { at ≤ length listing.now.listed }
    requires long { length listing.now.values ≡ length listing.now.listed * listing.now.sums }
    requires few { listing.now.sums ≤ 64 }
    requires room { length out.old + longest_line ≤ 4096 }
    ensures { PutsLine out.old out.new (listing_lines digits listing.now) at }
{
    let count = listing.listed.len() as u64;
    if at == 0 {
        put_list(digits, listing.word, listing.tracked, count, out);
    } else {
        put_image_at(listing, digits, (at - 1) as usize, out);
    }
}

// Puts a line of a table or trap at the piece's end.
fn put_list_line(tables: &Tables, digits: u32, starts: &LineStarts, at: u128, out: &mut Piece)
    requires some { 1 ≤ digits }
    requires most { digits ≤ most_digits }
    requires starts { AreStarts tables.now starts.now }
    requires behind { 1 ≤ at }
    requires within { at < length (tables_lines digits tables.now) }
    requires room { length out.old + longest_line ≤ 4096 }
    ensures { PutsLine out.old out.new (tables_lines digits tables.now) at }
{
    let (list, line) = starts.place_of(tables, at);
    put_listing(&listing_at(tables, list), digits, line, out);
}

/// Puts the line of this number, counted from 0, at the piece's end, with its line feed. Images have
/// so many digits. The table or trap of the line is found by halving.
pub fn put_tables_line(tables: &Tables, digits: u32, starts: &LineStarts, at: u128, out: &mut Piece)
    requires some { 1 ≤ digits }
    requires most { digits ≤ most_digits }
    requires starts { AreStarts tables.now starts.now }
    requires within { at < length (tables_lines digits tables.now) }
    requires room { length out.old + longest_line ≤ 4096 }
    ensures { PutsLine out.old out.new (tables_lines digits tables.now) at }
{
    if at == 0 {
        let count = tables.tables().len() as u64;
        let traps = tables.traps().len() as u64;
        put_counts(tables.sums() as u64, count, traps, out);
    } else {
        put_list_line(tables, digits, starts, at, out);
    }
}

/// The text of tables and traps. Contracts see the tables, and how many hexadecimal digits an image
/// has.
#[derive(Drop)]
pub struct TablesText<'a> {
    tables: &'a Tables,
    digits: u32,
    starts: LineStarts,
}

impl<'a> Model for TablesText<'a> {
    ghost use Rattle.pb_table_lines.specs.Stated.{StatedTables, IsIndexed};

    ghost Value = { StatedTables };

    ghost view = { λ t. record { digits = t.digits; tables = t.tables.now } };

    ghost invariant = { λ t. IsIndexed t.digits t.tables.now t.starts };
}

impl<'a> TablesText<'a> {
    /// The text of these tables, with images of so many digits: the lowest digits of each. It takes
    /// a number for each table and trap.
    pub fn of(alloc: Global, tables: &'a Tables, digits: u32) -> Result<TablesText<'a>, AllocError>
        requires some { 1 ≤ digits }
        requires most { digits ≤ most_digits }
        ensures { IfOk result (λ text. text ≡ record { digits = digits; tables = tables.now }) }
    {
        let starts = LineStarts::of(alloc, tables)?;
        Ok(TablesText {
            tables,
            digits,
            starts,
        })
    }
}

/// The lines of tables and traps.
impl NumberedLines for TablesText<'_> {
    ghost text = { stated_text };

    ghost lines_of = { stated_lines };

    ghost begins = { λ t at begin. ⊤ };

    fn count(&self) -> u128 {
        self.starts.count(self.tables)
    }

    fn put_line(&self, at: u128, _begin: &mut usize, out: &mut Piece) {
        put_tables_line(self.tables, self.digits, &self.starts, at, out);
    }
}
