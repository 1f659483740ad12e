//! The lines of tables and of traps.
ghost use Rattle.std.specs.Prelude.{◌≡◌, ◌≤◌, ◌+◌, ◌*◌, ◌<◌, ◌^◌, All, codes, length, IfOk, map, Err, Ok, Result};
ghost use Rattle.pb_packed.specs.Sizes.{most_digits};
ghost use Rattle.pb_packed.specs.Words.{AreWords};
ghost use Rattle.pb_tables.specs.Tables.{IsTable};
ghost use Rattle.pb_table_lines.specs.Words.{words_for};
ghost use Rattle.pb_table_lines.specs.Faults.{Gives};
ghost use Rattle.pb_table_lines.specs.Reading.{list_at, lists_at, lines_of_lists, of_trap};

use crate::fault::LinesError;
use crate::images::{ReadImages, images_at};
use crate::line::{line_at, list_in};
use pb_packed::Packed;
use pb_tables::{Table, Trap};
use std::alloc::Global;
use std::marker::Model;

/// A place in a text: the number of a line, and the text from that line on.
#[derive(Drop)]
pub struct LinePlace<'a> {
    pub line: u64,
    pub text: &'a [u8],
}

// A table or a trap that is read.
#[derive(Drop)]
struct ReadList {
    tracked: Packed,
    images: ReadImages,
}

impl Model for ReadList {
    ghost use Rattle.pb_tables.specs.Tables.{TableValue};

    ghost Value = { TableValue };

    ghost view = { λ l. record {
      tracked = l.tracked;
      listed = l.images.listed;
      values = l.images.values;
    } };
}

// A table or a trap with values for so many sums, and the text after it.
#[tactic(auto, unfolding(crate::specs::Reading::list_at))]
fn list_at<'a>(
    alloc: Global,
    digits: u32,
    word: &[u8],
    sums: usize,
    line: u64,
    text: &'a [u8],
    words: &mut [u64],
) -> Result<(ReadList, &'a [u8]), LinesError>
    requires some { 1 ≤ digits }
    requires most { digits ≤ most_digits }
    requires long { length words.old ≡ words_for digits }
    requires words { AreWords (length words.old) words.old }
    requires lines { line + length text.now < 2 ^ 64 }
    ensures gives { Gives (λ x. (x.0, x.1.now)) result (list_at digits word.now sums line text.now) }
    ensures table { IfOk result (λ x. IsTable sums x.0) }
    ensures shorter { IfOk result (λ x. length x.1.now + 1 + length x.0.listed ≤ length text.now) }
    ensures words { AreWords (length words.old) words.new }
{
    let (first, rest) = line_at(line, text)?;
    let head = list_in(digits, word, line, first, words)?;
    let (images, rest) = images_at(alloc, digits, sums, head.count, line + 1, rest, words)?;
    let list = ReadList {
        tracked: head.tracked,
        images,
    };
    Ok((list, rest))
}

// A table with values for so many sums, and the text after it.
fn table_at<'a>(
    alloc: Global,
    digits: u32,
    sums: usize,
    line: u64,
    text: &'a [u8],
    words: &mut [u64],
) -> Result<(Table, &'a [u8]), LinesError>
    requires some { 1 ≤ digits }
    requires most { digits ≤ most_digits }
    requires long { length words.old ≡ words_for digits }
    requires words { AreWords (length words.old) words.old }
    requires lines { line + length text.now < 2 ^ 64 }
    ensures gives { Gives (λ x. (x.0, x.1.now)) result
        (list_at digits (codes "table ") sums line text.now) }
    ensures table { IfOk result (λ x. IsTable sums x.0) }
    ensures shorter { IfOk result (λ x. length x.1.now + 1 + length x.0.listed ≤ length text.now) }
    ensures words { AreWords (length words.old) words.new }
{
    let (list, rest) = list_at(alloc, digits, b"table ", sums, line, text, words)?;
    let ReadList { tracked, images } = list;
    let ReadImages { listed, values } = images;
    Ok((Table::of(tracked, listed, values), rest))
}

// A trap, and the text after it.
fn trap_at<'a>(
    alloc: Global,
    digits: u32,
    line: u64,
    text: &'a [u8],
    words: &mut [u64],
) -> Result<(Trap, &'a [u8]), LinesError>
    requires some { 1 ≤ digits }
    requires most { digits ≤ most_digits }
    requires long { length words.old ≡ words_for digits }
    requires words { AreWords (length words.old) words.old }
    requires lines { line + length text.now < 2 ^ 64 }
    ensures gives { Gives (λ x. (of_trap x.0, x.1.now)) result
        (list_at digits (codes "trap ") 0 line text.now) }
    ensures few { IfOk result (λ x. length x.0.listed < 2 ^ 63) }
    ensures shorter { IfOk result (λ x. length x.1.now + 1 + length x.0.listed ≤ length text.now) }
    ensures words { AreWords (length words.old) words.new }
{
    let (list, rest) = list_at(alloc, digits, b"trap ", 0, line, text, words)?;
    let ReadList { tracked, images } = list;
    let ReadImages { listed, .. } = images;
    Ok((Trap::of(tracked, listed), rest))
}

/// So many tables with values for so many sums, and the place after them.
pub fn tables_at<'a>(
    alloc: Global,
    digits: u32,
    sums: usize,
    count: u64,
    place: LinePlace<'a>,
    words: &mut [u64],
) -> Result<(Vec<Table>, LinePlace<'a>), LinesError>
    requires some { 1 ≤ digits }
    requires most { digits ≤ most_digits }
    requires long { length words.old ≡ words_for digits }
    requires words { AreWords (length words.old) words.old }
    requires lines { place.line + length place.text.now < 2 ^ 64 }
    ensures gives { Gives (λ x. (x.0.items, x.1.text.now)) result
        (lists_at digits (codes "table ") sums count place.entry.line place.entry.text.now) }
    ensures line { IfOk result (λ x. x.1.line ≡ place.entry.line + lines_of_lists x.0.items) }
    ensures tables { IfOk result (λ x. All (IsTable sums) x.0.items) }
    ensures many { IfOk result (λ x. length x.0.items ≡ count) }
    ensures shorter { IfOk result (λ x. x.1.line + length x.1.text.now
        ≤ place.entry.line + length place.entry.text.now) }
    ensures words { AreWords (length words.old) words.new }
{
    let mut tables = Vec::new(alloc);
    let mut line = place.line;
    let mut rest = place.text;
    for number in 0..count {
        let (table, after) = table_at(alloc, digits, sums, line, rest, words)?;
        // Counted before the push, which takes the table.
        line += 1 + table.listed().len() as u64;
        tables.push(table)?;
        rest = after;
    }
    Ok((tables, LinePlace { line, text: rest }))
}

/// So many traps, and the place after them.
pub fn traps_at<'a>(
    alloc: Global,
    digits: u32,
    count: u64,
    place: LinePlace<'a>,
    words: &mut [u64],
) -> Result<(Vec<Trap>, LinePlace<'a>), LinesError>
    requires some { 1 ≤ digits }
    requires most { digits ≤ most_digits }
    requires long { length words.old ≡ words_for digits }
    requires words { AreWords (length words.old) words.old }
    requires lines { place.line + length place.text.now < 2 ^ 64 }
    ensures gives { Gives (λ x. (map of_trap x.0.items, x.1.text.now)) result
        (lists_at digits (codes "trap ") 0 count place.entry.line place.entry.text.now) }
    ensures line { IfOk result (λ x. x.1.line
        ≡ place.entry.line + lines_of_lists (map of_trap x.0.items)) }
    ensures few { IfOk result (λ x. All (λ trap. length trap.listed < 2 ^ 63) x.0.items) }
    ensures many { IfOk result (λ x. length x.0.items ≡ count) }
    ensures shorter { IfOk result (λ x. x.1.line + length x.1.text.now
        ≤ place.entry.line + length place.entry.text.now) }
    ensures words { AreWords (length words.old) words.new }
{
    let mut traps = Vec::new(alloc);
    let mut line = place.line;
    let mut rest = place.text;
    for number in 0..count {
        let (trap, after) = trap_at(alloc, digits, line, rest, words)?;
        // Counted before the push, which takes the trap.
        line += 1 + trap.listed().len() as u64;
        traps.push(trap)?;
        rest = after;
    }
    Ok((traps, LinePlace { line, text: rest }))
}
