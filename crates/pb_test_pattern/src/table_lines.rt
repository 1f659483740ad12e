//! Tables that are read from a text, and whose lines are written again one by one.
ghost use Rattle.pb_table_lines.specs.Stated.{AreStarts};

use pb_print::{Piece, len_of_lines};
use pb_table_lines::{LineStarts, TablesText, put_tables_line, read_tables, tables_at};
use pb_tables::Tables;
use std::alloc::Global;
use std::process::Abort;

// Two sums over one table, and a trap behind it, with two digits for an image.
const TEXT: &[u8] = b"estimate tables 2 1 1\ntable 03 2\n01 2 3\n02 0 0\ntrap 07 3\n01\n02\n04\n";

fn tables<R: Abort>(rt: &R, alloc: Global) -> Tables {
    match read_tables(alloc, 2, TEXT) {
        Ok(tables) => tables,
        Err(_) => panic!(rt; "the text states no tables"),
    }
}

// Whether this is the line of this number.
fn has_line<R: Abort>(rt: &R, tables: &Tables, starts: &LineStarts, at: u128, wanted: &[u8]) -> bool
    requires { AreStarts tables.now starts.now }
{
    let count = starts.count(tables);
    assert!(rt; at < count);
    let mut line = Piece::new();
    put_tables_line(tables, 2, starts, at, &mut line);
    line.as_slice() == wanted
}

// The first line, a line of tracked atoms, those of images with values and without, and the last.
#[test]
fn lines_are_found_by_their_numbers(rt: HostRuntime) {
    let tables = tables(&rt, rt.alloc());
    let starts = LineStarts::of(rt.alloc(), &tables).expect(&rt, "memory");
    assert_eq!(rt; starts.count(&tables), 8);
    assert!(rt; has_line(&rt, &tables, &starts, 0, b"estimate tables 2 1 1\n"));
    assert!(rt; has_line(&rt, &tables, &starts, 1, b"table 03 2\n"));
    assert!(rt; has_line(&rt, &tables, &starts, 2, b"01 2 3\n"));
    assert!(rt; has_line(&rt, &tables, &starts, 4, b"trap 07 3\n"));
    assert!(rt; has_line(&rt, &tables, &starts, 7, b"04\n"));
}

#[test]
fn the_text_has_all_its_bytes(rt: HostRuntime) {
    let tables = tables(&rt, rt.alloc());
    let text = TablesText::of(rt.alloc(), &tables, 2).expect(&rt, "memory");
    assert_eq!(rt; len_of_lines(&text), 66);
}

// Tables from line 5 of a certificate on, which has another line behind them.
#[test]
fn what_follows_tables_is_left(rt: HostRuntime) {
    let text = b"estimate tables 1 1 0\ntable 3 2\n1 3\n2 0\nweight 1 1\n";
    match tables_at(rt.alloc(), 1, 5, text) {
        Ok((_, place)) => assert!(rt; place.line == 9 && place.text == b"weight 1 1\n".as_slice()),
        Err(_) => panic!(rt; "the text states no tables"),
    }
}
