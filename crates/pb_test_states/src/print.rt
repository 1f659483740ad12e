//! Tests of text, numbers and digits that are put into bytes and pieces.

use pb_packed::Packed;
use pb_print::{Piece, push_line, push_number, push_text};
use std::alloc::AllocError;

fn push_all(out: &mut Vec<u8>) -> Result<(), AllocError> {
    push_text(out, b"plan ")?;
    push_number(out, 0)?;
    push_line(out, b" 4")?;
    push_number(out, u64::MAX)
}

#[test]
fn a_list_of_bytes_takes_text_numbers_and_lines(rt: HostRuntime) {
    let mut out = Vec::new(rt.alloc());
    assert_eq!(rt; push_all(&mut out), Ok(()));
    assert!(rt; out.as_slice() == b"plan 0 4\n18446744073709551615".as_slice());
}

fn filled_piece() -> Piece {
    let mut piece = Piece::new();
    piece.push(b"gone");
    piece.clear();
    let cell = Packed::of_word(0x1002);
    piece.push_hex(&cell, 6);
    piece.push(b" ");
    piece.push_hex(&cell, 64);
    piece.push(b" ");
    piece.push_number(10);
    piece
}

#[test]
fn a_piece_takes_text_numbers_and_digits(rt: HostRuntime) {
    let piece = filled_piece();
    assert!(rt;
        piece.as_slice()
            == b"001002 0000000000000000000000000000000000000000000000000000000000001002 10".as_slice()
    );
    assert!(rt; piece.len() == 74);
}
