//! Tests of packed states: fields, single bits, digits and order.
ghost use Rattle.std.specs.Prelude.{◌≤◌, ◌<◌};
ghost use Rattle.pb_packed.specs.Sizes.{most_digits, state_bits};

use pb_packed::{MOST_DIGITS, Packed};

// The packed cell (2, 1) of a grid: x in the bits 0 to 10, and y in the bits 11 to 21.
fn cell() -> Packed {
    Packed::zero().with_bits(0, 11, 2).with_bits(11, 11, 1)
}

// So many digits of a state, and points after them.
fn digits_of(state: &Packed, digits: u32) -> [u8; MOST_DIGITS]
    requires some { 1 ≤ digits }
    requires most { digits ≤ most_digits }
{
    let mut out = [b'.'; MOST_DIGITS];
    state.hex(digits, &mut out);
    out
}

// The function has no clause, so a caller's proof reads no digit.
fn state_of(digits: &[u8]) -> Option<Packed> {
    Packed::of_hex(digits)
}

// Other texts are no digits.
#[test]
fn a_cell_of_a_grid_has_its_digits_and_comes_back(rt: HostRuntime) {
    let digits = digits_of(&cell(), 64);
    let (text, _points) = digits.as_slice().split_at(64);
    let wanted = b"0000000000000000000000000000000000000000000000000000000000000802";
    assert!(rt; text == wanted.as_slice());
    assert!(rt; digits[64] == b'.');
    assert_eq!(rt; state_of(text), Some(cell()));
    assert_eq!(rt; state_of(b"802"), Some(cell()));
    let others = (
        state_of(b""),
        state_of(&[b'F'; 64]),
        state_of(&[b'g'; 64]),
        state_of(&[b'0'; 257]),
    );
    assert_eq!(rt; others, (None, None, None, None));
}

// Fields of a state in which a field crosses a word, and one that crosses the first 256 bits.
fn fields() -> (u64, u64, u64, u64) {
    let state = Packed::zero()
        .with_bits(120, 16, 0xabcd)
        .with_bits(252, 8, 0xef);
    (
        state.bits(120, 16),
        state.bits(116, 16),
        state.bits(250, 12),
        state.bits(960, 64),
    )
}

// The last bit of a state, and the first, which was set and cleared again. Then whether that state
// comes after 0, and a state of bit 8 after one of bit 7.
fn single_bits() -> (bool, bool, bool, bool) {
    let zero = Packed::zero();
    let state = zero.with(1023, true).with(0, true).with(0, false);
    (
        state.has(1023),
        state.has(0),
        zero < state,
        zero.with(7, true) < zero.with(8, true),
    )
}

#[test]
fn fields_and_single_bits_are_read_and_set(rt: HostRuntime) {
    assert_eq!(rt; fields(), (0xabcd, 0xbcd0, 0x3bc, 0));
    assert_eq!(rt; single_bits(), (true, false, true, true));
}

// Whether states of at most one word, of at most four and of more come in their order.
fn rises() -> (bool, bool, bool, bool, bool) {
    let zero = Packed::zero();
    let word = zero.with(63, true);
    let two = zero.with(64, true).with(0, true);
    let few = zero.with(255, true);
    let many = zero.with(256, true).with(63, true);
    let last = zero.with(1023, true);
    (zero < word, word < two, two < few, few < many, many < last)
}

// Whether the state of this bit, with bit 0, comes back from its digits.
fn comes_back(bit: u32) -> bool
    requires { bit < state_bits }
{
    let state = Packed::zero().with(bit, true).with(0, true);
    let digits = digits_of(&state, 256);
    state_of(&digits) == Some(state)
}

#[test]
fn states_of_each_width_rise_and_come_back_from_their_digits(rt: HostRuntime) {
    assert_eq!(rt; rises(), (true, true, true, true, true));
    for bit in [0, 63, 64, 255, 256, 1023u32] {
        assert!(rt; comes_back(bit % 1024));
    }
}

// Whether states whose highest bit was set and cleared again are the narrow ones.
fn narrow_again() -> (bool, bool, Option<u64>) {
    let zero = Packed::zero();
    let few = zero.with(64, true).with(200, true).with(200, false);
    let word = zero.with(3, true).with(900, true).with(900, false);
    (
        few == zero.with(64, true),
        word == zero.with(3, true),
        word.as_word(),
    )
}

#[test]
fn a_state_is_known_by_its_number_alone(rt: HostRuntime) {
    assert_eq!(rt; narrow_again(), (true, true, Some(8)));
}
