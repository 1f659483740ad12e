//! Worked rows: what a bundle answers, which of its rows comes first, and which rows it keeps.
//!
//! Functions without clauses call the bundle, so the proofs of the others stay short.
use pb_lists::Offer::{Better, New, Worse};
use pb_lists::{Bundle, Offer};
use pb_model::Estimate::{Cost, Dead};
use pb_model::Status::{Closed, Cut, Opened};
use pb_model::{Estimate, Key, Row, Status};
use pb_packed::Packed;
use std::alloc::Global;

// A state of which one word isn't 0: the word's place, 0 for the lowest, and its number.
type State = (u32, u64);

// A state with its row: g, estimate, parent, action and status. As a call, an Opened row is an
// offer. Another one closes or cuts the row that the state has: only its state and status count.
type Entry = (State, u64, Estimate, Option<State>, u32, Status);

// What is seen after a call: the answer to an offer, how many states have rows, the first state and
// the least key.
type Seen = (Option<Offer>, u64, Option<State>, Option<Key>);

// What is seen of all calls on a new bundle: whether it was empty, how many calls in turn were
// followed by what is wanted, how many of the wanted rows are there in turn, and whether a state
// without a row has none.
type Outcome = (bool, usize, usize, bool);

fn packed(state: State) -> Packed {
    Packed::zero().with_bits(64 * (state.0 % 4), 64, state.1)
}

fn maybe_packed(state: Option<State>) -> Option<Packed> {
    match state {
        Some(state) => Some(packed(state)),
        None => None,
    }
}

// The answer to an offer, or None if memory runs out.
fn offer(bundle: &mut Bundle, call: Entry) -> Option<Offer> {
    let parent = maybe_packed(call.3);
    bundle
        .offer(packed(call.0), call.1, call.2, parent, call.4)
        .ok()
}

// Closes or cuts the row of the state if it is Opened.
fn settle(bundle: &mut Bundle, state: Packed, status: Status) {
    let Some(row) = bundle.row(&state) else {
        return;
    };
    if row.status != Opened {
        return;
    }
    match status {
        Opened => {}
        Closed => bundle.close_row(&state),
        Cut => bundle.cut_row(&state),
    }
}

// Makes a call. The answer is that to an offer.
fn make(bundle: &mut Bundle, call: Entry) -> Option<Offer> {
    match call.5 {
        Opened => offer(bundle, call),
        Closed | Cut => {
            settle(bundle, packed(call.0), call.5);
            None
        }
    }
}

// How many states have rows, the first state and the least key.
fn front(bundle: &Bundle) -> (u64, Option<Packed>, Option<Key>) {
    (bundle.len(), bundle.first(), bundle.best())
}

// Makes a call. The answer is whether it is followed by what is wanted.
fn is_answered(bundle: &mut Bundle, call: Entry, wanted: Seen) -> bool {
    let (answer, count, first, best) = wanted;
    let seen = (make(bundle, call), front(bundle));
    seen == (answer, (count, maybe_packed(first), best))
}

// How many calls in turn are followed by what is wanted.
fn count_answered(bundle: &mut Bundle, calls: &[Entry], wanted: &[Seen]) -> usize {
    if calls.len() != wanted.len() {
        return 0;
    }
    for i in 0..calls.len() {
        if !is_answered(bundle, calls[i], wanted[i]) {
            return i;
        }
    }
    calls.len()
}

// The place of a state's row with the state and the row that are there, and the state's row.
fn look(bundle: &Bundle, state: Packed) -> (Option<(u64, (Packed, Row))>, Option<Row>) {
    let row = bundle.row(&state);
    match bundle.place_of(&state) {
        Some(place) => (Some((place, bundle.at(place))), row),
        None => (None, row),
    }
}

fn row_of(entry: Entry) -> Row {
    let (_state, g, estimate, parent, action, status) = entry;
    Row {
        g,
        estimate,
        parent: maybe_packed(parent),
        action,
        status,
    }
}

// Whether the state has this row, at this place.
fn is_kept(bundle: &Bundle, place: u64, wanted: Entry) -> bool {
    let state = packed(wanted.0);
    let place_and_row = Some((place, (state, row_of(wanted))));
    look(bundle, state) == (place_and_row, Some(row_of(wanted)))
}

// How many of the rows are there in turn, from the first place on.
fn count_kept(bundle: &Bundle, rows: &[Entry]) -> usize {
    for i in 0..rows.len() {
        if !is_kept(bundle, i as u64, rows[i]) {
            return i;
        }
    }
    rows.len()
}

// Only values that threads may share and hand on are taken.
fn crosses_threads<T: Send + Sync>(value: &T) -> &T {
    value
}

// Makes the calls on a bundle, which may cross threads.
fn make_all(
    bundle: &mut Bundle,
    calls: &[Entry],
    wanted: &[Seen],
    rows: &[Entry],
    absent: State,
) -> Outcome {
    let is_empty = front(crosses_threads(bundle)) == (0, None, None);
    let answered = count_answered(bundle, calls, wanted);
    let kept = count_kept(bundle, rows);
    let is_absent = look(bundle, packed(absent)) == (None, None);
    (is_empty, answered, kept, is_absent)
}

// Makes the calls on a new bundle of this weight. None if memory runs out, or if no search has the
// weight.
fn run(
    alloc: Global,
    weight: (u64, u64),
    calls: &[Entry],
    wanted: &[Seen],
    rows: &[Entry],
    absent: State,
) -> Option<Outcome> {
    let (num, den) = weight;
    if den == 0 || num < den || num > 1000 {
        return None;
    }
    let mut bundle = Bundle::new(alloc, num, den).ok()?;
    Some(make_all(&mut bundle, calls, wanted, rows, absent))
}

// Two of three rows have the least key. In the second bundle all rows have one key: each of the
// first four states is less than those before, and the last two aren't. Some don't fit a word.
#[test]
fn the_least_key_comes_first_and_then_the_least_state(rt: HostRuntime) {
    let calls: [Entry; 3] = [
        ((0, 3), 5, Dead, None, 0, Opened),
        ((0, 2), 4, Cost(2), None, 0, Opened),
        ((0, 1), 4, Cost(2), Some((0, 2)), 3, Opened),
    ];
    let key = Some(Key::Sum { sum: 14, h: 2 });
    let wanted: [Seen; 3] = [
        (Some(New), 1, Some((0, 3)), Some(Key::Dead)),
        (Some(New), 2, Some((0, 2)), key),
        (Some(New), 3, Some((0, 1)), key),
    ];
    let seen = run(rt.alloc(), (3, 2), &calls, &wanted, &calls, (0, 4));
    assert_eq!(rt; seen, Some((true, 3, 3, true)));

    let calls: [Entry; 6] = [
        ((3, u64::MAX), 4, Cost(2), None, 0, Opened),
        ((1, 1), 4, Cost(2), None, 0, Opened),
        ((0, u64::MAX), 4, Cost(2), None, 0, Opened),
        ((0, 1), 4, Cost(2), None, 0, Opened),
        ((0, 2), 4, Cost(2), None, 0, Opened),
        ((1, 1 << 63), 4, Cost(2), None, 0, Opened),
    ];
    let key = Some(Key::Sum { sum: 6, h: 2 });
    let wanted: [Seen; 6] = [
        (Some(New), 1, Some((3, u64::MAX)), key),
        (Some(New), 2, Some((1, 1)), key),
        (Some(New), 3, Some((0, u64::MAX)), key),
        (Some(New), 4, Some((0, 1)), key),
        (Some(New), 5, Some((0, 1)), key),
        (Some(New), 6, Some((0, 1)), key),
    ];
    let seen = run(rt.alloc(), (1, 1), &calls, &wanted, &calls, (0, 4));
    assert_eq!(rt; seen, Some((true, 6, 6, true)));
}

// A row that is lowered keeps its place and its estimate, also if no goal is reached from it. A
// closed one is opened again. In the last bundle a small row gets a parent that doesn't fit a word.
#[test]
fn a_cheaper_row_is_lowered(rt: HostRuntime) {
    let calls: [Entry; 4] = [
        ((0, 1), 4, Cost(2), None, 0, Opened),
        ((0, 1), 4, Cost(2), None, 0, Closed),
        ((0, 1), 4, Cost(2), None, 0, Opened),
        ((0, 1), 3, Cost(9), None, 0, Opened),
    ];
    let first = Some((0, 1));
    let wanted: [Seen; 4] = [
        (Some(New), 1, first, Some(Key::Sum { sum: 14, h: 2 })),
        (None, 1, None, None),
        (Some(Worse), 1, None, None),
        (Some(Better), 1, first, Some(Key::Sum { sum: 12, h: 2 })),
    ];
    let rows: [Entry; 1] = [((0, 1), 3, Cost(2), None, 0, Opened)];
    let seen = run(rt.alloc(), (3, 2), &calls, &wanted, &rows, (0, 4));
    assert_eq!(rt; seen, Some((true, 4, 1, true)));

    let calls: [Entry; 3] = [
        ((0, 1), 5, Dead, None, 0, Opened),
        ((0, 1), 4, Dead, None, 0, Opened),
        ((0, 1), 4, Dead, None, 0, Cut),
    ];
    let wanted: [Seen; 3] = [
        (Some(New), 1, first, Some(Key::Dead)),
        (Some(Better), 1, first, Some(Key::Dead)),
        (None, 1, None, None),
    ];
    let rows: [Entry; 1] = [((0, 1), 4, Dead, None, 0, Cut)];
    let seen = run(rt.alloc(), (1, 1), &calls, &wanted, &rows, (0, 4));
    assert_eq!(rt; seen, Some((true, 3, 1, true)));

    let wide = Some((3, 1 << 63));
    let calls: [Entry; 4] = [
        ((0, 3), 9, Cost(2), None, 0, Opened),
        ((0, 4), 9, Cost(1), Some((0, 3)), 1, Opened),
        ((0, 3), 9, Cost(2), wide, 5, Opened),
        ((0, 3), 8, Cost(2), wide, 5, Opened),
    ];
    let key = Some(Key::Sum { sum: 10, h: 1 });
    let wanted: [Seen; 4] = [
        (Some(New), 1, Some((0, 3)), Some(Key::Sum { sum: 11, h: 2 })),
        (Some(New), 2, Some((0, 4)), key),
        (Some(Worse), 2, Some((0, 4)), key),
        (Some(Better), 2, Some((0, 4)), key),
    ];
    let rows: [Entry; 2] = [
        ((0, 3), 8, Cost(2), wide, 5, Opened),
        ((0, 4), 9, Cost(1), Some((0, 3)), 1, Opened),
    ];
    let seen = run(rt.alloc(), (1, 1), &calls, &wanted, &rows, (0, 5));
    assert_eq!(rt; seen, Some((true, 4, 2, true)));
}

// The rows of three words, and then a row that has no place among small ones. All rows and places
// stay.
#[test]
fn rows_stay_after_one_that_is_not_small(rt: HostRuntime) {
    let most = u64::from(u32::MAX);
    let wide = (1, 1);
    let front_of_seven = (Some((0, 7)), Some(Key::Sum { sum: 13, h: 9 }));
    let least = Some(Key::Sum { sum: 9, h: 1 });
    let cases: [(Entry, (Option<State>, Option<Key>)); 5] = [
        ((wide, 8, Cost(1), None, 1, Opened), (Some(wide), least)),
        (
            ((0, 1), 8, Cost(1), Some(wide), 1, Opened),
            (Some((0, 1)), least),
        ),
        (((0, 1), most + 1, Cost(1), None, 1, Opened), front_of_seven),
        (((0, 1), 8, Cost(most + 1), None, 1, Opened), front_of_seven),
        (((0, 1), 8, Dead, Some(wide), 1, Opened), front_of_seven),
    ];
    for (last, (first, key)) in cases {
        let calls: [Entry; 4] = [
            ((0, 7), 4, Cost(9), None, 0, Opened),
            ((0, u64::MAX), most, Dead, Some((0, 7)), u32::MAX, Opened),
            ((0, 5), 3, Cost(most), Some((0, u64::MAX)), 2, Opened),
            last,
        ];
        let wanted: [Seen; 4] = [
            (Some(New), 1, front_of_seven.0, front_of_seven.1),
            (Some(New), 2, front_of_seven.0, front_of_seven.1),
            (Some(New), 3, front_of_seven.0, front_of_seven.1),
            (Some(New), 4, first, key),
        ];
        let seen = run(rt.alloc(), (1, 1), &calls, &wanted, &calls, (0, 2));
        assert_eq!(rt; seen, Some((true, 4, 4, true)), "{last:?}");
    }
}
