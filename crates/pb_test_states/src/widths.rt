//! States of each width in one bundle, in each order of coming, beside a plain list of rows.
//!
//! Functions without clauses call the bundle, so the proofs of the others stay short.
use pb_lists::Bundle;
use pb_model::Status::{Closed, Opened};
use pb_model::{Estimate, Key, Row};
use pb_packed::Packed;
use std::alloc::Global;
use std::test::Fail;

// States of 64, 65, 256, 257 and 1,024 bits, each by the word of its highest bit and that word's
// number, and one of a bit whose row has a great g.
const STATES: [(u32, u64); 6] = [
    (0, u64::MAX),
    (1, 1),
    (3, u64::MAX),
    (4, 1),
    (15, u64::MAX),
    (0, 1),
];

// The number of a state in an order of six.
fn nth(order: u32, i: u32) -> usize {
    let mut rest = order;
    for _ in 0..i {
        rest /= 6;
    }
    (rest % 6) as usize
}

fn is_each_once(order: u32) -> bool {
    for i in 0..6 {
        for j in 0..i {
            if nth(order, i) == nth(order, j) {
                return false;
            }
        }
    }
    true
}

fn state(number: usize) -> Packed {
    let (word, value) = STATES[number % 6];
    Packed::zero().with_bits(64 * (word % 16), 64, value)
}

// The row of a state in an order: its parent is the state before it, and all keys but that of the
// great g are the same.
fn row(order: u32, i: u32) -> Row {
    let number = nth(order, i);
    Row {
        g: if number == 5 { 1 << 32 } else { 4 },
        estimate: Estimate::Cost(2),
        parent: if i == 0 {
            None
        } else {
            Some(state(nth(order, i - 1)))
        },
        action: i,
        status: Opened,
    }
}

fn key(g: u64, estimate: Estimate) -> Key {
    match estimate {
        Estimate::Cost(h) => Key::Sum {
            sum: u128::from(g) + u128::from(h),
            h,
        },
        Estimate::Dead => Key::Dead,
    }
}

// The least key of the Opened rows, and the least state that has it.
fn first(rows: &[(Packed, Row)]) -> Option<(Key, Packed)> {
    let mut least: Option<(Key, Packed)> = None;
    for i in 0..rows.len() {
        let (state, row) = rows[i];
        if row.status == Opened {
            let next = (key(row.g, row.estimate), state);
            least = match least {
                Some(known) => Some(known.min(next)),
                None => Some(next),
            };
        }
    }
    least
}

// Whether the bundle has these rows, at their places, and the same first one.
fn is_same(bundle: &Bundle, rows: &[(Packed, Row)]) -> bool {
    for i in 0..rows.len() {
        let (state, row) = rows[i];
        if bundle.row(&state) != Some(row) || bundle.place_of(&state) != Some(i as u64) {
            return false;
        }
    }
    let front = match (bundle.best(), bundle.first()) {
        (Some(key), Some(state)) => Some((key, state)),
        _ => None,
    };
    let costs = match bundle.first_row() {
        Some(first) => Some((key(first.g, first.estimate), first.state)),
        None => None,
    };
    bundle.len() == rows.len() as u64 && front == first(rows) && costs == front
}

// Closes the row of a state in both, if it is Opened.
fn close(bundle: &mut Bundle, rows: &mut [(Packed, Row)], state: Packed) {
    for i in 0..rows.len() {
        if rows[i].0 == state {
            rows[i].1.status = Closed;
        }
    }
    let Some(row) = bundle.row(&state) else {
        return;
    };
    if row.status != Opened {
        return;
    }
    bundle.close_row(&state);
}

// Whether a bundle has the rows of a plain list after each call: six offers in this order, and six
// expansions.
fn is_kept(alloc: Global, order: u32) -> Result<bool, Fail> {
    let mut bundle = Bundle::new(alloc, 1, 1)?;
    let mut rows = Vec::new(alloc);
    for i in 0..6 {
        let offered = row(order, i);
        let new = state(nth(order, i));
        bundle.offer(
            new,
            offered.g,
            offered.estimate,
            offered.parent,
            offered.action,
        )?;
        rows.push((new, offered))?;
        if !is_same(&bundle, &rows) {
            return Ok(false);
        }
    }
    for _ in 0..6 {
        let Some(state) = bundle.first() else {
            return Ok(false);
        };
        close(&mut bundle, &mut rows, state);
        if !is_same(&bundle, &rows) {
            return Ok(false);
        }
    }
    Ok(bundle.first().is_none())
}

#[test]
fn states_of_each_width_come_in_each_order(rt: HostRuntime) -> Result<(), Fail> {
    let mut orders = 0_u32;
    for order in 0..46656 {
        if is_each_once(order) {
            orders = orders.wrapping_add(1);
            let kept = is_kept(rt.alloc(), order)?;
            assert!(rt; kept, "{order}");
        }
    }
    assert_eq!(rt; orders, 720);
    Ok(())
}
