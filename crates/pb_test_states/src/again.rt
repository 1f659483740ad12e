//! Bundles that are opened again with another weight, beside a plain pass over their rows.
//!
//! Functions without clauses call the bundle, so the proofs of the others stay short.
use pb_lists::Bundle;
use pb_model::Status::{Closed, Cut, Opened};
use pb_model::{Estimate, Key, Row};
use pb_packed::Packed;
use std::alloc::Global;
use std::test::Fail;

// A state of one to sixteen words.
fn state(number: u32) -> Packed {
    Packed::zero().with_bits(64 * (3 * (number % 6)), 64, u64::from(number % 8) + 1)
}

// The row of a state in a bundle. Its costs and its status depend on both numbers.
fn row(bundle: u32, number: u32) -> Row {
    let mixed = 7 * (bundle % 1000) + 5 * (number % 1000);
    Row {
        g: u64::from(mixed % 5),
        estimate: match mixed % 11 {
            0 => Estimate::Dead,
            _ => Estimate::Cost(u64::from(mixed % 4)),
        },
        parent: None,
        action: number,
        status: match mixed % 3 {
            0 => Opened,
            1 => Closed,
            _ => Cut,
        },
    }
}

fn key(row: &Row, num: u64) -> Key {
    match row.estimate {
        Estimate::Cost(h) => Key::Sum {
            sum: u128::from(row.g) + u128::from(num) * u128::from(h),
            h,
        },
        Estimate::Dead => Key::Dead,
    }
}

// A Cut row becomes Opened if num * (g + h) is below the bound.
fn open_again(rows: &mut [(Packed, Row)], num: u64, bound: u64) {
    for i in 0..rows.len() {
        if let (Cut, Estimate::Cost(h)) = (rows[i].1.status, rows[i].1.estimate) {
            let through = u128::from(rows[i].1.g) + u128::from(h);
            if u128::from(num).saturating_mul(through) < u128::from(bound) {
                rows[i].1.status = Opened;
            }
        }
    }
}

// The least key of the Opened rows, and the least state that has it.
fn first(rows: &[(Packed, Row)], num: u64) -> Option<(Key, Packed)> {
    let mut least: Option<(Key, Packed)> = None;
    for i in 0..rows.len() {
        let (state, row) = rows[i];
        if row.status == Opened {
            let next = (key(&row, num), state);
            least = match least {
                Some(known) => Some(known.min(next)),
                None => Some(next),
            };
        }
    }
    least
}

// Whether the bundle has these rows, and the same first one.
fn is_same(bundle: &Bundle, rows: &[(Packed, Row)], num: u64) -> bool {
    for i in 0..rows.len() {
        let (state, row) = rows[i];
        if bundle.row(&state) != Some(row) {
            return false;
        }
    }
    let front = match (bundle.best(), bundle.first()) {
        (Some(key), Some(state)) => Some((key, state)),
        _ => None,
    };
    bundle.len() == rows.len() as u64 && front == first(rows, num)
}

// Closes or cuts the row of a state, if it is Opened.
fn settle(bundle: &mut Bundle, state: Packed, row: &Row) {
    let Some(known) = bundle.row(&state) else {
        return;
    };
    if known.status != Opened {
        return;
    }
    match row.status {
        Opened => {}
        Closed => bundle.close_row(&state),
        Cut => bundle.cut_row(&state),
    }
}

// Goes on at this weight, under this incumbent.
fn reopen(bundle: &mut Bundle, num: u64, bound: u64) -> Result<(), Fail> {
    if num < 1 || 1000 < num {
        return Ok(());
    }
    let set = bundle.prepare(num, 1, bound)?;
    bundle.adopt(set);
    Ok(())
}

// Whether a bundle of twelve rows has the rows of a plain list at each of three falling weights.
fn is_kept(alloc: Global, number: u32) -> Result<bool, Fail> {
    let bound = u64::from(number % 13);
    let mut bundle = Bundle::new(alloc, 3, 1)?;
    let mut rows = Vec::new(alloc);
    for i in 0..12 {
        let new = row(number, i);
        bundle.offer(state(i), new.g, new.estimate, new.parent, new.action)?;
        rows.push((state(i), new))?;
    }
    for i in 0..rows.len() {
        let (own, row) = rows[i];
        settle(&mut bundle, own, &row);
    }
    for fallen in 0..3 {
        let num = 3 - fallen;
        reopen(&mut bundle, num, bound)?;
        open_again(&mut rows, num, bound);
        if !is_same(&bundle, &rows, num) {
            return Ok(false);
        }
    }
    Ok(true)
}

#[test]
fn bundles_are_opened_again_as_by_a_plain_pass(rt: HostRuntime) -> Result<(), Fail> {
    for number in 0..330 {
        let kept = is_kept(rt.alloc(), number)?;
        assert!(rt; kept, "{number}");
    }
    Ok(())
}
