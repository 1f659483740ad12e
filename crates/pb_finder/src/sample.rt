//! A sample of states: ends of random walks from the start.
use crate::numbers::{has, with_all, without};
use crate::rules::Rules;
use pb_packed::Packed;
use std::alloc::{AllocError, Global};

// How many walks there are.
const WALKS: usize = 300;

// The number with which the random numbers begin, always the same.
const SEED: u64 = 88_172_645_463_325_252;

/// Random numbers, always the same (G. Marsaglia, "Xorshift RNGs", 2003).
#[derive(Clone, Copy)]
pub struct Random {
    word: u64,
}

impl Random {
    /// The first of them.
    pub fn new() -> Random {
        Random { word: SEED }
    }

    /// A number below a count, and 0 if the count is 0.
    pub fn below(&mut self, count: usize) -> usize {
        let mut word = self.word;
        word = word ^ (word << 13);
        word = word ^ (word >> 7);
        word = word ^ (word << 17);
        self.word = word;
        if count == 0 {
            0
        } else {
            ((word >> 11) % count as u64) as usize
        }
    }
}

// Whether all of some atoms hold.
fn all_hold(state: &Packed, atoms: &[u32]) -> bool {
    for atom in atoms {
        if !has(state, *atom) {
            return false;
        }
    }
    true
}

// A state without some atoms.
fn without_all(state: Packed, atoms: &[u32]) -> Packed {
    let mut state = state;
    for atom in atoms {
        state = without(&state, *atom);
    }
    state
}

// The state after the first action, from one on, that is applicable.
fn step(rules: &Rules, state: Packed, first: usize) -> Packed {
    let actions = rules.actions();
    for offset in 0..actions {
        let action = first.saturating_add(offset) % actions;
        if all_hold(&state, rules.needs.at(action)) {
            let left = without_all(state, rules.deletes.at(action));
            return with_all(left, rules.adds.at(action));
        }
    }
    state
}

// The state after a walk of at most so many steps.
fn walk(rules: &Rules, random: &mut Random, depth: usize) -> Packed {
    let mut state = rules.start;
    let steps = random.below(depth).saturating_add(1);
    for _ in 0..steps {
        state = step(rules, state, random.below(rules.actions()));
    }
    state
}

/// The start, and the states after walks of at most so many steps.
pub fn sample_of(
    alloc: Global,
    rules: &Rules,
    random: &mut Random,
    depth: usize,
) -> Result<Vec<Packed>, AllocError> {
    let mut sample = Vec::new(alloc);
    sample.push(rules.start)?;
    for _ in 0..WALKS {
        sample.push(walk(rules, random, depth))?;
    }
    Ok(sample)
}
