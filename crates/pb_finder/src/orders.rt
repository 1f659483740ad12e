//! In which order the patterns take what they need of the actions' costs.
use crate::lists::Lists;
use crate::numbers::{at, narrow, small_at};
use crate::sample::Random;
use std::alloc::{AllocError, Global};
use std::cmp::Reverse;

// A pattern with its worth for a state.
#[derive(Clone, Copy)]
struct Worth {
    worth: u64,
    pattern: u32,
}

/// How far patterns leave the order of their worth by chance.
#[derive(Clone, Copy)]
pub struct Chance {
    /// The random numbers.
    pub random: Random,
    /// Each worth is divided by a number from 1 to this one. If it is 1, none is changed.
    pub spread: usize,
}

impl Chance {
    // A worth, divided by chance.
    fn lower(&mut self, worth: u64) -> u64 {
        worth / (self.random.below(self.spread) as u64).saturating_add(1)
    }
}

// What a pattern is worth: its value for the cost that it takes. An unknown cost is worth most.
fn worth_of(value: u64, used: u64) -> u64 {
    value.saturating_mul(1 << 20) / used.max(1)
}

// What each pattern is worth for the state of a number.
fn worths_of(
    alloc: Global,
    alone: &[Vec<u64>],
    used: &[u64],
    places: &Lists,
    state: usize,
    chance: &mut Chance,
) -> Result<Vec<Worth>, AllocError> {
    let mut worths = Vec::new(alloc);
    for number in 0..alone.len() {
        let place = small_at(places.at(number), state);
        let worth = worth_of(at(&alone[number], place as usize), at(used, number));
        worths.push(Worth {
            worth: chance.lower(worth),
            pattern: narrow(number),
        })?;
    }
    Ok(worths)
}

/// The patterns, those first that are worth most for the state of a number. `alone` has their
/// values where each has all costs by itself, `used` what each takes of these, and `places` the
/// images of the states. Chance may change the order.
pub fn order_for(
    alloc: Global,
    alone: &[Vec<u64>],
    used: &[u64],
    places: &Lists,
    state: usize,
    chance: &mut Chance,
) -> Result<Vec<u32>, AllocError> {
    let mut worths = worths_of(alloc, alone, used, places, state, chance)?;
    worths.sort_by_key(|worth| Reverse(worth.worth))?;
    let mut order = Vec::new(alloc);
    for worth in worths.as_slice() {
        order.push(worth.pattern)?;
    }
    Ok(order)
}
