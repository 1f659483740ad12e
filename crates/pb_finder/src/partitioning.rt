//! Saturated cost partitioning (J. Seipp, T. Keller and M. Helmert, "Saturated cost partitioning
//! for optimal classical planning", 2020).
//!
//! The patterns take turns, in some order. Each has the least costs of its images by what is left
//! of the actions' costs, and takes from them what these values need. So the values can be added.
use crate::costs::{drops_of, least_costs, settle, take_drops, total_of};
use crate::effort::Limits;
use crate::images::Images;
use crate::lists::Lists;
use crate::numbers::{at, narrow, set, small_at};
use crate::orders::{Chance, order_for};
use crate::rules::Rules;
use crate::sample::{Random, sample_of};
use crate::variables::Variables;
use pb_packed::Packed;
use std::alloc::{AllocError, Global};

// How many sums are kept at most.
const MOST_SUMS: usize = 64;

// By how much chance may lower what a pattern is worth.
const SPREAD: usize = 6;

/// The values of the images of each pattern. A pattern that adds nothing has no values.
#[derive(Drop)]
pub struct Sum {
    /// By pattern and by image.
    pub values: Vec<Vec<u64>>,
}

/// Each pattern by itself.
#[derive(Drop)]
pub struct Alone {
    /// The least costs by all of the actions' costs, by pattern and by image.
    pub values: Vec<Vec<u64>>,
    // what the actions of each pattern lower in all
    used: Vec<u64>,
}

// What is known of sums on a sample of states.
#[derive(Drop)]
struct Sampled {
    // the images of the states, by pattern
    places: Lists,
    // the greatest value of each state
    best: Vec<u64>,
}

impl Alone {
    // Adds a pattern.
    fn push(&mut self, alloc: Global, images: &Images, costs: &[u64]) -> Result<(), AllocError> {
        let values = least_costs(alloc, images, costs)?;
        self.used.push(used_by(alloc, images, &values)?)?;
        self.values.push(values)?;
        Ok(())
    }

    /// The patterns by themselves.
    pub fn of(alloc: Global, rules: &Rules, patterns: &[Images]) -> Result<Alone, AllocError> {
        let mut alone = Alone {
            values: Vec::new(alloc),
            used: Vec::new(alloc),
        };
        for images in patterns {
            alone.push(alloc, images, &rules.costs)?;
        }
        Ok(alone)
    }

    // The greatest value of the start: its image is the first one.
    fn greatest_start(&self) -> u64 {
        let mut most = 0u64;
        for values in self.values.as_slice() {
            most = most.max(at(values, 0));
        }
        most
    }
}

// What the actions of a pattern lower in all.
fn used_by(alloc: Global, images: &Images, values: &[u64]) -> Result<u64, AllocError> {
    // A copy: the values by themselves keep `UNKNOWN`, by which traps are found.
    let mut settled = Vec::from_slice(alloc, values)?;
    settle(&mut settled);
    let drops = drops_of(alloc, images, &settled)?;
    Ok(total_of(images, &drops))
}

// ---- the sample

// The mean of the actions' costs.
fn mean_cost(costs: &[u64]) -> u64 {
    let mut sum = 0u64;
    for cost in costs {
        sum = sum.saturating_add(*cost);
    }
    let count = (costs.len() as u64).max(1);
    sum / count
}

// How many steps walks have at most: about twice those of a plan, 10 to 60.
fn depth_of(rules: &Rules, alone: &Alone) -> usize {
    let mean = mean_cost(&rules.costs).max(1);
    let steps = alone.greatest_start().saturating_mul(2) / mean;
    steps.clamp(10, 60) as usize
}

// Adds the images of some states.
fn push_places(
    places: &mut Lists,
    variables: &Variables,
    images: &Images,
    states: &[Packed],
) -> Result<(), AllocError> {
    for state in states {
        places.push(narrow(images.place_of(variables, state)))?;
    }
    places.end()
}

impl Sampled {
    // Takes the images of some states.
    fn fill(
        &mut self,
        variables: &Variables,
        patterns: &[Images],
        states: &[Packed],
    ) -> Result<(), AllocError> {
        for images in patterns {
            push_places(&mut self.places, variables, images, states)?;
        }
        self.best.resize(states.len(), 0)
    }

    // The value of a state by a sum.
    fn value(&self, sum: &Sum, state: usize) -> u64 {
        let mut value = 0u64;
        for number in 0..sum.values.len() {
            let place = small_at(self.places.at(number), state) as usize;
            value = value.saturating_add(at(&sum.values[number], place));
        }
        value
    }

    // Raises the greatest values to those of a sum: whether some state has more than before.
    fn improve(&mut self, sum: &Sum) -> bool {
        let mut is_better = false;
        for state in 0..self.best.len() {
            let value = self.value(sum, state);
            if value > at(&self.best, state) {
                set(&mut self.best, state, value);
                is_better = true;
            }
        }
        is_better
    }
}

// ---- sums

// Whether some value is more than 0.
fn has_value(values: &[u64]) -> bool {
    for value in values {
        if *value > 0 {
            return true;
        }
    }
    false
}

impl Sum {
    // No values.
    fn new(alloc: Global, patterns: usize) -> Result<Sum, AllocError> {
        let mut values = Vec::new(alloc);
        for _ in 0..patterns {
            values.push(Vec::new(alloc))?;
        }
        Ok(Sum { values })
    }

    // Gives a pattern its values, and takes what they need from the costs that are left.
    fn give(
        &mut self,
        alloc: Global,
        images: &Images,
        number: usize,
        left: &mut [u64],
    ) -> Result<(), AllocError> {
        let mut values = least_costs(alloc, images, left)?;
        settle(&mut values);
        if !has_value(&values) {
            return Ok(());
        }
        let drops = drops_of(alloc, images, &values)?;
        take_drops(images, &drops, left);
        if number < self.values.len() {
            self.values[number] = values;
        }
        Ok(())
    }

    // The sum in which the patterns take turns in this order.
    fn of(
        alloc: Global,
        patterns: &[Images],
        order: &[u32],
        costs: &[u64],
    ) -> Result<Sum, AllocError> {
        let mut left = Vec::from_slice(alloc, costs)?;
        let mut sum = Sum::new(alloc, patterns.len())?;
        for pattern in order {
            let number = *pattern as usize;
            if number < patterns.len() {
                sum.give(alloc, &patterns[number], number, &mut left)?;
            }
        }
        Ok(sum)
    }
}

// What sums are made of.
#[derive(Clone, Copy)]
struct Parts<'a> {
    rules: &'a Rules,
    patterns: &'a [Images],
    alone: &'a Alone,
}

impl Parts<'_> {
    // Tries the order that suits a state best, and keeps its sum if it improves the sample.
    fn try_for(
        &self,
        alloc: Global,
        state: usize,
        chance: &mut Chance,
        sampled: &mut Sampled,
        sums: &mut Vec<Sum>,
    ) -> Result<(), AllocError> {
        let alone = self.alone;
        let places = &sampled.places;
        let order = order_for(alloc, &alone.values, &alone.used, places, state, chance)?;
        let sum = Sum::of(alloc, self.patterns, &order, &self.rules.costs)?;
        if sampled.improve(&sum) {
            sums.push(sum)?;
        }
        Ok(())
    }

    // How many sums may be kept.
    fn most_sums(&self, values: usize) -> usize {
        let mut images = 0usize;
        for pattern in self.patterns {
            images = images.saturating_add(pattern.len());
        }
        (values / images.saturating_add(1)).clamp(1, MOST_SUMS)
    }

    // Tries orders: the one that suits the start best, and then those for states of the sample,
    // every second one changed by chance.
    fn try_all(
        &self,
        alloc: Global,
        limits: &Limits,
        random: Random,
        sampled: &mut Sampled,
        sums: &mut Vec<Sum>,
    ) -> Result<(), AllocError> {
        let most = self.most_sums(limits.values);
        let mut chance = Chance { random, spread: 1 };
        for order in 0..limits.orders {
            if sums.len() >= most {
                break;
            }
            let state = if order == 0 {
                0
            } else {
                chance.random.below(sampled.best.len())
            };
            chance.spread = if order % 2 == 0 { 1 } else { SPREAD };
            self.try_for(alloc, state, &mut chance, sampled, sums)?;
        }
        Ok(())
    }
}

// Takes the images of the start and of the ends of walks of at most so many steps.
fn take_sample(
    alloc: Global,
    rules: &Rules,
    variables: &Variables,
    patterns: &[Images],
    depth: usize,
    random: &mut Random,
    sampled: &mut Sampled,
) -> Result<(), AllocError> {
    let states = sample_of(alloc, rules, random, depth)?;
    sampled.fill(variables, patterns, &states)
}

/// Sums of which each gives some state of a sample more than those before it.
pub fn sums_of(
    alloc: Global,
    rules: &Rules,
    variables: &Variables,
    patterns: &[Images],
    alone: &Alone,
    limits: &Limits,
) -> Result<Vec<Sum>, AllocError> {
    let mut random = Random::new();
    let mut sums = Vec::new(alloc);
    let mut sampled = Sampled {
        places: Lists::new(alloc),
        best: Vec::new(alloc),
    };
    let depth = depth_of(rules, alone);
    take_sample(
        alloc,
        rules,
        variables,
        patterns,
        depth,
        &mut random,
        &mut sampled,
    )?;
    let parts = Parts {
        rules,
        patterns,
        alone,
    };
    parts.try_all(alloc, limits, random, &mut sampled, &mut sums)?;
    Ok(sums)
}
