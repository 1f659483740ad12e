//! Least costs of images, and what they leave of the actions' costs.
use crate::images::Images;
use crate::numbers::{at, narrow, set};
use crate::steps::Step;
use std::alloc::{AllocError, Global};
use std::cmp::Reverse;
use std::collections::BinaryHeap;

/// The cost of an image from which no goal is known to be reached.
pub const UNKNOWN: u64 = 1 << 62;

// An image to look at, the cheapest first.
#[derive(Clone, Copy, PartialEq, Eq, PartialOrd, Ord)]
struct Entry {
    cost: Reverse<u64>,
    image: u32,
}

// A search backward from the goals (E. W. Dijkstra, "A note on two problems in connexion with
// graphs", 1959).
#[derive(Drop)]
struct Backward {
    costs: Vec<u64>,
    heap: BinaryHeap<Entry>,
}

// The least cost of the actions of each operator.
fn prices_of(alloc: Global, images: &Images, left: &[u64]) -> Result<Vec<u64>, AllocError> {
    let mut prices = Vec::new(alloc);
    for kind in 0..images.actions.len() {
        prices.push(least_of(images.actions.at(kind), left))?;
    }
    Ok(prices)
}

// The least cost of some actions.
fn least_of(actions: &[u32], left: &[u64]) -> u64 {
    let mut least = UNKNOWN;
    for action in actions {
        least = least.min(at(left, *action as usize));
    }
    least
}

impl Backward {
    // An image has this cost if it isn't known to have less.
    fn reach(&mut self, image: u32, cost: u64) -> Result<(), AllocError> {
        if cost < at(&self.costs, image as usize) {
            set(&mut self.costs, image as usize, cost);
            self.heap.push(Entry {
                cost: Reverse(cost),
                image,
            })?;
        }
        Ok(())
    }

    // Looks at the steps into an image of this cost.
    fn look(&mut self, steps: &[Step], prices: &[u64], cost: u64) -> Result<(), AllocError> {
        for step in steps {
            let price = at(prices, step.kind as usize);
            self.reach(step.from, cost.saturating_add(price))?;
        }
        Ok(())
    }

    // Begins at the goals.
    fn begin(&mut self, images: &Images) -> Result<(), AllocError> {
        for image in 0..images.len() {
            if images.is_goal(image) {
                self.reach(narrow(image), 0)?;
            }
        }
        Ok(())
    }

    // Looks at the cheapest image that is left: whether there was one.
    fn next(&mut self, images: &Images, prices: &[u64]) -> Result<bool, AllocError> {
        let Some(entry) = self.heap.pop() else {
            return Ok(false);
        };
        let cost = entry.cost.0;
        if cost <= at(&self.costs, entry.image as usize) {
            self.look(images.steps.into_image(entry.image as usize), prices, cost)?;
        }
        Ok(true)
    }

    // Each step makes an image cheaper at most once, since its end is looked at once.
    fn run(&mut self, images: &Images, prices: &[u64]) -> Result<(), AllocError> {
        self.costs.resize(images.len(), UNKNOWN)?;
        self.begin(images)?;
        let most = images.steps.len().saturating_add(images.len());
        for _ in 0..most {
            if !self.next(images, prices)? {
                break;
            }
        }
        Ok(())
    }
}

// The greatest cost that is known.
fn greatest(costs: &[u64]) -> u64 {
    let mut most = 0;
    for cost in costs {
        if *cost < UNKNOWN {
            most = most.max(*cost);
        }
    }
    most
}

/// Gives images from which no goal is reached the greatest cost, so that no step into them lowers
/// anything.
pub fn settle(costs: &mut [u64]) {
    let most = greatest(costs);
    for place in 0..costs.len() {
        costs[place] = costs[place].min(most);
    }
}

/// The least cost from each image to a goal, where each action costs what is left of its cost. It is
/// `UNKNOWN` for an image from which no goal is reached.
pub fn least_costs(alloc: Global, images: &Images, left: &[u64]) -> Result<Vec<u64>, AllocError> {
    let prices = prices_of(alloc, images, left)?;
    let mut search = Backward {
        costs: Vec::new(alloc),
        heap: BinaryHeap::new(alloc),
    };
    search.run(images, &prices)?;
    Ok(search.costs)
}

// Raises what operators lower to what the steps into an image lower.
fn raise_drops(steps: &[Step], costs: &[u64], here: u64, drops: &mut [u64]) {
    for step in steps {
        let kind = step.kind as usize;
        let drop = at(costs, step.from as usize).saturating_sub(here);
        let most = at(drops, kind).max(drop);
        set(drops, kind, most);
    }
}

/// By how much each operator lowers these costs at most.
pub fn drops_of(alloc: Global, images: &Images, costs: &[u64]) -> Result<Vec<u64>, AllocError> {
    let mut drops = vec![in alloc; 0; images.actions.len()]?;
    for image in 0..images.len() {
        let here = at(costs, image);
        raise_drops(images.steps.into_image(image), costs, here, &mut drops);
    }
    Ok(drops)
}

// Takes a cost from some actions.
fn take(actions: &[u32], drop: u64, left: &mut [u64]) {
    for action in actions {
        let place = *action as usize;
        let rest = at(left, place).saturating_sub(drop);
        set(left, place, rest);
    }
}

/// Takes what operators lower from the costs of their actions.
pub fn take_drops(images: &Images, drops: &[u64], left: &mut [u64]) {
    for kind in 0..images.actions.len() {
        take(images.actions.at(kind), at(drops, kind), left);
    }
}

/// What the actions together lower.
pub fn total_of(images: &Images, drops: &[u64]) -> u64 {
    let mut total = 0u64;
    for kind in 0..images.actions.len() {
        let actions = images.actions.at(kind).len() as u64;
        total = total.saturating_add(at(drops, kind).saturating_mul(actions));
    }
    total
}
