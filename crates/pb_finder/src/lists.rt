//! Lists of numbers in one array.
use crate::numbers::{narrow, place_at};
use std::alloc::{AllocError, Global};

/// Lists of numbers, one after another. Behind the last list there are empty ones.
#[derive(Drop)]
pub struct Lists {
    // where each list ends
    ends: Vec<usize>,
    items: Vec<u32>,
}

// Counts how often each number stands in a list.
fn count(items: &[u32], counts: &mut [usize]) {
    for item in items {
        let at = *item as usize;
        if at < counts.len() {
            counts[at] = counts[at].saturating_add(1);
        }
    }
}

/// Where each list starts, in place of how long it is.
pub fn starts_of(lengths: &mut [usize]) {
    let mut start = 0usize;
    for place in 0..lengths.len() {
        let length = lengths[place];
        lengths[place] = start;
        start = start.saturating_add(length);
    }
}

// Writes an item at the end of its list.
fn put(ends: &mut [usize], items: &mut [u32], list: usize, item: u32) {
    if list < ends.len() {
        let end = ends[list];
        if end < items.len() {
            items[end] = item;
            ends[list] = end + 1;
        }
    }
}

// Writes a number at the end of the list of each item.
fn put_all(ends: &mut [usize], items: &mut [u32], lists: &[u32], item: u32) {
    for list in lists {
        put(ends, items, *list as usize, item);
    }
}

impl Lists {
    /// No lists.
    pub fn new(alloc: Global) -> Lists {
        Lists {
            ends: Vec::new(alloc),
            items: Vec::new(alloc),
        }
    }

    /// How many lists there are.
    pub fn len(&self) -> usize {
        self.ends.len()
    }

    /// Adds a number to the list that is being written.
    pub fn push(&mut self, item: u32) -> Result<(), AllocError> {
        self.items.push(item)?;
        Ok(())
    }

    /// Ends the list that is being written.
    pub fn end(&mut self) -> Result<(), AllocError> {
        let end = self.items.len();
        self.ends.push(end)?;
        Ok(())
    }

    /// Adds a list.
    pub fn add(&mut self, list: &[u32]) -> Result<(), AllocError> {
        self.items.extend_from_slice(list)?;
        self.end()
    }

    /// The list of a number.
    pub fn at(&self, list: usize) -> &[u32] {
        let first = if list == 0 {
            0
        } else {
            place_at(&self.ends, list - 1)
        };
        let end = place_at(&self.ends, list);
        if first <= end && end <= self.items.len() {
            &self.items[first..end]
        } else {
            &[]
        }
    }

    /// Whether some list is the same as this one.
    pub fn has(&self, list: &[u32]) -> bool {
        for place in 0..self.len() {
            if self.at(place) == list {
                return true;
            }
        }
        false
    }

    // Fills lists that have room for it by the lists in which each number stands.
    fn turn_into(&self, ends: &mut [usize], items: &mut [u32]) {
        for list in 0..self.len() {
            put_all(ends, items, self.at(list), narrow(list));
        }
    }

    // The lists in which each number below a count stands.
    fn turn(&mut self, lists: &Lists, numbers: usize) -> Result<(), AllocError> {
        self.ends.resize(numbers, 0)?;
        self.items.resize(lists.items.len(), 0)?;
        // Counts, then starts; each item that is written moves its list's start towards the end.
        count(&lists.items, &mut self.ends);
        starts_of(&mut self.ends);
        lists.turn_into(&mut self.ends, &mut self.items);
        Ok(())
    }

    /// For each number below a count, the lists that it stands in.
    pub fn turned(&self, alloc: Global, numbers: usize) -> Result<Lists, AllocError> {
        let mut turned = Lists::new(alloc);
        turned.turn(self, numbers)?;
        Ok(turned)
    }
}
