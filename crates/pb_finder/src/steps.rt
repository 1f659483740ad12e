//! The steps between the images of a pattern.
use crate::lists::starts_of;
use crate::numbers::place_at;
use std::alloc::{AllocError, Global};

/// A step as it is found.
#[derive(Clone, Copy)]
pub struct FoundStep {
    /// The image from which it leads.
    pub from: u32,
    /// The image to which it leads.
    pub to: u32,
    /// The operator.
    pub kind: u32,
}

/// A step that leads into an image.
#[derive(Clone, Copy, Default)]
pub struct Step {
    /// The image from which it leads.
    pub from: u32,
    /// The operator.
    pub kind: u32,
}

/// Steps by the images to which they lead.
#[derive(Drop)]
pub struct Steps {
    ends: Vec<usize>,
    steps: Vec<Step>,
}

// Counts the steps into each image.
fn count(found: &[FoundStep], counts: &mut [usize]) {
    for step in found {
        let to = step.to as usize;
        if to < counts.len() {
            counts[to] = counts[to].saturating_add(1);
        }
    }
}

// Writes a step at the end of those into the same image.
fn put(ends: &mut [usize], steps: &mut [Step], found: FoundStep) {
    let to = found.to as usize;
    if to < ends.len() {
        let end = ends[to];
        if end < steps.len() {
            steps[end] = Step {
                from: found.from,
                kind: found.kind,
            };
            ends[to] = end + 1;
        }
    }
}

fn put_all(ends: &mut [usize], steps: &mut [Step], found: &[FoundStep]) {
    for step in found {
        put(ends, steps, *step);
    }
}

impl Steps {
    /// No steps.
    pub fn new(alloc: Global) -> Steps {
        Steps {
            ends: Vec::new(alloc),
            steps: Vec::new(alloc),
        }
    }

    /// Takes these steps between so many images, where there are none yet.
    pub fn fill(&mut self, found: &[FoundStep], images: usize) -> Result<(), AllocError> {
        self.ends.resize(images, 0)?;
        self.steps.resize(found.len(), Step::default())?;
        // Counts, then starts; each step that is written moves its image's start towards the end.
        count(found, &mut self.ends);
        starts_of(&mut self.ends);
        put_all(&mut self.ends, &mut self.steps, found);
        Ok(())
    }

    /// How many steps there are.
    pub fn len(&self) -> usize {
        self.steps.len()
    }

    /// The steps that lead into an image.
    pub fn into_image(&self, image: usize) -> &[Step] {
        let first = if image == 0 {
            0
        } else {
            place_at(&self.ends, image - 1)
        };
        let end = place_at(&self.ends, image);
        if first <= end && end <= self.steps.len() {
            &self.steps[first..end]
        } else {
            &[]
        }
    }
}
