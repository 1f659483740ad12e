//! The images of a pattern, found by search from the start.
use crate::effort::Limits;
use crate::lists::Lists;
use crate::numbers::{narrow, small_at};
use crate::operators::{Operator, Operators};
use crate::patterns::Tracked;
use crate::rules::Rules;
use crate::steps::{FoundStep, Steps};
use crate::variables::Variables;
use indexmap::IndexSet;
use pb_packed::Packed;
use std::alloc::{AllocError, Global};

/// What may still be looked at.
#[derive(Clone, Copy)]
pub struct Allowance {
    /// How many images.
    pub images: usize,
    /// How many steps.
    pub steps: usize,
    /// How many pairs of an image and an action.
    pub looks: usize,
}

/// A pattern with its images. They are numbered in the order in which they were found, the start's
/// first.
#[derive(Drop)]
pub struct Images {
    /// What the pattern tracks.
    pub tracked: Tracked,
    /// The operators.
    pub operators: Operators,
    /// The actions of each operator.
    pub actions: Lists,
    /// The steps.
    pub steps: Steps,
    // the images and steps in the order in which they were found
    search: ImageSearch,
    // what a goal needs
    goal: Operator,
}

// A search for images.
#[derive(Drop)]
struct ImageSearch {
    // the images, as fields of bits
    codes: IndexSet<u64>,
    found: Vec<FoundStep>,
}

impl ImageSearch {
    // Looks at the step from an image by an operator.
    fn look(
        &mut self,
        operators: &Operators,
        from: usize,
        code: u64,
        kind: usize,
    ) -> Result<(), AllocError> {
        let Some(next) = operators.step(kind, code) else {
            return Ok(());
        };
        // A step from an image to itself lowers nothing.
        if next == code {
            return Ok(());
        }
        let (to, _) = self.codes.insert_full(next)?;
        self.found.push(FoundStep {
            from: narrow(from),
            to: narrow(to),
            kind: narrow(kind),
        })?;
        Ok(())
    }

    // Looks at all steps from an image.
    fn look_from(&mut self, operators: &Operators, from: usize) -> Result<(), AllocError> {
        let code = code_at(&self.codes, from);
        for kind in 0..operators.len() {
            self.look(operators, from, code, kind)?;
        }
        Ok(())
    }

    // Whether there are no more images, steps and looks than there may be.
    fn is_within(&self, operators: &Operators, left: &Allowance) -> bool {
        let images = self.codes.len();
        images <= left.images
            && self.found.len() <= left.steps
            && images.saturating_mul(operators.actions()) <= left.looks
    }

    // Searches for all images from the start's: whether they are within the limits.
    fn run(
        &mut self,
        operators: &Operators,
        start: u64,
        left: &Allowance,
    ) -> Result<bool, AllocError> {
        self.codes.insert(start)?;
        for from in 0..left.images {
            if from >= self.codes.len() || !self.is_within(operators, left) {
                break;
            }
            self.look_from(operators, from)?;
        }
        Ok(self.is_within(operators, left))
    }
}

// The image of a number.
fn code_at(codes: &IndexSet<u64>, image: usize) -> u64 {
    match codes.get_index(image) {
        Some(code) => *code,
        None => 0,
    }
}

// Adds the actions of each operator.
fn list_actions(
    alloc: Global,
    operators: &Operators,
    actions: &mut Lists,
) -> Result<(), AllocError> {
    let places = operators.kinds_of.turned(alloc, operators.len())?;
    for kind in 0..places.len() {
        push_actions(actions, operators, places.at(kind))?;
    }
    Ok(())
}

// Adds the list of the actions at some places.
fn push_actions(
    actions: &mut Lists,
    operators: &Operators,
    places: &[u32],
) -> Result<(), AllocError> {
    for place in places {
        actions.push(small_at(&operators.actions_of, *place as usize))?;
    }
    actions.end()
}

impl Images {
    /// How many images there are.
    pub fn len(&self) -> usize {
        self.search.codes.len()
    }

    /// The image of a number.
    pub fn code(&self, image: usize) -> u64 {
        code_at(&self.search.codes, image)
    }

    /// Whether an image is that of a goal.
    pub fn is_goal(&self, image: usize) -> bool {
        self.goal.step(self.code(image)).is_some()
    }

    /// The number of the image of a state, and one that no image has if it isn't listed.
    pub fn place_of(&self, variables: &Variables, state: &Packed) -> usize {
        let code = self.operators.image_of(variables, state);
        self.search.codes.get_index_of(&code).unwrap_or(usize::MAX)
    }

    // Lists what belongs to the images that were found.
    fn arrange(&mut self, alloc: Global) -> Result<(), AllocError> {
        list_actions(alloc, &self.operators, &mut self.actions)?;
        self.steps
            .fill(&self.search.found, self.search.codes.len())?;
        // They are kept by their ends now, so their memory is given back.
        self.search.found = Vec::new(alloc);
        Ok(())
    }

    // Searches for the images of a pattern: whether they are within the limits.
    fn find(
        &mut self,
        alloc: Global,
        rules: &Rules,
        variables: &Variables,
        pattern: &[u32],
        left: &Allowance,
    ) -> Result<bool, AllocError> {
        self.operators.fill(alloc, rules, variables, pattern)?;
        self.goal = self.operators.goal(rules, variables);
        let start = self.operators.image_of(variables, &rules.start);
        let is_whole = self.search.run(&self.operators, start, left)?;
        if is_whole {
            self.arrange(alloc)?;
        }
        Ok(is_whole)
    }

    /// The images of a pattern, if they are within the limits.
    pub fn of(
        alloc: Global,
        rules: &Rules,
        variables: &Variables,
        pattern: &[u32],
        left: &Allowance,
    ) -> Result<Option<Images>, AllocError> {
        let mut images = Images {
            tracked: Tracked::of(rules, variables, pattern),
            operators: Operators::new(alloc),
            actions: Lists::new(alloc),
            steps: Steps::new(alloc),
            search: ImageSearch {
                codes: IndexSet::new(alloc),
                found: Vec::new(alloc),
            },
            goal: Operator::default(),
        };
        let is_whole = images.find(alloc, rules, variables, pattern, left)?;
        Ok(if is_whole { Some(images) } else { None })
    }
}

impl Allowance {
    /// What may be looked at at first.
    pub fn of(limits: &Limits) -> Allowance {
        Allowance {
            images: limits.all_images,
            steps: limits.all_steps,
            looks: limits.looks,
        }
    }

    /// Half of it.
    pub fn half(&self) -> Allowance {
        Allowance {
            images: self.images / 2,
            steps: self.steps / 2,
            looks: self.looks / 2,
        }
    }

    /// What is left if half of it was given away, of which this is left.
    pub fn spend_half(&mut self, half: &Allowance) {
        self.images = (self.images / 2).saturating_add(half.images);
        self.steps = (self.steps / 2).saturating_add(half.steps);
        self.looks = (self.looks / 2).saturating_add(half.looks);
    }

    /// The same for one pattern.
    pub fn for_one(&self, images: usize) -> Allowance {
        Allowance {
            images: self.images.min(images),
            steps: self.steps,
            looks: self.looks,
        }
    }

    /// What is left after a pattern.
    pub fn spend(&mut self, images: &Images) {
        let count = images.len();
        let looks = count.saturating_mul(images.operators.actions());
        self.images = self.images.saturating_sub(count);
        self.steps = self.steps.saturating_sub(images.steps.len());
        self.looks = self.looks.saturating_sub(looks);
    }
}
