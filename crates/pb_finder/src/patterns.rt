//! Patterns: which variables are tracked together.
use crate::lists::Lists;
use crate::numbers::{at, narrow, raise, with_all};
use crate::rules::Rules;
use crate::variables::{Variables, value_in, with_value};
use pb_packed::Packed;
use std::alloc::{AllocError, Global};

// How many variables a grown pattern has at most.
const MOST_VARIABLES: usize = 32;

/// How many patterns there are at most.
pub const MOST_PATTERNS: usize = 4096;

/// What a pattern tracks. Patterns that track the same have the same images and the same goals.
#[derive(Clone, Copy, PartialEq, Eq)]
pub struct Tracked {
    /// The atoms of its variables.
    pub atoms: Packed,
    // those that a goal needs of them: the first one of each variable that the goal has
    goal: Packed,
}

impl Tracked {
    // Adds a variable with these atoms.
    fn add(&mut self, rules: &Rules, variable: &[u32]) {
        let wanted = value_in(variable, &rules.goal);
        self.atoms = with_all(self.atoms, variable);
        self.goal = with_value(self.goal, variable, wanted);
    }

    /// What a pattern tracks.
    pub fn of(rules: &Rules, variables: &Variables, pattern: &[u32]) -> Tracked {
        let mut tracked = Tracked {
            atoms: Packed::zero(),
            goal: Packed::zero(),
        };
        for variable in pattern {
            tracked.add(rules, variables.atoms.at(*variable as usize));
        }
        tracked
    }
}

// Counts the variables of some atoms.
fn count_atoms(variables: &Variables, atoms: &[u32], counts: &mut [u64]) {
    for atom in atoms {
        for variable in variables.of_atom.at(*atom as usize) {
            raise(counts, *variable as usize, 1);
        }
    }
}

// Counts the variables that an action looks at or changes.
fn count_action(rules: &Rules, variables: &Variables, action: usize, counts: &mut [u64]) {
    count_atoms(variables, rules.needs.at(action), counts);
    count_atoms(variables, rules.adds.at(action), counts);
    count_atoms(variables, rules.deletes.at(action), counts);
}

// Counts the causal links from a variable: what the actions that change it look at or change.
fn count_links(rules: &Rules, variables: &Variables, variable: u32, counts: &mut [u64]) {
    for atom in variables.atoms.at(variable as usize) {
        for action in variables.changers.at(*atom as usize) {
            count_action(rules, variables, *action as usize, counts);
        }
    }
}

// Adds a pattern that isn't there yet.
fn push(patterns: &mut Lists, pattern: &mut Vec<u32>) -> Result<(), AllocError> {
    pattern.sort_unstable_by_key(|variable| *variable);
    if patterns.len() >= MOST_PATTERNS || patterns.has(pattern) {
        return Ok(());
    }
    patterns.add(pattern)
}

// The variables with an atom of the goal.
fn goals_of(alloc: Global, rules: &Rules, variables: &Variables) -> Result<Vec<u32>, AllocError> {
    let mut goals = Vec::new(alloc);
    for number in 0..variables.atoms.len() {
        let variable = narrow(number);
        if variables.has_goal(rules, variable) {
            goals.push(variable)?;
        }
    }
    Ok(goals)
}

// Adds the pairs of a variable and one to which it has a causal link.
fn push_pairs(
    alloc: Global,
    rules: &Rules,
    variables: &Variables,
    goal: u32,
    patterns: &mut Lists,
) -> Result<(), AllocError> {
    let mut counts = vec![in alloc; 0; variables.atoms.len()]?;
    count_links(rules, variables, goal, &mut counts);
    push_linked(alloc, &counts, goal, patterns)
}

// Adds the pairs of a variable and each to which there are links.
fn push_linked(
    alloc: Global,
    links: &[u64],
    goal: u32,
    patterns: &mut Lists,
) -> Result<(), AllocError> {
    for number in 0..links.len() {
        let other = narrow(number);
        if links[number] > 0 && other != goal {
            push_pair(alloc, patterns, goal, other)?;
        }
    }
    Ok(())
}

// Adds a pair of variables.
fn push_pair(alloc: Global, patterns: &mut Lists, one: u32, other: u32) -> Result<(), AllocError> {
    let mut pair = vec![in alloc; one, other]?;
    push(patterns, &mut pair)
}

// Adds the patterns of one goal variable each, and then the pairs.
fn push_small(
    alloc: Global,
    rules: &Rules,
    variables: &Variables,
    goals: &[u32],
    patterns: &mut Lists,
) -> Result<(), AllocError> {
    for goal in goals {
        patterns.add(&[*goal])?;
    }
    for goal in goals {
        push_pairs(alloc, rules, variables, *goal, patterns)?;
    }
    Ok(())
}

/// The patterns of one goal variable each, and then the pairs of a goal variable and one to which
/// it has a causal link: an action that changes the first looks at the second or changes it.
pub fn small_patterns(
    alloc: Global,
    rules: &Rules,
    variables: &Variables,
) -> Result<Lists, AllocError> {
    let goals = goals_of(alloc, rules, variables)?;
    let mut patterns = Lists::new(alloc);
    push_small(alloc, rules, variables, &goals, &mut patterns)?;
    Ok(patterns)
}

// A pattern that is grown.
#[derive(Drop)]
struct Growth {
    pattern: Vec<u32>,
    // how many links lead from the pattern to each variable
    links: Vec<u64>,
    // how many images the pattern has at most
    size: usize,
    // how many it may have
    limit: usize,
}

impl Growth {
    fn is_better(&self, rules: &Rules, variables: &Variables, one: usize, other: usize) -> bool {
        let (here, there) = (self.links_at(one), self.links_at(other));
        here > there
            || here == there
                && variables.has_goal(rules, narrow(one))
                && !variables.has_goal(rules, narrow(other))
    }

    fn links_at(&self, variable: usize) -> u64 {
        at(&self.links, variable)
    }

    // Whether a variable has a link from the pattern and fits into it.
    fn fits(&self, variables: &Variables, number: usize) -> bool {
        let variable = narrow(number);
        let size = self.size.saturating_mul(variables.values(variable));
        self.links_at(number) > 0 && size <= self.limit && !self.pattern.contains(&variable)
    }

    // The variable to add next: the one with the most links, and of these one of the goal.
    fn next(&self, rules: &Rules, variables: &Variables) -> Option<u32> {
        let mut best = None;
        for number in 0..self.links.len() {
            if self.fits(variables, number) && self.is_best(rules, variables, number, best) {
                best = Some(number);
            }
        }
        best.map(narrow)
    }

    fn is_best(
        &self,
        rules: &Rules,
        variables: &Variables,
        number: usize,
        best: Option<usize>,
    ) -> bool {
        match best {
            Some(other) => self.is_better(rules, variables, number, other),
            None => true,
        }
    }

    fn add(
        &mut self,
        rules: &Rules,
        variables: &Variables,
        variable: u32,
    ) -> Result<(), AllocError> {
        self.pattern.push(variable)?;
        self.size = self.size.saturating_mul(variables.values(variable));
        count_links(rules, variables, variable, &mut self.links);
        Ok(())
    }

    // Adds variables until none fits.
    fn grow(&mut self, rules: &Rules, variables: &Variables, goal: u32) -> Result<(), AllocError> {
        self.links.resize(variables.atoms.len(), 0)?;
        self.add(rules, variables, goal)?;
        for _ in 0..MOST_VARIABLES {
            match self.next(rules, variables) {
                Some(variable) => self.add(rules, variables, variable)?,
                None => break,
            }
        }
        Ok(())
    }
}

// Adds the pattern that is grown from a goal variable.
fn push_grown(
    alloc: Global,
    rules: &Rules,
    variables: &Variables,
    limit: usize,
    goal: u32,
    patterns: &mut Lists,
) -> Result<(), AllocError> {
    let mut growth = Growth {
        pattern: Vec::new(alloc),
        links: Vec::new(alloc),
        size: 1,
        limit,
    };
    growth.grow(rules, variables, goal)?;
    push(patterns, &mut growth.pattern)
}

/// A pattern for each goal variable: it is grown by the variables with the most causal links, as
/// long as it has at most so many images.
pub fn grown_patterns(
    alloc: Global,
    rules: &Rules,
    variables: &Variables,
    limit: usize,
) -> Result<Lists, AllocError> {
    let goals = goals_of(alloc, rules, variables)?;
    let mut patterns = Lists::new(alloc);
    for goal in goals.as_slice() {
        push_grown(alloc, rules, variables, limit, *goal, &mut patterns)?;
    }
    Ok(patterns)
}
