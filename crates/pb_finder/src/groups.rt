//! Groups of atoms of which one holds at most (M. Helmert, "Concise finite-domain representations
//! for PDDL planning tasks", 2009, here over ground atoms).
//!
//! A group is kept if the start has at most one of its atoms, and each action adds at most as many
//! as it needs and takes away. An action that needs two of them is never applicable.
use crate::lists::Lists;
use crate::numbers::{has, narrow, place_at};
use crate::rules::Rules;
use std::alloc::{AllocError, Global};

// A choice that is left: an atom to add to the first atoms of a candidate, of which the first are
// checked.
#[derive(Clone, Copy)]
struct Choice {
    atom: u32,
    first: usize,
    checked: usize,
}

// A set of atoms that may become a group.
#[derive(Drop)]
struct Candidate {
    members: Vec<u32>,
    // where each atom stands among the members, if it is one
    places: Vec<usize>,
    // how many members no action adds without taking another away
    checked: usize,
    choices: Vec<Choice>,
    // which atoms are in a group already
    grouped: Vec<bool>,
}

// What an action does to a candidate.
#[derive(Clone, Copy, PartialEq, Eq)]
enum Balance {
    // It adds no more atoms than it takes away, or is never applicable.
    Kept,
    // It adds one atom, and takes none away.
    Adds,
    // It adds two atoms or more.
    Broken,
}

impl Candidate {
    fn new(alloc: Global) -> Candidate {
        Candidate {
            members: Vec::new(alloc),
            places: Vec::new(alloc),
            checked: 0,
            choices: Vec::new(alloc),
            grouped: Vec::new(alloc),
        }
    }

    // Makes room for so many atoms.
    fn prepare(&mut self, atoms: usize) -> Result<(), AllocError> {
        self.places.resize(atoms, 0)?;
        self.grouped.resize(atoms, false)
    }

    fn has(&self, atom: u32) -> bool {
        // A place may be left of an atom that was taken out, so the member there is compared.
        let place = place_at(&self.places, atom as usize);
        place < self.members.len() && self.members[place] == atom
    }

    fn push(&mut self, atom: u32) -> Result<(), AllocError> {
        let at = atom as usize;
        if at < self.places.len() {
            self.places[at] = self.members.len();
        }
        self.members.push(atom)?;
        Ok(())
    }

    // Begins with one atom.
    fn begin(&mut self, atom: u32) -> Result<(), AllocError> {
        self.members.clear();
        self.choices.clear();
        self.checked = 0;
        self.push(atom)
    }

    // Goes on with the last choice that is left: whether there is one.
    fn choose(&mut self) -> Result<bool, AllocError> {
        let Some(choice) = self.choices.pop() else {
            return Ok(false);
        };
        self.members.truncate(choice.first);
        self.checked = choice.checked;
        self.push(choice.atom)?;
        Ok(true)
    }

    // How many of these atoms are in the candidate.
    fn count(&self, atoms: &[u32]) -> usize {
        let mut count = 0usize;
        for atom in atoms {
            if self.has(*atom) {
                count = count.saturating_add(1);
            }
        }
        count
    }

    // How many of the atoms that an action needs are in the candidate, and are deleted or added.
    fn count_gone(&self, rules: &Rules, action: usize) -> usize {
        let mut count = 0usize;
        for atom in rules.needs.at(action) {
            if self.has(*atom) && is_changed(rules, action, *atom) {
                count = count.saturating_add(1);
            }
        }
        count
    }

    fn balance(&self, rules: &Rules, action: usize) -> Balance {
        let adds = self.count(rules.adds.at(action));
        if adds <= self.count_gone(rules, action) || self.count(rules.needs.at(action)) > 1 {
            Balance::Kept
        } else if adds > 1 {
            Balance::Broken
        } else {
            Balance::Adds
        }
    }

    // Whether some atom of the start is in the candidate.
    fn has_start(&self, rules: &Rules) -> bool {
        for atom in self.members.as_slice() {
            if has(&rules.start, *atom) {
                return true;
            }
        }
        false
    }

    // Leaves the choice of an atom, if it is one that an action takes away.
    fn offer(
        &mut self,
        rules: &Rules,
        action: usize,
        atom: u32,
        has_start: bool,
    ) -> Result<(), AllocError> {
        let is_second = has_start && has(&rules.start, atom);
        if is_second || self.has(atom) || !rules.deletes.at(action).contains(&atom) {
            return Ok(());
        }
        self.choices.push(Choice {
            atom,
            first: self.members.len(),
            checked: self.checked,
        })?;
        Ok(())
    }

    // Leaves the choice of each atom that an action takes away, the first to be taken first.
    fn offer_all(&mut self, rules: &Rules, action: usize) -> Result<(), AllocError> {
        let has_start = self.has_start(rules);
        for atom in rules.needs.at(action).iter().rev() {
            self.offer(rules, action, *atom, has_start)?;
        }
        Ok(())
    }

    // The first of these actions that doesn't keep the candidate, and what it does.
    fn first_fault(&self, rules: &Rules, actions: &[u32]) -> Option<(usize, Balance)> {
        for action in actions {
            let at = *action as usize;
            let balance = self.balance(rules, at);
            if balance != Balance::Kept {
                return Some((at, balance));
            }
        }
        None
    }

    // Checks the first member that isn't checked, or goes on with a choice: whether the search goes
    // on.
    fn check(&mut self, rules: &Rules, adders: &Lists) -> Result<bool, AllocError> {
        if self.checked >= self.members.len() {
            return Ok(false);
        }
        let atom = self.members[self.checked] as usize;
        match self.first_fault(rules, adders.at(atom)) {
            None => {
                self.checked = self.checked.saturating_add(1);
                return Ok(true);
            }
            Some((action, Balance::Adds)) => self.offer_all(rules, action)?,
            Some(_) => {}
        }
        self.choose()
    }

    // Searches for a group with an atom: whether it is found.
    fn grow(
        &mut self,
        rules: &Rules,
        adders: &Lists,
        atom: u32,
        limit: usize,
    ) -> Result<bool, AllocError> {
        self.begin(atom)?;
        for _ in 0..limit {
            if !self.check(rules, adders)? {
                break;
            }
        }
        Ok(self.checked >= self.members.len())
    }
}

// Whether an action deletes or adds an atom.
fn is_changed(rules: &Rules, action: usize, atom: u32) -> bool {
    rules.deletes.at(action).contains(&atom) || rules.adds.at(action).contains(&atom)
}

// Marks some atoms.
fn mark(grouped: &mut [bool], atoms: &[u32]) {
    for atom in atoms {
        let at = *atom as usize;
        if at < grouped.len() {
            grouped[at] = true;
        }
    }
}

impl Candidate {
    // Whether an atom is in a group already.
    fn is_grouped(&self, atom: usize) -> bool {
        atom < self.grouped.len() && self.grouped[atom]
    }

    // Adds the candidate as a group, if there is none like it yet.
    fn keep(&mut self, groups: &mut Lists) -> Result<(), AllocError> {
        self.members.sort_unstable_by_key(|atom| *atom);
        if groups.has(&self.members) {
            return Ok(());
        }
        mark(&mut self.grouped, &self.members);
        groups.add(&self.members)
    }

    // Searches for a group with an atom that is in none yet, or is one of the goal.
    fn look(
        &mut self,
        rules: &Rules,
        adders: &Lists,
        atom: usize,
        limit: usize,
        groups: &mut Lists,
    ) -> Result<(), AllocError> {
        let number = narrow(atom);
        if self.is_grouped(atom) && !has(&rules.goal, number) {
            return Ok(());
        }
        if self.grow(rules, adders, number, limit)? {
            self.keep(groups)?;
        }
        Ok(())
    }

    // Searches for groups with each of the atoms.
    fn look_all(
        &mut self,
        rules: &Rules,
        adders: &Lists,
        limit: usize,
        groups: &mut Lists,
    ) -> Result<(), AllocError> {
        self.prepare(rules.atoms)?;
        let limit = limit.saturating_add(rules.atoms.saturating_mul(2));
        for atom in 0..rules.atoms {
            self.look(rules, adders, atom, limit, groups)?;
        }
        Ok(())
    }
}

/// Groups of atoms of which one holds at most, each in ascending order. At most so many candidates
/// are looked at for each atom, beside two for each atom that there is.
pub fn groups_of(alloc: Global, rules: &Rules, limit: usize) -> Result<Lists, AllocError> {
    let adders = rules.adds.turned(alloc, rules.atoms)?;
    let mut groups = Lists::new(alloc);
    let mut candidate = Candidate::new(alloc);
    candidate.look_all(rules, &adders, limit, &mut groups)?;
    Ok(groups)
}
