//! Variables: groups of atoms, and each other atom by itself.
use crate::groups::groups_of;
use crate::lists::Lists;
use crate::numbers::{has, narrow, with};
use crate::rules::Rules;
use pb_packed::Packed;
use std::alloc::{AllocError, Global};

/// The variables of a task. The value of a variable is 0 if none of its atoms holds, and else the
/// place of the atom that holds, from 1 on.
#[derive(Drop)]
pub struct Variables {
    /// The atoms of each variable, in ascending order. Variables may have atoms in common.
    pub atoms: Lists,
    /// The variables of each atom.
    pub of_atom: Lists,
    /// The actions that add or delete each atom.
    pub changers: Lists,
}

// Adds the list of what two lists have.
fn join(lists: &mut Lists, one: &[u32], other: &[u32]) -> Result<(), AllocError> {
    for item in one {
        lists.push(*item)?;
    }
    for item in other {
        if !one.contains(item) {
            lists.push(*item)?;
        }
    }
    lists.end()
}

// The atoms that each action adds or deletes.
fn changes_of(alloc: Global, rules: &Rules) -> Result<Lists, AllocError> {
    let mut changes = Lists::new(alloc);
    for action in 0..rules.actions() {
        join(
            &mut changes,
            rules.adds.at(action),
            rules.deletes.at(action),
        )?;
    }
    Ok(changes)
}

// The actions that add or delete each atom.
fn changers_of(alloc: Global, rules: &Rules) -> Result<Lists, AllocError> {
    let changes = changes_of(alloc, rules)?;
    changes.turned(alloc, rules.atoms)
}

// Adds each atom that is in no group yet as a group of its own.
fn add_single(groups: &mut Lists, of_atom: &Lists) -> Result<(), AllocError> {
    for atom in 0..of_atom.len() {
        if of_atom.at(atom).is_empty() {
            groups.add(&[narrow(atom)])?;
        }
    }
    Ok(())
}

// Groups of atoms, and the other atoms by themselves.
fn atoms_of(alloc: Global, rules: &Rules, limit: usize) -> Result<Lists, AllocError> {
    let mut groups = groups_of(alloc, rules, limit)?;
    let grouped = groups.turned(alloc, rules.atoms)?;
    add_single(&mut groups, &grouped)?;
    Ok(groups)
}

/// The place of an atom in a variable, from 1 on, and 0 if it isn't one of its atoms.
pub fn value_of(variable: &[u32], atom: u32) -> u64 {
    match variable.binary_search(&atom) {
        Ok(place) => (place as u64).saturating_add(1),
        Err(_) => 0,
    }
}

/// The place of the first atom of a variable that is in a set, from 1 on, and 0 if none is.
pub fn value_in(variable: &[u32], set: &Packed) -> u64 {
    for (place, atom) in variable.iter().enumerate() {
        if has(set, *atom) {
            return (place as u64).saturating_add(1);
        }
    }
    0
}

/// A set with the atom of a variable's value, if it has one.
pub fn with_value(set: Packed, variable: &[u32], value: u64) -> Packed {
    if value == 0 {
        return set;
    }
    let place = (value - 1) as usize;
    if place < variable.len() {
        with(&set, variable[place])
    } else {
        set
    }
}

impl Variables {
    /// The variables of a task. At most so many candidates for groups are looked at for each atom.
    pub fn of(alloc: Global, rules: &Rules, limit: usize) -> Result<Variables, AllocError> {
        let changers = changers_of(alloc, rules)?;
        let atoms = atoms_of(alloc, rules, limit)?;
        let of_atom = atoms.turned(alloc, rules.atoms)?;
        Ok(Variables {
            atoms,
            of_atom,
            changers,
        })
    }

    /// How many values a variable has.
    pub fn values(&self, variable: u32) -> usize {
        self.atoms.at(variable as usize).len().saturating_add(1)
    }

    /// Whether the goal has an atom of a variable.
    pub fn has_goal(&self, rules: &Rules, variable: u32) -> bool {
        for atom in self.atoms.at(variable as usize) {
            if has(&rules.goal, *atom) {
                return true;
            }
        }
        false
    }
}
