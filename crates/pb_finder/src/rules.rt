//! The actions of a task, with their sets as lists of atoms.
ghost use Rattle.std.specs.Prelude.{◌≤◌};
ghost use Rattle.pb_packed.specs.Sizes.{most_atoms};
ghost use Rattle.pb_task.specs.Strips.{IsStrips};

use crate::lists::Lists;
use pb_packed::Packed;
use pb_task::{StripsParts, next_atom};
use std::alloc::{AllocError, Global};

/// The actions of a task, with the atoms that each needs, adds and deletes in ascending order.
#[derive(Drop)]
pub struct Rules {
    /// How many atoms there are.
    pub atoms: usize,
    /// What each action needs.
    pub needs: Lists,
    /// What each action adds.
    pub adds: Lists,
    /// What each action deletes.
    pub deletes: Lists,
    /// What each action costs.
    pub costs: Vec<u64>,
    /// The atoms that hold at first.
    pub start: Packed,
    /// The atoms of the goal.
    pub goal: Packed,
}

// Adds the list of the atoms in a set.
fn push_atoms(lists: &mut Lists, set: &Packed, count: u32) -> Result<(), AllocError>
    requires { count ≤ most_atoms }
{
    let mut atom = next_atom(set, 0, count);
    for _ in 0..count {
        if atom >= count {
            break;
        }
        lists.push(atom)?;
        atom = next_atom(set, atom + 1, count);
    }
    lists.end()
}

impl Rules {
    // Adds the action of a number.
    fn push(&mut self, strips: &StripsParts, action: usize) -> Result<(), AllocError>
        requires strips { IsStrips strips.now }
    {
        // No clause bounds the number, and the calls below need that.
        if action >= strips.actions.len() {
            return Ok(());
        }
        push_atoms(&mut self.needs, &strips.actions.needs(action), strips.atoms)?;
        push_atoms(&mut self.adds, &strips.actions.adds(action), strips.atoms)?;
        push_atoms(
            &mut self.deletes,
            &strips.actions.deletes(action),
            strips.atoms,
        )?;
        self.costs.push(strips.actions.cost(action))?;
        Ok(())
    }

    // Adds the actions of a task.
    fn push_all(&mut self, strips: &StripsParts) -> Result<(), AllocError>
        requires strips { IsStrips strips.now }
    {
        for action in 0..strips.actions.len() {
            self.push(strips, action)?;
        }
        Ok(())
    }

    /// The actions of a task.
    pub fn of(alloc: Global, strips: &StripsParts) -> Result<Rules, AllocError>
        requires { IsStrips strips.now }
    {
        let mut rules = Rules {
            atoms: strips.atoms as usize,
            needs: Lists::new(alloc),
            adds: Lists::new(alloc),
            deletes: Lists::new(alloc),
            costs: Vec::new(alloc),
            start: strips.start,
            goal: strips.goal,
        };
        rules.push_all(strips)?;
        Ok(rules)
    }

    /// How many actions there are.
    pub fn actions(&self) -> usize {
        self.costs.len()
    }
}
