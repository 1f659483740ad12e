//! The actions of a task as operators on the images of a pattern.
//!
//! An image is kept as the values of the pattern's variables, one field of bits each.
use crate::lists::Lists;
use crate::numbers::{narrow, small_at};
use crate::rules::Rules;
use crate::variables::{Variables, value_in, value_of};
use indexmap::IndexSet;
use pb_packed::Packed;
use std::alloc::{AllocError, Global};

/// The bits of a variable in an image.
#[derive(Clone, Copy)]
pub struct Field {
    /// The variable.
    pub variable: u32,
    /// The place of its lowest bit.
    pub shift: u32,
    /// All its bits, at their place.
    pub mask: u64,
}

impl Field {
    /// A value at its place in an image.
    pub fn place(&self, value: u64) -> u64 {
        if self.shift < 64 {
            (value << self.shift) & self.mask
        } else {
            0
        }
    }

    /// The value in an image.
    pub fn value(&self, image: u64) -> u64 {
        if self.shift < 64 {
            (image & self.mask) >> self.shift
        } else {
            0
        }
    }
}

/// What an action does to images, as long as it takes no values away that it doesn't need.
#[derive(Clone, Copy, Default, PartialEq, Eq, Hash)]
pub struct Operator {
    // the fields whose values it needs, and these values
    needed: u64,
    needs: u64,
    // the fields whose values it sets, and these values
    changed: u64,
    sets: u64,
    // 0 if it takes no other values away, and else the action's number and 1
    clears: u64,
}

/// The operators of a pattern: actions that do the same are one.
#[derive(Drop)]
pub struct Operators {
    /// The fields of the pattern's variables.
    pub fields: Vec<Field>,
    /// The different operators.
    kinds: IndexSet<Operator>,
    // for each operator the fields whose values it takes away without needing them, and the values
    cleared_fields: Lists,
    cleared_values: Lists,
    /// The operator of each action that changes an image, each in a list of its own.
    pub kinds_of: Lists,
    /// These actions.
    pub actions_of: Vec<u32>,
}

// How many bits hold a value.
fn bits_for(values: usize) -> u32 {
    let mut bits = 0u32;
    let mut room = 1usize;
    for _ in 0..16 {
        if values <= room {
            break;
        }
        room = room.saturating_mul(2);
        bits = bits.saturating_add(1);
    }
    bits
}

// So many bits from a place on; none if they don't fit.
fn mask_of(shift: u32, bits: u32) -> u64 {
    if bits > 0 && bits <= 16 && shift <= 48 {
        ((1u64 << bits) - 1) << shift
    } else {
        0
    }
}

// Adds the fields of a pattern's variables.
fn push_fields(
    fields: &mut Vec<Field>,
    variables: &Variables,
    pattern: &[u32],
) -> Result<(), AllocError> {
    let mut shift = 0u32;
    for variable in pattern {
        let bits = bits_for(variables.values(*variable));
        fields.push(Field {
            variable: *variable,
            shift,
            mask: mask_of(shift, bits),
        })?;
        shift = shift.saturating_add(bits);
    }
    Ok(())
}

// The last value that some atoms give a variable, and 0 if they give none.
fn value_among(variable: &[u32], atoms: &[u32]) -> u64 {
    let mut value = 0;
    for atom in atoms {
        let here = value_of(variable, *atom);
        if here > 0 {
            value = here;
        }
    }
    value
}

// Whether an action deletes the value of a variable.
fn is_deleted(rules: &Rules, action: usize, variable: &[u32], value: u64) -> bool {
    for atom in rules.deletes.at(action) {
        if value_of(variable, *atom) == value {
            return true;
        }
    }
    false
}

// Whether an action takes a variable's value away: the one that it needs, or the only one.
fn takes_away(rules: &Rules, action: usize, variable: &[u32], needed: u64) -> bool {
    if variable.len() == 1 {
        is_deleted(rules, action, variable, 1)
    } else {
        needed > 0 && is_deleted(rules, action, variable, needed)
    }
}

impl Operator {
    // Needs a value of a variable.
    fn need(&mut self, field: &Field, value: u64) {
        if value > 0 {
            self.needed = self.needed | field.mask;
            self.needs = self.needs | field.place(value);
        }
    }

    // Sets a variable to a value.
    fn set(&mut self, field: &Field, value: u64) {
        self.changed = self.changed | field.mask;
        self.sets = self.sets | field.place(value);
    }

    // What an action does to one variable.
    fn add(&mut self, rules: &Rules, action: usize, field: &Field, variable: &[u32]) {
        let needed = value_among(variable, rules.needs.at(action));
        let added = value_among(variable, rules.adds.at(action));
        self.need(field, needed);
        if added > 0 {
            self.set(field, added);
        } else if takes_away(rules, action, variable, needed) {
            self.set(field, 0);
        }
    }

    /// The image to which the operator leads, if it may be taken.
    pub fn step(&self, image: u64) -> Option<u64> {
        if image & self.needed == self.needs {
            Some(image & !self.changed | self.sets)
        } else {
            None
        }
    }

    // Whether it does nothing to any image.
    fn is_idle(&self) -> bool {
        self.clears == 0
            && (self.changed == 0
                || self.needs & self.changed == self.sets
                    && self.needed & self.changed == self.changed)
    }
}

// How many of some atoms are of a variable.
fn count_among(variable: &[u32], atoms: &[u32]) -> usize {
    let mut count = 0usize;
    for atom in atoms {
        if value_of(variable, *atom) > 0 {
            count = count.saturating_add(1);
        }
    }
    count
}

// The actions that change an atom of a pattern, in ascending order; some stand there twice.
fn changers_of(
    alloc: Global,
    variables: &Variables,
    pattern: &[u32],
) -> Result<Vec<u32>, AllocError> {
    let mut actions = Vec::new(alloc);
    for variable in pattern {
        push_changers(&mut actions, variables, *variable)?;
    }
    actions.sort_unstable_by_key(|action| *action);
    Ok(actions)
}

// Adds the actions that change an atom of a variable.
fn push_changers(
    actions: &mut Vec<u32>,
    variables: &Variables,
    variable: u32,
) -> Result<(), AllocError> {
    for atom in variables.atoms.at(variable as usize) {
        actions.extend_from_slice(variables.changers.at(*atom as usize))?;
    }
    Ok(())
}

// Whether an action may take values of a variable away without needing them.
fn may_clear(rules: &Rules, action: usize, variable: &[u32]) -> bool {
    variable.len() > 1
        && count_among(variable, rules.needs.at(action)) == 0
        && count_among(variable, rules.adds.at(action)) == 0
        && count_among(variable, rules.deletes.at(action)) > 0
}

impl Operators {
    // What an action does to images; None if it is never applicable.
    fn operator_of(&self, rules: &Rules, variables: &Variables, action: usize) -> Option<Operator> {
        let mut operator = Operator::default();
        for field in self.fields.as_slice() {
            let variable = variables.atoms.at(field.variable as usize);
            if count_among(variable, rules.needs.at(action)) > 1 {
                return None;
            }
            operator.add(rules, action, field, variable);
            if may_clear(rules, action, variable) {
                // So no two such actions are one operator: what is taken away is listed by
                // operator.
                operator.clears = (action as u64).saturating_add(1);
            }
        }
        Some(operator)
    }

    // Adds the values of a variable that an action takes away.
    fn push_cleared(
        &mut self,
        rules: &Rules,
        action: usize,
        number: usize,
        variable: &[u32],
    ) -> Result<(), AllocError> {
        for atom in rules.deletes.at(action) {
            let value = value_of(variable, *atom);
            if value > 0 {
                self.cleared_fields.push(narrow(number))?;
                self.cleared_values.push(narrow(value as usize))?;
            }
        }
        Ok(())
    }

    // Adds the values that an action takes away without needing them.
    fn push_clears(
        &mut self,
        rules: &Rules,
        variables: &Variables,
        action: usize,
    ) -> Result<(), AllocError> {
        for number in 0..self.fields.len() {
            let variable = variables.atoms.at(self.variable_at(number));
            if may_clear(rules, action, variable) {
                self.push_cleared(rules, action, number, variable)?;
            }
        }
        self.cleared_fields.end()?;
        self.cleared_values.end()
    }

    // The variable of a field.
    fn variable_at(&self, number: usize) -> usize {
        if number < self.fields.len() {
            self.fields[number].variable as usize
        } else {
            0
        }
    }

    // Adds the operator of an action, if it changes an image.
    fn push(
        &mut self,
        rules: &Rules,
        variables: &Variables,
        action: usize,
    ) -> Result<(), AllocError> {
        let Some(operator) = self.operator_of(rules, variables, action) else {
            return Ok(());
        };
        if operator.is_idle() {
            return Ok(());
        }
        let (kind, is_new) = self.kinds.insert_full(operator)?;
        if is_new {
            self.push_clears(rules, variables, action)?;
        }
        self.kinds_of.add(&[narrow(kind)])?;
        self.actions_of.push(narrow(action))?;
        Ok(())
    }

    // Adds the operators of actions in ascending order; one may stand there twice.
    fn push_all(
        &mut self,
        rules: &Rules,
        variables: &Variables,
        actions: &[u32],
    ) -> Result<(), AllocError> {
        let mut next = 0;
        for action in actions {
            // The actions ascend, so one that stands there again is below `next`.
            if *action >= next {
                self.push(rules, variables, *action as usize)?;
                next = action.saturating_add(1);
            }
        }
        Ok(())
    }

    /// No operators.
    pub fn new(alloc: Global) -> Operators {
        Operators {
            fields: Vec::new(alloc),
            kinds: IndexSet::new(alloc),
            cleared_fields: Lists::new(alloc),
            cleared_values: Lists::new(alloc),
            kinds_of: Lists::new(alloc),
            actions_of: Vec::new(alloc),
        }
    }

    /// Adds the operators of a pattern, where there are none yet.
    pub fn fill(
        &mut self,
        alloc: Global,
        rules: &Rules,
        variables: &Variables,
        pattern: &[u32],
    ) -> Result<(), AllocError> {
        push_fields(&mut self.fields, variables, pattern)?;
        let actions = changers_of(alloc, variables, pattern)?;
        self.push_all(rules, variables, &actions)
    }

    /// How many operators there are.
    pub fn len(&self) -> usize {
        self.kinds.len()
    }

    /// How many actions change an image.
    pub fn actions(&self) -> usize {
        self.actions_of.len()
    }

    // An image without the values that an operator takes away.
    fn cleared(&self, kind: usize, image: u64, next: u64) -> u64 {
        let mut next = next;
        let values = self.cleared_values.at(kind);
        for (place, number) in self.cleared_fields.at(kind).iter().enumerate() {
            let value = u64::from(small_at(values, place));
            next = self.without(*number as usize, value, image, next);
        }
        next
    }

    // An image in which a field is 0, if it had a value before.
    fn without(&self, number: usize, value: u64, image: u64, next: u64) -> u64 {
        if number >= self.fields.len() {
            return next;
        }
        let field = &self.fields[number];
        if field.value(image) == value {
            next & !field.mask
        } else {
            next
        }
    }

    /// The image to which an operator leads, if it may be taken.
    pub fn step(&self, kind: usize, image: u64) -> Option<u64> {
        let operator = self.kinds.get_index(kind)?;
        let next = operator.step(image)?;
        if operator.clears > 0 {
            Some(self.cleared(kind, image, next))
        } else {
            Some(next)
        }
    }

    /// The image of a set of atoms.
    pub fn image_of(&self, variables: &Variables, set: &Packed) -> u64 {
        let mut image = 0;
        for field in self.fields.as_slice() {
            let value = value_in(variables.atoms.at(field.variable as usize), set);
            image = image | field.place(value);
        }
        image
    }

    /// What a goal needs, as an operator.
    pub fn goal(&self, rules: &Rules, variables: &Variables) -> Operator {
        let mut goal = Operator::default();
        for field in self.fields.as_slice() {
            let value = value_in(variables.atoms.at(field.variable as usize), &rules.goal);
            goal.need(field, value);
        }
        goal
    }
}
