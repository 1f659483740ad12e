//! Ground tasks as lines of numbers.
use crate::lifted::lifted_of;
use crate::lines::Lines;
use pb_ground::{
    ActionInstance, GroundAtom, GroundError, Looks, goal, ground_actions, ground_atoms, is_never,
    start,
};
use pb_lifted::Lifted;
use pb_outside::Memory;
use std::alloc::Global;

fn add_atoms(lines: &mut Lines, atoms: &[GroundAtom]) -> Result<(), Memory> {
    lines.first("atoms")?;
    lines.marked("", atoms.len())?;
    lines.end()?;
    for (number, atom) in atoms.iter().enumerate() {
        lines.first("atom")?;
        lines.marked("", number)?;
        lines.marked("(", atom.predicate)?;
        lines.numbers(atom.objects.as_slice())?;
        lines.first(")\n")?;
    }
    Ok(())
}

fn add_list(lines: &mut Lines, word: &str, numbers: &[usize]) -> Result<(), Memory> {
    lines.first(word)?;
    lines.numbers(numbers)?;
    lines.end()
}

fn add_action(lines: &mut Lines, number: usize, action: &ActionInstance) -> Result<(), Memory> {
    lines.first("action")?;
    lines.marked("", number)?;
    lines.marked("(", action.schema)?;
    lines.numbers(action.objects.as_slice())?;
    lines.first(") needs")?;
    lines.numbers(action.needs.as_slice())?;
    lines.first(" adds")?;
    lines.numbers(action.adds.as_slice())?;
    add_list(lines, " deletes", action.deletes.as_slice())
}

fn add_actions(lines: &mut Lines, actions: &[ActionInstance]) -> Result<(), Memory> {
    lines.first("actions")?;
    lines.marked("", actions.len())?;
    lines.end()?;
    for (number, action) in actions.iter().enumerate() {
        add_action(lines, number, action)?;
    }
    Ok(())
}

// Adds all but the numbers of the start and the goal. An error says why there is no ground task.
fn add_ground(alloc: Global, lines: &mut Lines, lifted: &Lifted) -> Result<(), GroundError> {
    let atoms = ground_atoms(alloc, lifted)?;
    let actions = ground_actions(alloc, lifted, &atoms, &mut Looks::endless())?;
    let first = start(alloc, lifted, &atoms)?;
    let wanted = goal(alloc, lifted, &atoms)?;
    let never = is_never(alloc, lifted)?;
    let added = add_atoms(lines, atoms.as_slice())
        .and(add_actions(lines, actions.as_slice()))
        .and(add_list(lines, "start", first.as_slice()))
        .and(add_list(lines, "goal", wanted.as_slice()))
        .and(lines.first(if never { "never\n" } else { "" }));
    match added {
        Ok(()) => Ok(()),
        Err(Memory) => Err(GroundError::Memory),
    }
}

// The error's name and numbers.
fn refused(alloc: Global, error: GroundError) -> Result<Lines, Memory> {
    let text = format!(in alloc; "{error:?}\n")?;
    let mut lines = Lines::new(alloc);
    lines.first(text.as_str())?;
    Ok(lines)
}

// The ground task of two texts that spell a lifted one, or why it has none.
pub(crate) fn ground_lines(
    alloc: Global,
    domain: &[u8],
    problem: &[u8],
) -> Result<Option<Lines>, Memory> {
    let Some(lifted) = lifted_of(alloc, domain, problem)? else {
        return Ok(None);
    };
    let mut lines = Lines::new(alloc);
    match add_ground(alloc, &mut lines, &lifted) {
        Ok(()) => Ok(Some(lines)),
        Err(GroundError::Memory) => Err(Memory),
        Err(error) => Ok(Some(refused(alloc, error)?)),
    }
}
