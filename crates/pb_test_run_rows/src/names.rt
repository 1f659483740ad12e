//! The names of a task's actions, and what a list of actions is as a plan.
use crate::kinds::{numbers_of, task_of};
use crate::lines::Lines;
use crate::trees::trees_of;
use pb_outside::Memory;
use pb_pddl::{Name, Problem, Text, Typed};
use pb_strips::{Looks, StripsError, ground};
use pb_task::{Task, TaskParts};
use std::alloc::{AllocError, Global};

// How many ground atoms it has.
fn atom_count(task: &Task) -> u32 {
    match task.parts() {
        TaskParts::Strips(strips) => strips.atoms,
        TaskParts::Grid(_) | TaskParts::Tiles(_) => 0,
    }
}

fn add_task(alloc: Global, lines: &mut Lines, task: &Task) -> Result<(), Memory> {
    lines.first("atoms")?;
    lines.marked("", atom_count(task) as usize)?;
    lines.end()?;
    for action in 0..task.actions() {
        let name = task.action_text(alloc, action)?;
        lines.first(name.as_str())?;
        lines.end()?;
    }
    Ok(())
}

/// How many atoms there are, and the names of the actions in the order of their numbers.
pub(crate) fn task_lines(
    alloc: Global,
    domain: &[u8],
    problem: &[u8],
) -> Result<Option<Lines>, Memory> {
    let Some(task) = task_of(alloc, "strips", domain, problem)? else {
        return Ok(None);
    };
    let mut lines = Lines::new(alloc);
    add_task(alloc, &mut lines, &task)?;
    Ok(Some(lines))
}

// One more object, without a type. No text has to spell its name.
fn add_object(alloc: Global, problem: &mut Problem, name: &[u8]) -> Result<(), AllocError> {
    let text = Text::new(alloc, name)?;
    let name = Name { text, at: 0 };
    problem.objects.push(Typed { name, kind: None })?;
    Ok(())
}

/// The same of the task with one more object, whose name is these bytes.
pub(crate) fn lines_beside(
    alloc: Global,
    domain: &[u8],
    problem: &[u8],
    name: &[u8],
) -> Result<Option<Lines>, Memory> {
    let Some((domain, mut problem)) = trees_of(alloc, domain, problem)? else {
        return Ok(None);
    };
    add_object(alloc, &mut problem, name)?;
    let mut lines = Lines::new(alloc);
    match ground(alloc, &domain, &problem, &mut Looks::endless()) {
        Ok(task) => add_task(alloc, &mut lines, &task)?,
        Err(StripsError::Memory) => return Err(Memory),
        Err(_) => return Ok(None),
    }
    Ok(Some(lines))
}

/// What the actions of these numbers are as a plan: the cost, or the fault by name.
pub(crate) fn plan_line(
    alloc: Global,
    kind: &str,
    first: &[u8],
    second: &[u8],
    words: &[String],
) -> Result<Option<Lines>, Memory> {
    let Some(task) = task_of(alloc, kind, first, second)? else {
        return Ok(None);
    };
    let plan = numbers_of(alloc, words)?;
    if plan.len() > 1_000 {
        return Ok(None);
    }
    let mut lines = Lines::new(alloc);
    let text = format!(in alloc; "{:?}\n", task.validate(plan.as_slice()))?;
    lines.first(text.as_str())?;
    Ok(Some(lines))
}
