//! Lifted tasks as lines of numbers.
use crate::lines::Lines;
use crate::trees::trees_of;
use pb_lifted::{Argument, Lifted, LiftedAtom, LiftedError, Schema, resolve};
use pb_outside::Memory;
use std::alloc::Global;

fn add_atom(lines: &mut Lines, atom: &LiftedAtom) -> Result<(), Memory> {
    lines.marked("(", atom.predicate)?;
    for argument in atom.arguments.as_slice() {
        match argument {
            Argument::Object(number) => lines.marked("", *number)?,
            Argument::Parameter(number) => lines.marked("?", *number)?,
        }
    }
    lines.first(")")
}

fn add_atoms(lines: &mut Lines, atoms: &[LiftedAtom]) -> Result<(), Memory> {
    for atom in atoms {
        add_atom(lines, atom)?;
    }
    lines.end()
}

fn add_schema(lines: &mut Lines, schema: &Schema) -> Result<(), Memory> {
    lines.first("params")?;
    lines.numbers(schema.params.as_slice())?;
    lines.end()?;
    lines.first("needs")?;
    add_atoms(lines, schema.pre.as_slice())?;
    lines.first("adds")?;
    add_atoms(lines, schema.adds.as_slice())?;
    lines.first("deletes")?;
    add_atoms(lines, schema.deletes.as_slice())
}

// The lifted task that two texts spell, if they do.
pub(crate) fn lifted_of(
    alloc: Global,
    domain: &[u8],
    problem: &[u8],
) -> Result<Option<Lifted>, Memory> {
    let Some((domain, problem)) = trees_of(alloc, domain, problem)? else {
        return Ok(None);
    };
    match resolve(alloc, &domain, &problem) {
        Ok(lifted) => Ok(Some(lifted)),
        Err(LiftedError::Memory) => Err(Memory),
        Err(_) => Ok(None),
    }
}

fn add_lifted(lines: &mut Lines, lifted: &Lifted) -> Result<(), Memory> {
    lines.first("types")?;
    lines.numbers(lifted.types.as_slice())?;
    lines.end()?;
    lines.first("objects")?;
    lines.numbers(lifted.objects.as_slice())?;
    lines.end()?;
    for schema in lifted.actions.as_slice() {
        add_schema(lines, schema)?;
    }
    Ok(())
}

pub(crate) fn lifted_lines(
    alloc: Global,
    domain: &[u8],
    problem: &[u8],
) -> Result<Option<Lines>, Memory> {
    let Some(lifted) = lifted_of(alloc, domain, problem)? else {
        return Ok(None);
    };
    let mut lines = Lines::new(alloc);
    add_lifted(&mut lines, &lifted)?;
    Ok(Some(lines))
}
