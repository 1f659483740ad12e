//! Trees of PDDL texts as a line: each name with its place.
use crate::lines::Lines;
use crate::trees::{domain_of, problem_of};
use pb_outside::Memory;
use pb_pddl::{Domain, Problem};
use pb_syntax::{Action, Atom, Cost, Literal, Name, Term, Typed};
use std::alloc::Global;

fn add_name(lines: &mut Lines, name: &Name) -> Result<(), Memory> {
    lines.name(name.text.as_slice(), name.at)
}

fn add_typed(lines: &mut Lines, typed: &Typed) -> Result<(), Memory> {
    add_name(lines, &typed.name)?;
    if let Some(kind) = &typed.kind {
        lines.word("-")?;
        add_name(lines, kind)?;
    }
    Ok(())
}

fn add_all_typed(lines: &mut Lines, list: &[Typed]) -> Result<(), Memory> {
    for typed in list {
        add_typed(lines, typed)?;
    }
    Ok(())
}

fn add_term(lines: &mut Lines, term: &Term) -> Result<(), Memory> {
    match term {
        Term::Object(name) => add_name(lines, name),
        Term::Variable(name) => add_name(lines, name),
    }
}

fn add_atom(lines: &mut Lines, atom: &Atom) -> Result<(), Memory> {
    lines.word("(")?;
    add_name(lines, &atom.predicate)?;
    for term in atom.terms.as_slice() {
        add_term(lines, term)?;
    }
    lines.word(")")
}

fn add_atoms(lines: &mut Lines, atoms: &[Atom]) -> Result<(), Memory> {
    for atom in atoms {
        add_atom(lines, atom)?;
    }
    Ok(())
}

fn add_literals(lines: &mut Lines, literals: &[Literal]) -> Result<(), Memory> {
    for literal in literals {
        if literal.negated {
            lines.word("not")?;
        }
        add_atom(lines, &literal.atom)?;
    }
    Ok(())
}

fn add_costs(lines: &mut Lines, sign: &str, costs: &[Cost]) -> Result<(), Memory> {
    for cost in costs {
        lines.name(sign.as_bytes(), cost.at)?;
        lines.name(b"total-cost", cost.function)?;
        lines.placed(cost.number, cost.number_at)?;
    }
    Ok(())
}

fn add_action(lines: &mut Lines, action: &Action) -> Result<(), Memory> {
    lines.word("action")?;
    add_name(lines, &action.name)?;
    add_all_typed(lines, action.params.as_slice())?;
    lines.word("if")?;
    add_atoms(lines, action.pre.as_slice())?;
    lines.word("then")?;
    add_literals(lines, action.effect.as_slice())?;
    add_costs(lines, "increase", action.costs.as_slice())
}

fn add_domain(lines: &mut Lines, domain: &Domain) -> Result<(), Memory> {
    add_name(lines, &domain.name)?;
    lines.word("types")?;
    add_all_typed(lines, domain.types.as_slice())?;
    lines.word("constants")?;
    add_all_typed(lines, domain.constants.as_slice())?;
    for predicate in domain.predicates.as_slice() {
        lines.word("predicate")?;
        add_name(lines, &predicate.name)?;
        add_all_typed(lines, predicate.params.as_slice())?;
    }
    if domain.has_cost {
        lines.word("functions total-cost")?;
    }
    for action in domain.actions.as_slice() {
        add_action(lines, action)?;
    }
    lines.end()
}

pub(crate) fn domain_line(alloc: Global, text: &[u8]) -> Result<Option<Lines>, Memory> {
    let Some(domain) = domain_of(alloc, text)? else {
        return Ok(None);
    };
    let mut lines = Lines::new(alloc);
    add_domain(&mut lines, &domain)?;
    Ok(Some(lines))
}

fn add_problem(lines: &mut Lines, problem: &Problem) -> Result<(), Memory> {
    add_name(lines, &problem.name)?;
    lines.word("of")?;
    add_name(lines, &problem.domain)?;
    lines.word("objects")?;
    add_all_typed(lines, problem.objects.as_slice())?;
    lines.word("init")?;
    add_atoms(lines, problem.init.as_slice())?;
    add_costs(lines, "=", problem.costs.as_slice())?;
    lines.word("goal")?;
    add_atoms(lines, problem.goal.as_slice())?;
    if let Some(at) = problem.metric {
        lines.word("metric")?;
        lines.name(b"total-cost", at)?;
    }
    lines.end()
}

pub(crate) fn problem_line(alloc: Global, text: &[u8]) -> Result<Option<Lines>, Memory> {
    let Some(problem) = problem_of(alloc, text)? else {
        return Ok(None);
    };
    let mut lines = Lines::new(alloc);
    add_problem(&mut lines, &problem)?;
    Ok(Some(lines))
}

// How many facts a problem begins with.
pub(crate) fn facts(alloc: Global, text: &[u8]) -> Result<Option<Lines>, Memory> {
    let Some(problem) = problem_of(alloc, text)? else {
        return Ok(None);
    };
    let mut lines = Lines::new(alloc);
    lines.first("facts")?;
    lines.marked("", problem.init.as_slice().len())?;
    lines.end()?;
    Ok(Some(lines))
}
