//! The trees of texts. A caller doesn't see the clauses of the readers, so its proof stays short.
use pb_outside::Memory;
use pb_pddl::{Domain, Problem};
use pb_syntax::{SyntaxError, read_domain, read_problem};
use std::alloc::Global;

// The domain that a text spells, if it does.
pub(crate) fn domain_of(alloc: Global, text: &[u8]) -> Result<Option<Domain>, Memory> {
    match read_domain(alloc, text) {
        Ok(domain) => Ok(Some(domain)),
        Err(SyntaxError::Memory) => Err(Memory),
        Err(_) => Ok(None),
    }
}

// The problem that a text spells, if it does.
pub(crate) fn problem_of(alloc: Global, text: &[u8]) -> Result<Option<Problem>, Memory> {
    match read_problem(alloc, text) {
        Ok(problem) => Ok(Some(problem)),
        Err(SyntaxError::Memory) => Err(Memory),
        Err(_) => Ok(None),
    }
}

// The trees that two texts spell, if they do.
pub(crate) fn trees_of(
    alloc: Global,
    domain: &[u8],
    problem: &[u8],
) -> Result<Option<(Domain, Problem)>, Memory> {
    let Some(domain) = domain_of(alloc, domain)? else {
        return Ok(None);
    };
    let Some(problem) = problem_of(alloc, problem)? else {
        return Ok(None);
    };
    Ok(Some((domain, problem)))
}
