//! Ways up the tree of types, by numbers: where they end, and whether one passes a type.
ghost use Rattle.std.specs.Prelude.{◌≡◌, ◌<◌, ℕ, [], IfOk, length, slice_index};
ghost use Rattle.pb_lifted.specs.Tree.{climb, comes_to, IsFar, followed};

use std::alloc::{AllocError, Global};

/// The number that a list has at a place, or 0 after its end.
pub(crate) fn at(list: &[usize], place: usize) -> usize
    ensures { result ≡ slice_index list.now place }
{
    if place < list.len() { list[place] } else { 0 }
}

// Where each step of the first list leads by a step of the second.
fn follow(alloc: Global, first: &[usize], second: &[usize]) -> Result<Vec<usize>, AllocError>
    ensures { IfOk result (λ both. both.items ≡ followed first.now second.now) }
{
    let mut both = Vec::new(alloc);
    for place in first {
        both.push(at(second, *place))?;
    }
    Ok(both)
}

// The numbers below n, in order.
fn places(alloc: Global, n: usize) -> Result<Vec<usize>, AllocError>
    ensures { IfOk result (λ v. IsFar [] 0 v.items × (length v.items ≡ n)) }
{
    let mut all = Vec::new(alloc);
    for i in 0..n {
        all.push(i)?;
    }
    Ok(all)
}

/// Where as many steps up lead as there are entries. It doubles the steps, so it takes time in n
/// log n. It fails if memory runs out.
pub(crate) fn far_up(alloc: Global, parents: &[usize]) -> Result<Vec<usize>, AllocError>
    requires { slice_index parents.now 0 ≡ 0 }
    ensures { IfOk result (λ far. IsFar parents.now (length parents.now) far.items
        × (length far.items ≡ length parents.now)) }
{
    let mut far = places(alloc, parents.len())?;
    let mut step = Vec::from_slice(alloc, parents)?;
    let mut left = parents.len();
    while left > 0 {
        // Binary exponentiation: a turn doubles the steps of `step`; an odd `left` takes them.
        if left % 2 == 1 {
            far = follow(alloc, far.as_slice(), step.as_slice())?;
        }
        step = follow(alloc, step.as_slice(), step.as_slice())?;
        left /= 2;
    }
    Ok(far)
}

/// Whether the steps up from one number come to another.
pub(crate) fn climbs(parents: &[usize], from: usize, to: usize) -> bool
    requires { slice_index parents.now 0 ≡ 0 }
    ensures { result ≡ comes_to parents.now (length parents.now) from to }
{
    let mut now = from;
    for _ in 0..parents.len() {
        if now == to {
            return true;
        }
        // Type 0 is `object`, which is above itself, so no further step leads elsewhere.
        if now == 0 {
            return false;
        }
        now = at(parents, now);
    }
    now == to
}
