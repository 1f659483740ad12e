//! Which blocks interfere: those whose scopes have a block in common.
ghost use Rattle.std.specs.Prelude.{◌≡◌, ◌<◌, ◌≤◌, ◌||◌, ◌&&◌, ◌==◌, not, ℕ, [], All, length, slice_index_or, IfOk, OnOk, replicate};
ghost use Rattle.std.specs.List.{list_any, filter};
ghost use Rattle.pb_machine.specs.Blocks.{interferes};
ghost use Rattle.pb_abstract.specs.Graph.{has, blocks_in, AreSources, AreKnown, AreInterference};

use crate::lists::BlockList;
use pb_listed::Listed;
use std::alloc::{AllocError, Global};

// Adds a number to the lists at these places.
fn add_to(lists: &mut [Listed<u32>], places: &[u32], number: u32) -> Result<(), AllocError>
    requires { All (λ place. place < length lists.old) places.now }
    ensures { OnOk result ((place c : ℕ) → has (slice_index_or lists.new place []) c
        ≡ (has (slice_index_or lists.old place []) c
        || (has places.now place && (number == c)))) }
{
    for place in places {
        lists[*place as usize].push(number)?;
    }
    Ok(())
}

// As many lists without numbers.
fn empty_lists(alloc: Global, count: usize) -> Result<Vec<Listed<u32>>, AllocError>
    ensures { IfOk result (λ lists. lists.items ≡ replicate count []) }
{
    let mut lists = Vec::new(alloc);
    for _ in 0..count {
        lists.push(Listed::new(alloc))?;
    }
    Ok(lists)
}

// For each block the blocks in whose scope it is.
fn sources(alloc: Global, scopes: &[BlockList]) -> Result<Vec<Listed<u32>>, AllocError>
    requires known { AreKnown scopes.now }
    requires few { length scopes.now ≤ 4096 }
    ensures len { IfOk result (λ lists. length lists.items ≡ length scopes.now) }
    ensures each { IfOk result (λ lists. AreSources scopes.now lists.items) }
{
    let mut lists = empty_lists(alloc, scopes.len())?;
    for block in 0..scopes.len() {
        add_to(lists.as_mut_slice(), scopes[block].numbers(), block as u32)?;
    }
    Ok(lists)
}

// The blocks that have a block of a scope in their own scope.
fn near(alloc: Global, scope: &[u32], sources: &[Listed<u32>]) -> Result<Vec<u32>, AllocError>
    requires { All (λ shared. shared < length sources.now) scope.now }
    ensures { IfOk result (λ found. (c : ℕ) → has found.items c
        ≡ list_any (λ shared. has (slice_index_or sources.now shared []) c) scope.now) }
{
    let mut found = Vec::new(alloc);
    for shared in scope {
        found.extend_from_slice(sources[*shared as usize].as_slice())?;
    }
    Ok(found)
}

// The numbers without this one.
fn without(numbers: Vec<u32>, block: u32) -> Vec<u32>
    ensures { result.items ≡ filter (λ c. not (c == block)) numbers.items }
{
    let mut numbers = numbers;
    numbers.retain(|c| *c != block);
    numbers
}

/// For each block, in order of their numbers, the blocks that interfere with it: the others whose
/// scope has a block in common with its own.
pub fn interference(alloc: Global, scopes: &[BlockList]) -> Result<Vec<BlockList>, AllocError>
    requires known { AreKnown scopes.now }
    requires few { length scopes.now ≤ 4096 }
    ensures { IfOk result (λ lists. AreInterference scopes.now lists.items) }
{
    let sources = sources(alloc, scopes)?;
    let mut lists = Vec::new(alloc);
    for block in 0..scopes.len() {
        let found = near(alloc, scopes[block].numbers(), sources.as_slice())?;
        lists.push(BlockList::of(without(found, block as u32)))?;
    }
    Ok(lists)
}
