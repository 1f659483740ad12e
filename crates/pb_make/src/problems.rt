//! The text of a problem of blocks with a drawn goal.
ghost use Rattle.std.specs.Prelude.{◌≡◌, ◌≤◌, ◌<◌, ◌++◌, ◌-◌, ◌^◌, IfOk, OnOk};
ghost use Rattle.pb_make.specs.Draws.{draws};
ghost use Rattle.pb_make.specs.Problems.{facts_from, facts_of, goal_atom, goal_from, object, objects_from, problem_text};

use crate::draws::Generator;
use std::alloc::{AllocError, Global};

/// The text of a problem of so many blocks, all of them on the table. About half of them are wanted
/// each on the block before. Its domain is `blocks_domain`. An error is out of memory.
pub fn make_problem(alloc: Global, seed: u32, blocks: u32) -> Result<Vec<u8>, AllocError>
    requires some { 1 ≤ blocks }
    requires most { blocks ≤ 14 }
    ensures { IfOk result (λ text. text.items ≡ problem_text seed blocks) }
{
    let mut text = Vec::new(alloc);
    text.extend_from_slice(b"( define ( problem made ) ( :domain blocks ) ( :objects ")?;
    push_objects(alloc, &mut text, blocks)?;
    text.extend_from_slice(b") ( :init ")?;
    push_facts(alloc, &mut text, blocks)?;
    text.extend_from_slice(b"( handempty ) ) ( :goal ( and ")?;
    push_goal(alloc, &mut text, seed, blocks)?;
    text.extend_from_slice(b") ) )\n")?;
    Ok(text)
}

// Appends the names of so many blocks.
fn push_objects(alloc: Global, text: &mut Vec<u8>, blocks: u32) -> Result<(), AllocError>
    ensures { OnOk result (text.new.items ≡ text.old.items ++ objects_from 0 blocks) }
{
    for block in 0..blocks {
        push_object(alloc, text, block)?;
    }
    Ok(())
}

fn push_object(alloc: Global, text: &mut Vec<u8>, block: u32) -> Result<(), AllocError>
    ensures { OnOk result (text.new.items ≡ text.old.items ++ object block) }
{
    // Each piece ends with its space, so the next is added without a look at what is there.
    let name = format!(in alloc; "b{block} ")?;
    text.extend_from_slice(name.as_bytes())
}

// Appends that so many blocks are clear and on the table.
fn push_facts(alloc: Global, text: &mut Vec<u8>, blocks: u32) -> Result<(), AllocError>
    ensures { OnOk result (text.new.items ≡ text.old.items ++ facts_from 0 blocks) }
{
    for block in 0..blocks {
        push_fact(alloc, text, block)?;
    }
    Ok(())
}

fn push_fact(alloc: Global, text: &mut Vec<u8>, block: u32) -> Result<(), AllocError>
    ensures { OnOk result (text.new.items ≡ text.old.items ++ facts_of block) }
{
    let facts = format!(in alloc; "( clear b{block} ) ( ontable b{block} ) ")?;
    text.extend_from_slice(facts.as_bytes())
}

// Appends the goal's atoms, with a draw for each block but the first.
fn push_goal(alloc: Global, text: &mut Vec<u8>, seed: u32, blocks: u32) -> Result<(), AllocError>
    requires { 1 ≤ blocks }
    ensures { OnOk result (text.new.items ≡ text.old.items
        ++ goal_from 0 (draws (blocks - 1) seed)) }
{
    let mut generator = Generator::new(seed);
    for block in 0..blocks - 1 {
        push_atom(alloc, text, block, generator.draw())?;
    }
    Ok(())
}

// Appends the atom that a draw makes: the next block is wanted on this one if the draw is even.
fn push_atom(alloc: Global, text: &mut Vec<u8>, block: u32, draw: u32) -> Result<(), AllocError>
    requires { block < 2 ^ 32 - 1 }
    ensures { OnOk result (text.new.items ≡ text.old.items ++ goal_atom block draw) }
{
    if draw % 2 == 0 {
        let upper = block + 1;
        let atom = format!(in alloc; "( on b{upper} b{block} ) ")?;
        text.extend_from_slice(atom.as_bytes())?;
    }
    Ok(())
}
