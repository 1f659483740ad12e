//! Tests of the tree of winners: it chooses as a look at all blocks does.
ghost use Rattle.std.specs.Prelude.{◌≡◌, ◌<◌, length};

use crate::choice::comes_before;
use crate::tree::KeyTree;
use pb_model::Key;
use std::process::Abort;
use std::test::Fail;

fn passes(mask: u32, block: u32) -> bool {
    (mask >> (block % 32)) & 1 == 1
}

// The plain choice: a look at all blocks.
fn plain_choice(keys: &KeyTree, count: u32, mask: u32) -> Option<u32> {
    let mut best: Option<u32> = None;
    for block in 0..count {
        let is_better = match best {
            None => true,
            Some(other) => comes_before(keys.get(block), block, keys.get(other), other),
        };
        if keys.get(block).is_some() && passes(mask, block) && is_better {
            best = Some(block);
        }
    }
    best
}

// Keys, many of them the same, and none for some blocks.
fn fill(keys: &mut KeyTree, count: u32, seed: u64)
    requires { length keys.old ≡ count }
    ensures { length keys.new ≡ count }
{
    for block in 0..count {
        // Any key will do, so the numbers may wrap.
        let drawn = (seed.wrapping_mul(u64::from(block).wrapping_add(seed)) >> 3) % 7;
        let key = match drawn {
            0 => None,
            1 => Some(Key::Dead),
            _ => Some(Key::Sum {
                sum: u128::from(drawn),
                h: drawn % 2,
            }),
        };
        keys.set(block, key);
    }
}

// For each set of blocks that pass the tree chooses as the plain choice does.
fn compare<R: Abort>(rt: &R, keys: &KeyTree, count: u32) {
    for mask in 0..1u32 << (count % 32) {
        let chosen = keys.first(&|block| passes(mask, block));
        assert!(rt; chosen == plain_choice(keys, count, mask));
    }
}

#[test]
fn the_tree_chooses_as_a_look_at_all(rt: HostRuntime) -> Result<(), Fail> {
    for count in 0..9u32 {
        let mut keys = KeyTree::new(rt.alloc(), count)?;
        for seed in 0..20u64 {
            fill(&mut keys, count, seed);
            compare(&rt, &keys, count);
        }
    }
    Ok(())
}
