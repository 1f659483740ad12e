//! Lists of the numbers of blocks.
ghost use Rattle.std.specs.Prelude.{◌≡◌, ◌==◌, ◌||◌, ℕ, IfOk};
ghost use Rattle.std.specs.List.{list_any};
ghost use Rattle.std.specs.List.Sorted.{IsStrictlyIncreasing};
ghost use Rattle.pb_abstract.specs.Graph.{has};
ghost use Rattle.pb_abstract.specs.Borders.{is_number};

use std::alloc::{AllocError, Global};
use std::marker::Model;

/// Numbers of blocks, each below the next.
#[derive(Drop)]
pub struct BlockList {
    numbers: Vec<u32>,
}

impl Model for BlockList {
    ghost use Rattle.std.specs.Prelude.{List, ℕ};
    ghost use Rattle.std.specs.List.Sorted.{IsStrictlyIncreasing};

    ghost Value = { List ℕ };

    ghost view = { λ l. l.numbers.items };

    ghost invariant = { λ l. IsStrictlyIncreasing l.numbers.items };
}

impl BlockList {
    /// The list that has these numbers, each once. It takes no memory, and gives back what it
    /// doesn't need.
    pub fn of(numbers: Vec<u32>) -> BlockList
        ensures { (c : ℕ) → has result c ≡ has numbers.items c }
    {
        let mut numbers = numbers;
        numbers.sort_unstable();
        numbers.dedup();
        numbers.shrink_to_fit();
        BlockList { numbers }
    }

    /// The numbers.
    pub fn numbers(&self) -> &[u32]
        ensures numbers { result.now ≡ self.now }
        ensures ascending { IsStrictlyIncreasing result.now }
    {
        self.numbers.as_slice()
    }
}

/// The list that has a block and those that are found beyond it in the four directions.
pub fn scope_of(
    alloc: Global,
    block: u32,
    beyond: [Option<u32>; 4],
) -> Result<BlockList, AllocError>
    ensures { IfOk result (λ list. (c : ℕ) → has list c
        ≡ ((block == c) || list_any (λ other. is_number other c) beyond)) }
{
    let mut numbers = Vec::new(alloc);
    numbers.push(block)?;
    for other in beyond {
        if let Some(number) = other {
            numbers.push(number)?;
        }
    }
    Ok(BlockList::of(numbers))
}
