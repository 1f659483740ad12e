//! The keys that are noted, by block, and the tree of winners over them.
ghost use Rattle.std.specs.Prelude.{◌≡◌, ◌≢◌, ◌↔◌, ◌+◌, ◌*◌, ◌/◌, ◌<◌, ◌≤◌, ◌^◌, ℕ, Bool, Some, None, IsSome, IsTrue, IsFalse, IfOk, length, get_or, slice_set, replicate};
ghost use Rattle.pb_bundles.specs.Tree.{leaf, node, IsAhead, IsWonBy, IsWon, IsKeyTree, IsBestBelow};
ghost use Rattle.pb_bundles.specs.Choosing.{IsFirstBy};

use crate::choice::comes_before;
use crate::winner::Winner;
use pb_model::Key;
use std::alloc::{AllocError, Global};
use std::marker::Model;

/// The keys that are noted, by block. Beside them is a tree of winners, which finds the best block
/// without a look at all of them. Contracts see the keys.
#[derive(Drop)]
pub struct KeyTree {
    keys: Vec<Option<Key>>,
    winners: Vec<Winner>,
}

impl Model for KeyTree {
    ghost use Rattle.std.specs.Prelude.{List, Option};
    ghost use Rattle.pb_model.specs.declared.key.Key.{Key};
    ghost use Rattle.pb_bundles.specs.Tree.{IsKeyTree};

    ghost Value = { List (Option Key) };

    ghost view = { λ t. t.keys.items };

    ghost invariant = { λ t. IsKeyTree t.keys.items t.winners.items };
}

impl KeyTree {
    /// So many blocks, for which no key is noted. An error means out of memory.
    pub fn new(alloc: Global, count: u32) -> Result<KeyTree, AllocError>
        ensures { IfOk result (λ keys. keys ≡ replicate count None) }
    {
        let keys = Vec::from_elem(alloc, None, count as usize)?;
        let nobody = Winner {
            key: None,
            block: 0,
        };
        let mut winners = Vec::from_elem(alloc, nobody, count as usize)?;
        build(&keys, &mut winners);
        Ok(KeyTree { keys, winners })
    }

    /// The key that was noted last for the block, or None if it has none.
    pub fn get(&self, block: u32) -> Option<Key>
        ensures { result ≡ get_or self.now block None }
    {
        match self.keys.get(block as usize) {
            Some(key) => *key,
            None => None,
        }
    }

    /// Whether a key is noted for some block.
    pub fn is_any(&self) -> bool
        ensures { IsTrue result ↔ ((block : ℕ) × IsSome (get_or self.now block None)) }
    {
        if self.keys.is_empty() {
            return false;
        }
        node_of(&self.keys, &self.winners, 1).key.is_some()
    }

    /// Notes the block's key, and plays anew the games on its way up.
    pub fn set(&mut self, block: u32, key: Option<Key>)
        requires { block < length self.old }
        ensures { self.new ≡ slice_set self.old block key }
    {
        self.keys[block as usize] = key;
        climb(&self.keys, &mut self.winners, block);
    }

    /// The best of the blocks that pass and have an Opened row. None if and only if there is no such
    /// block. No block is tested that is worse than another block that was met and passes.
    pub fn first<F: Fn(u32) -> bool>(&self, pass: &F) -> Option<u32>
        requires { (block : ℕ) → block < length self.now → F.pre pass.now block }
        ensures { (test : ℕ → Bool) → ((block : ℕ) (answer : Bool) → block < length self.now
            → F.post pass.now block answer → answer ≡ test block)
            → IsFirstBy test (λ block. get_or self.now block None) result }
    {
        if self.keys.is_empty() {
            return None;
        }
        match best_below(&self.keys, &self.winners, 1, None, pass) {
            Some(winner) => Some(winner.block),
            None => None,
        }
    }
}

// The best of the blocks below the node that pass and have an Opened row, and of the best one so
// far.
fn best_below<F: Fn(u32) -> bool>(
    keys: &[Option<Key>],
    winners: &[Winner],
    at: usize,
    best: Option<Winner>,
    pass: &F,
) -> Option<Winner>
    requires tree { IsKeyTree keys.now winners.now }
    requires node { (1 ≤ at) × (at < 2 * length keys.now) }
    requires best { (other : _) → best ≡ Some other → other ≡ leaf keys.now other.block }
    requires pass { (block : ℕ) → block < length keys.now → F.pre pass.now block }
    ensures leaf { (other : _) → result ≡ Some other → other ≡ leaf keys.now other.block }
    ensures best { (test : ℕ → Bool) → ((block : ℕ) (answer : Bool) → block < length keys.now
        → F.post pass.now block answer → answer ≡ test block)
        → IsBestBelow test keys.now at best result }
{
    let winner = node_of(keys, winners, at);
    if !improves(best, winner) {
        return best;
    }
    if pass(winner.block) {
        return Some(winner);
    }
    if at >= keys.len() {
        return best;
    }
    let left = best_below(keys, winners, 2 * at, best, pass);
    best_below(keys, winners, 2 * at + 1, left, pass)
}

// Whether the block has an Opened row and is better than the best one so far, if there is one.
fn improves(best: Option<Winner>, winner: Winner) -> bool
    ensures better { IsTrue result → IsSome winner.key
        × ((other : _) → best ≡ Some other → IsAhead winner other) }
    ensures worse { IsFalse result → IsSome winner.key → (other : _) × (best ≡ Some other)
        × (IsAhead winner other → ⊥) }
{
    if winner.key.is_none() {
        return false;
    }
    match best {
        None => true,
        Some(best) => comes_before(winner.key, winner.block, best.key, best.block),
    }
}

// What the node has.
fn node_of(keys: &[Option<Key>], winners: &[Winner], at: usize) -> Winner
    requires node { at < 2 * length keys.now }
    requires places { length winners.now ≡ length keys.now }
    requires few { length keys.now < 2 ^ 32 }
    ensures { result ≡ node keys.now winners.now at }
{
    // The root is node 1, and below a node are its double and the next. From `count` on they are
    // the blocks.
    let count = keys.len();
    if at < count {
        return winners[at];
    }
    let block = at - count;
    Winner {
        key: keys[block],
        block: block as u32,
    }
}

// The better of the two that are below the node.
fn winner_at(keys: &[Option<Key>], winners: &[Winner], at: usize) -> Winner
    requires node { at < length keys.now }
    requires places { length winners.now ≡ length keys.now }
    requires few { length keys.now < 2 ^ 32 }
    ensures { IsWonBy (node keys.now winners.now (2 * at)) (node keys.now winners.now (2 * at + 1))
        result }
{
    let left = node_of(keys, winners, 2 * at);
    let right = node_of(keys, winners, 2 * at + 1);
    if comes_before(right.key, right.block, left.key, left.block) {
        right
    } else {
        left
    }
}

// Plays all games, from the last node up.
fn build(keys: &[Option<Key>], winners: &mut Vec<Winner>)
    requires places { length winners.old.items ≡ length keys.now }
    requires few { length keys.now < 2 ^ 32 }
    ensures { IsKeyTree keys.now winners.new.items }
{
    let mut at = keys.len();
    while at > 1 {
        at -= 1;
        winners[at] = winner_at(keys, winners, at);
    }
}

// Plays anew the games on the way up from the block. No other game is out of date.
fn climb(keys: &[Option<Key>], winners: &mut Vec<Winner>, block: u32)
    requires block { block < length keys.now }
    requires places { length winners.old.items ≡ length keys.now }
    requires few { length keys.now < 2 ^ 32 }
    requires others { (at : ℕ) → 1 ≤ at → at < length keys.now → at ≢ (length keys.now + block) / 2
        → IsWon keys.now winners.old.items at }
    ensures { IsKeyTree keys.now winners.new.items }
{
    let mut at = (keys.len() + block as usize) / 2;
    while at > 0 {
        winners[at] = winner_at(keys, winners, at);
        at /= 2;
    }
}
