//! The choice among blocks by their keys.
ghost use Rattle.std.specs.Prelude.{◌≡◌, ◌≤◌, ◌<◌, ◌↔◌, ℕ, Bool, Some, None, IsTrue, IsSome, length};
ghost use Rattle.pb_machine.specs.Choice.{ComesBefore};
ghost use Rattle.pb_bundles.specs.Homes.{key_at};
ghost use Rattle.pb_bundles.specs.Moves.{is_among};
ghost use Rattle.pb_bundles.specs.Choosing.{IsBetterBy, IsFirstBy, IsRivalBy, IsBetterOf};

use crate::homes::Homes;
use pb_model::Key;
use std::cmp::Ordering;

impl Homes {
    /// Whether a row of some block is Opened, as far as the keys were noted.
    pub fn is_any_opened(&self) -> bool
        ensures { IsTrue result ↔ ((block : ℕ) × IsSome (key_at self.now block)) }
    {
        self.keys.is_any()
    }

    /// Whether the one block is better than the other: by the lesser key, for equal keys by the
    /// lesser number. A block without an Opened row comes last.
    pub fn is_better(&self, block: u32, other: u32) -> bool
        ensures { IsTrue result ↔ IsBetterBy (key_at self.now) block other }
    {
        comes_before(self.key(block), block, self.key(other), other)
    }

    /// The best of the blocks that pass and have an Opened row, as far as the keys were noted. None
    /// if and only if there is no such block.
    pub fn first_choice<F: Fn(u32) -> bool>(&self, pass: F) -> Option<u32>
        requires { (block : ℕ) → block < length self.now.bundles → F.pre pass block }
        ensures { (test : ℕ → Bool) → ((block : ℕ) (answer : Bool) → block < length self.now.bundles
            → F.post pass block answer → answer ≡ test block)
            → IsFirstBy test (key_at self.now) result }
    {
        self.keys.first(&pass)
    }

    /// The best of the blocks nearby that are better than the block. None if and only if no such
    /// block is better.
    pub fn rival(&self, block: u32, near: &[u32]) -> Option<u32>
        ensures { IsRivalBy (is_among near.now) (key_at self.now) block result }
    {
        let mut best = None;
        for other in near {
            if self.is_better(*other, block) {
                best = self.better_of(best, *other);
            }
        }
        best
    }

    // The better of a block, if there is one, and another.
    fn better_of(&self, best: Option<u32>, other: u32) -> Option<u32>
        ensures { IsBetterOf (key_at self.now) best other result }
    {
        match best {
            None => Some(other),
            Some(best) => {
                if self.is_better(other, best) {
                    Some(other)
                } else {
                    Some(best)
                }
            }
        }
    }
}

/// Whether the one comes before the other.
pub fn comes_before(key: Option<Key>, block: u32, other_key: Option<Key>, other: u32) -> bool
    ensures { IsTrue result ↔ ComesBefore key block other_key other }
{
    match (key, other_key) {
        (Some(key), Some(other_key)) => match key.cmp(&other_key) {
            Ordering::Less => true,
            Ordering::Equal => block < other,
            Ordering::Greater => false,
        },
        (Some(_), None) => true,
        (None, Some(_)) => false,
        (None, None) => block < other,
    }
}
