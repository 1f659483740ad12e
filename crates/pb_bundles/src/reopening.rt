//! Bundles that are opened again with another weight.
ghost use Rattle.std.specs.Prelude.{◌≡◌, ◌≢◌, ◌≤◌, ◌<◌, ℕ, Some, None, IfOk, IsSome, length, get_or};
ghost use Rattle.pb_model.specs.Key.{IsBest};
ghost use Rattle.pb_model.specs.Weight.{Weight};
ghost use Rattle.pb_model.specs.Work.{reopened_row};
ghost use Rattle.pb_lists.specs.Bundle.{Content, row_of};
ghost use Rattle.pb_lists.specs.Reopened.{weight_in, bound_in};
ghost use Rattle.pb_bundles.specs.Homes.{content_at, home_rows};
ghost use Rattle.pb_bundles.specs.Reopened.{AreAllHome, IsReady, AreReady, ArePrepared, adopted, reopened_if};

use crate::homes::Homes;
use crate::tree::KeyTree;
use pb_lists::{Bundle, OpenedSet};
use std::alloc::{AllocError, Global};

impl Homes {
    /// What each bundle needs to go on at the weight num / den, by block, where `bound` is the
    /// incumbent of the search. An error means out of memory.
    pub fn prepare(
        &self,
        alloc: Global,
        num: u64,
        den: u64,
        bound: u64,
    ) -> Result<Vec<OpenedSet>, AllocError>
        requires home { AreAllHome self.now }
        requires positive { 1 ≤ den }
        requires at_least_one { den ≤ num }
        requires small { num ≤ 1000 }
        ensures { IfOk result (λ sets. ArePrepared (record { num = num; den = den }) bound self.now
            sets.items) }
    {
        prepare_all(alloc, &self.bundles, num, den, bound)
    }

    /// Goes on at the weight that the sets were prepared for. In each bundle exactly the Cut rows
    /// that may not be cut at this weight, and under the sets' incumbent, are Opened again. The
    /// blocks' keys are noted anew. It takes no memory.
    pub fn adopt(&mut self, sets: Vec<OpenedSet>)
        requires { (weight : Weight) × (bound : ℕ) × ArePrepared weight bound self.old sets.items }
        ensures reopened { (weight : Weight) (bound : ℕ)
            → ArePrepared weight bound self.old sets.items → (block : ℕ)
            → content_at self.new block ≡ reopened_if weight bound (content_at self.old block) }
        ensures rows { (weight : Weight) (bound : ℕ)
            → ArePrepared weight bound self.old sets.items → (home state : ℕ)
            → home_rows self.new home state
            ≡ reopened_row weight (Some bound) (home_rows self.old home state) }
        ensures count { length self.new.bundles ≡ length self.old.bundles }
        ensures keys { length self.new.keys ≡ length self.old.keys }
    {
        adopt_all(&mut self.bundles, sets);
        note_all(&mut self.keys, &self.bundles);
    }
}

// What each bundle needs, in their order.
fn prepare_all(
    alloc: Global,
    bundles: &[Option<Bundle>],
    num: u64,
    den: u64,
    bound: u64,
) -> Result<Vec<OpenedSet>, AllocError>
    requires home { (block : ℕ) → block < length bundles.now
        → IsSome (get_or bundles.now block None) }
    requires positive { 1 ≤ den }
    requires at_least_one { den ≤ num }
    requires small { num ≤ 1000 }
    ensures ready { IfOk result (λ sets. AreReady (record { num = num; den = den }) bound bundles.now
        sets.items) }
    ensures count { IfOk result (λ sets. length sets.items ≡ length bundles.now) }
{
    let mut sets = Vec::with_capacity(alloc, bundles.len())?;
    for block in 0..bundles.len() {
        sets.push(prepare_one(&bundles[block], num, den, bound)?)?;
    }
    Ok(sets)
}

// What one bundle needs.
fn prepare_one(
    place: &Option<Bundle>,
    num: u64,
    den: u64,
    bound: u64,
) -> Result<OpenedSet, AllocError>
    requires home { IsSome place.now }
    requires positive { 1 ≤ den }
    requires at_least_one { den ≤ num }
    requires small { num ≤ 1000 }
    ensures { IfOk result (λ set. IsReady (record { num = num; den = den }) bound place.now set) }
{
    match place {
        Some(bundle) => bundle.prepare(num, den, bound),
        None => unreachable!(),
    }
}

// Lets each bundle adopt its set.
fn adopt_all(bundles: &mut Vec<Option<Bundle>>, sets: Vec<OpenedSet>)
    requires { (weight : Weight) × (bound : ℕ)
        × AreReady weight bound bundles.old.items sets.items }
    ensures { bundles.new.items ≡ adopted bundles.old.items sets.items }
{
    let mut rest = sets;
    // The label names the loop in its proof.
    'sets: while let Some(set) = rest.pop() {
        // The sets are in the blocks' order, so the last one is that of this block.
        let block = rest.len();
        adopt_one(&mut bundles[block], set);
    }
}

// Lets one bundle adopt its set.
fn adopt_one(place: &mut Option<Bundle>, set: OpenedSet)
    requires { (weight : Weight) × (bound : ℕ) × IsReady weight bound place.old set }
    ensures { place.new ≡ reopened_if (weight_in set) (bound_in set) place.old }
{
    match place {
        Some(bundle) => bundle.adopt(set),
        None => unreachable!(),
    }
}

// Notes the key of each bundle.
fn note_all(keys: &mut KeyTree, bundles: &[Option<Bundle>])
    requires count { length keys.old ≡ length bundles.now }
    requires few { length keys.old < 4294967296 }
    ensures noted { (block : ℕ) (content : Content) → get_or bundles.now block None ≡ Some content
        → IsBest content.weight (row_of content) (get_or keys.new block None) }
    ensures count { length keys.new ≡ length keys.old }
{
    for block in 0..bundles.len() {
        note_one(keys, bundles, block);
    }
}

// Notes the key of one bundle.
fn note_one(keys: &mut KeyTree, bundles: &[Option<Bundle>], block: usize)
    requires count { length keys.old ≡ length bundles.now }
    requires few { length keys.old < 4294967296 }
    requires block { block < length bundles.now }
    ensures noted { (content : Content) → get_or bundles.now block None ≡ Some content
        → IsBest content.weight (row_of content) (get_or keys.new block None) }
    ensures others { (other : ℕ) → other ≢ block
        → get_or keys.new other None ≡ get_or keys.old other None }
    ensures count { length keys.new ≡ length keys.old }
{
    match &bundles[block] {
        Some(bundle) => keys.set(block as u32, bundle.best()),
        None => {}
    }
}
