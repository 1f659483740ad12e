//! The bundles at home, and the keys that are noted.
ghost use Rattle.std.specs.Prelude.{◌≡◌, ◌≢◌, ◌≤◌, ◌<◌, Some, None, IsSome, IfOk, OnOk, OnErr, is_some, length, slice_set};
ghost use Rattle.pb_model.specs.Work.{offered_row};
ghost use Rattle.pb_model.specs.Key.{IsBest};
ghost use Rattle.pb_lists.specs.Bundle.{Content, row_of, SetsRow};
ghost use Rattle.pb_bundles.specs.Homes.{content_at, key_at, home_rows, empty_homes, with_start, AreNoted};
ghost use Rattle.pb_bundles.specs.Moves.{NotesKey};

use crate::tree::KeyTree;
use pb_lists::Bundle;
use pb_model::{Estimate, Key};
use pb_packed::Packed;
use std::alloc::{AllocError, Global};
use std::marker::Model;

/// The rows of a search at home, by block: for each block its bundle, as long as that is at home,
/// and the key of its first Opened row when last noted. Contracts see both by block.
#[derive(Drop)]
pub struct Homes {
    pub(crate) bundles: Vec<Option<Bundle>>,
    pub(crate) keys: KeyTree,
}

impl Model for Homes {
    ghost use Rattle.pb_bundles.specs.Homes.{HomeTable, AreHomes};

    ghost Value = { HomeTable };

    ghost view = { λ h. record { bundles = h.bundles.items; keys = h.keys } };

    ghost invariant = { λ h. AreHomes (record { bundles = h.bundles.items; keys = h.keys }) };
}

impl Homes {
    /// So many blocks, numbered from 0, each with a bundle without a row, for a search at the
    /// weight num / den. An error means out of memory.
    pub fn new(alloc: Global, count: u32, num: u64, den: u64) -> Result<Homes, AllocError>
        requires positive { 1 ≤ den }
        requires at_least_one { den ≤ num }
        requires small { num ≤ 1000 }
        ensures { IfOk result (λ homes. homes ≡ empty_homes count
            (record { num = num; den = den })) }
    {
        Ok(Homes {
            bundles: empty_bundles(alloc, count as usize, num, den)?,
            keys: KeyTree::new(alloc, count)?,
        })
    }

    /// How many blocks there are.
    pub fn count(&self) -> u32
        ensures count { result ≡ length self.now.bundles }
        ensures keys { result ≡ length self.now.keys }
        ensures noted { AreNoted self.now }
    {
        self.bundles.len() as u32
    }

    /// Whether the block's bundle is at home.
    pub fn is_home(&self, block: u32) -> bool
        ensures { result ≡ is_some (content_at self.now block) }
    {
        match self.bundles.get(block as usize) {
            Some(place) => place.is_some(),
            None => false,
        }
    }

    /// The key of the block's first Opened row when last noted, or None if no row was Opened.
    pub fn key(&self, block: u32) -> Option<Key>
        ensures { result ≡ key_at self.now block }
    {
        self.keys.get(block)
    }

    /// The bundle of a block that is at home.
    pub fn bundle(&self, block: u32) -> &Bundle
        requires { IsSome (content_at self.now block) }
        ensures { content_at self.now block ≡ Some result.now }
    {
        match &self.bundles[block as usize] {
            Some(bundle) => bundle,
            None => unreachable!(),
        }
    }

    /// Offers the start of a search its row at the block's bundle, which is at home: of g 0,
    /// without a parent. The block's key is noted. An error means out of memory, and all is as
    /// before.
    pub fn offer_start(
        &mut self,
        block: u32,
        start: Packed,
        estimate: Estimate,
    ) -> Result<(), AllocError>
        requires { IsSome (content_at self.old block) }
        ensures put { OnOk result ((content : Content) → content_at self.old block ≡ Some content
            → self.new.bundles ≡ slice_set self.old.bundles block
            (Some (with_start content start estimate))) }
        ensures noted { OnOk result ((content : Content) → content_at self.new block ≡ Some content
            → NotesKey content self.old.keys self.new.keys block) }
        ensures rows { OnOk result (SetsRow (home_rows self.old block) (home_rows self.new block)
            start (offered_row 0 estimate None 0 (home_rows self.old block start))) }
        ensures others { OnOk result ((other : _) → other ≢ block
            → content_at self.new other ≡ content_at self.old other) }
        ensures err { OnErr result (self.new ≡ self.old) }
    {
        // The offer may fail, and leaves all as before then: so the key is noted after it.
        let key = offer_in(&mut self.bundles[block as usize], start, estimate)?;
        self.keys.set(block, key);
        Ok(())
    }
}

// Offers the start's row to the bundle that is here, and reports the key of the first Opened row
// after that.
fn offer_in(
    place: &mut Option<Bundle>,
    start: Packed,
    estimate: Estimate,
) -> Result<Option<Key>, AllocError>
    requires { IsSome place.old }
    ensures put { OnOk result ((content : Content) → place.old ≡ Some content
        → place.new ≡ Some (with_start content start estimate)) }
    ensures sets { OnOk result ((old new : Content) → place.old ≡ Some old → place.new ≡ Some new
        → SetsRow (row_of old) (row_of new) start
        (offered_row 0 estimate None 0 (row_of old start))) }
    ensures best { IfOk result (λ key. (content : Content) → place.new ≡ Some content
        → IsBest content.weight (row_of content) key) }
    ensures err { OnErr result (place.new ≡ place.old) }
{
    match place {
        Some(bundle) => {
            bundle.offer(start, 0, estimate, None, 0)?;
            Ok(bundle.best())
        }
        None => unreachable!(),
    }
}

// So many bundles without a row.
fn empty_bundles(
    alloc: Global,
    count: usize,
    num: u64,
    den: u64,
) -> Result<Vec<Option<Bundle>>, AllocError>
    requires positive { 1 ≤ den }
    requires at_least_one { den ≤ num }
    requires small { num ≤ 1000 }
    ensures { IfOk result (λ bundles. bundles.items
        ≡ (empty_homes count (record { num = num; den = den })).bundles) }
{
    let mut bundles = Vec::with_capacity(alloc, count)?;
    for _ in 0..count {
        bundles.push(Some(Bundle::new(alloc, num, den)?))?;
    }
    Ok(bundles)
}
