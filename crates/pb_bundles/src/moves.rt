//! Bundles that leave home and come back.
ghost use Rattle.std.specs.Prelude.{◌≡◌, ◌≤◌, ◌<◌, ◌+◌, ◌++◌, [], ◌∷◌, Some, None, IsTrue, IsSome, if◌then◌else◌, length, slice_get, get_or, nat_eq, slice_set};
ghost use Rattle.std.specs.List.{IsDistinct};
ghost use Rattle.std.specs.Option.{option_or};
ghost use Rattle.std.specs.Map.{keys_of, lookup};
ghost use Rattle.indexmap.specs.IndexMap.{spare};
ghost use Rattle.pb_lists.specs.Bundle.{Content};
ghost use Rattle.pb_bundles.specs.Parts.{content_in};
ghost use Rattle.pb_bundles.specs.Homes.{content_at, key_at};
ghost use Rattle.pb_bundles.specs.Moves.{is_among, vacated, moved, put_back, IsVacant, NotesKeys, NotesKey};

use crate::homes::Homes;
use crate::parts::{BundleRoom, LentBundles};
use crate::tree::KeyTree;
use indexmap::IndexMap;
use pb_lists::Bundle;

impl Homes {
    /// Moves the bundles of these blocks out, each of which is at home. The noted keys stay. It
    /// takes no memory.
    pub fn take_out(&mut self, scope: &[u32], room: BundleRoom) -> LentBundles
        requires home { (block : _) → IsTrue (is_among scope.now block)
            → IsSome (content_at self.old block) }
        requires distinct { IsDistinct nat_eq scope.now }
        requires room { length scope.now ≤ room }
        ensures left { self.new ≡ record {
          bundles = vacated scope.now self.old.bundles;
          keys = self.old.keys;
        } }
        ensures moved { result.parts ≡ moved scope.now self.old.bundles }
        ensures fits { room ≤ result.fits }
        ensures out { (block : _) → content_at self.new block
            ≡ (if is_among scope.now block then None else content_at self.old block) }
        ensures taken { (block : _) → content_in result.parts block
            ≡ (if is_among scope.now block then content_at self.old block else None) }
        ensures order { keys_of result.parts ≡ scope.now }
    {
        let mut bundles = room.bundles;
        move_out(&mut self.bundles, scope, &mut bundles);
        LentBundles { bundles }
    }

    /// Moves bundles home, each to its own place, which is empty. Their blocks' keys are noted
    /// anew. The answer is the room that they leave empty: as many bundles fit as fitted in the
    /// list. It takes no memory.
    pub fn bring_back(&mut self, parts: LentBundles) -> BundleRoom
        requires { (block : _) → IsSome (content_in parts.parts block)
            → IsVacant self.old.bundles block }
        ensures back { self.new.bundles ≡ put_back parts.parts self.old.bundles }
        ensures noted { NotesKeys parts.parts self.old.keys self.new.keys }
        ensures home { (block : _) → content_at self.new block
            ≡ option_or (content_in parts.parts block) (content_at self.old block) }
        ensures room { parts.fits ≤ result }
    {
        let mut bundles = parts.bundles;
        note_keys(&mut self.keys, &bundles);
        move_home(&mut self.bundles, &mut bundles);
        BundleRoom { bundles }
    }

    /// Notes the keys of blocks whose bundles are away, and stay so. It takes no memory.
    pub fn note(&mut self, parts: &LentBundles)
        requires { (block : _) → IsSome (content_in parts.now.parts block)
            → IsVacant self.old.bundles block }
        ensures noted { NotesKeys parts.now.parts self.old.keys self.new.keys }
        ensures bundles { self.new.bundles ≡ self.old.bundles }
    {
        note_keys(&mut self.keys, &parts.bundles);
    }
}

// Moves the bundles of these blocks to the others.
fn move_out(bundles: &mut Vec<Option<Bundle>>, scope: &[u32], parts: &mut IndexMap<u32, Bundle>)
    requires home { (block : _) → IsTrue (is_among scope.now block)
        → IsSome (get_or bundles.old.items block None) }
    requires distinct { IsDistinct nat_eq scope.now }
    requires empty { parts.old.entries ≡ [] }
    requires room { length scope.now ≤ spare parts.old }
    ensures left { bundles.new.items ≡ vacated scope.now bundles.old.items }
    ensures moved { parts.new.entries ≡ moved scope.now bundles.old.items }
    ensures room { spare parts.old ≤ length parts.new.entries + spare parts.new }
{
    for block in scope {
        move_one(bundles, *block, parts);
    }
}

// Moves the bundle of one block after the others.
fn move_one(bundles: &mut Vec<Option<Bundle>>, block: u32, parts: &mut IndexMap<u32, Bundle>)
    requires home { IsSome (get_or bundles.old.items block None) }
    requires absent { lookup (nat_eq block) parts.old.entries ≡ None }
    requires room { 0 < spare parts.old }
    ensures left { bundles.new.items ≡ slice_set bundles.old.items block None }
    ensures moved { (content : Content) → get_or bundles.old.items block None ≡ Some content
        → parts.new.entries ≡ parts.old.entries ++ (block, content) ∷ [] }
    ensures room { spare parts.old ≤ spare parts.new + 1 }
{
    match bundles[block as usize].take() {
        Some(bundle) => match parts.insert(block, bundle) {
            Ok(_) => {}
            // By the clause `room` there is a place, so this takes no memory.
            Err(_) => unreachable!(),
        },
        None => unreachable!(),
    }
}

// Moves each bundle to its place. As many bundles fit afterwards as fitted in the list.
fn move_home(bundles: &mut Vec<Option<Bundle>>, parts: &mut IndexMap<u32, Bundle>)
    requires { (block : _) → IsSome (content_in parts.old.entries block)
        → block < length bundles.old.items }
    ensures back { bundles.new.items ≡ put_back parts.old.entries bundles.old.items }
    ensures empty { parts.new.entries ≡ [] }
    ensures room { length parts.old.entries + spare parts.old ≤ spare parts.new }
{
    // A drained map keeps its room, which a `pop` of each entry would not.
    let mut rest = parts.drain(..);
    // Taken from the end, so that no entry has to move. Each goes to a place of its own.
    while let Some((block, bundle)) = rest.next_back() {
        put_home(bundles, block, bundle);
    }
}

// Moves one bundle to its place.
fn put_home(bundles: &mut Vec<Option<Bundle>>, block: u32, bundle: Bundle)
    requires { block < length bundles.old.items }
    ensures { bundles.new.items ≡ slice_set bundles.old.items block (Some bundle) }
{
    bundles[block as usize] = Some(bundle);
}

// Notes the key of each bundle.
fn note_keys(keys: &mut KeyTree, parts: &IndexMap<u32, Bundle>)
    requires { (block : _) → IsSome (content_in parts.now.entries block) → block < length keys.old }
    ensures { NotesKeys parts.now.entries keys.old keys.new }
{
    for at in 0..parts.len() {
        note_one(keys, parts, at);
    }
}

// Notes the key of the bundle at this place.
fn note_one(keys: &mut KeyTree, parts: &IndexMap<u32, Bundle>, at: usize)
    requires within { at < length parts.now.entries }
    requires place { (block : _) (content : Content) → slice_get parts.now.entries at
        ≡ Some (block, content) → block < length keys.old }
    ensures { (block : _) (content : Content) → slice_get parts.now.entries at
        ≡ Some (block, content) → NotesKey content keys.old keys.new block }
{
    match parts.get_index(at) {
        Some((block, bundle)) => keys.set(*block, bundle.best()),
        None => unreachable!(),
    }
}
