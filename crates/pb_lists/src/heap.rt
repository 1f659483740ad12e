//! Entries of states of several words, the least on top.
ghost use Rattle.std.specs.Prelude.{◌≡◌, ◌⊎◌, ◌||◌, ◌≤◌, ◌<◌, [], true, Some, IsSome, IfSome, IfNone, OnOk, OnErr};
ghost use Rattle.std.specs.BinaryHeap.{heap_items, IsHeap};
ghost use Rattle.pb_lists.specs.Heaped.{Entry, later, is_same, is_among, first_of, IsNoLater, IsTop};

use pb_packed::{Packed, Words};
use std::alloc::{AllocError, Global};
use std::cmp::Reverse;
use std::collections::BinaryHeap;
use std::marker::Model;

// Entries, each an estimate, a state of `W` words and the place of its row. The least, by the
// estimate and then by the state, is on top. An estimate and a place have 64 bits each, so there is
// a place here for each entry whose state fits.
#[derive(Drop)]
pub(crate) struct Heap<const W: usize> {
    items: BinaryHeap<Reverse<(u64, Words<W>, u64)>>,
}

impl<const W: usize> Model for Heap<W> {
    ghost use Rattle.std.specs.Prelude.{◌≤◌};
    ghost use Rattle.std.specs.BinaryHeap.{heap_items, heap_len, IsHeap};
    ghost use Rattle.pb_lists.specs.Heaped.{Heaped, later};

    ghost Value = { Heaped };

    ghost view = { λ h. record { items = heap_items h.items; len = heap_len h.items } };

    ghost invariant = { λ h. IsHeap later (heap_items h.items) × (1 ≤ W) × (W ≤ 16) };
}

impl<const W: usize> Heap<W> {
    // No entry. It takes no memory.
    pub(crate) fn new(alloc: Global) -> Heap<W>
        requires some { 1 ≤ W }
        requires most { W ≤ 16 }
        ensures { result.items ≡ [] }
    {
        Heap {
            items: BinaryHeap::new(alloc),
        }
    }

    // Puts an entry in.
    #[inline]
    pub(crate) fn push(&mut self, h: u64, words: Words<W>, place: u64) -> Result<(), AllocError>
        ensures added { OnOk result ((other : Entry) → is_among other self.new.items
            ≡ (is_same other (h, words.entry, place)
            || is_among other self.old.items)) }
        ensures err { OnErr result (self.new.items ≡ self.old.items) }
    {
        self.items.push(Reverse((h, words, place)))?;
        Ok(())
    }

    // The first entry, with the words of its state.
    #[inline]
    pub(crate) fn first(&self) -> Option<(u64, Words<W>, u64)>
        ensures first { result ≡ first_of self.now.items }
        ensures top { IsTop (λ entry. is_among entry self.now.items) (first_of self.now.items) }
    {
        peeked(&self.items)
    }

    // The first entry.
    #[inline]
    pub(crate) fn top(&self) -> Option<(u64, Packed, u64)>
        ensures first { result ≡ first_of self.now.items }
        ensures top { IsTop (λ entry. is_among entry self.now.items) (first_of self.now.items) }
    {
        // For the invariant: `W` is 1 to 16, as `from_words` needs.
        let _ = &self.items;
        match self.first() {
            Some(entry) => Some((entry.0, Packed::from_words(&entry.1), entry.2)),
            None => None,
        }
    }

    // Takes the first entry out.
    #[inline]
    pub(crate) fn pop(&mut self)
        ensures left { (other : Entry) → is_among other self.old.items ≡ true
            → (first_of self.old.items ≡ Some other) ⊎ (is_among other self.new.items ≡ true) }
        ensures had { (other : Entry) → is_among other self.new.items ≡ true
            → is_among other self.old.items ≡ true }
        ensures fewer { IsSome (first_of self.old.items) → self.new.len < self.old.len }
    {
        let _ = self.items.pop();
    }
}

// The entry on top of a heap.
#[inline]
fn peeked<const W: usize>(
    items: &BinaryHeap<Reverse<(u64, Words<W>, u64)>>,
) -> Option<(u64, Words<W>, u64)>
    ensures first { result ≡ first_of (heap_items items.now) }
    ensures least { IsHeap later (heap_items items.now) → IfSome result (λ entry. (other : Entry)
        → is_among other (heap_items items.now) ≡ true → IsNoLater entry other) }
    ensures none { IfNone result (heap_items items.now ≡ []) }
{
    match items.peek() {
        Some(item) => Some(item.0),
        None => None,
    }
}
