//! Entries of states of one word, the least on top.
ghost use Rattle.std.specs.Prelude.{◌≡◌, ◌⊎◌, ◌||◌, ◌<◌, [], true, Some, IsSome, IfSome, IfNone, OnOk, OnErr};
ghost use Rattle.std.specs.BinaryHeap.{heap_items, IsHeap};
ghost use Rattle.pb_lists.specs.Heaped.{Entry, later, is_same, is_among, first_of, IsNoLater, IsTop};

use crate::word_entry::WordEntry;
use pb_packed::Packed;
use std::alloc::{AllocError, Global};
use std::cmp::Reverse;
use std::collections::BinaryHeap;
use std::marker::Model;

// Entries of states of one word. The least, by the estimate and then by the state, is on top.
#[derive(Drop)]
pub(crate) struct WordEntries {
    items: BinaryHeap<Reverse<WordEntry>>,
}

impl Model for WordEntries {
    ghost use Rattle.std.specs.BinaryHeap.{heap_items, heap_len, IsHeap};
    ghost use Rattle.pb_lists.specs.Heaped.{Heaped, later};

    ghost Value = { Heaped };

    ghost view = { λ h. record { items = heap_items h.items; len = heap_len h.items } };

    ghost invariant = { λ h. IsHeap later (heap_items h.items) };
}

impl WordEntries {
    // No entry. It takes no memory.
    pub(crate) fn new(alloc: Global) -> WordEntries
        ensures { result.items ≡ [] }
    {
        WordEntries {
            items: BinaryHeap::new(alloc),
        }
    }

    // Puts an entry in.
    #[inline]
    pub(crate) fn push(&mut self, entry: WordEntry) -> Result<(), AllocError>
        ensures added { OnOk result ((other : Entry) → is_among other self.new.items
            ≡ (is_same other entry || is_among other self.old.items)) }
        ensures err { OnErr result (self.new.items ≡ self.old.items) }
    {
        self.items.push(Reverse(entry))?;
        Ok(())
    }

    // The first entry.
    #[inline]
    pub(crate) fn first(&self) -> Option<WordEntry>
        ensures first { result ≡ first_of self.now.items }
        ensures top { IsTop (λ entry. is_among entry self.now.items) (first_of self.now.items) }
    {
        peeked(&self.items)
    }

    // The first entry, with its state.
    #[inline]
    pub(crate) fn top(&self) -> Option<(u64, Packed, u64)>
        ensures first { result ≡ first_of self.now.items }
        ensures top { IsTop (λ entry. is_among entry self.now.items) (first_of self.now.items) }
    {
        match self.first() {
            Some(entry) => Some((
                entry.estimate(),
                Packed::of_word(entry.word()),
                entry.place(),
            )),
            None => None,
        }
    }

    // Takes the first entry out.
    #[inline]
    pub(crate) fn pop(&mut self)
        ensures left { (other : Entry) → is_among other self.old.items ≡ true
            → (first_of self.old.items ≡ Some other) ⊎ (is_among other self.new.items ≡ true) }
        ensures had { (other : Entry) → is_among other self.new.items ≡ true
            → is_among other self.old.items ≡ true }
        ensures fewer { IsSome (first_of self.old.items) → self.new.len < self.old.len }
    {
        let _ = self.items.pop();
    }
}

// The entry on top of a heap.
#[inline]
fn peeked(items: &BinaryHeap<Reverse<WordEntry>>) -> Option<WordEntry>
    ensures first { result ≡ first_of (heap_items items.now) }
    ensures least { IsHeap later (heap_items items.now) → IfSome result (λ entry. (other : Entry)
        → is_among other (heap_items items.now) ≡ true → IsNoLater entry other) }
    ensures none { IfNone result (heap_items items.now ≡ []) }
{
    match items.peek() {
        Some(item) => Some(item.0),
        None => None,
    }
}
