//! The entries of states of more than one word, and of rows whose estimate or place is great.
ghost use Rattle.std.specs.Prelude.{◌≡◌, ◌⊎◌, ◌||◌, ◌+◌, ◌≤◌, ◌<◌, ◌^◌, true, false, None, Some, IsSome, OnOk, OnErr, nat_eq, option_map};
ghost use Rattle.pb_lists.specs.Heaped.{Entry, entry_cmp, estimate_and_place, first_of, is_same, is_second_first, top_of_two, IsTop};
ghost use Rattle.pb_lists.specs.Buckets.{has_wide, place_if_of, top_of_wide};

use crate::heap::Heap;
use pb_packed::{Packed, Words};
use std::alloc::{AllocError, Global};
use std::cmp::Ordering;

// The entries at one sum whose states have up to four words, and those of five to sixteen. Entries
// of states of one word are here only if the estimate or the place has more than 32 bits.
#[derive(Drop)]
pub(crate) struct WideEntries {
    pub(crate) few: Heap<4>,
    pub(crate) many: Heap<16>,
}

impl WideEntries {
    // No entry. It takes no memory.
    pub(crate) fn new(alloc: Global) -> WideEntries
        ensures empty { (entry : Entry) → has_wide result entry ≡ false }
        ensures top { top_of_wide result ≡ None }
    {
        WideEntries {
            few: Heap::new(alloc),
            many: Heap::new(alloc),
        }
    }

    // Puts an entry in.
    pub(crate) fn push(&mut self, h: u64, state: &Packed, place: u64) -> Result<(), AllocError>
        ensures added { OnOk result ((other : Entry) → has_wide self.new other
            ≡ (is_same other (h, state.now, place) || has_wide self.old other)) }
        ensures err { OnErr result ((other : Entry)
            → has_wide self.new other ≡ has_wide self.old other) }
        ensures top { OnErr result (top_of_wide self.new ≡ top_of_wide self.old) }
    {
        match state.as_words::<4>() {
            Some(words) => self.few.push(h, words, place),
            None => self.many.push(h, state.words(), place),
        }
    }

    // The first entry.
    #[inline(never)]
    pub(crate) fn top(&self) -> Option<(u64, Packed, u64)>
        ensures first { result ≡ top_of_wide self.now }
        ensures top { IsTop (has_wide self.now) (top_of_wide self.now) }
    {
        self.show_top();
        match self.many.first() {
            Some(_) => first_of_two(self.few.top(), self.many.top()),
            None => self.few.top(),
        }
    }

    // The estimate and the place of the first entry. It makes no state unless both parts have
    // entries.
    #[inline(never)]
    pub(crate) fn first(&self) -> Option<(u64, u64)>
        ensures first { result ≡ option_map estimate_and_place (top_of_wide self.now) }
    {
        if let Some(_) = self.many.first() {
            return match self.top() {
                Some(top) => Some((top.0, top.2)),
                None => None,
            };
        }
        match self.few.first() {
            Some(first) => Some((first.0, first.2)),
            None => None,
        }
    }

    // The place of the first entry, if that is one of this state.
    #[inline(never)]
    pub(crate) fn place_if_first(&self, state: &Packed) -> Option<u64>
        ensures { result ≡ place_if_of (top_of_wide self.now) state.now }
    {
        if let Some(_) = self.many.first() {
            return match self.top() {
                Some(top) if top.1 == *state => Some(top.2),
                _ => None,
            };
        }
        match self.few.first() {
            Some(first) if are_words(state, &first.1) => Some(first.2),
            _ => None,
        }
    }

    // Which entry comes first, for this clause alone.
    #[inline]
    pub(crate) fn show_top(&self)
        ensures { IsTop (has_wide self.now) (top_of_wide self.now) }
    {
        let _ = self.few.first();
        let _ = self.many.first();
    }

    // Whether the first entry is one of the states of many words.
    fn is_many_first(&self) -> bool
        ensures { result ≡ is_second_first (first_of self.now.few.items)
            (first_of self.now.many.items) }
    {
        match self.many.first() {
            Some(_) => is_second_first(&self.few.top(), &self.many.top()),
            None => false,
        }
    }

    // Takes the first entry out.
    #[inline(never)]
    pub(crate) fn pop(&mut self)
        ensures left { (other : Entry) → has_wide self.old other ≡ true
            → (top_of_wide self.old ≡ Some other) ⊎ (has_wide self.new other ≡ true) }
        ensures had { (other : Entry) → has_wide self.new other ≡ true
            → has_wide self.old other ≡ true }
        ensures fewer { IsSome (top_of_wide self.old)
            → self.new.few.len + self.new.many.len < self.old.few.len + self.old.many.len }
    {
        if self.is_many_first() {
            self.many.pop();
        } else {
            self.few.pop();
        }
    }
}

// Whether the state is these words.
#[inline]
fn are_words(state: &Packed, words: &Words<4>) -> bool
    ensures { result ≡ nat_eq words.now state.now }
{
    match state.as_words::<4>() {
        Some(own) => *words == own,
        // It isn't: four words are less. But no clause here says so.
        None => *state == Packed::from_words(words),
    }
}

// Whether the first entry of the second part comes before that of the first: by the estimate, and
// for equal estimates by the state.
pub(crate) fn is_second_first(
    first: &Option<(u64, Packed, u64)>,
    second: &Option<(u64, Packed, u64)>,
) -> bool
    ensures { result ≡ is_second_first first.now second.now }
{
    match second {
        Some(entry) => match first {
            Some(other) => match entry.cmp(other) {
                Ordering::Less => true,
                _ => false,
            },
            None => true,
        },
        None => false,
    }
}

// The first entry of two parts.
pub(crate) fn first_of_two(
    first: Option<(u64, Packed, u64)>,
    second: Option<(u64, Packed, u64)>,
) -> Option<(u64, Packed, u64)>
    ensures { result ≡ top_of_two first second }
{
    if is_second_first(&first, &second) {
        second
    } else {
        first
    }
}
