//! The states of the Opened rows at one sum, each with its estimate and its row's place.
ghost use Rattle.std.specs.Prelude.{◌≡◌, ◌⊎◌, ◌||◌, ◌<◌, true, false, Some, None, IsSome, IfSome, OnOk, OnErr, nat_eq};
ghost use Rattle.std.specs.Global.{Box};
ghost use Rattle.std.specs.Option.{option_map};
ghost use Rattle.pb_lists.specs.Heaped.{Entry, estimate_and_place, is_same, IsTop};
ghost use Rattle.pb_lists.specs.Buckets.{has_boxed, top_of_boxed, has_entry, count_of, top_of, place_if_of};

use crate::wide_entries::{WideEntries, first_of_two, is_second_first};
use crate::word_entries::WordEntries;
use crate::word_entry::WordEntry;
use pb_packed::Packed;
use std::alloc::{AllocError, Global};

// The entries at one sum, each an estimate, a state and the place of its row. The least entry, by
// the estimate and then by the state, comes first. The states of most tasks have one word, and such
// a bucket has no wide part.
#[derive(Drop)]
pub(crate) struct Bucket {
    pub(crate) words: WordEntries,
    pub(crate) wide: Option<Box<WideEntries>>,
}

impl Bucket {
    // A bucket without an entry. It takes no memory.
    pub(crate) fn new(alloc: Global) -> Bucket
        ensures empty { (entry : Entry) → has_entry result entry ≡ false }
        ensures top { top_of result ≡ None }
    {
        Bucket {
            words: WordEntries::new(alloc),
            wide: None,
        }
    }

    // Puts an entry into the bucket. The top is then the entry, or the same as before: the calls of
    // `show_top` are for their clauses alone.
    pub(crate) fn push(
        &mut self,
        alloc: Global,
        h: u64,
        state: &Packed,
        place: u64,
    ) -> Result<(), AllocError>
        ensures member { OnOk result (has_entry self.new (h, state.now, place) ≡ true) }
        ensures kept { (other : Entry) → has_entry self.old other ≡ true
            → has_entry self.new other ≡ true }
        ensures had { OnOk result ((other : Entry) → has_entry self.new other ≡ true
            → (other ≡ (h, state.now, place)) ⊎ (has_entry self.old other ≡ true)) }
        ensures top { OnOk result ((top_of self.new ≡ top_of self.old)
            ⊎ (top_of self.new ≡ Some (h, state.now, place))) }
        ensures first { OnOk result (IsTop (has_entry self.new) (top_of self.new)) }
        ensures err { OnErr result (top_of self.new ≡ top_of self.old) }
        ensures same { OnErr result ((other : Entry)
            → has_entry self.new other ≡ has_entry self.old other) }
    {
        self.show_top();
        self.add(alloc, h, state, place)?;
        self.show_top();
        Ok(())
    }

    #[inline]
    fn add(&mut self, alloc: Global, h: u64, state: &Packed, place: u64) -> Result<(), AllocError>
        ensures added { OnOk result ((other : Entry) → has_entry self.new other
            ≡ (is_same other (h, state.now, place) || has_entry self.old other)) }
        ensures err { OnErr result ((other : Entry)
            → has_entry self.new other ≡ has_entry self.old other) }
        ensures top { OnErr result (top_of self.new ≡ top_of self.old) }
    {
        match WordEntry::of(h, state, place) {
            Some(entry) => self.words.push(entry),
            None => add_wide(alloc, &mut self.wide, h, state, place),
        }
    }

    // Which entry comes first, for this clause alone. It reads nothing but what is on top.
    #[inline]
    fn show_top(&self)
        ensures { IsTop (has_entry self.now) (top_of self.now) }
    {
        let _ = self.words.first();
        show_wide_top(&self.wide);
    }

    // The first entry: that of the least estimate, and of the least state among equal estimates.
    #[inline]
    pub(crate) fn top(&self) -> Option<(u64, Packed, u64)>
        ensures first { result ≡ top_of self.now }
        ensures top { IsTop (has_entry self.now) (top_of self.now) }
    {
        self.show_top();
        match &self.wide {
            Some(wide) => match self.words.first() {
                Some(_) => first_of_two(self.words.top(), wide.top()),
                None => wide.top(),
            },
            None => self.words.top(),
        }
    }

    // The first entry, as an estimate, a word and a place, if the bucket has no wide part.
    #[inline]
    pub(crate) fn first_word(&self) -> Option<(u64, u64, u64)>
        ensures first { IfSome result (λ entry. top_of self.now ≡ Some entry) }
        ensures top { IsTop (has_entry self.now) (top_of self.now) }
    {
        self.show_top();
        match &self.wide {
            Some(_) => None,
            None => match self.words.first() {
                Some(first) => Some((first.estimate(), first.word(), first.place())),
                None => None,
            },
        }
    }

    // The estimate and the place of the first entry. It makes no state unless entries of one word
    // and wide ones stand side by side.
    #[inline]
    pub(crate) fn first(&self) -> Option<(u64, u64)>
        ensures first { result ≡ option_map estimate_and_place (top_of self.now) }
        ensures top { IsTop (has_entry self.now) (top_of self.now) }
    {
        match &self.wide {
            Some(wide) => match self.words.first() {
                Some(_) => match self.top() {
                    Some(top) => Some((top.0, top.2)),
                    None => None,
                },
                None => {
                    self.show_top();
                    wide.first()
                }
            },
            None => match self.words.first() {
                Some(first) => Some((first.estimate(), first.place())),
                None => None,
            },
        }
    }

    // The place of the first entry, if that is one of this state.
    #[inline]
    pub(crate) fn place_if_first(&self, state: &Packed) -> Option<u64>
        ensures { result ≡ place_if_of (top_of self.now) state.now }
    {
        match &self.wide {
            Some(wide) => match self.words.first() {
                Some(_) => match self.top() {
                    Some(top) if top.1 == *state => Some(top.2),
                    _ => None,
                },
                None => wide.place_if_first(state),
            },
            None => match self.words.first() {
                Some(first) if is_word(state, first.word()) => Some(first.place()),
                _ => None,
            },
        }
    }

    // Takes the first entry out.
    #[inline]
    pub(crate) fn pop(&mut self)
        ensures left { (other : Entry) → has_entry self.old other ≡ true
            → (top_of self.old ≡ Some other) ⊎ (has_entry self.new other ≡ true) }
        ensures had { (other : Entry) → has_entry self.new other ≡ true
            → has_entry self.old other ≡ true }
        ensures fewer { IsSome (top_of self.old) → count_of self.new < count_of self.old }
    {
        match &mut self.wide {
            Some(wide) => {
                if is_second_first(&self.words.top(), &wide.top()) {
                    wide.pop();
                } else {
                    self.words.pop();
                }
            }
            None => self.words.pop(),
        }
    }
}

// Whether the state is this word.
#[inline]
fn is_word(state: &Packed, word: u64) -> bool
    ensures { result ≡ nat_eq word state.now }
{
    match state.as_word() {
        Some(own) => word == own,
        None => false,
    }
}

// Which entry of the wide part comes first, for this clause alone.
#[inline]
fn show_wide_top(wide: &Option<Box<WideEntries>>)
    ensures { IsTop (has_boxed wide.now) (top_of_boxed wide.now) }
{
    if let Some(wide) = wide {
        wide.show_top();
    }
}

// Puts an entry into the wide part of a bucket.
#[inline(never)]
fn add_wide(
    alloc: Global,
    wide: &mut Option<Box<WideEntries>>,
    h: u64,
    state: &Packed,
    place: u64,
) -> Result<(), AllocError>
    ensures added { OnOk result ((other : Entry) → has_boxed wide.new other
        ≡ (is_same other (h, state.now, place) || has_boxed wide.old other)) }
    ensures err { OnErr result ((other : Entry)
        → has_boxed wide.new other ≡ has_boxed wide.old other) }
    ensures top { OnErr result (top_of_boxed wide.new ≡ top_of_boxed wide.old) }
{
    match wide {
        Some(entries) => entries.push(h, state, place),
        None => {
            // The new part is filled and boxed first, so after an error the bucket is as before.
            let mut entries = WideEntries::new(alloc);
            entries.push(h, state, place)?;
            *wide = Some(Box::new(alloc, entries)?);
            Ok(())
        }
    }
}
