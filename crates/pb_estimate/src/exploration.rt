//! The costs of atoms without deletes, and the queue of the atoms that were reached: what hmax
//! is computed with.
ghost use Rattle.std.specs.Prelude.{[], ◌∷◌, ◌≡◌, ℕ, ◌+◌, ◌-◌, ◌%◌, ◌^◌, ◌⊎◌, ◌<◌, ◌≤◌, IfOk, IfSome, IfNone, All, length, slice_index, slice_set, true, false, None, is_some};
ghost use Rattle.pb_packed.specs.Sizes.{most_atoms};
ghost use Rattle.pb_task.specs.Strips.{has_atom};
ghost use Rattle.pb_estimate.specs.declared.exploration.AtomCost.TheVariants.{Unreached, Open, Final};
ghost use Rattle.pb_estimate.specs.Hmax.{IsAtMost};
ghost use Rattle.pb_estimate.specs.Exploring.{known_in, cost_in, final_in, final_cost, is_final_in, AreLowered, HaveSameFinals, FinalsAreWithin, OpensAreFrom, IsExploration, IsLeastOpen};

use crate::buckets::{BUCKETS, Buckets};
use pb_packed::Packed;
use pb_task::next_atom;
use std::alloc::{AllocError, Global};
use std::marker::Model;

/// What is known of the cost of an atom.
#[derive(Clone, Copy)]
pub enum AtomCost {
    /// No action was found yet that adds the atom.
    Unreached,
    /// The atom costs at most this.
    Open(u32),
    /// It costs this.
    Final(u32),
}

// What the word of an open cost has more than the cost.
const OPEN: u32 = 0x8000_0000;

/// What is known of the cost of an atom, in one word. A final cost is below 2^31. An open one is
/// kept with 2^31 more. The greatest word means that the atom isn't reached.
#[derive(Clone, Copy)]
pub struct CostWord {
    word: u32,
}

impl Model for CostWord {
    ghost use Rattle.pb_estimate.specs.declared.exploration.AtomCost.{AtomCost};
    ghost use Rattle.pb_estimate.specs.CostWords.{cost_of_word, word_of_cost, word_is_back};

    ghost Value = { AtomCost };

    ghost view = { λ c. cost_of_word c.word };

    ghost inverse = { λ cost. record { word = word_of_cost cost } };

    ghost inverse_ok = { λ a h i. record { word = word_is_back a.word i } };
}

impl CostWord {
    // The atom isn't reached.
    fn unreached() -> CostWord
        ensures { result ≡ Unreached }
    {
        CostWord { word: u32::MAX }
    }

    // The atom costs at most this.
    #[inline]
    fn open(cost: u32) -> CostWord
        requires { cost < 2 ^ 31 - 1 }
        ensures { result ≡ Open cost }
    {
        CostWord { word: OPEN + cost }
    }

    // The open cost as a final one.
    #[inline]
    fn as_final(self) -> CostWord
        requires { (cost : ℕ) × (self ≡ Open cost) }
        ensures { (cost : ℕ) → self ≡ Open cost → result ≡ Final cost }
    {
        CostWord {
            word: self.word - OPEN,
        }
    }

    // What is known of the cost.
    #[inline]
    fn read(self) -> AtomCost
        ensures { result ≡ self }
    {
        if self.word < OPEN {
            AtomCost::Final(self.word)
        } else if self.word == u32::MAX {
            AtomCost::Unreached
        } else {
            AtomCost::Open(self.word - OPEN)
        }
    }

    // Whether the cost is open, and this one. It compares words, since it is asked most often.
    #[inline]
    fn is_open_at(self, level: u32) -> bool
        requires { level < 2 ^ 31 - 1 }
        ensures { result ≡ true → self ≡ Open level }
    {
        self.word == OPEN + level
    }

    // Whether the cost is open, and has the same remainder by 64 as this one.
    #[inline]
    pub(crate) fn is_open_beside(self, cost: u32) -> bool
        ensures { (known : ℕ) → self ≡ Open known → known % 64 ≡ cost % 64 → result ≡ true }
    {
        self.word >= OPEN && self.word % 64 == cost % 64
    }

    // Whether the cost is final, or open and no more than this one. It compares words.
    #[inline]
    fn is_no_more(self, cost: u32) -> bool
        requires { cost < 2 ^ 31 - 1 }
        ensures { result ≡ true → ((known : ℕ) × (self ≡ Final known))
            ⊎ ((known : ℕ) × (self ≡ Open known) × (known ≤ cost)) }
    {
        self.word <= OPEN + cost
    }

    // The word of an open cost; for any other the greatest word. So the least of some words is
    // that of the least open cost.
    #[inline]
    fn open_word(self) -> u32
        ensures open { (cost : ℕ) → self ≡ Open cost
            → (result ≡ 2 ^ 31 + cost) × (cost < 2 ^ 31 - 1) }
        ensures is { (result ≡ 2 ^ 32 - 1)
            ⊎ ((2 ^ 31 ≤ result) × (self ≡ Open (result - 2 ^ 31))) }
    {
        if self.word < OPEN {
            u32::MAX
        } else {
            self.word
        }
    }
}

/// An exploration of what can hold after a state if nothing is deleted: what each atom costs so
/// far, and a queue of the atoms that were reached.
#[derive(Drop)]
pub struct Exploration {
    /// The cost of each atom.
    pub costs: Vec<CostWord>,
    /// The atoms that were reached, in the order in which they were. Later places are unused.
    pub queue: Vec<u16>,
    /// The costs of the atoms at the places before this one are final.
    pub first: usize,
    /// How many atoms were reached.
    pub reached: usize,
    /// Where the next atom of the current level is looked for: a hint, on which no proof depends.
    pub cursor: usize,
    /// The atoms by their open costs.
    pub buckets: Buckets,
}

// Whether a cost is final.
fn is_final(cost: AtomCost) -> bool
    ensures { result ≡ is_some (final_cost cost) }
{
    match cost {
        AtomCost::Final(_) => true,
        AtomCost::Unreached => false,
        AtomCost::Open(_) => false,
    }
}

// The cheapest of these atoms whose cost is open. No open cost is less than `level`.
fn least(costs: &[CostWord], atoms: &[u16], level: u32) -> Option<(u16, u32)>
    requires inside { All (λ atom. atom < length costs.now) atoms.now }
    requires level { OpensAreFrom level costs.now }
    ensures found { IfSome result (λ found. (found.0 < length costs.now)
        × (known_in costs.now found.0 ≡ Open found.1)) }
    ensures least { IfSome result (λ found. All (λ atom. (cost : ℕ) → known_in costs.now atom
        ≡ Open cost → found.1 ≤ cost) atoms.now) }
    ensures none { IfNone result (All (λ atom. (cost : ℕ) → known_in costs.now atom ≡ Open cost
        → ⊥) atoms.now) }
{
    let mut best = u32::MAX;
    let mut found = 0;
    for atom in atoms {
        let word = costs[*atom as usize].open_word();
        if word < best {
            best = word;
            found = *atom;
        }
    }
    if best == u32::MAX {
        return None;
    }
    Some((found, best - OPEN))
}

impl Exploration {
    /// An exploration of `count` atoms, with none reached. Buckets are of use if each action
    /// costs less than 64.
    pub fn of(alloc: Global, count: usize, has_buckets: bool) -> Result<Exploration, AllocError>
        requires { count ≤ most_atoms }
        ensures is { IfOk result IsExploration }
        ensures long { IfOk result (λ made. length made.costs.items ≡ count) }
    {
        Ok(Exploration {
            costs: vec![in alloc; CostWord::unreached(); count]?,
            queue: vec![in alloc; 0; count]?,
            first: 0,
            reached: 0,
            cursor: 0,
            buckets: Buckets::of(alloc, count, has_buckets)?,
        })
    }

    // Forgets all costs.
    fn clear(&mut self)
        requires is { IsExploration self.old }
        ensures is { IsExploration self.new }
        ensures long { length self.new.costs.items ≡ length self.old.costs.items }
        ensures none { (atom : ℕ) → known_in self.new.costs.items atom ≡ Unreached }
    {
        self.costs.fill(CostWord::unreached());
        self.first = 0;
        self.reached = 0;
        self.cursor = 0;
        self.buckets.clear();
    }

    /// Begins anew at a state: the atoms that hold cost nothing, and no other is reached.
    pub fn begin(&mut self, count: u32, state: &Packed)
        requires is { IsExploration self.old }
        requires count { count ≡ length self.old.costs.items }
        ensures is { IsExploration self.new }
        ensures long { length self.new.costs.items ≡ count }
        ensures holds { (atom : ℕ) → atom < count → has_atom state.now atom ≡ true
            → IsAtMost (cost_in self.new.costs.items atom) 0 }
        ensures only { (atom cost : ℕ) → IsAtMost (cost_in self.new.costs.items atom) cost
            → has_atom state.now atom ≡ true }
        ensures finals { (atom : ℕ) → final_in self.new.costs.items atom ≡ None }
    {
        self.clear();
        let mut atom = next_atom(state, 0, count);
        while atom < count {
            self.lower(atom as u16, 0);
            atom = next_atom(state, atom + 1, count);
        }
    }

    // Lowers the cost of an atom to this one, if it isn't reached or costs more.
    #[inline]
    fn lower(&mut self, atom: u16, cost: u32)
        requires is { IsExploration self.old }
        requires inside { atom < length self.old.costs.items }
        requires small { cost ≤ 2 ^ 30 + 2 ^ 20 }
        requires finals { FinalsAreWithin cost self.old.costs.items }
        ensures is { IsExploration self.new }
        ensures long { length self.new.costs.items ≡ length self.old.costs.items }
        ensures lowered { AreLowered (atom ∷ []) cost self.old.costs.items self.new.costs.items }
        ensures finals { HaveSameFinals self.old.costs.items self.new.costs.items }
    {
        // Most costs aren't lowered, and one comparison of words tells that.
        if self.costs[atom as usize].is_no_more(cost) {
            return;
        }
        self.lower_open(atom, cost);
    }

    // Does the same after a look at the cost's form. Not inline, so that `lower` is short.
    #[inline(never)]
    fn lower_open(&mut self, atom: u16, cost: u32)
        requires is { IsExploration self.old }
        requires inside { atom < length self.old.costs.items }
        requires small { cost ≤ 2 ^ 30 + 2 ^ 20 }
        requires finals { FinalsAreWithin cost self.old.costs.items }
        ensures is { IsExploration self.new }
        ensures long { length self.new.costs.items ≡ length self.old.costs.items }
        ensures lowered { AreLowered (atom ∷ []) cost self.old.costs.items self.new.costs.items }
        ensures finals { HaveSameFinals self.old.costs.items self.new.costs.items }
    {
        match self.costs[atom as usize].read() {
            AtomCost::Unreached => {
                self.buckets.enter(self.costs.as_slice(), atom, cost);
                self.costs[atom as usize] = CostWord::open(cost);
                self.queue[self.reached] = atom;
                self.reached += 1;
            }
            AtomCost::Open(known) => {
                if cost < known {
                    self.buckets.enter(self.costs.as_slice(), atom, cost);
                    self.costs[atom as usize] = CostWord::open(cost);
                }
            }
            AtomCost::Final(_) => {}
        }
    }

    // Lowers the costs of some atoms to this one, if they aren't reached or cost more.
    pub(crate) fn lower_each(&mut self, atoms: &[u16], cost: u32)
        requires is { IsExploration self.old }
        requires inside { All (λ atom. atom < length self.old.costs.items) atoms.now }
        requires small { cost ≤ 2 ^ 30 + 2 ^ 20 }
        requires finals { FinalsAreWithin cost self.old.costs.items }
        ensures is { IsExploration self.new }
        ensures long { length self.new.costs.items ≡ length self.old.costs.items }
        ensures lowered { AreLowered atoms.now cost self.old.costs.items self.new.costs.items }
        ensures finals { HaveSameFinals self.old.costs.items self.new.costs.items }
    {
        for atom in atoms {
            self.lower(*atom, cost);
        }
    }

    // The place in the queue before which all costs are final.
    fn first_open(&self) -> usize
        requires is { IsExploration self.now }
        ensures reached { result ≤ self.now.reached }
        ensures places { self.now.reached ≤ length self.now.queue.items }
        ensures passed { (k : ℕ) → k < result
            → is_final_in self.now.costs.items (slice_index self.now.queue.items k) ≡ true }
    {
        let queue = self.queue.as_slice();
        let costs = self.costs.as_slice();
        let mut first = self.first;
        while first < self.reached && is_final(costs[queue[first] as usize].read()) {
            first += 1;
        }
        first
    }

    // The first place from the cursor on of an atom whose cost is open and this one.
    fn place_of(&self, level: u32) -> Option<usize>
        requires is { IsExploration self.now }
        ensures inside { IfSome result (λ at. at < self.now.reached) }
        ensures is { IfSome result (λ at. known_in self.now.costs.items
            (slice_index self.now.queue.items at) ≡ Open level) }
    {
        let queue = self.queue.as_slice();
        let costs = self.costs.as_slice();
        if level >= OPEN - 1 {
            // No word says that such a cost is open.
            return None;
        }
        for at in self.cursor..self.reached {
            if costs[queue[at] as usize].is_open_at(level) {
                return Some(at);
            }
        }
        None
    }

    // Makes the cost of the atom at a place final, which is `level`. Later atoms are looked for
    // behind it.
    fn take(&mut self, at: usize, level: u32) -> (u16, u32)
        requires is { IsExploration self.old }
        requires level { OpensAreFrom level self.old.costs.items }
        requires at { at < self.old.reached }
        requires open { known_in self.old.costs.items (slice_index self.old.queue.items at)
            ≡ Open level }
        ensures is { IsExploration self.new }
        ensures long { length self.new.costs.items ≡ length self.old.costs.items }
        ensures least { IsLeastOpen self.old.costs.items result.0 result.1 }
        ensures made { self.new.costs.items
            ≡ slice_set self.old.costs.items result.0 (Final result.1) }
    {
        let atom = self.queue[at];
        let open = self.costs[atom as usize];
        self.costs[atom as usize] = open.as_final();
        self.cursor = at + 1;
        (atom, level)
    }

    // Makes the least cost that is open, with its atom, final. It is a new level, if no atom from the
    // cursor on has the last one.
    fn next_level(&mut self, level: u32) -> Option<(u16, u32)>
        requires is { IsExploration self.old }
        requires level { OpensAreFrom level self.old.costs.items }
        ensures is { IsExploration self.new }
        ensures long { length self.new.costs.items ≡ length self.old.costs.items }
        ensures least { IfSome result (λ found. IsLeastOpen self.old.costs.items found.0 found.1) }
        ensures made { IfSome result (λ found. self.new.costs.items
            ≡ slice_set self.old.costs.items found.0 (Final found.1)) }
        ensures none { IfNone result ((atom cost : ℕ) → known_in self.old.costs.items atom
            ≡ Open cost → ⊥) }
    {
        self.first = self.first_open();
        // Atoms of a level stand anywhere behind the first open one.
        self.cursor = self.first;
        let queue = &self.queue.as_slice()[self.first..self.reached];
        let (atom, cost) = least(self.costs.as_slice(), queue, level)?;
        let open = self.costs[atom as usize];
        self.costs[atom as usize] = open.as_final();
        Some((atom, cost))
    }

    // Makes the least cost that is open final, which is looked for in the queue.
    fn next_in_queue(&mut self, level: u32) -> Option<(u16, u32)>
        requires is { IsExploration self.old }
        requires level { OpensAreFrom level self.old.costs.items }
        ensures is { IsExploration self.new }
        ensures long { length self.new.costs.items ≡ length self.old.costs.items }
        ensures least { IfSome result (λ found. IsLeastOpen self.old.costs.items found.0 found.1) }
        ensures made { IfSome result (λ found. self.new.costs.items
            ≡ slice_set self.old.costs.items found.0 (Final found.1)) }
        ensures none { IfNone result ((atom cost : ℕ) → known_in self.old.costs.items atom
            ≡ Open cost → ⊥) }
    {
        match self.place_of(level) {
            // No open cost is less, so no other atom need be looked at.
            Some(at) => Some(self.take(at, level)),
            None => self.next_level(level),
        }
    }

    // Whether the bucket of a cost is empty. Most are, between one level and the next.
    #[inline]
    fn is_empty_at(&self, cost: u32) -> bool
        requires { IsExploration self.now }
        ensures { result ≡ true → self.now.buckets.is_lost ≡ false → (atom c : ℕ)
            → known_in self.now.costs.items atom ≡ Open c → c % 64 ≡ cost % 64 → ⊥ }
    {
        self.buckets.filled[(cost % 64) as usize] == 0
    }

    // Makes the cost of an atom final, if it is this one and an atom of its bucket has it. Other
    // atoms go out of the bucket.
    #[inline]
    fn take_from_bucket(&mut self, cost: u32) -> Option<u16>
        requires is { IsExploration self.old }
        requires small { cost < 2 ^ 31 - 1 }
        ensures is { IsExploration self.new }
        ensures long { length self.new.costs.items ≡ length self.old.costs.items }
        ensures taken { IfSome result (λ atom. (atom < length self.old.costs.items)
            × (known_in self.old.costs.items atom ≡ Open cost)
            × (self.new.costs.items ≡ slice_set self.old.costs.items atom (Final cost))) }
        ensures kept { IfSome result (λ atom. self.new.buckets.is_lost ≡ self.old.buckets.is_lost) }
        ensures same { IfNone result (self.new.costs.items ≡ self.old.costs.items) }
        ensures none { IfNone result (self.new.buckets.is_lost ≡ false → (atom c : ℕ)
            → known_in self.old.costs.items atom ≡ Open c → c % 64 ≡ cost % 64 → ⊥) }
    {
        let left = self.buckets.left_in(self.costs.as_slice(), cost);
        let bucket = (cost % 64) as usize;
        if left == 0 {
            self.buckets.filled[bucket] = 0;
            return None;
        }
        let atom = self.buckets.places[(left - 1) as usize * BUCKETS + bucket];
        let known = self.costs[atom as usize];
        if !known.is_open_at(cost) {
            // Open costs are farther from one another than there are buckets.
            self.buckets.is_lost = true;
            return None;
        }
        self.costs[atom as usize] = known.as_final();
        self.buckets.filled[bucket] = left - 1;
        Some(atom)
    }

    // Makes the least cost that is open final, which is looked for in the buckets. None if there is
    // none, or atoms were lost.
    fn next_in_buckets(&mut self, level: u32) -> Option<(u16, u32)>
        requires is { IsExploration self.old }
        requires level { OpensAreFrom level self.old.costs.items }
        requires small { level ≤ 2 ^ 30 + 2 ^ 20 }
        requires all { self.old.buckets.is_lost ≡ false }
        ensures is { IsExploration self.new }
        ensures long { length self.new.costs.items ≡ length self.old.costs.items }
        ensures least { IfSome result (λ found. IsLeastOpen self.old.costs.items found.0 found.1) }
        ensures made { IfSome result (λ found. self.new.costs.items
            ≡ slice_set self.old.costs.items found.0 (Final found.1)) }
        ensures same { IfNone result (self.new.costs.items ≡ self.old.costs.items) }
        ensures none { IfNone result (self.new.buckets.is_lost ≡ false → (atom cost : ℕ)
            → known_in self.old.costs.items atom ≡ Open cost → ⊥) }
    {
        for step in 0..BUCKETS as u32 {
            let cost = level + step;
            if self.is_empty_at(cost) {
                continue;
            }
            if let Some(atom) = self.take_from_bucket(cost) {
                return Some((atom, cost));
            }
            if self.buckets.is_lost {
                return None;
            }
        }
        None
    }

    /// Makes the least cost that is open, with its atom, final. No open cost is less than `level`.
    pub fn next(&mut self, level: u32) -> Option<(u16, u32)>
        requires is { IsExploration self.old }
        requires level { OpensAreFrom level self.old.costs.items }
        ensures is { IsExploration self.new }
        ensures long { length self.new.costs.items ≡ length self.old.costs.items }
        ensures least { IfSome result (λ found. IsLeastOpen self.old.costs.items found.0 found.1) }
        ensures made { IfSome result (λ found. self.new.costs.items
            ≡ slice_set self.old.costs.items found.0 (Final found.1)) }
        ensures none { IfNone result ((atom cost : ℕ) → known_in self.old.costs.items atom
            ≡ Open cost → ⊥) }
    {
        if self.buckets.is_lost || level > 1 << 30 {
            return self.next_in_queue(level);
        }
        match self.next_in_buckets(level) {
            Some(found) => Some(found),
            None if self.buckets.is_lost => self.next_in_queue(level),
            None => None,
        }
    }
}
