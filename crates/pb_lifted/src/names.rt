//! Lists of names in which a name is looked up by an ordered map.
ghost use Rattle.std.specs.Prelude.{◌≡◌, [], ◌∷◌, ◌++◌, not, OnOk, OnErr, IfOk};
ghost use Rattle.pb_lifted.specs.Names.{number_of, is_among};

use pb_pddl::Text;
use std::alloc::{AllocError, Global};
use std::collections::BTreeMap;
use std::marker::Model;

/// Names in order, with their numbers: a name's number is its first place. Contracts see the list
/// of their texts.
#[derive(Drop)]
pub(crate) struct Names {
    texts: Vec<Text>,
    // the number of each name
    numbers: BTreeMap<Vec<u8>, usize>,
    alloc: Global,
}

impl Model for Names {
    ghost use Rattle.std.specs.Prelude.{List, ℕ};
    ghost use Rattle.pb_lifted.specs.Numbers.{AreNumbers};

    ghost Value = { List (List ℕ) };

    ghost view = { λ n. n.texts.items };

    ghost invariant = { λ n. AreNumbers n.numbers n.texts.items };
}

impl Names {
    /// No names; it takes no memory.
    pub(crate) fn new(alloc: Global) -> Names
        ensures { result ≡ [] }
    {
        Names {
            texts: Vec::new(alloc),
            numbers: BTreeMap::new(alloc),
            alloc,
        }
    }

    /// The number of a name, or None if it isn't there.
    pub(crate) fn find(&self, text: &[u8]) -> Option<usize>
        ensures { result ≡ number_of text.now self.now }
    {
        self.numbers.get(text).copied()
    }

    /// Adds a name at the end, and says whether it is new. An error means out of memory, and
    /// nothing changes.
    pub(crate) fn enter(&mut self, text: &Text) -> Result<bool, AllocError>
        ensures added { OnOk result (self.new ≡ self.old ++ text.now ∷ []) }
        ensures fresh { IfOk result (λ fresh. fresh ≡ not (is_among text.now self.old)) }
        ensures kept { OnErr result (self.new ≡ self.old) }
    {
        let fresh = !self.numbers.contains_key(text.as_slice());
        let copy = text.share()?;
        // Room is made before the map changes, so that the last push cannot fail.
        // Else the map could have a number for a name that the list lacks.
        self.texts.reserve(1)?;
        if fresh {
            let key = Vec::from_slice(self.alloc, text.as_slice())?;
            self.numbers.insert(key, self.texts.as_slice().len())?;
        }
        self.texts.push(copy)?;
        Ok(fresh)
    }
}
