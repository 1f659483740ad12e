//! The calls made on the outside, as clauses see them. A transcript takes no memory, and its
//! methods do nothing at run time.
ghost use Rattle.std.specs.Prelude.{◌≡◌, List, [], ◌∷◌, ◌++◌};
ghost use Rattle.std.specs.Borrow.{ftrue};
ghost use Rattle.pb_outside.specs.Calls.{Call};

use std::marker::{Model, PhantomData};
use std::mem;

/// A value of the program that says which call was made, and what it answered.
pub trait Event {
    /// The call.
    ghost call: { Self → Call };
}

/// The calls so far, in order. Only clauses read them.
#[derive(Drop)]
pub struct Transcript {
    of: PhantomData<u8>,
    pub ghost calls: { List Call },
}

impl Model for Transcript {
    ghost also_owns = { λ _. ftrue };
}

impl Transcript {
    /// No call so far.
    pub fn new() -> Transcript
        ensures { result.calls ≡ [] }
    {
        Transcript { of: PhantomData }
    }

    /// With one call more.
    #[inline(always)]
    pub fn and<E: Event>(&self, event: &E) -> Transcript
        ensures { result.calls ≡ self.now.calls ++ E.call event.now ∷ [] }
    {
        Transcript { of: PhantomData }
    }
}

// A transcript takes no memory.
const _: () = prove!(mem::size_of::<Transcript>() == 0);
