//! Lists on the heap, which contracts see as lists.
ghost use Rattle.std.specs.Prelude.{◌≡◌, ◌++◌, ◌∷◌, ◌-◌, [], length, take, OnOk, OnErr, IfOk};

use std::alloc::{AllocError, AllocFailed, Global};
use std::marker::Model;

/// A list on the heap, which keeps the allocator of its constructor. A contract sees the list of
/// its elements.
#[derive(Drop)]
pub struct Listed<T> {
    items: Vec<T>,
}

impl<T> Model for Listed<T> {
    ghost use Rattle.std.specs.Prelude.{List};

    ghost Value = { List T };

    ghost view = { λ l. l.items.items };
}

impl<T> Listed<T> {
    /// The empty list; it takes no memory.
    pub fn new(alloc: Global) -> Listed<T>
        ensures { result ≡ [] }
    {
        Listed {
            items: Vec::new(alloc),
        }
    }

    /// Its elements, lent.
    pub fn as_slice(&self) -> &[T]
        ensures { result.now ≡ self.now }
    {
        self.items.as_slice()
    }

    /// Adds an element at the end. If memory runs out, the call fails and gives the element back.
    pub fn push(&mut self, x: T) -> Result<(), AllocFailed<T>>
        ensures added { OnOk result (self.new ≡ self.old ++ x ∷ []) }
        ensures kept { OnErr result (self.new ≡ self.old) }
    {
        self.items.push(x)
    }

    /// Gives back the memory that it holds beyond its elements.
    pub fn trim(&mut self)
        ensures { self.new ≡ self.old }
    {
        self.items.shrink_to_fit();
    }

    /// Removes the last element, if there is one.
    pub fn pop(&mut self)
    where
        T: Drop,
        ensures { self.new ≡ take (length self.old - 1) self.old }
    {
        // The element is dropped here, so its type must be one that may be.
        let _last = self.items.pop();
    }
}

impl Listed<u8> {
    /// The list of these bytes. The call fails if memory runs out.
    pub fn of(alloc: Global, bytes: &[u8]) -> Result<Listed<u8>, AllocError>
        ensures { IfOk result (λ list. list ≡ bytes.now) }
    {
        let items = Vec::from_slice(alloc, bytes)?;
        Ok(Listed { items })
    }
}
