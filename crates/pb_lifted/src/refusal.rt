//! Why a domain and a problem are no task: the causes, and the places of what is at fault.
ghost use Rattle.std.specs.Prelude.{◌≡◌};
ghost use Rattle.pb_lifted.specs.declared.refusal.LiftedError.TheVariants.{Memory};

use std::alloc::{AllocError, AllocFailed};

/// The text that a place is in.
#[derive(Clone, Copy)]
pub enum File {
    /// The domain, the first file.
    Domain,
    /// The problem, the second file.
    Problem,
}

/// The place of a name, a word or a number: its file, and its first byte there, counted from 0.
#[derive(Clone, Copy)]
pub struct Place {
    pub file: File,
    pub at: u64,
}

/// Why a name, or a statement of costs, makes the two trees no task. The causes are in the order in
/// which they are reported.
#[derive(Clone, Copy)]
pub enum Cause {
    /// The problem is of a domain of another name.
    DomainName,
    /// A type, an object or constant, a predicate, an action, or a parameter of one action was
    /// declared before.
    Twice,
    /// The type of an object or a parameter is neither declared nor above a declared one.
    UnknownType,
    /// The types above a declared type do not lead to `object`, or `object` is declared below
    /// another type.
    TypeCycle,
    /// An atom of a predicate that is not declared.
    UnknownPredicate,
    /// An atom with more or fewer arguments than its predicate has parameters.
    Arity,
    /// An argument that is no object, or a variable that is no parameter of its action.
    UnknownObject,
    /// An argument whose type is neither the parameter's nor below it.
    WrongType,
    /// A predicate or action of more than 16 parameters.
    TooWide,
    /// `total-cost` in an increase, in `:init` or in the metric, while the domain declares none.
    NoFunction,
    /// The word `increase` or `=` of a second cost in one action or in `:init`.
    CostTwice,
    /// An increase of more than 1,048,576, or another number than 0 in `:init`.
    CostRange,
    /// With a metric, the name of an action without an increase, or the number 0 of its increase.
    ZeroCost,
}

/// Why two trees are no task.
#[derive(Clone, Copy)]
pub enum TypingRefusal {
    /// This name, word or number.
    Named { cause: Cause, place: Place },
    /// There are more than 1,000 objects: n, with the constants.
    TooManyObjects { n: u64 },
}

/// Why no task was made.
#[derive(Clone, Copy)]
pub enum LiftedError {
    /// The trees are no task.
    Refused(TypingRefusal),
    /// Memory ran out.
    Memory,
}

impl From<AllocError> for LiftedError {
    ghost from_gives = { λ _ e. e ≡ Memory };

    fn from(_: AllocError) -> Self {
        LiftedError::Memory
    }
}

impl<T: Drop> From<AllocFailed<T>> for LiftedError {
    ghost from_gives = { λ _ e. e ≡ Memory };

    fn from(_: AllocFailed<T>) -> Self {
        LiftedError::Memory
    }
}
