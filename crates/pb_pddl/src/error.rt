//! Why a text is no tree of PDDL: the errors, and what must come in place of a token.
ghost use Rattle.std.specs.Prelude.{◌≡◌};
ghost use Rattle.pb_pddl.specs.declared.error.SyntaxError.TheVariants.{Memory};

use std::alloc::{AllocError, AllocFailed};

/// What must come in place of a token. If the grammar allows several, the first that fits of
/// `Paren`, `Section`, `Part`, `Name`, `Variable` and `Close`.
#[derive(Clone, Copy)]
pub enum Want {
    /// A `(`.
    Paren,
    /// A `)`; also if a `:word` of the requirements or a `)` must come.
    Close,
    /// The word `define`, `domain`, `problem`, `total-cost` or `minimize`.
    Word,
    /// A word.
    Name,
    /// A `?` with a word.
    Variable,
    /// The keyword of a section.
    Section,
    /// The keyword of a part of an action.
    Part,
    /// The name of a type, after a `-`; after the `-` of `:functions` the word `number`.
    TypeName,
    /// A number: a word of 1 to 9 decimal digits.
    Number,
    /// A name or variable before this `-`.
    Group,
    /// Another keyword: this section or part came before.
    Once,
    /// `:domain` or `:goal`, before this last `)`.
    Missing,
}

/// What of PDDL is left out here.
#[derive(Clone, Copy)]
pub enum LeftOut {
    /// A section with another keyword, as `:derived`.
    Section,
    /// A part of an action with another keyword, as `:duration`.
    Part,
    /// A reserved head directly after a `(`, as `not` in a condition, or `when`.
    Head,
    /// A `(` after a `-`, as in `- (either a b)`.
    Either,
    /// Another function than `total-cost`, or a `(` in place of a number.
    Function,
    /// Another word than `minimize` in a metric.
    Metric,
}

/// Why a text is no tree: the first token that can't go on. `at` is the place of its first byte,
/// counted from 0.
#[derive(Clone, Copy)]
pub enum SyntaxError {
    /// The bytes there begin no token.
    Byte { at: u64 },
    /// A `(` inside 32 others.
    Deep { at: u64 },
    /// A form of PDDL that is left out here.
    LeftOut { at: u64, what: LeftOut },
    /// Another token must come there.
    Expected { at: u64, want: Want },
    /// The text ends; `at` is the innermost `(` that is open, or the text's length if none is.
    Unclosed { at: u64 },
    /// A token after the whole form.
    Extra { at: u64 },
    /// Memory ran out.
    Memory,
}

impl From<AllocError> for SyntaxError {
    ghost from_gives = { λ _ e. e ≡ Memory };

    fn from(_: AllocError) -> Self {
        SyntaxError::Memory
    }
}

impl<T: Drop> From<AllocFailed<T>> for SyntaxError {
    ghost from_gives = { λ _ e. e ≡ Memory };

    fn from(_: AllocFailed<T>) -> Self {
        SyntaxError::Memory
    }
}
