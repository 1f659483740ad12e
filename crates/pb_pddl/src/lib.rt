//! The trees of PDDL texts, their tokens and errors, and the definitions that say which text is
//! which tree: `specs/Tokens.antt`, `specs/Grammar.antt`, `specs/Reading.antt` and
//! `specs/Trees.antt`.
#![tactic(auto)]

mod error;
mod parts;
mod text;
mod token;
mod tree;

pub use error::{LeftOut, SyntaxError, Want};
pub use parts::{ActionParts, DomainParts, EffectParts, Group, InitParts, ProblemParts};
pub use pb_listed::Listed;
pub use text::Text;
pub use token::{Cursor, Token, TokenKind};
pub use tree::{Action, Atom, Cost, Domain, Literal, Name, Predicate, Problem, Term, Typed};
