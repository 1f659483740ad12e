//! The tokens of a PDDL text: `specs/Tokens.antt` of `pb_pddl` says which list is a text's.
#![tactic(auto)]

mod bytes;
mod lexer;

pub use lexer::tokens;
