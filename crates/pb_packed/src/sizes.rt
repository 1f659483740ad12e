//! The sizes of states: bits, digits and ground atoms.

/// How many bits a state has.
pub const BITS: u32 = 1024;

/// How many hexadecimal digits a state has at most, four bits each.
pub const MOST_DIGITS: usize = 256;

/// How many ground atoms a task has at most.
pub const MOST_ATOMS: u32 = 1024;

/// How many hexadecimal digits spell a state in version 1 of certificates.
pub const DIGITS: usize = 64;
