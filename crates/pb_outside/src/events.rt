//! Calls that were made, as values that a transcript takes.
ghost use Rattle.std.specs.Prelude.{if◌then◌else◌};

use crate::Load;
use crate::transcript::Event;

// A file was read.
#[derive(Clone, Copy)]
pub(crate) struct Read<'a> {
    pub(crate) name: &'a str,
    pub(crate) most: u64,
    pub(crate) bytes: &'a [u8],
}

impl<'a> Event for Read<'a> {
    ghost use Rattle.pb_outside.specs.Calls.{Loaded};

    ghost call = { λ e. Loaded e.name.now e.most e.bytes.now };
}

// A file wasn't read.
#[derive(Clone, Copy)]
pub(crate) struct Unread<'a> {
    pub(crate) name: &'a str,
    pub(crate) most: u64,
    pub(crate) why: Load,
}

impl<'a> Event for Unread<'a> {
    ghost use Rattle.pb_outside.specs.Calls.{LoadFailed};

    ghost call = { λ e. LoadFailed e.name.now e.most e.why };
}

// A file was begun, or it failed.
#[derive(Clone, Copy)]
pub(crate) struct Begun<'a> {
    pub(crate) name: &'a str,
    pub(crate) done: bool,
}

impl<'a> Event for Begun<'a> {
    ghost use Rattle.pb_outside.specs.Calls.{Created, CreateFailed};

    ghost call = { λ e. if e.done then Created e.name.now else CreateFailed e.name.now };
}

// A file grew by a piece.
#[derive(Clone, Copy)]
pub(crate) struct Grown<'a> {
    pub(crate) name: &'a str,
    pub(crate) piece: &'a [u8],
}

impl<'a> Event for Grown<'a> {
    ghost use Rattle.pb_outside.specs.Calls.{Appended};

    ghost call = { λ e. Appended e.name.now e.piece.now };
}

// A file grew by a first part of a piece.
#[derive(Clone, Copy)]
pub(crate) struct PartlyGrown<'a> {
    pub(crate) name: &'a str,
    pub(crate) piece: &'a [u8],
    pub(crate) kept: usize,
}

impl<'a> Event for PartlyGrown<'a> {
    ghost use Rattle.pb_outside.specs.Calls.{AppendFailed};

    ghost call = { λ e. AppendFailed e.name.now e.piece.now e.kept };
}

// A piece was put.
#[derive(Clone, Copy)]
pub(crate) struct Written<'a> {
    pub(crate) piece: &'a [u8],
}

impl<'a> Event for Written<'a> {
    ghost use Rattle.pb_outside.specs.Calls.{Put};

    ghost call = { λ e. Put e.piece.now };
}

// A first part of a piece was put.
#[derive(Clone, Copy)]
pub(crate) struct PartlyWritten<'a> {
    pub(crate) piece: &'a [u8],
    pub(crate) kept: usize,
}

impl<'a> Event for PartlyWritten<'a> {
    ghost use Rattle.pb_outside.specs.Calls.{PutFailed};

    ghost call = { λ e. PutFailed e.piece.now e.kept };
}
