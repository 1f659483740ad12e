//! A law on whole searches, as the contract of a function without a body.
ghost use Rattle.pb_owners.specs.Laws.{SearchesAreAlike};

/// The schedule changes no more than the parents and actions of rows.
pub fn searches_are_alike()
    ensures { SearchesAreAlike }
{}
