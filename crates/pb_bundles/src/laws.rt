//! The laws of this crate. Each is the contract of a function without a body.
ghost use Rattle.pb_bundles.specs.Laws.{BettersAreByKey, OpenedIsByKey, RivalsAreByKey, FirstChoicesAreByKey, HomeKeysAreBest, KeysAtHomeAreBest, OpeningRowsAreHome, NotedKeysAreBest, IncreasingScopesAreDistinct, MovesTakeRows, TakenPlacesAreVacant, MovesBringRows, ChangesAreApart, AwayRowsAreOfBlocks, TakenRowsAreRestricted, BroughtRowsAreMerged, MovesTurnBack};

/// If the keys are those of a store, the one block is better by them if and only if it is better by
/// its rows.
pub fn betters_are_by_key()
    ensures { BettersAreByKey }
{}

/// A block has a key if and only if a row of it is Opened. The store is quiet if and only if no
/// block has a key.
pub fn opened_is_by_key()
    ensures { OpenedIsByKey }
{}

/// The rival of a block by the keys is its rival in the lease machine.
pub fn rivals_are_by_key()
    ensures { RivalsAreByKey }
{}

/// The best block by the keys of those that pass is the first choice of the lease machine.
pub fn first_choices_are_by_key()
    ensures { FirstChoicesAreByKey }
{}

/// The key of a block at home is that of its first Opened row.
pub fn home_keys_are_best()
    ensures { HomeKeysAreBest }
{}

/// If all blocks are at home, the keys are those of the rows at home.
pub fn keys_at_home_are_best()
    ensures { KeysAtHomeAreBest }
{}

/// Homes without a row, except the start's, have the rows of the opening store.
pub fn opening_rows_are_home()
    ensures { OpeningRowsAreHome }
{}

/// Keys that are noted anew are those of the store with the rows that came.
pub fn noted_keys_are_best()
    ensures { NotedKeysAreBest }
{}

/// A list of blocks in strictly increasing order has each once.
pub fn increasing_scopes_are_distinct()
    ensures { IncreasingScopesAreDistinct }
{}

/// The rows that leave home are those of the scope.
pub fn moves_take_rows()
    ensures { MovesTakeRows }
{}

/// The places of blocks whose bundles left home are vacant.
pub fn taken_places_are_vacant()
    ensures { TakenPlacesAreVacant }
{}

/// The rows that come home are those of the bundles that come.
pub fn moves_bring_rows()
    ensures { MovesBringRows }
{}

/// A change of one bundle that is away changes no other.
pub fn changes_are_apart()
    ensures { ChangesAreApart }
{}

/// The rows of bundles that are away are of their blocks alone.
pub fn away_rows_are_of_blocks()
    ensures { AwayRowsAreOfBlocks }
{}

/// The store of the rows that are taken is the restriction to the scope.
pub fn taken_rows_are_restricted()
    ensures { TakenRowsAreRestricted }
{}

/// The store with the rows that come home is the merged one.
pub fn brought_rows_are_merged()
    ensures { BroughtRowsAreMerged }
{}

/// Rows that are taken and come home unchanged leave home unchanged.
pub fn moves_turn_back()
    ensures { MovesTurnBack }
{}
