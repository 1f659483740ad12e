//! Laws on how made texts are read, as contracts of functions without a body.
ghost use Rattle.pb_make_laws.specs.Laws.{BlocksDomainIsRead, MadeBoardsAreSpelled, MadeMapsAreSpelled, MadeProblemsAreTasks};

/// The texts of a made map and its scenario spell a grid: the drawn cells, from the first to the
/// last.
pub fn made_maps_are_spelled()
    ensures { MadeMapsAreSpelled }
{}

/// The text of a made board spells tiles, 3 by 3, from the made board to the usual goal.
pub fn made_boards_are_spelled()
    ensures { MadeBoardsAreSpelled }
{}

/// The text of the domain of the blocks world is read without a refusal.
pub fn blocks_domain_is_read()
    ensures { BlocksDomainIsRead }
{}

/// The text of a made problem is read, and with the domain of the blocks world it is a task.
pub fn made_problems_are_tasks()
    ensures { MadeProblemsAreTasks }
{}
