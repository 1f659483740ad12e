//! Laws on state spaces of tasks, on digits and successors of states, and on faults of plans. Each
//! is the contract of a function without a body.
ghost use Rattle.pb_task.specs.Widths.{StatesFitTheirWidth};
ghost use Rattle.pb_task.specs.Laws.{GridsAreProper, TilesAreProper, BoardsArePacked, TilesSlide, StripsAreProper, StripsAct, SetsAreOfAtoms, TasksAreProper, DegreesAreBounded, FaultsAreUnique, FaultsKeepFromPlans};

/// The steps of a grid are by four actions, lead from states to states and cost 1 or 2. Its states
/// have 22 bits.
pub fn grids_are_proper()
    ensures { GridsAreProper }
{}

/// The steps of sliding tiles are by four actions, lead from boards to boards and cost 1. Their
/// states have 64 bits.
pub fn tiles_are_proper()
    ensures { TilesAreProper }
{}

/// Boards of at most 16 cells and their states are one to one, and each number has four bits.
pub fn boards_are_packed()
    ensures { BoardsArePacked }
{}

/// The steps of sliding tiles are exactly the exchanges of a board's blank and the tile beside it
/// in the action's direction.
pub fn tiles_slide()
    ensures { TilesSlide }
{}

/// The steps of a STRIPS task are by its actions, lead between sets of its atoms and cost 1 to
/// 2^20. Its states have as many bits as a task may have atoms.
pub fn strips_are_proper()
    ensures { StripsAreProper }
{}

/// The steps of a STRIPS task are those by which an action acts. The atoms that the action needs
/// hold before it. After it the atoms hold that it adds, and those from before that it doesn't
/// delete.
pub fn strips_act()
    ensures { StripsAct }
{}

/// A set of atoms has those atoms that its test accepts, and is known by its atoms.
pub fn sets_are_of_atoms()
    ensures { SetsAreOfAtoms }
{}

/// The state space of a task is proper.
pub fn tasks_are_proper()
    ensures { TasksAreProper }
{}

/// A state of a task has no more hexadecimal digits than the task's width, which is 1 to 256.
pub fn states_fit_their_width()
    ensures { StatesFitTheirWidth }
{}

/// No state of a task has more successors than its greatest degree.
pub fn degrees_are_bounded()
    ensures { DegreesAreBounded }
{}

/// A list of actions has one fault at most.
pub fn faults_are_unique()
    ensures { FaultsAreUnique }
{}

/// A list of actions that has a fault is no plan.
pub fn faults_keep_from_plans()
    ensures { FaultsKeepFromPlans }
{}
