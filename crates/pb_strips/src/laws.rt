//! Laws on steps, plans and printed names of the task, as those by names. Each is the contract of a
//! function without a body.
ghost use Rattle.pb_strips.specs.Correspondence.{AllAreKept, GroundedPlansAreByNames, KeptPlansAreByNames, KeptStepsAreByNames, PackedStepsAreSteps, StepsArePackedSteps, StartsAgree, GoalsAgree, PackedPlansArePlans, PlansArePackedPlans};
ghost use Rattle.pb_strips.specs.Names.{TextsKeepNames};
ghost use Rattle.pb_strips.specs.Refusals.{ReachedIsAccepted};
ghost use Rattle.pb_strips.specs.Naming.{GroundedNamesTellActions, KeptNamesTellActions, NamesTellActions, NamesArePrinted};

/// If a domain and a problem are a task, the steps of the packed states are those of the states by
/// names, in both directions. Costs and printed names agree, and so do start and goals.
pub fn steps_are_lifted()
    ensures packed { PackedStepsAreSteps }
    ensures lifted { StepsArePackedSteps }
    ensures start { StartsAgree }
    ensures goals { GoalsAgree }
{}

/// If a domain and a problem are a task, the plans by numbers are those by names, with the same
/// cost and names of actions.
pub fn plans_are_lifted()
    ensures packed { PackedPlansArePlans }
    ensures lifted { PlansArePackedPlans }
{}

/// If nothing of a domain and a problem is refused, the task of the kept atoms and the task by names
/// have the same steps, costs, printed names, start, goals and plans. That holds for each set of kept
/// atoms that is closed and has a static atom only if that holds at first (`IsKeeping`). A set is
/// closed if two things hold. It has what holds at first. If it has the preconditions of an instance
/// of an action, it also has what that instance adds.
///
/// If names are words, no two actions have one printed name, whichever atoms are kept. If all are
/// kept, it is the task of all ground atoms.
pub fn kept_atoms_are_enough()
    ensures steps { KeptStepsAreByNames }
    ensures plans { KeptPlansAreByNames }
    ensures names { KeptNamesTellActions }
    ensures all { AllAreKept }
{}

/// If a domain and a problem are a task of a grounding, its plans are those by names, with the same
/// cost and names of actions. If their names are words, no two of its actions have one printed name.
pub fn groundings_are_by_names()
    ensures plans { GroundedPlansAreByNames }
    ensures names { GroundedNamesTellActions }
{}

/// If nothing of a domain and a problem is at fault with all ground atoms, nothing is at fault with
/// those that are reached.
pub fn reached_is_accepted()
    ensures { ReachedIsAccepted }
{}

/// The text of a ground action's name has the bytes of the names of the action and its objects, if
/// these are UTF-8.
pub fn texts_keep_names()
    ensures { TextsKeepNames }
{}

/// If a domain and a problem whose names are words are a task, the printed names of its ground
/// actions differ. No such name has a line feed.
pub fn names_tell_actions()
    ensures { NamesTellActions }
{}

/// If the names of a domain and a problem are words, the actions of each plan by names are printed
/// as `(name object ..)`. Each name is printed with its own bytes.
pub fn names_are_printed()
    ensures { NamesArePrinted }
{}
