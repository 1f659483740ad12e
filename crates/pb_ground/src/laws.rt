//! Laws on ground atoms, instances and steps. Each is the contract of a function without a body.
ghost use Rattle.pb_ground.specs.Keeping.{AllAtomsAreACase, KeptAtomsAreAll, KeptAtomsSuffice, KeptStepsCorrespond};
ghost use Rattle.pb_ground.specs.Members.{AtomsAreAll, InstancesAreAll};
ghost use Rattle.pb_ground.specs.Steps.{StaticsAreKept, StepsCorrespond};
ghost use Rattle.pb_ground.specs.WorkedRows.{AllHaveNumbers, FiveHaveNumbers, NeverIsKnown, OthersAreLeftOut};

/// The instances of parameters are all lists of fitting objects, and no others.
pub fn instances_are_all()
    ensures { InstancesAreAll }
{}

/// The ground atoms are all instances of fluent predicates by fitting objects, and no others.
pub fn atoms_are_all()
    ensures { AtomsAreAll }
{}

/// For a state by bits, and an instance of a schema whose fluent preconditions are numbered: the
/// instance is applicable by atoms if and only if its static preconditions hold and its ground
/// action is applicable by bits. Both lead to the same state.
pub fn steps_correspond()
    ensures { StepsCorrespond }
{}

/// A step changes no atom of a static predicate.
pub fn statics_are_kept()
    ensures { StaticsAreKept }
{}

/// All atoms may be kept, and then all ground atoms are.
pub fn all_atoms_are_a_case()
    ensures { AllAtomsAreACase }
{}

/// The kept ground atoms are the kept instances of fluent predicates by fitting objects, and no
/// others.
pub fn kept_atoms_are_all()
    ensures { KeptAtomsAreAll }
{}

/// No step leads from kept atoms to others, and what it needs is kept. A kept ground atom has a
/// number.
pub fn kept_atoms_suffice()
    ensures { KeptAtomsSuffice }
{}

/// For a state by bits in which only kept atoms hold, and an instance of a schema whose kept fluent
/// preconditions are numbered: the instance is applicable by atoms if and only if its preconditions
/// are kept and its ground action is applicable by bits. Both lead to the same state.
pub fn kept_steps_correspond()
    ensures { KeptStepsCorrespond }
{}

/// The definitions on a small task.
pub fn worked_rows()
    ensures all { AllHaveNumbers }
    ensures kept { FiveHaveNumbers }
    ensures others { OthersAreLeftOut }
    ensures never { NeverIsKnown }
{}
