//! Laws on typing, and on the task by numbers as the task by names. Each is the contract of a
//! function without a body.
ghost use Rattle.pb_lifted.specs.Plans.{GroundPlansArePlans, PlansAreGroundPlans, GroundPlansCostTheSame};
ghost use Rattle.pb_lifted.specs.InstanceTypes.{InstancesAreTyped, StartIsTyped, GoalIsTyped};
ghost use Rattle.pb_lifted.specs.WaysUp.{MoreStepsChangeNothing, MoreStepsOfNumbersChangeNothing, ObjectIsReached, BelowIsReflexive, BelowIsTransitive};
ghost use Rattle.pb_lifted.specs.WorkedRows.{SubtypeIsBelow, CycleIsFound, RepeatedNamesAreFound, DomainComesFirst, TurningIsLifted, WrongTypeIsRefused, DeletedAndAddedHolds, MetricDecides, CostsAreRefused};
ghost use Rattle.pb_lifted.specs.Facts.{NumbersKeepFacts};
ghost use Rattle.pb_lifted.specs.Typing.{AcceptedIsWellTyped, WellTypedIsAccepted, FittingAtomsKeepFacts};
ghost use Rattle.pb_lifted.specs.Steps.{GroundStepsAreSteps, StepsAreGroundSteps, GroundStartIsStart, GroundGoalIsGoal, SchemasCostTheSame, CostsAreInRange};

/// An atom of known names means the same fact by numbers and by names, whatever objects are given
/// to the parameters.
pub fn numbers_keep_facts()
    ensures { NumbersKeepFacts }
{}

/// If nothing is refused, all of this holds, so that each atom means one fact, by numbers and by
/// names:
///
/// - The problem is of this domain, and the limits are kept.
/// - All types lead to `object`.
/// - No two types, objects, predicates or actions have one name, nor two parameters of one action.
/// - Names are known.
/// - Arguments are as many as parameters, and each is of its parameter's type or of one below.
pub fn accepted_is_well_typed()
    ensures typed { AcceptedIsWellTyped }
    ensures facts { FittingAtomsKeepFacts }
{}

/// A domain and a problem that are well typed are refused for nothing. So they are refused if
/// and only if they are not well typed.
pub fn well_typed_is_accepted()
    ensures { WellTypedIsAccepted }
{}

/// If nothing is refused, the lifted task has the same start, steps and goals by numbers as the
/// domain and the problem by names.
pub fn numbers_keep_steps()
    ensures by_names { GroundStepsAreSteps }
    ensures by_numbers { StepsAreGroundSteps }
    ensures start { GroundStartIsStart }
    ensures goal { GroundGoalIsGoal }
{}

/// If nothing is refused, the plans are the same by numbers and by names: the same actions with the
/// same objects.
pub fn numbers_keep_plans()
    ensures by_names { GroundPlansArePlans }
    ensures by_numbers { PlansAreGroundPlans }
{}

/// A schema costs as much as its action by the trees. So plans by numbers cost as much as plans by
/// names. If nothing is refused, each action costs 1 to 2^20.
pub fn numbers_keep_costs()
    ensures schemas { SchemasCostTheSame }
    ensures plans { GroundPlansCostTheSame }
    ensures range { CostsAreInRange }
{}

/// If nothing is refused, the facts of the lifted task are of declared predicates. Each object in
/// them is of its parameter's type or of one below. The facts are those that instances need, add
/// and delete, those of the start, and those of the goal.
pub fn instances_are_typed()
    ensures actions { InstancesAreTyped }
    ensures start { StartIsTyped }
    ensures goal { GoalIsTyped }
{}

/// The way up from a type is counted far enough: more steps come to no other type, by names and by
/// numbers. To be below is thus reflexive and transitive.
pub fn ways_up_are_far_enough()
    ensures numbers { MoreStepsOfNumbersChangeNothing }
    ensures names { MoreStepsChangeNothing }
    ensures object { ObjectIsReached }
    ensures reflexive { BelowIsReflexive }
    ensures transitive { BelowIsTransitive }
{}

/// The definitions on small trees: a subtype, types in a circle, a repeated name, a task and its
/// numbers, an argument of a wrong type, a fact both deleted and added, and actions with costs.
pub fn worked_rows()
    ensures subtype { SubtypeIsBelow }
    ensures cycle { CycleIsFound }
    ensures repeated { RepeatedNamesAreFound }
    ensures first { DomainComesFirst }
    ensures lifted { TurningIsLifted }
    ensures wrong_type { WrongTypeIsRefused }
    ensures added { DeletedAndAddedHolds }
    ensures metric { MetricDecides }
    ensures costs { CostsAreRefused }
{}
