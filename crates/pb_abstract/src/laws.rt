//! The laws of this crate. Each is the contract of a function without a body.
ghost use Rattle.pb_abstract.specs.Laws.{AbstractGraphsAreBlocks, EdgesAreSteps, GraphsAreUnique, BlocksAskForNoCosts};

/// Each state's home is a block of the task's graph, and each step stays in its block or goes along
/// an edge.
pub fn abstract_graphs_are_blocks()
    ensures { AbstractGraphsAreBlocks }
{}

/// An edge leads from one block to another if and only if some state of the one has a successor in
/// the other.
pub fn edges_are_steps()
    ensures { EdgesAreSteps }
{}

/// A task has one graph at most for a number of blocks that is wished for.
pub fn graphs_are_unique()
    ensures { GraphsAreUnique }
{}

/// No cost decides which blocks there are: a grid has the same graph whatever its marks of swamp.
pub fn blocks_ask_for_no_costs()
    ensures { BlocksAskForNoCosts }
{}
