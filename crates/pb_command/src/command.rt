//! The commands that words may ask for, with all their values.

use pb_machine::Settings;
use pb_task::{Grounding, Kind};

/// The names of the files of a grid.
#[derive(Clone, Copy)]
pub struct GridFiles<'a> {
    /// The map's file.
    pub map: &'a str,
    /// The scenario's file.
    pub scenario: &'a str,
}

/// The names of the files of a STRIPS problem in PDDL.
#[derive(Clone, Copy)]
pub struct StripsFiles<'a> {
    /// The domain's file.
    pub domain: &'a str,
    /// The problem's file.
    pub problem: &'a str,
}

/// The kind of the task, with the names of its files.
#[derive(Clone, Copy)]
pub enum Input<'a> {
    /// `grid MAP SCEN`: a grid of the MovingAI benchmarks (Sturtevant, "Benchmarks for grid-based
    /// pathfinding", 2012).
    Grid(GridFiles<'a>),
    /// `tiles BOARD`: a sliding-tile puzzle, with the name of the board's file.
    Tiles(&'a str),
    /// `strips DOMAIN PROBLEM`: a STRIPS problem (Fikes and Nilsson, 1971) in PDDL (McDermott and
    /// others, "PDDL, the Planning Domain Definition Language", 1998).
    Strips(StripsFiles<'a>),
}

/// What the command line says of how the files of a task are read.
#[derive(Clone, Copy)]
pub struct InputOptions {
    /// The row of the scenario, counted from 0: 0 to 1,000,000. Only a grid has a scenario.
    pub row: u64,
    /// `--swamp`: entering an `S` cell of a map costs 2. Only a grid has a map.
    pub swamp: bool,
    /// `--reachable`: which ground atoms and actions of a STRIPS problem have numbers. It is looked
    /// at for STRIPS alone.
    pub grounding: Grounding,
}

/// How a task is searched.
#[derive(Clone, Copy)]
pub enum Engine {
    /// `--engine pbnf`: by leases of blocks (parallel best-NBlock-first search: Burns, Lemons, Ruml
    /// and Zhou, "Best-First Heuristic Search for Multicore Machines", 2010).
    Leases,
    /// `--engine hda`: by owners of states, who send each other letters (hash-distributed A*:
    /// Kishimoto, Fukunaga and Botea, "Scalable, Parallel Best-First Search for Optimal Sequential
    /// Planning", 2009).
    Owners,
}

/// `solve KIND FILE [FILE]` and its options.
#[derive(Clone, Copy)]
pub struct SolveCommand<'a> {
    /// The task.
    pub input: Input<'a>,
    /// How its files are read.
    pub options: InputOptions,
    /// What the search is run with. Its weight is at least 1.
    pub settings: Settings,
    /// `--engine WORD`: how the task is searched.
    pub engine: Engine,
    /// `--estimate tables` with `--effort E`: how much is looked at to find tables for the estimate,
    /// if they are asked for: 1 to 20. It is looked at for STRIPS alone. The tables state a
    /// saturated cost partitioning (Seipp, Keller and Helmert, "Saturated Cost Partitioning for
    /// Optimal Classical Planning", 2020). No pattern database is asked for beside them.
    pub effort: Option<u32>,
    /// `--tables FILE`: the name of a file of tables, if one is given. It is looked at for STRIPS
    /// alone. Beside it neither a pattern database is asked for, nor tables that are looked for.
    pub tables: Option<&'a str>,
    /// `--cert NAME`: the name under which the certificate is to be saved, if one is given.
    pub certificate: Option<&'a str>,
    /// `--trace NAME`: the name under which the journal is to be saved, if one is given. It isn't
    /// the certificate's. By owners a search keeps no journal, so then none is given.
    pub journal: Option<&'a str>,
}

/// `solve KIND FILE [FILE] --falling S` and its other options: runs at falling weights over the
/// same rows (Likhachev, Gordon and Thrun, "ARA*: Anytime A* with Provable Bounds on
/// Sub-Optimality", 2003; Hansen and Zhou, "Anytime Heuristic Search", 2007).
#[derive(Clone, Copy)]
pub struct FallingCommand<'a> {
    /// The task, and what the first run is run with. It is searched by leases, and no journal is
    /// asked for.
    pub solve: SolveCommand<'a>,
    /// `--falling S`: in how many steps the weight falls to 1: 1 to 20.
    pub steps: u64,
}

/// `check KIND CERT FILE [FILE]` and its options.
#[derive(Clone, Copy)]
pub struct CheckCommand<'a> {
    /// The task.
    pub input: Input<'a>,
    /// The certificate's file.
    pub certificate: &'a str,
    /// How the files of the task are read.
    pub options: InputOptions,
    /// `--workers W`: how many workers judge the rows of the certificate: 1 to 64.
    pub workers: u64,
    /// `--rewrite NAME`: the name under which the certificate is to be saved, if one is given and
    /// the certificate is accepted. One of version 1 is saved in version 2, one of a later version
    /// as it is. The name isn't that of a file that is loaded.
    pub rewrite: Option<&'a str>,
}

/// `journal KIND JOURNAL FILE [FILE]` and its options.
#[derive(Clone, Copy)]
pub struct JournalCommand<'a> {
    /// The task.
    pub input: Input<'a>,
    /// The journal's file.
    pub journal: &'a str,
    /// How the files of the task are read: without swamp, since the blocks are the same with it.
    /// Another grounding makes other blocks.
    pub options: InputOptions,
}

/// `make KIND SEED SIZE [--workers W]`.
#[derive(Clone, Copy)]
pub struct MakeCommand {
    /// The kind of the task that is made.
    pub kind: Kind,
    /// What its numbers are drawn from: 0 to 2^32 - 1.
    pub seed: u64,
    /// Its size: the side of a grid, 1 to 2,048; the moves of a 3 by 3 board, 0 to 1,000,000; the
    /// blocks of a STRIPS problem, 1 to 14.
    pub size: u64,
    /// How many workers search: 1 to 64.
    pub workers: u64,
}

/// What words ask for.
#[derive(Clone, Copy)]
pub enum CommandLine<'a> {
    /// Search for a plan.
    Solve(SolveCommand<'a>),
    /// Search for a plan, and then for better ones.
    Falling(FallingCommand<'a>),
    /// Check a certificate.
    Check(CheckCommand<'a>),
    /// Check a journal.
    Journal(JournalCommand<'a>),
    /// Make a task and solve it.
    Make(MakeCommand),
}
