//! The least costs of all images of a projected task, whichever kind of task it is.
ghost use Rattle.std.specs.Prelude.{◌≡◌, ◌<◌, ◌≤◌, ◌^◌, IfOk, if◌then◌else◌};
ghost use Rattle.pb_pattern.specs.Costs.{AreLeast, IsTable, Looks, IsAnyStep};
ghost use Rattle.pb_pattern.specs.Graphs.{space_in, images_in, IsGraph};

use crate::costs::UNKNOWN;
use crate::pieces::Pieces;
use crate::sets::Sets;
use std::alloc::{AllocError, Global};

/// A projected task: images with numbers, and the steps between them.
#[derive(Drop)]
pub enum Graph {
    /// Sets of the tracked atoms.
    Sets(Sets),
    /// Cells of the blank and the tracked tiles.
    Pieces(Pieces),
}

impl Graph {
    // How many images there are.
    fn images(&self) -> u32
        requires { IsGraph self.now }
        ensures images { result ≡ images_in self.now }
        ensures few { result ≤ 65536 }
    {
        match self {
            Graph::Sets(sets) => sets.images(),
            Graph::Pieces(pieces) => pieces.images(),
        }
    }

    // Whether an image is a goal.
    fn is_goal(&self, image: u32) -> bool
        requires { IsGraph self.now }
        ensures { result ≡ (space_in self.now).is_goal image }
    {
        match self {
            Graph::Sets(sets) => sets.is_goal(image),
            Graph::Pieces(pieces) => pieces.is_goal(image),
        }
    }

    // Looks at each step once: whether one made an image cheaper.
    fn look(&self, costs: &mut [u64]) -> bool
        requires graph { IsGraph self.now }
        requires table { IsTable (space_in self.now) (images_in self.now) costs.old }
        ensures { Looks (space_in self.now) (images_in self.now) IsAnyStep costs.old costs.new
            result }
    {
        match self {
            Graph::Sets(sets) => sets.look(costs),
            Graph::Pieces(pieces) => pieces.look(costs),
        }
    }

    // Looks at the steps that lead into an image.
    fn look_into(&self, costs: &mut [u64], image: u32)
        requires graph { IsGraph self.now }
        requires image { image < images_in self.now }
        requires table { IsTable (space_in self.now) (images_in self.now) costs.old }
        ensures { IsTable (space_in self.now) (images_in self.now) costs.new }
    {
        match self {
            Graph::Sets(sets) => sets.look_into(costs, image),
            Graph::Pieces(pieces) => pieces.look_into(costs, image),
        }
    }

    // Looks at the steps that lead into images of this cost.
    fn look_into_level(&self, costs: &mut [u64], level: u64)
        requires graph { IsGraph self.now }
        requires table { IsTable (space_in self.now) (images_in self.now) costs.old }
        ensures { IsTable (space_in self.now) (images_in self.now) costs.new }
    {
        for image in 0..self.images() {
            if costs[image as usize] == level {
                self.look_into(costs, image);
            }
        }
    }

    // Backward from the goals, the cheapest images first (E. W. Dijkstra, "A note on two problems
    // in connexion with graphs", 1959). No proof depends on this order: it only spares rounds.
    fn approach(&self, costs: &mut [u64])
        requires graph { IsGraph self.now }
        requires table { IsTable (space_in self.now) (images_in self.now) costs.old }
        ensures { IsTable (space_in self.now) (images_in self.now) costs.new }
    {
        let mut level = 0;
        // Each round has another level, so there are no more rounds than images.
        for _ in 0..self.images() {
            self.look_into_level(costs, level);
            match next_level(costs, level) {
                Some(next) => level = next,
                None => return,
            }
        }
    }

    // Rounds in which each step is looked at once (R. Bellman, "On a routing problem", 1958), until
    // none makes an image cheaper.
    fn settle(&self, costs: &mut [u64])
        requires graph { IsGraph self.now }
        requires table { IsTable (space_in self.now) (images_in self.now) costs.old }
        ensures { AreLeast (space_in self.now) (images_in self.now) costs.new }
    {
        // A walk of least cost visits no image twice. So after as many rounds as images all costs
        // are least.
        for _round in 0..self.images() {
            if !self.look(costs) {
                return;
            }
        }
    }

    // What an image costs before the first step: nothing if it is a goal.
    fn first_cost(&self, image: u32) -> u64
        requires { IsGraph self.now }
        ensures { result ≡ (if (space_in self.now).is_goal image then 0 else 2 ^ 62) }
    {
        if self.is_goal(image) { 0 } else { UNKNOWN }
    }

    // A goal costs nothing, and no other cost is known.
    fn from_goals(&self, alloc: Global) -> Result<Vec<u64>, AllocError>
        requires graph { IsGraph self.now }
        ensures { IfOk result (λ costs. IsTable (space_in self.now) (images_in self.now)
            costs.items) }
    {
        let mut costs = vec![in alloc; UNKNOWN; self.images() as usize]?;
        for image in 0..self.images() {
            costs[image as usize] = self.first_cost(image);
        }
        Ok(costs)
    }

    /// The least cost of a walk from each image to a goal. An error is out of memory.
    pub fn least_costs(&self, alloc: Global) -> Result<Vec<u64>, AllocError>
        requires graph { IsGraph self.now }
        ensures { IfOk result (λ costs. AreLeast (space_in self.now) (images_in self.now)
            costs.items) }
    {
        let mut costs = self.from_goals(alloc)?;
        let table = costs.as_mut_slice();
        self.approach(table);
        self.settle(table);
        Ok(costs)
    }
}

// The least cost above a level that some image is known to have.
fn next_level(costs: &[u64], level: u64) -> Option<u64> {
    let mut next = None;
    for cost in costs {
        if level < *cost && *cost < next.unwrap_or(UNKNOWN) {
            next = Some(*cost);
        }
    }
    next
}
