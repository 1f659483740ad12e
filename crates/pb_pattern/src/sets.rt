//! Projected tasks of STRIPS: the images are the sets of a few atoms.
ghost use Rattle.std.specs.Prelude.{◌≡◌, ◌<◌, ◌≤◌, ◌^◌, length};
ghost use Rattle.pb_task.specs.Strips.{is_strips_goal, strips_step};
ghost use Rattle.pb_pattern.specs.Costs.{IsTable, Looks, IsStepAt, IsByOne, IsAnyStep};
ghost use Rattle.pb_pattern.specs.Graphs.{parts_of, sets_space, IsSets};

use crate::costs::relax;

/// A ground action as far as it concerns the tracked atoms.
#[derive(Clone, Copy)]
pub struct Rule {
    /// The atoms that must hold before it.
    pub needs: u32,
    /// The atoms that hold after it.
    pub adds: u32,
    /// The atoms that it deletes; those that it also adds hold after it.
    pub deletes: u32,
    /// Its cost: 1 to 2^20.
    pub cost: u64,
}

/// A STRIPS task over the tracked atoms alone. A set of them is a number of at most 12 bits.
#[derive(Drop)]
pub struct Sets {
    /// How many atoms are tracked: at most 12.
    pub atoms: u32,
    /// The ground actions, at most 65,536.
    pub rules: Vec<Rule>,
    /// The tracked atoms that hold at first.
    pub start: u32,
    /// The tracked atoms that must hold in a goal.
    pub goal: u32,
}

impl Sets {
    /// How many images there are.
    pub fn images(&self) -> u32
        requires { IsSets self.now }
        ensures { result ≡ 2 ^ self.now.atoms }
    {
        1 << self.atoms
    }

    /// Whether an image is a goal.
    pub fn is_goal(&self, image: u32) -> bool
        requires sets { IsSets self.now }
        ensures { result ≡ is_strips_goal (parts_of self.now) image }
    {
        self.goal & image == self.goal
    }

    /// The step from an image by an action.
    #[inline]
    pub fn step(&self, image: u32, action: usize) -> Option<(u32, u64)>
        requires sets { IsSets self.now }
        requires image { image < 2 ^ self.now.atoms }
        requires action { action < length self.now.rules.items }
        ensures { result ≡ strips_step (parts_of self.now) image action }
    {
        let rule = self.rules[action];
        if rule.needs & image == rule.needs {
            Some((rule.adds | (image & !rule.deletes), rule.cost))
        } else {
            None
        }
    }

    // Looks at the step from an image by an action.
    #[inline]
    fn look_at(&self, costs: &mut [u64], image: u32, action: usize) -> bool
        requires sets { IsSets self.now }
        requires table { IsTable (sets_space self.now) (2 ^ self.now.atoms) costs.old }
        requires image { image < 2 ^ self.now.atoms }
        requires action { action < length self.now.rules.items }
        ensures { Looks (sets_space self.now) (2 ^ self.now.atoms) (IsStepAt image action) costs.old
            costs.new result }
    {
        let step = self.step(image, action);
        relax(costs, image, step)
    }

    // Looks at the steps by an action from each image.
    fn look_by(&self, costs: &mut [u64], action: usize) -> bool
        requires sets { IsSets self.now }
        requires table { IsTable (sets_space self.now) (2 ^ self.now.atoms) costs.old }
        requires action { action < length self.now.rules.items }
        ensures { Looks (sets_space self.now) (2 ^ self.now.atoms) (IsByOne action) costs.old
            costs.new result }
    {
        let mut changed = false;
        for image in 0..self.images() {
            let lower = self.look_at(costs, image, action);
            changed = changed | lower;
        }
        changed
    }

    /// Looks at each step once: whether one made an image cheaper.
    pub fn look(&self, costs: &mut [u64]) -> bool
        requires sets { IsSets self.now }
        requires table { IsTable (sets_space self.now) (2 ^ self.now.atoms) costs.old }
        ensures { Looks (sets_space self.now) (2 ^ self.now.atoms) IsAnyStep costs.old costs.new
            result }
    {
        let mut changed = false;
        for action in 0..self.rules.len() {
            let lower = self.look_by(costs, action);
            changed = changed | lower;
        }
        changed
    }

    // Looks at steps by an action into an image.
    fn look_into_by(&self, costs: &mut [u64], image: u32, action: usize)
        requires sets { IsSets self.now }
        requires table { IsTable (sets_space self.now) (2 ^ self.now.atoms) costs.old }
        requires action { action < length self.now.rules.items }
        ensures { IsTable (sets_space self.now) (2 ^ self.now.atoms) costs.new }
    {
        let rule = self.rules[action];
        let changed = rule.adds | rule.deletes;
        let kept = image & !changed;
        let lost = rule.deletes & !rule.adds;
        let wanted = rule.needs & !changed;
        if rule.adds & image != rule.adds || lost & image != 0 || wanted & kept != wanted {
            return;
        }
        let free = changed & !rule.needs;
        let mut part = 0u32;
        // `part` goes through the subsets of `free`; there are no more than images.
        for _ in 0..self.images() {
            let before = kept | rule.needs | part;
            // No clause says that `image` is in range, and `look_at` needs that.
            if before < self.images() {
                self.look_at(costs, before, action);
            }
            // The next subset of `free`, and 0 after the last one. From 0 the subtraction wraps, as
            // it should.
            part = part.wrapping_sub(free) & free;
            if part == 0 {
                return;
            }
        }
    }

    /// Looks at the steps that lead into an image.
    pub fn look_into(&self, costs: &mut [u64], image: u32)
        requires sets { IsSets self.now }
        requires table { IsTable (sets_space self.now) (2 ^ self.now.atoms) costs.old }
        ensures { IsTable (sets_space self.now) (2 ^ self.now.atoms) costs.new }
    {
        for action in 0..self.rules.len() {
            self.look_into_by(costs, image, action);
        }
    }
}
