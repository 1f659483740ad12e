//! A lease: the bundles of a block's scope, with what its worker may do with them.
ghost use Rattle.std.specs.Prelude.{◌≡◌, ◌+◌, ◌<◌, ◌≤◌, ◌^◌, Some, IsSome};
ghost use Rattle.std.specs.Borrow.{sem};
ghost use Rattle.pb_model.specs.Store.{lesser};
ghost use Rattle.pb_model.specs.Weight.{IsWeight};
ghost use Rattle.pb_bundles.specs.Parts.{content_in};
ghost use Rattle.pb_lease.specs.Lending.{LendsBundle};

use pb_bundles::LentBundles;
use pb_estimate::Choice;
use pb_lists::Bundle;
use std::marker::Model;

/// The bundles of a block's scope, which a worker has taken to expand rows of the block (structured
/// duplicate detection, Zhou and Hansen 2004). A lease goes back to the graph that it came from,
/// and is never dropped.
pub struct Lease {
    pub(crate) worker: u32,
    pub(crate) block: u32,
    pub(crate) quota: u64,
    pub(crate) used: u64,
    pub(crate) incumbent: Option<u64>,
    pub(crate) num: u64,
    pub(crate) den: u64,
    pub(crate) choice: Choice,
    pub(crate) parts: LentBundles,
}

impl Model for Lease {
    ghost use Rattle.pb_lease.specs.LeaseValue.{LeaseValue, IsLease};

    ghost Value = { LeaseValue };

    ghost view = { λ l. record {
      worker = l.worker;
      block = l.block;
      quota = l.quota;
      used = l.used;
      incumbent = l.incumbent;
      weight = record { num = l.num; den = l.den };
      choice = l.choice;
      parts = l.parts.parts;
      fits = l.parts.fits;
    } };

    ghost invariant = { λ l. IsLease (record {
      worker = l.worker;
      block = l.block;
      quota = l.quota;
      used = l.used;
      incumbent = l.incumbent;
      weight = record { num = l.num; den = l.den };
      choice = l.choice;
      parts = l.parts.parts;
      fits = l.parts.fits;
    }) };
}

impl Lease {
    /// The worker that has the lease.
    pub fn worker(&self) -> u32
        ensures { result ≡ self.now.worker }
    {
        self.worker
    }

    /// The block that the lease is of.
    pub fn block(&self) -> u32
        ensures { result ≡ self.now.block }
    {
        self.block
    }

    /// How many expansions the worker may make before it gives the lease back or renews it: at most
    /// 2^20.
    pub fn quota(&self) -> u64
        ensures quota { result ≡ self.now.quota }
        ensures few { self.now.quota ≤ 2 ^ 20 }
        ensures within { self.now.used ≤ self.now.quota }
    {
        self.quota
    }

    /// How many expansions were made since the lease was given or last renewed.
    pub fn used(&self) -> u64
        ensures used { result ≡ self.now.used }
        ensures within { self.now.used ≤ self.now.quota }
    {
        self.used
    }

    /// The least cost at which a goal is known to be reached, in the unit of the task's action
    /// costs. None if no cost is known.
    pub fn incumbent(&self) -> Option<u64>
        ensures { result ≡ self.now.incumbent }
    {
        self.incumbent
    }

    /// The numerator and the denominator of the search's weight.
    pub fn weight(&self) -> (u64, u64)
        ensures weight { self.now.weight ≡ record { num = result.0; den = result.1 } }
        ensures is_weight { IsWeight self.now.weight }
    {
        (self.num, self.den)
    }

    /// The choice of the estimate that the search goes by.
    pub fn choice(&self) -> &Choice
        ensures { result.now ≡ self.now.choice }
    {
        &self.choice
    }

    /// The bundle of a block of the scope.
    pub fn bundle(&self, block: u32) -> &Bundle
        requires { IsSome (content_in self.now.parts block) }
        ensures { content_in self.now.parts block ≡ Some result.now }
    {
        self.parts.bundle(block)
    }

    /// The bundle of a block of the scope, to be changed. A change to it changes no other bundle.
    pub fn bundle_mut(&mut self, block: u32) -> &mut Bundle
        requires { IsSome (content_in self.old.parts block) }
        ensures* writes_back { sem 𝓛 (LendsBundle self.entry block result) }
        ensures value { content_in self.old.parts block ≡ Some result.now }
    {
        self.parts.bundle_mut(block)
    }

    /// Counts an expansion.
    pub fn spend(&mut self)
        requires { self.old.used < self.old.quota }
        ensures { self.new ≡ record self.old { used = self.old.used + 1 } }
    {
        self.used += 1;
    }

    /// Takes a cost at which a goal is reached: the incumbent becomes the lesser of both.
    pub fn lower_incumbent(&mut self, cost: u64)
        ensures { self.new ≡ record self.old { incumbent = lesser self.old.incumbent (Some cost) } }
    {
        self.incumbent = match self.incumbent {
            None => Some(cost),
            Some(incumbent) => Some(incumbent.min(cost)),
        };
    }
}
