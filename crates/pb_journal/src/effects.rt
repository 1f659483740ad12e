//! What an event leaves.
ghost use Rattle.std.specs.Prelude.{◌≡◌, ◌==◌, ◌+◌, ◌-◌, ◌<◌, ◌≤◌, ◌^◌, ◌&&◌, ◌||◌, ℕ, Bool, true, false, None, Some, All, length, get_or, not};
ghost use Rattle.pb_machine.specs.declared.event.Event.TheVariants.{Lease, Renew, Hot, Cold, Release, Off, Ended};
ghost use Rattle.pb_machine.specs.declared.settings.Settings.{Settings as TheSettings};
ghost use Rattle.pb_machine.specs.Blocks.{Blocks, interferes};
ghost use Rattle.pb_machine.specs.Counts.{counts_after, quota_of, with_quota};
ghost use Rattle.pb_machine.specs.Legality.{refusal};
ghost use Rattle.pb_abstract.specs.Graph.{blocks_of, has, IsGraph};
ghost use Rattle.pb_journal.specs.Stated.{event_of};
ghost use Rattle.pb_journal.specs.Replaying.{counts_of, is_busy_by, HasPlaces, IsLawfulReplay, Leaves, KeepsPlaces};

use crate::replay::{Replay, is_busy};
use crate::stated::StatedEvent;
use pb_abstract::AbsGraph;
use pb_machine::{End, EventRefusal, Grant, Settings};

// The quota of a lease, or 0.
fn quota_of(lease: Option<Grant>) -> u64
    ensures { result ≡ quota_of lease }
{
    match lease {
        None => 0,
        Some(grant) => grant.quota,
    }
}

// The lease with another quota.
fn with_quota(lease: Option<Grant>, quota: u64) -> Option<Grant>
    ensures { result ≡ with_quota quota lease }
{
    lease.map(|grant| Grant {
        block: grant.block,
        quota,
    })
}

// These blocks become cold.
fn cool_all(hot: &mut Vec<bool>, near: &[u32])
    requires { All (λ c. c < length hot.old.items) near.now }
    ensures hot { (c : ℕ) → get_or hot.new.items c false
        ≡ (get_or hot.old.items c false && not (has near.now c)) }
    ensures places { length hot.new.items ≡ length hot.old.items }
{
    for block in near {
        hot[*block as usize] = false;
    }
}

// Those of these blocks that are hot and not busy become cold.
fn cool_idle(hot: &mut Vec<bool>, near: &[u32], leases: &[Option<Grant>], graph: &AbsGraph)
    requires places { length hot.old.items ≡ (blocks_of graph.now).count }
    requires near { All (λ c. c < (blocks_of graph.now).count) near.now }
    ensures hot { (c : ℕ) → get_or hot.new.items c false
        ≡ (get_or hot.old.items c false
        && not (has near.now c && not (is_busy_by (blocks_of graph.now) leases.now c))) }
    ensures places { length hot.new.items ≡ length hot.old.items }
{
    for block in near {
        if hot[*block as usize] && !is_busy(leases, graph, *block) {
            hot[*block as usize] = false;
        }
    }
}

impl Replay {
    fn take_lease(&mut self, worker: u64, block: u64, quota: u64)
        requires worker { worker < length self.old.leases.items }
        requires block { block < 2 ^ 32 }
        requires quota { quota ≤ self.old.left }
        ensures leaves { Leaves self.old self.new (Lease worker block quota) }
        ensures places { KeepsPlaces self.old self.new }
    {
        self.leases[worker as usize] = Some(Grant {
            block: block as u32,
            quota,
        });
        self.left -= quota;
    }

    fn renew(&mut self, worker: u64, used: u64, quota: u64)
        requires worker { worker < length self.old.leases.items }
        requires spent { self.old.spent + used < 2 ^ 64 }
        requires left { self.old.left + quota_of ((counts_of self.old).leases worker) < 2 ^ 64 }
        requires quota { quota
            ≤ self.old.left + (quota_of ((counts_of self.old).leases worker) - used) }
        ensures leaves { Leaves self.old self.new (Renew worker used quota) }
        ensures places { KeepsPlaces self.old self.new }
    {
        let lease = self.leases[worker as usize];
        self.leases[worker as usize] = with_quota(lease, quota);
        self.spent += used;
        // No clause here says that the quota covers what was used, so the difference is cut at 0.
        self.left = self.left + quota_of(lease).saturating_sub(used) - quota;
    }

    fn mark_hot(&mut self, graph: &AbsGraph, worker: u64, block: u64)
        requires block { block < (blocks_of graph.now).count }
        requires few { (blocks_of graph.now).count ≤ 4096 }
        requires places { length self.old.hot.items ≡ (blocks_of graph.now).count }
        ensures counts { (settings : TheSettings) → counts_of self.new
            ≡ counts_after (blocks_of graph.now) settings (counts_of self.old) (Hot worker block) }
        ensures places { KeepsPlaces self.old self.new }
    {
        cool_all(&mut self.hot, graph.interference(block as u32));
        self.hot[block as usize] = true;
    }

    fn cool(&mut self, worker: u64, block: u64)
        requires { block < length self.old.hot.items }
        ensures leaves { Leaves self.old self.new (Cold worker block) }
        ensures places { KeepsPlaces self.old self.new }
    {
        self.hot[block as usize] = false;
    }

    fn sign_off(&mut self, worker: u64, memory: bool)
        requires { worker < length self.old.signed_off.items }
        ensures leaves { Leaves self.old self.new (Off worker memory) }
        ensures places { KeepsPlaces self.old self.new }
    {
        self.signed_off[worker as usize] = true;
        self.trouble = memory & self.end.is_none();
    }

    fn set_end(&mut self, end: End)
        ensures leaves { Leaves self.old self.new (Ended end) }
        ensures places { KeepsPlaces self.old self.new }
    {
        self.end = Some(end);
        self.trouble = false;
    }

    fn release(
        &mut self,
        graph: &AbsGraph,
        settings: &Settings,
        worker: u64,
        used: u64,
        memory: bool,
        grant: Grant,
    )
        requires lawful { IsLawfulReplay (blocks_of graph.now) settings.now self.old }
        requires leased { (counts_of self.old).leases worker ≡ Some grant }
        requires few { used ≤ grant.quota }
        ensures counts { counts_of self.new
            ≡ counts_after (blocks_of graph.now) settings.now (counts_of self.old)
            (Release worker used memory) }
        ensures places { HasPlaces (blocks_of graph.now) settings.now self.new }
    {
        self.leases[worker as usize] = None;
        cool_idle(
            &mut self.hot,
            graph.interference(grant.block),
            &self.leases,
            graph,
        );
        self.spent += used;
        self.left += grant.quota - used;
        self.trouble = memory & self.end.is_none();
    }

    // What the event leaves, which may come next.
    fn apply(&mut self, graph: &AbsGraph, settings: &Settings, event: &StatedEvent)
        requires graph { IsGraph graph.now }
        requires lawful { IsLawfulReplay (blocks_of graph.now) settings.now self.old }
        requires may { refusal (blocks_of graph.now) settings.now (counts_of self.old)
            (event_of event.now) ≡ None }
        ensures counts { counts_of self.new
            ≡ counts_after (blocks_of graph.now) settings.now (counts_of self.old)
            (event_of event.now) }
        ensures places { HasPlaces (blocks_of graph.now) settings.now self.new }
    {
        match *event {
            StatedEvent::Lease {
                worker,
                block,
                quota,
            } => self.take_lease(worker, block, quota),
            StatedEvent::Renew {
                worker,
                used,
                quota,
            } => self.renew(worker, used, quota),
            StatedEvent::Hot { worker, block } => self.mark_hot(graph, worker, block),
            StatedEvent::Cold { worker, block } => self.cool(worker, block),
            StatedEvent::Release {
                worker,
                used,
                memory,
            } => match self.lease_of(worker) {
                Some(grant) => self.release(graph, settings, worker, used, memory, grant),
                None => unreachable!(),
            },
            StatedEvent::Off { worker, memory } => self.sign_off(worker, memory),
            StatedEvent::Ended(end) => self.set_end(end),
        }
    }

    /// The event comes next, if it may. Else nothing changes, and the answer is the reason.
    pub fn step(
        &mut self,
        graph: &AbsGraph,
        settings: &Settings,
        event: &StatedEvent,
    ) -> Option<EventRefusal>
        requires graph { IsGraph graph.now }
        requires lawful { IsLawfulReplay (blocks_of graph.now) settings.now self.old }
        ensures refusal { result
            ≡ refusal (blocks_of graph.now) settings.now (counts_of self.old) (event_of event.now) }
        ensures counts { result ≡ None → counts_of self.new
            ≡ counts_after (blocks_of graph.now) settings.now (counts_of self.old)
            (event_of event.now) }
        ensures lawful { result ≡ None
            → IsLawfulReplay (blocks_of graph.now) settings.now self.new }
    {
        let refusal = self.refusal(graph, settings, event);
        if refusal.is_some() {
            return refusal;
        }
        self.apply(graph, settings, event);
        None
    }
}
