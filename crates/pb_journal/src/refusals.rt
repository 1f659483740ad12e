//! Why an event may not come next.
ghost use Rattle.std.specs.Prelude.{◌≡◌, ◌==◌, ◌<◌, ◌≤◌, ◌&&◌, ◌||◌, ◌∷◌, [], ℕ, Bool, nat_lt, length, not, is_some, is_none};
ghost use Rattle.pb_machine.specs.Blocks.{Blocks};
ghost use Rattle.pb_machine.specs.Counts.{is_any_out};
ghost use Rattle.pb_machine.specs.declared.event.Event.TheVariants.{Lease, Renew, Hot, Cold, Release, Off, Ended};
ghost use Rattle.pb_machine.specs.declared.event.EventRefusal.TheVariants as refusals;
ghost use Rattle.pb_machine.specs.Legality.{first_true, is_memory_end, refusal};
ghost use Rattle.pb_abstract.specs.Graph.{blocks_of, IsGraph};
ghost use Rattle.pb_journal.specs.Stated.{event_of};
ghost use Rattle.pb_journal.specs.Replaying.{counts_of, own_refusal, HasPlaces, IsLawfulReplay};

use crate::replay::{Replay, is_busy, is_wrong_quota};
use crate::stated::StatedEvent;
use pb_abstract::AbsGraph;
use pb_machine::{End, EventRefusal, Settings};

impl Replay {
    fn lease_refusal(
        &self,
        graph: &AbsGraph,
        settings: &Settings,
        worker: u64,
        block: u64,
        quota: u64,
    ) -> Option<EventRefusal>
        requires graph { IsGraph graph.now }
        requires places { HasPlaces (blocks_of graph.now) settings.now self.now }
        ensures { result
            ≡ own_refusal (blocks_of graph.now) settings.now self.now (Lease worker block quota) }
    {
        // In the order of the formats: of several reasons the first is reported.
        if self.end.is_some() {
            return Some(EventRefusal::Ended);
        }
        if self.is_stranger(settings, worker) {
            return Some(EventRefusal::Worker);
        }
        if self.lease_of(worker).is_some() {
            return Some(EventRefusal::Holds);
        }
        if block >= u64::from(graph.count()) {
            return Some(EventRefusal::Block);
        }
        if self.is_taken(graph, block as u32) {
            return Some(EventRefusal::Scope);
        }
        if self.is_near_hot(graph, block as u32) {
            return Some(EventRefusal::Hot);
        }
        if is_wrong_quota(settings, self.left, quota) {
            return Some(EventRefusal::Quota);
        }
        None
    }

    fn hot_refusal(
        &self,
        graph: &AbsGraph,
        settings: &Settings,
        worker: u64,
        block: u64,
    ) -> Option<EventRefusal>
        requires graph { IsGraph graph.now }
        requires places { HasPlaces (blocks_of graph.now) settings.now self.now }
        ensures { result
            ≡ own_refusal (blocks_of graph.now) settings.now self.now (Hot worker block) }
    {
        if self.end.is_some() {
            return Some(EventRefusal::Ended);
        }
        if self.is_stranger(settings, worker) {
            return Some(EventRefusal::Worker);
        }
        if self.lease_of(worker).is_none() {
            return Some(EventRefusal::Holds);
        }
        if block >= u64::from(graph.count()) {
            return Some(EventRefusal::Block);
        }
        if settings.plain || (self.is_hot(block) || !is_busy(&self.leases, graph, block as u32)) {
            return Some(EventRefusal::Hot);
        }
        None
    }

    fn cold_refusal(
        &self,
        graph: &AbsGraph,
        settings: &Settings,
        worker: u64,
        block: u64,
    ) -> Option<EventRefusal>
        requires places { HasPlaces (blocks_of graph.now) settings.now self.now }
        ensures { result
            ≡ own_refusal (blocks_of graph.now) settings.now self.now (Cold worker block) }
    {
        if self.end.is_some() {
            return Some(EventRefusal::Ended);
        }
        if self.is_stranger(settings, worker) {
            return Some(EventRefusal::Worker);
        }
        if self.lease_of(worker).is_none() {
            return Some(EventRefusal::Holds);
        }
        if block >= u64::from(graph.count()) {
            return Some(EventRefusal::Block);
        }
        if !self.is_hot(block) {
            return Some(EventRefusal::Hot);
        }
        None
    }

    fn renewal_refusal(
        &self,
        graph: &AbsGraph,
        settings: &Settings,
        worker: u64,
        used: u64,
        quota: u64,
    ) -> Option<EventRefusal>
        requires { IsLawfulReplay (blocks_of graph.now) settings.now self.now }
        ensures { result
            ≡ own_refusal (blocks_of graph.now) settings.now self.now (Renew worker used quota) }
    {
        if self.end.is_some() {
            return Some(EventRefusal::Ended);
        }
        if self.is_stranger(settings, worker) {
            return Some(EventRefusal::Worker);
        }
        let Some(grant) = self.lease_of(worker) else {
            return Some(EventRefusal::Holds);
        };
        if self.is_near_hot(graph, grant.block) {
            return Some(EventRefusal::Hot);
        }
        if used > grant.quota || is_wrong_quota(settings, self.left + (grant.quota - used), quota) {
            return Some(EventRefusal::Quota);
        }
        None
    }

    fn release_refusal(&self, settings: &Settings, worker: u64, used: u64) -> Option<EventRefusal>
        requires { length self.now.signed_off.items ≡ settings.now.workers }
        ensures { (blocks : Blocks) (memory : Bool) → result
            ≡ own_refusal blocks settings.now self.now (Release worker used memory) }
    {
        if self.is_stranger(settings, worker) {
            return Some(EventRefusal::Worker);
        }
        match self.lease_of(worker) {
            None => Some(EventRefusal::Holds),
            Some(grant) => {
                if used > grant.quota {
                    Some(EventRefusal::Quota)
                } else {
                    None
                }
            }
        }
    }

    fn off_refusal(&self, settings: &Settings, worker: u64, memory: bool) -> Option<EventRefusal>
        requires { length self.now.signed_off.items ≡ settings.now.workers }
        ensures { (blocks : Blocks) → result
            ≡ own_refusal blocks settings.now self.now (Off worker memory) }
    {
        if self.is_stranger(settings, worker) {
            return Some(EventRefusal::Worker);
        }
        if self.lease_of(worker).is_some() {
            return Some(EventRefusal::Holds);
        }
        if !memory && self.end.is_none() {
            return Some(EventRefusal::NoEnd);
        }
        None
    }

    fn end_refusal(&self, settings: &Settings, end: End) -> Option<EventRefusal>
        requires { length self.now.leases.items ≡ settings.now.workers }
        ensures { (blocks : Blocks) → result
            ≡ own_refusal blocks settings.now self.now (Ended end) }
    {
        if self.end.is_some() {
            return Some(EventRefusal::Ended);
        }
        match end {
            End::Quiet => {
                if self.is_any_out() {
                    Some(EventRefusal::Holds)
                } else {
                    None
                }
            }
            End::Budget => self.budget_refusal(settings),
            End::Memory => {
                if self.trouble {
                    None
                } else {
                    Some(EventRefusal::Trouble)
                }
            }
        }
    }

    // Why the search may not end by its budget, if it has not ended.
    fn budget_refusal(&self, settings: &Settings) -> Option<EventRefusal>
        requires { length self.now.leases.items ≡ settings.now.workers }
        ensures { result
            ≡ first_true
            ((is_any_out settings.now.workers (counts_of self.now).leases, refusals.Holds) ∷
            (nat_lt 0 self.now.left, refusals.Quota) ∷ []) }
    {
        if self.is_any_out() {
            Some(EventRefusal::Holds)
        } else if self.left > 0 {
            Some(EventRefusal::Quota)
        } else {
            None
        }
    }

    // The first test of the event's own that is true.
    fn first_true(
        &self,
        graph: &AbsGraph,
        settings: &Settings,
        event: &StatedEvent,
    ) -> Option<EventRefusal>
        requires graph { IsGraph graph.now }
        requires lawful { IsLawfulReplay (blocks_of graph.now) settings.now self.now }
        ensures { result
            ≡ own_refusal (blocks_of graph.now) settings.now self.now (event_of event.now) }
    {
        match *event {
            StatedEvent::Lease {
                worker,
                block,
                quota,
            } => self.lease_refusal(graph, settings, worker, block, quota),
            StatedEvent::Renew {
                worker,
                used,
                quota,
            } => self.renewal_refusal(graph, settings, worker, used, quota),
            StatedEvent::Hot { worker, block } => self.hot_refusal(graph, settings, worker, block),
            StatedEvent::Cold { worker, block } => self.cold_refusal(
                graph, settings, worker, block,
            ),
            StatedEvent::Release {
                worker,
                used,
                memory: _,
            } => self.release_refusal(settings, worker, used),
            StatedEvent::Off { worker, memory } => self.off_refusal(settings, worker, memory),
            StatedEvent::Ended(end) => self.end_refusal(settings, end),
        }
    }

    /// Why the event may not come next, or None.
    pub fn refusal(
        &self,
        graph: &AbsGraph,
        settings: &Settings,
        event: &StatedEvent,
    ) -> Option<EventRefusal>
        requires graph { IsGraph graph.now }
        requires lawful { IsLawfulReplay (blocks_of graph.now) settings.now self.now }
        ensures { result
            ≡ refusal (blocks_of graph.now) settings.now (counts_of self.now) (event_of event.now) }
    {
        // After a report that memory ran out only that end may follow, whatever else is true of the
        // event.
        if self.trouble && !is_memory_end(event) {
            return Some(EventRefusal::Trouble);
        }
        self.first_true(graph, settings, event)
    }
}

// Whether the event is the end that follows when a worker is out of memory.
fn is_memory_end(event: &StatedEvent) -> bool
    ensures { result ≡ is_memory_end (event_of event.now) }
{
    match event {
        StatedEvent::Ended(End::Memory) => true,
        _ => false,
    }
}
