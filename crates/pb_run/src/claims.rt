//! Handing out what a search with falling weights claims, one claim after another.
ghost use Rattle.std.specs.Prelude.{◌≡◌, ◌≤◌, ℕ, Option, List, [], IfSome, IsSome};
ghost use Rattle.pb_outside.specs.Outside.{Files, Rose, KeepsHolds};
ghost use Rattle.pb_outside.specs.Calls.{Call};
ghost use Rattle.pb_machine.specs.Machine.{Machine};
ghost use Rattle.pb_answer.specs.Statuses.{number_of};
ghost use Rattle.pb_answer.specs.Parts.{AnswerPart};
ghost use Rattle.pb_answer.specs.FallingRuns.{IsAfterRun, IsFalling};
ghost use Rattle.pb_run.specs.PartByPart.{HandsParts};
ghost use Rattle.pb_run.specs.FallingParts.{HandsOutFalling, ClaimsIfTheyFit, HandedOutBefore, AfterRun};
ghost use Rattle.pb_run.specs.FallingParts.{EndsIfItFits};
ghost use Rattle.pb_run.specs.declared.output.Ending.TheVariants.{Done};

use crate::output::{Ending, hand_out};
use pb_answer::{FallingSearch, Status};
use pb_outside::{Gate, Shelf, Sink};
use std::alloc::{AllocError, Global};
use std::sync::Wait;
use std::thread::Threads;

/// Hands out what is claimed after each run of a search, from this one on: of each claim the
/// certificate is saved, and then its text is printed. It answers the status. Memory may run out
/// between two claims.
pub fn hand_out_claims<'a, R: Threads + Wait + Sync, H: Shelf, K: Sink, G: Gate>(
    rt: &R,
    alloc: Global,
    first: FallingSearch<'a>,
    shelf: &mut H,
    out: &mut K,
    gate: &G,
) -> Status
    requires { (machine : Machine) × IsFalling [] machine first }
    ensures hands { HandsOutFalling first.entry.solve first.entry.graph.choice first.entry.parts
        first.entry.steps (number_of result) (H.files shelf.old) (H.files shelf.new) (H.calls shelf.old)
        (H.calls shelf.new) (K.calls out.old) (K.calls out.new) (K.written out.old)
        (K.written out.new) }
    ensures fits { IsSome (H.files shelf.old)
        → ClaimsIfTheyFit first.entry.solve first.entry.graph.choice first.entry.parts
        first.entry.steps (number_of result) (H.can_hold shelf.old) (K.can_take out.old) }
    ensures shelf_fault { number_of result ≡ 73 → Rose (H.faults shelf.old) (H.faults shelf.new) }
    ensures sink_fault { number_of result ≡ 74 → Rose (K.faults out.old) (K.faults out.new) }
    ensures shelf_later { H.faults shelf.old ≤ H.faults shelf.new }
    ensures sink_later { K.faults out.old ≤ K.faults out.new }
{
    let mut search = first;
    // The label is the loop's name in its proof.
    'runs: loop {
        if let Some(status) = hand_out_claim(alloc, &search, shelf, out) {
            return status;
        }
        search = match search.go_on(rt, alloc, gate) {
            Ok(next) => next,
            Err(AllocError) => return Status::OutOfMemory,
        };
    }
}

// Hands out what is claimed after the run in hand. It answers the status if nothing comes after it.
fn hand_out_claim<'a, H: Shelf, K: Sink>(
    alloc: Global,
    search: &FallingSearch<'a>,
    shelf: &mut H,
    out: &mut K,
) -> Option<Status>
    requires { IsAfterRun search.now }
    ensures after { (parts : List AnswerPart) (files : Option Files) (calls puts : List Call)
        (written : Option (List ℕ)) → HandedOutBefore search.now parts
        → HandsParts Done parts files (H.files shelf.old) calls (H.calls shelf.old) puts
        (K.calls out.old) written (K.written out.old)
        → AfterRun search.now parts result files (H.files shelf.new) calls (H.calls shelf.new) puts
        (K.calls out.new) written (K.written out.new) (K.can_take out.old) (K.can_take out.new) }
    ensures fits { (parts : List AnswerPart) → HandedOutBefore search.now parts
        → IsSome (H.files shelf.old) → IfSome result (λ status. EndsIfItFits search.now parts
        (number_of status) (H.can_hold shelf.old) (K.can_take out.old)) }
    ensures holds { KeepsHolds (H.can_hold shelf.old) (H.can_hold shelf.new) }
    ensures shelf_fault { IfSome result (λ status. number_of status ≡ 73
        → Rose (H.faults shelf.old) (H.faults shelf.new)) }
    ensures sink_fault { IfSome result (λ status. number_of status ≡ 74
        → Rose (K.faults out.old) (K.faults out.new)) }
    ensures shelf_later { H.faults shelf.old ≤ H.faults shelf.new }
    ensures sink_later { K.faults out.old ≤ K.faults out.new }
{
    // All memory is taken here, before a file is begun.
    let Ok(answer) = search.answer(alloc) else {
        return Some(Status::OutOfMemory);
    };
    let last = search.is_last();
    match hand_out(shelf, out, &answer) {
        Ending::Done => {
            if last {
                return Some(answer.status);
            }
            None
        }
        Ending::NotSaved => Some(Status::ShelfFailed),
        Ending::NotPrinted => Some(Status::SinkFailed),
    }
}
