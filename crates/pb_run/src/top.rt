//! The whole program over any files and output, with its promises as clauses.
ghost use Rattle.std.specs.Prelude.{◌≡◌, ◌≤◌, map, string_bytes};
ghost use Rattle.pb_command.specs.Meaning.{reading_of_words};
ghost use Rattle.pb_outside.specs.Outside.{Rose};
ghost use Rattle.pb_answer.specs.Statuses.{number_of};
ghost use Rattle.pb_run.specs.Outcome.{outcome};
ghost use Rattle.pb_run.specs.Headline.{PlanIsPlan, NoneIsCheaper, CertificateHolds, NoneMeansNone, StopHasCause};
ghost use Rattle.pb_run.specs.Kinds.{MapsHold, BoardsHold, NamedHolds};
ghost use Rattle.pb_run.specs.Commands.{SolvesHold, ChecksHold, JournalsHold, MakesHold, RefusalHolds};
ghost use Rattle.pb_run.specs.FallingHeadline.{FallingsHold};
ghost use Rattle.pb_run.specs.FallingKinds.{FallingMapsHold, FallingBoardsHold, FallingNamedHold};
ghost use Rattle.pb_run.specs.Served.{AnswersWhatFits};
ghost use Rattle.pb_run.specs.Whole.{CallsHold, AnswersIfServed, BreaksOnlyBy, ContentsHold};
ghost use Rattle.pb_run.specs.Contents.{Goes, WritesPut};

use crate::answer::{Begun, answer_asked};
use crate::asked::read_asked;
use crate::claims::hand_out_claims;
use crate::load::load_files;
use crate::output::hand_out_at_once;
use pb_answer::{SearchedStore, Status};
use pb_grid::read_as_spelled;
use pb_outside::{Gate, Shelf, Sink};
use pb_strips::Looks;
use pb_tiles::readings_are_spelled;
use std::alloc::{AllocError, Global};
use std::sync::Wait;
use std::thread::Threads;

/// Does what the words ask with the files of a shelf, prints on a sink, and answers the exit
/// status. A search is asked for as many workers as the words say. By leases one worker takes no
/// lock and waits for nobody, and more have a thread each. The gate is told of each lease, and each
/// time before one is renewed or comes back. Of owners, and of workers that check a certificate, it
/// is told before and after each part. No clause says so.
///
/// `looks` counts the rows that grounding looks at. At 2^28 grounding is stopped. With
/// `Looks::new()` the count begins at 0, so it is that of this call.
///
/// The clauses speak of the calls that this call made on the shelf and the sink, and so of any
/// shelf and sink. What they say of contents, if these are known, is last.
pub fn run<R: Threads + Wait + Sync, H: Shelf, K: Sink, G: Gate>(
    rt: &R,
    alloc: Global,
    words: &[String],
    shelf: &mut H,
    out: &mut K,
    gate: &G,
    looks: &mut Looks,
) -> u8
    // The next eight clauses, and `solve`, speak of `solve` without `--falling`.
    // Status 0: what is printed is a plan of the task, with its cost and bound.
    ensures plan { PlanIsPlan (outcome (map string_bytes words.now) result
        looks.new.taken (H.calls shelf.old) (H.calls shelf.new) (K.calls out.old)
        (K.calls out.new)) }
    // No plan costs less than that cost divided by the weight.
    ensures cheapest { NoneIsCheaper (outcome (map string_bytes words.now) result
        looks.new.taken (H.calls shelf.old) (H.calls shelf.new) (K.calls out.old)
        (K.calls out.new)) }
    // The saved certificate is valid, and has that plan, or claims that there is none.
    ensures certified { CertificateHolds (outcome (map string_bytes words.now) result
        looks.new.taken (H.calls shelf.old) (H.calls shelf.new) (K.calls out.old)
        (K.calls out.new)) }
    // Status 1: no plan exists.
    ensures none { NoneMeansNone (outcome (map string_bytes words.now) result
        looks.new.taken (H.calls shelf.old) (H.calls shelf.new) (K.calls out.old)
        (K.calls out.new)) }
    // Status 2: the budget was used up, or grounding was stopped. Nothing is claimed.
    ensures stopped { StopHasCause (outcome (map string_bytes words.now) result
        looks.new.taken (H.calls shelf.old) (H.calls shelf.new) (K.calls out.old)
        (K.calls out.new)) }
    // The same for each kind of task in its own words: cells, tiles, names of facts and actions.
    ensures maps { MapsHold (outcome (map string_bytes words.now) result
        looks.new.taken (H.calls shelf.old) (H.calls shelf.new) (K.calls out.old)
        (K.calls out.new)) }
    ensures boards { BoardsHold (outcome (map string_bytes words.now) result
        looks.new.taken (H.calls shelf.old) (H.calls shelf.new) (K.calls out.old)
        (K.calls out.new)) }
    ensures named { NamedHolds (outcome (map string_bytes words.now) result
        looks.new.taken (H.calls shelf.old) (H.calls shelf.new) (K.calls out.old)
        (K.calls out.new)) }
    // With falling weights: the same for each claim, the costs of which never rise. With status 0
    // no plan is cheaper than the last one. If nothing more is answered, what is out.
    ensures falling { FallingsHold (outcome (map string_bytes words.now) result
        looks.new.taken (H.calls shelf.old) (H.calls shelf.new) (K.calls out.old)
        (K.calls out.new)) }
    // And for each kind of task in its own words.
    ensures falling_maps { FallingMapsHold (outcome (map string_bytes words.now) result
        looks.new.taken (H.calls shelf.old) (H.calls shelf.new) (K.calls out.old)
        (K.calls out.new)) }
    ensures falling_boards { FallingBoardsHold (outcome (map string_bytes words.now) result
        looks.new.taken (H.calls shelf.old) (H.calls shelf.new) (K.calls out.old)
        (K.calls out.new)) }
    ensures falling_named { FallingNamedHold (outcome (map string_bytes words.now) result
        looks.new.taken (H.calls shelf.old) (H.calls shelf.new) (K.calls out.old)
        (K.calls out.new)) }
    // What else each command promises, and what is refused.
    ensures solve { SolvesHold (outcome (map string_bytes words.now) result
        looks.new.taken (H.calls shelf.old) (H.calls shelf.new) (K.calls out.old)
        (K.calls out.new)) }
    ensures check { ChecksHold (outcome (map string_bytes words.now) result
        looks.new.taken (H.calls shelf.old) (H.calls shelf.new) (K.calls out.old)
        (K.calls out.new)) }
    ensures journal { JournalsHold (outcome (map string_bytes words.now) result
        looks.new.taken (H.calls shelf.old) (H.calls shelf.new) (K.calls out.old)
        (K.calls out.new)) }
    ensures make { MakesHold (outcome (map string_bytes words.now) result
        looks.new.taken (H.calls shelf.old) (H.calls shelf.new) (K.calls out.old)
        (K.calls out.new)) }
    ensures refused { RefusalHolds (outcome (map string_bytes words.now) result
        looks.new.taken (H.calls shelf.old) (H.calls shelf.new) (K.calls out.old)
        (K.calls out.new)) }
    // The calls on files and output: in which order they come, and what a failure means. If the
    // shelf can load and hold what is asked for and the sink can take it, there is an answer.
    ensures calls { CallsHold (map string_bytes words.now) result looks.new.taken
        (H.calls shelf.old) (H.calls shelf.new) (K.calls out.old) (K.calls out.new) }
    ensures answered { AnswersIfServed (outcome (map string_bytes words.now) result
        looks.new.taken (H.calls shelf.old) (H.calls shelf.new) (K.calls out.old)
        (K.calls out.new))
        (H.files shelf.old) (H.can_load shelf.old) (H.can_hold shelf.old) (K.can_take out.old) }
    // Grounding counts its looks upwards, in the same count.
    ensures since { looks.new.since ≡ looks.old.since }
    ensures rising { looks.old.taken ≤ looks.new.taken }
    // If nothing is answered: what is left out, and the counts of faults.
    ensures broken { BreaksOnlyBy (outcome (map string_bytes words.now) result
        looks.new.taken (H.calls shelf.old) (H.calls shelf.new) (K.calls out.old)
        (K.calls out.new))
        (H.faults shelf.old) (H.faults shelf.new) (K.faults out.old) (K.faults out.new) }
    // If contents are known: they agree with the calls, and all other files stay.
    ensures contents { ContentsHold (outcome (map string_bytes words.now) result
        looks.new.taken (H.calls shelf.old) (H.calls shelf.new) (K.calls out.old)
        (K.calls out.new))
        (H.files shelf.old) (H.files shelf.new) (K.written out.old) (K.written out.new) }
{
    // Laws on maps and boards, which the proofs of `maps` and `boards` cite.
    read_as_spelled();
    readings_are_spelled();
    // What a search leaves is kept here, since the answer borrows it.
    let mut kept = None;
    let host = Host { rt, gate };
    let status = carry_out(&host, alloc, words, shelf, out, &mut kept, looks);
    status.number()
}

// What workers run with: threads that may wait for each other, and the gate that they call.
#[derive(Drop)]
struct Host<'h, R: Threads + Wait + Sync, G: Gate> {
    rt: &'h R,
    gate: &'h G,
}

// The whole way: the words are read, the files that they name are loaded, what is asked of their
// texts is answered, and the answer is handed out. With falling weights what is claimed after each
// run is. What another search leaves is kept in `kept`.
fn carry_out<'a, R: Threads + Wait + Sync, H: Shelf, K: Sink, G: Gate>(
    host: &Host<R, G>,
    alloc: Global,
    words: &'a [String],
    shelf: &mut H,
    out: &mut K,
    kept: &'a mut Option<SearchedStore>,
    looks: &mut Looks,
) -> Status
    ensures goes { Goes (reading_of_words (map string_bytes words.now)) (number_of result)
        looks.new.taken (H.files shelf.old) (H.files shelf.new) (H.calls shelf.old)
        (H.calls shelf.new) (K.calls out.old) (K.calls out.new) }
    ensures since { looks.new.since ≡ looks.old.since }
    ensures rising { looks.old.taken ≤ looks.new.taken }
    ensures written { WritesPut (K.written out.old) (K.written out.new) (K.calls out.old)
        (K.calls out.new) }
    ensures fits { AnswersWhatFits (reading_of_words (map string_bytes words.now))
        (number_of result) looks.new.taken (H.files shelf.old) (H.can_load shelf.old)
        (H.can_hold shelf.old) (K.can_take out.old) }
    ensures shelf_count { number_of result ≡ 73 → Rose (H.faults shelf.old) (H.faults shelf.new) }
    ensures sink_count { number_of result ≡ 74 → Rose (K.faults out.old) (K.faults out.new) }
    ensures shelf_later { H.faults shelf.old ≤ H.faults shelf.new }
    ensures sink_later { K.faults out.old ≤ K.faults out.new }
{
    let asked = match read_asked(alloc, words) {
        Ok(asked) => asked,
        Err(AllocError) => return Status::OutOfMemory,
    };
    // In this order: no file is begun before all inputs are loaded.
    let texts = match load_files(alloc, &asked, shelf) {
        Ok(texts) => texts,
        Err(fault) => return fault.status(),
    };
    let Ok(answer) = answer_asked(host.rt, alloc, &asked, &texts, host.gate, kept, looks) else {
        return Status::OutOfMemory;
    };
    match answer {
        Begun::Answered(answer) => hand_out_at_once(shelf, out, &answer),
        Begun::Searching(search) => {
            hand_out_claims(host.rt, alloc, search, shelf, out, host.gate)
        }
    }
}
