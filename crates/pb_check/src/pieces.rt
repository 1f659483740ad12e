//! Checking with the rows spelled and judged in pieces, by several workers at once.
ghost use Rattle.std.specs.Thread.{IsSync};
ghost use Rattle.std.specs.Prelude.{◌≡◌, ◌≤◌, ◌+◌, ◌-◌, ◌*◌, ◌/◌, ◌%◌, ◌<◌, ◌^◌, All, length, true, None, IfOk, Ok, Err, ℕ, min, max};
ghost use Rattle.std.specs.Int.{div_ceil};
ghost use Rattle.pb_task.specs.Parts.{space_of, IsTask};
ghost use Rattle.pb_estimate.specs.Estimates.{suits};
ghost use Rattle.pb_estimate.specs.Tables.{IsOfTask};
ghost use Rattle.pb_lines.specs.Words.{line_feeds};
ghost use Rattle.pb_check.specs.declared.fault.Verdict.{Verdict};
ghost use Rattle.pb_check.specs.declared.fault.CertificateFault.TheVariants.{Syntax};
ghost use Rattle.pb_check.specs.Faults.{Gives};
ghost use Rattle.pb_check.specs.Reading.{stated_choice, suiting};
ghost use Rattle.pb_check.specs.Judging.{passes, is_weight, state_fault, first_fault_by, judged, judged_before, checked, Rise};
ghost use Rattle.pb_check.specs.Shown.{IsAccepted, IsCutOff, ShowsClaim, VerdictHolds};
ghost use Rattle.pb_check.specs.Pieces.{IsFirstIn, row_fault_at, found_of, IsBetween, IsOfWorkers};
ghost use Rattle.pb_check.specs.RowsToJudge.{AreStates, fault_by, fault_in_place, weight_of};

use crate::fault::{CertificateFault, CheckError, Verdict};
use crate::found::{Found, earlier};
use crate::front_shares::text_by_shares;
use crate::judging::{judge_head, need_start, verdict_of};
use crate::passing::pass;
use crate::plans::cost_of;
use crate::row_faults::row_fault;
use crate::row_tests::{order_fault_by_shares, states_fault_by_shares};
use crate::rows::StatedRows;
use crate::rows_to_judge::RowsToJudge;
use crate::stated::StatedText;
use pb_estimate::Estimator;
use pb_outside::Gate;
use pb_task::Task;
use std::alloc::{AllocError, Global};
use std::thread::{Threads, join_mut};

// How the rows are divided among workers. Of so many workers the one of number i has the pieces i,
// i + workers, i + 2 * workers, and so on.
#[derive(Clone, Copy)]
struct Division {
    // How many rows a piece has.
    piece: u64,
    workers: u64,
}

// The first fault of the rows from one place to another, each judged against all rows.
fn judge_piece(
    judged: &RowsToJudge<'_>,
    estimator: &mut Estimator,
    from: u64,
    to: u64,
    places: &mut [usize],
) -> Option<Found>
    requires task { IsOfTask estimator.old judged.now.task.now judged.now.choice.now }
    requires weight { is_weight (weight_of judged.now) ≡ true }
    requires rise { Rise judged.now.rows.now }
    requires states { AreStates (space_of judged.now.task.now) judged.now.rows.now }
    requires range { from ≤ to }
    requires inside { to ≤ length judged.now.rows.now }
    requires lines { judged.now.line + length judged.now.rows.now < 2 ^ 64 }
    ensures first { IsFirstIn (fault_in_place judged.now) (length judged.now.rows.now)
        (IsBetween from to) (found_of result) }
    ensures task { IsOfTask estimator.new judged.now.task.now judged.now.choice.now }
{
    for place in from..to {
        let row = judged.rows.at(place as usize);
        let at = judged.line + place;
        let fault = row_fault(judged, estimator, at, &row, places);
        if let Some(fault) = fault {
            return Some(Found { place, fault });
        }
    }
    None
}

// A number as the gate gets it: mod 2^32.
fn number_of(number: u64) -> u32 {
    (number % 4294967296) as u32
}

// The first fault in the pieces of one worker.
fn judge_share<G: Gate>(
    alloc: Global,
    gate: &G,
    judged: &RowsToJudge<'_>,
    estimator: &mut Estimator,
    division: Division,
    worker: u64,
) -> Result<Option<Found>, AllocError>
    requires task { IsOfTask estimator.old judged.now.task.now judged.now.choice.now }
    requires weight { is_weight (weight_of judged.now) ≡ true }
    requires rise { Rise judged.now.rows.now }
    requires states { AreStates (space_of judged.now.task.now) judged.now.rows.now }
    requires lines { judged.now.line + length judged.now.rows.now < 2 ^ 63 }
    requires piece { 1 ≤ division.piece }
    requires worker { worker < division.workers }
    requires workers { division.workers < 2 ^ 63 }
    ensures first { IfOk result (λ found. IsFirstIn (fault_in_place judged.now)
        (length judged.now.rows.now)
        (IsOfWorkers division.piece division.workers worker (worker + 1)) (found_of found)) }
    ensures task { IsOfTask estimator.new judged.now.task.now judged.now.choice.now }
{
    let mut places = Vec::from_elem(alloc, 0usize, judged.task.actions() as usize)?;
    let piece = division.piece;
    let count = judged.rows.len() as u64;
    let pieces = count.div_ceil(piece);
    let mut at = worker;
    while at < pieces {
        let from = at * piece;
        let to = from + piece.min(count - from);
        gate.leased(number_of(worker), number_of(at));
        let found = judge_piece(judged, estimator, from, to, &mut places);
        gate.giving(number_of(worker), number_of(at));
        if found.is_some() {
            return Ok(found);
        }
        at += division.workers;
    }
    Ok(None)
}

// The first fault in the pieces of some workers, each in a thread of its own.
fn judge_shares<R: Threads + Sync, G: Gate>(
    rt: &R,
    alloc: Global,
    gate: &G,
    judged: &RowsToJudge<'_>,
    estimators: &mut [Estimator],
    division: Division,
    first: u64,
) -> Result<Option<Found>, AllocError>
    requires some { 1 ≤ length estimators.old }
    requires task { All (λ e. IsOfTask e judged.now.task.now judged.now.choice.now)
        estimators.old }
    requires weight { is_weight (weight_of judged.now) ≡ true }
    requires rise { Rise judged.now.rows.now }
    requires states { AreStates (space_of judged.now.task.now) judged.now.rows.now }
    requires lines { judged.now.line + length judged.now.rows.now < 2 ^ 63 }
    requires piece { 1 ≤ division.piece }
    requires last { first + length estimators.old ≤ division.workers }
    requires workers { division.workers < 2 ^ 63 }
    ensures first { IfOk result (λ found. IsFirstIn (fault_in_place judged.now)
        (length judged.now.rows.now)
        (IsOfWorkers division.piece division.workers first (first + length estimators.old))
        (found_of found)) }
    ensures task { All (λ e. IsOfTask e judged.now.task.now judged.now.choice.now)
        estimators.new }
    ensures many { length estimators.new ≡ length estimators.old }
{
    if estimators.len() < 2 {
        return judge_share(alloc, gate, judged, &mut estimators[0], division, first);
    }
    // What a closure says of a captured struct of references isn't known to its caller.
    let RowsToJudge {
        task,
        choice,
        weight,
        best,
        rows,
        line,
    } = *judged;
    let Division { piece, workers } = division;
    let half = estimators.len() / 2;
    let second = first + half as u64;
    let (front, back) = estimators.split_at_mut(half);
    let (one, other) = join_mut(
        rt,
        &mut || -> Result<Option<Found>, AllocError>
            requires { IsSync R.row × (1 ≤ length front.now)
                × All (λ e. IsOfTask e task.now choice.now) front.now
                × (is_weight (record { num = weight.now.num; den = weight.now.den }) ≡ true)
                × Rise rows.now × AreStates (space_of task.now) rows.now
                × (line + length rows.now < 2 ^ 63) × (1 ≤ piece)
                × (first + length front.now ≤ workers) × (workers < 2 ^ 63) }
            ensures { IfOk result (λ found. IsFirstIn
                (row_fault_at task.entry.now choice.entry.now
                (record { num = weight.entry.now.num; den = weight.entry.now.den }) best line
                rows.entry.now)
                (length rows.entry.now)
                (IsOfWorkers piece workers first (first + length front.entry.now))
                (found_of found))
                × All (λ e. IsOfTask e task.entry.now choice.entry.now) front.exit.now
                × (length front.exit.now ≡ length front.entry.now) }
        {
            let judged = RowsToJudge {
                task,
                choice,
                weight,
                best,
                rows,
                line,
            };
            let division = Division { piece, workers };
            judge_shares(rt, alloc, gate, &judged, front, division, first)
        },
        &mut || -> Result<Option<Found>, AllocError>
            requires { IsSync R.row × (1 ≤ length back.now)
                × All (λ e. IsOfTask e task.now choice.now) back.now
                × (is_weight (record { num = weight.now.num; den = weight.now.den }) ≡ true)
                × Rise rows.now × AreStates (space_of task.now) rows.now
                × (line + length rows.now < 2 ^ 63) × (1 ≤ piece)
                × (second + length back.now ≤ workers) × (workers < 2 ^ 63) }
            ensures { IfOk result (λ found. IsFirstIn
                (row_fault_at task.entry.now choice.entry.now
                (record { num = weight.entry.now.num; den = weight.entry.now.den }) best line
                rows.entry.now)
                (length rows.entry.now)
                (IsOfWorkers piece workers second (second + length back.entry.now))
                (found_of found))
                × All (λ e. IsOfTask e task.entry.now choice.entry.now) back.exit.now
                × (length back.exit.now ≡ length back.entry.now) }
        {
            let judged = RowsToJudge {
                task,
                choice,
                weight,
                best,
                rows,
                line,
            };
            let division = Division { piece, workers };
            judge_shares(rt, alloc, gate, &judged, back, division, second)
        },
    );
    Ok(earlier(one?, other?))
}

// How many of so many workers have a piece of so many rows to judge, and at least one.
fn workers_with_pieces(rows: &StatedRows, piece: u64, workers: usize) -> usize
    requires piece { 1 ≤ piece }
    requires workers { 1 ≤ workers }
    ensures one { 1 ≤ result }
    ensures exact { result ≡ max 1 (min workers (div_ceil (length rows.now) piece)) }
{
    let pieces = (rows.len() as u64).div_ceil(piece);
    1usize.max(workers.min(pieces as usize))
}

// The first fault of the rows, judged in pieces of so many by as many workers as there are
// estimators, each in a thread of its own. Those without a piece get no thread.
fn rows_fault_by_pieces<R: Threads + Sync, G: Gate>(
    rt: &R,
    alloc: Global,
    gate: &G,
    judged: &RowsToJudge<'_>,
    estimators: &mut [Estimator],
    piece: u64,
) -> Result<Option<CertificateFault>, AllocError>
    requires some { 1 ≤ length estimators.old }
    requires task { All (λ e. IsOfTask e judged.now.task.now judged.now.choice.now)
        estimators.old }
    requires weight { is_weight (weight_of judged.now) ≡ true }
    requires rise { Rise judged.now.rows.now }
    requires states { AreStates (space_of judged.now.task.now) judged.now.rows.now }
    requires lines { judged.now.line + length judged.now.rows.now < 2 ^ 63 }
    requires piece { 1 ≤ piece }
    ensures fault { IfOk result (λ fault. fault ≡ first_fault_by (fault_by judged.now)
        judged.now.line judged.now.rows.now) }
    ensures task { All (λ e. IsOfTask e judged.now.task.now judged.now.choice.now)
        estimators.new }
{
    let workers = workers_with_pieces(judged.rows, piece, estimators.len());
    let (busy, _) = estimators.split_at_mut(workers);
    let division = Division {
        piece,
        workers: workers as u64,
    };
    let found = judge_shares(rt, alloc, gate, judged, busy, division, 0)?;
    match found {
        Some(found) => Ok(Some(found.fault)),
        None => Ok(None),
    }
}

// Goes on only if no row has a fault. The estimators are by the stated choice, which suits.
fn need_rows<R: Threads + Sync, G: Gate>(
    rt: &R,
    alloc: Global,
    gate: &G,
    judged: &RowsToJudge<'_>,
    estimators: &mut [Estimator],
    piece: u64,
) -> Result<(), CheckError>
    requires some { 1 ≤ length estimators.old }
    requires suits { suits judged.now.task.now judged.now.choice.now ≡ true }
    requires task { All (λ e. IsOfTask e judged.now.task.now
        (suiting judged.now.task.now judged.now.choice.now)) estimators.old }
    requires weight { is_weight (weight_of judged.now) ≡ true }
    requires rise { Rise judged.now.rows.now }
    requires states { first_fault_by (state_fault (space_of judged.now.task.now)) judged.now.line
        judged.now.rows.now ≡ None }
    requires lines { judged.now.line + length judged.now.rows.now < 2 ^ 63 }
    requires piece { 1 ≤ piece }
    ensures gives { Gives (λ _. true) result (passes (first_fault_by (fault_by judged.now)
        judged.now.line judged.now.rows.now)) }
    ensures task { All (λ e. IsOfTask e judged.now.task.now
        (suiting judged.now.task.now judged.now.choice.now)) estimators.new }
{
    let fault = rows_fault_by_pieces(rt, alloc, gate, judged, estimators, piece)?;
    pass(fault)
}

// All that is judged before the rows themselves, in one order. The order of the rows and their
// states are tested by so many workers.
#[tactic(auto, unfolding(crate::specs::Judging::judged_before))]
fn judge_before<R: Threads + Sync>(
    rt: &R,
    task: &Task,
    estimator: &Estimator,
    text: &StatedText<'_>,
    workers: u64,
) -> Result<(), CheckError>
    requires task { IsOfTask estimator.now task.now
        (suiting task.now text.now.spelling.stated.choice) }
    requires lines { text.now.first + length text.now.certificate.lines < 2 ^ 64 }
    ensures gives { Gives (λ _. true) result (judged_before task.now text.now) }
    ensures lawful { IsTask task.now }
    ensures suits { IfOk result (λ x. suits task.now text.now.spelling.stated.choice ≡ true) }
    ensures weight { IfOk result (λ x. is_weight text.now.certificate.weight ≡ true) }
    ensures rise { IfOk result (λ x. Rise text.now.certificate.lines) }
    ensures states { IfOk result (λ x. first_fault_by (state_fault (space_of task.now))
        text.now.first text.now.certificate.lines ≡ None) }
{
    let rows = &text.rows;
    let first = text.first;
    judge_head(task, estimator, text)?;
    // Rows are looked up by halving, so their order is judged before any look-up.
    pass(order_fault_by_shares(rt, task, first, rows, workers))?;
    pass(states_fault_by_shares(rt, task, first, rows, workers))?;
    need_start(task, rows)
}

// The verdict on what a text says, or its first fault.
fn judge<R: Threads + Sync, G: Gate>(
    rt: &R,
    alloc: Global,
    gate: &G,
    task: &Task,
    estimators: &mut [Estimator],
    text: &StatedText<'_>,
    piece: u64,
) -> Result<Verdict, CheckError>
    requires some { 1 ≤ length estimators.old }
    requires task { All (λ e. IsOfTask e task.now
        (suiting task.now text.now.spelling.stated.choice)) estimators.old }
    requires lines { text.now.first + length text.now.certificate.lines < 2 ^ 63 }
    requires piece { 1 ≤ piece }
    ensures verdict { Gives (λ x. x) result (judged task.now text.now) }
    ensures lawful { IsTask task.now }
    ensures task { All (λ e. IsOfTask e task.now
        (suiting task.now text.now.spelling.stated.choice)) estimators.new }
{
    let workers = estimators.len() as u64;
    // Each estimator is by the stated choice, so the first serves as well as any.
    judge_before(rt, task, &estimators[0], text, workers)?;
    let rows = RowsToJudge {
        task,
        choice: &text.spelling.stated.choice,
        weight: &text.weight,
        best: cost_of(&text.plan),
        rows: &text.rows,
        line: text.first,
    };
    need_rows(rt, alloc, gate, &rows, estimators, piece)?;
    Ok(Verdict::on(verdict_of(&text.weight, &text.plan)))
}

#[tactic(auto, unfolding(crate::specs::Judging::checked))]
fn first_fault<R: Threads + Sync, G: Gate>(
    rt: &R,
    alloc: Global,
    task: &Task,
    estimators: &mut [Estimator],
    bytes: &[u8],
    piece: u64,
    gate: &G,
) -> Result<Verdict, CheckError>
    requires some { 1 ≤ length estimators.old }
    requires task { All (λ e. IsOfTask e task.now (stated_choice task.now bytes.now))
        estimators.old }
    requires bytes { length bytes.now < 2 ^ 63 }
    requires piece { 1 ≤ piece }
    ensures exact { Gives (λ x. x) result (checked task.now bytes.now) }
    ensures lawful { IfOk result (λ verdict. IsTask task.now) }
    ensures task { All (λ e. IsOfTask e task.now (stated_choice task.now bytes.now))
        estimators.new }
{
    let text = text_by_shares(rt, alloc, bytes, piece, estimators.len() as u64)?;
    judge(rt, alloc, gate, task, estimators, &text, piece)
}

/// As `check`, with the rows spelled and then judged in pieces, by as many workers as there are
/// estimators, each in a thread of its own. The rows' text is cut every `piece` bytes, and each cut
/// is moved on past the next line feed. Then the rows are judged in pieces of `piece` rows.
///
/// Each row is judged against all rows. The first fault in the text's order decides, whichever piece
/// is judged first. Of W workers the one of number i judges the pieces i, i + W, i + 2 W, and so on,
/// up to its first fault.
///
/// The gate is called before a piece is judged (`leased`) and after it (`giving`), with the worker's
/// number and the piece's, from 0 on and mod 2^32.
///
/// The estimators are ones of this task by `stated_choice` of the certificate.
pub fn check_pieces<R: Threads + Sync, G: Gate>(
    rt: &R,
    alloc: Global,
    task: &Task,
    estimators: &mut [Estimator],
    bytes: &[u8],
    piece: u64,
    gate: &G,
) -> Result<Verdict, CheckError>
    requires some { 1 ≤ length estimators.old }
    requires task { All (λ e. IsOfTask e task.now (stated_choice task.now bytes.now))
        estimators.old }
    requires bytes { length bytes.now < 2 ^ 63 }
    requires piece { 1 ≤ piece }
    // Which verdict or fault it is, unless memory ran out: that of `check`, for each number of
    // workers and each size of pieces.
    ensures exact { Gives (λ x. x) result (checked task.now bytes.now) }
    // What is accepted spells a valid certificate of the task.
    ensures valid { IfOk result (λ verdict. IsAccepted task.now bytes.now verdict) }
    // What spells a valid certificate of the task is accepted, unless memory ran out.
    ensures only { (verdict : Verdict) → IsAccepted task.now bytes.now verdict
        → Gives (λ x. x) result (Ok verdict) }
    // What is accepted shows that no plan costs less than the plan's cost divided by the weight, or
    // that there is none.
    ensures claim { IfOk result (λ verdict. ShowsClaim task.now bytes.now verdict) }
    // So what the verdict says is true of the task.
    ensures holds { IfOk result (λ verdict. VerdictHolds (space_of task.now) verdict) }
    // A certificate that is cut off is refused in the line that it ends in, unless memory ran out.
    ensures cut { IsCutOff bytes.now → Gives (λ x. x) result
        (Err (Syntax (1 + line_feeds bytes.now))) }
    ensures task { All (λ e. IsOfTask e task.now (stated_choice task.now bytes.now))
        estimators.new }
{
    first_fault(rt, alloc, task, estimators, bytes, piece, gate)
}
