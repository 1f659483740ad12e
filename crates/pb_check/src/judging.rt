//! What a text says is judged in one fixed order.
ghost use Rattle.std.specs.Prelude.{◌≡◌, ◌+◌, ◌*◌, ◌<◌, ◌^◌, length, true, false, None, Some, IfOk, Option};
ghost use Rattle.pb_model.specs.Weight.{Weight};
ghost use Rattle.pb_task.specs.Parts.{space_of, IsTask};
ghost use Rattle.pb_estimate.specs.Estimates.{suits};
ghost use Rattle.pb_estimate.specs.Tables.{IsOfTask};
ghost use Rattle.pb_check.specs.Faults.{Gives};
ghost use Rattle.pb_check.specs.Reading.{suiting};
ghost use Rattle.pb_check.specs.Judging.{passes, unless, same_kind, width_fault, same_grounding, grounding_fault, table_fault, tables_fault_for, stated_fault, is_weight, rows_order_fault, first_fault_by, state_fault, g_of, is_zero, bound_of, verdict_of, start_judged, judged, judged_head, judged_before, Rise};
ghost use Rattle.pb_check.specs.RowsToJudge.{fault_by, weight_of};

use crate::fault::{CertificateFault, CheckError, Claim, Verdict};
use crate::passing::{need, pass, unless};
use crate::plans::{cost_of, judge_plan_if_any};
use crate::row_faults::{rows_fault, rows_order_fault, states_fault};
use crate::rows::StatedRows;
use crate::rows_to_judge::RowsToJudge;
use crate::stated::{StatedPlan, StatedText, StatedWeight};
use pb_estimate::{ChoiceCase, Estimator, Stated, Version};
use pb_table_lines::line_number;
use pb_tables::{Tables, TablesFault};
use pb_task::{Grounding, Kind, Task, TaskParts};
use std::alloc::Global;

fn same_kind(one: Kind, two: Kind) -> bool
    ensures { result ≡ same_kind one two }
{
    match (one, two) {
        (Kind::Grid, Kind::Grid) | (Kind::Tiles, Kind::Tiles) | (Kind::Strips, Kind::Strips) =>
            true,
        _ => false,
    }
}

// The fault of the number of digits that a text states.
fn width_fault(task: &Task, version: Version, width: u32) -> Option<CertificateFault>
    ensures { result ≡ width_fault task.now version width }
{
    match version {
        Version::One => None,
        Version::Two | Version::Three | Version::Four => {
            let wanted = task.width();
            unless(
                width == wanted,
                CertificateFault::Width {
                    said: width,
                    wanted,
                },
            )
        }
    }
}

fn same_grounding(one: Grounding, two: Grounding) -> bool
    ensures { result ≡ same_grounding one two }
{
    match (one, two) {
        (Grounding::All, Grounding::All) | (Grounding::Reachable, Grounding::Reachable) => true,
        (Grounding::All, Grounding::Reachable) | (Grounding::Reachable, Grounding::All) => false,
    }
}

// The fault of the grounding that a text states.
fn grounding_fault(task: &Task, stated: &Stated) -> Option<CertificateFault>
    ensures { result ≡ grounding_fault task.now stated.now }
{
    unless(
        same_grounding(task.grounding(), stated.grounding),
        CertificateFault::Grounding,
    )
}

// A fault of tables as one of the certificate that states them from its fifth line on.
fn table_fault(tables: &Tables, fault: TablesFault) -> CertificateFault
    ensures { result ≡ table_fault tables.now fault }
{
    match fault {
        TablesFault::Line { list, line } => {
            // the bound of a line's number asks for lawful tables
            let _ = tables.sums();
            CertificateFault::Table {
                line: 4 + line_number(tables, list, line),
            }
        }
        TablesFault::Unpaid { sum, action } => CertificateFault::Unpaid { sum, action },
    }
}

// The first fault that keeps tables from suiting the task. They suit only STRIPS tasks.
fn tables_fault_for(task: &Task, tables: &Tables) -> Option<CertificateFault>
    ensures { result ≡ tables_fault_for task.now tables.now }
{
    match task.parts() {
        TaskParts::Grid(_) | TaskParts::Tiles(_) => Some(CertificateFault::Kind),
        TaskParts::Strips(strips) => match tables.fault(strips) {
            None => None,
            Some(fault) => Some(table_fault(tables, fault)),
        },
    }
}

// The fault of the choice of an estimate that a text states. The estimator is by that choice only if
// it suits the task. So if the estimator has tables, the stated ones suit, and they aren't looked at
// again.
fn stated_fault(task: &Task, estimator: &Estimator, stated: &Stated) -> Option<CertificateFault>
    requires task { IsOfTask estimator.now task.now (suiting task.now stated.now.choice) }
    ensures fault { result ≡ stated_fault task.now stated.now }
    ensures suits { result ≡ None → suits task.now stated.now.choice ≡ true }
{
    match stated.choice.case() {
        ChoiceCase::Plain => None,
        ChoiceCase::Pattern(_) => unless(stated.choice.suits(task), CertificateFault::Pattern),
        ChoiceCase::Tables(_) if estimator.has_tables() => None,
        ChoiceCase::Tables(tables) => tables_fault_for(task, tables),
    }
}

fn is_weight(weight: &StatedWeight) -> bool
    ensures { result ≡ is_weight (record { num = weight.now.num; den = weight.now.den }) }
{
    1 <= weight.den && weight.den <= weight.num && weight.num <= 1000
}

fn bound_of(weight: &StatedWeight, cost: u64) -> u64
    requires { is_weight (record { num = weight.now.num; den = weight.now.den }) ≡ true }
    ensures { result ≡ bound_of (record { num = weight.now.num; den = weight.now.den }) cost }
{
    let least = (u128::from(weight.den) * u128::from(cost) + (u128::from(weight.num) - 1))
        / u128::from(weight.num);
    least as u64
}

pub(crate) fn verdict_of(weight: &StatedWeight, plan: &Option<StatedPlan<'_>>) -> Claim
    requires { is_weight (record { num = weight.now.num; den = weight.now.den }) ≡ true }
    ensures { result ≡ verdict_of (record { num = weight.now.num; den = weight.now.den }) plan.now }
{
    match plan {
        None => Claim::Unsolvable,
        Some(plan) => Claim::Bounded {
            cost: plan.cost,
            bound: bound_of(weight, plan.cost),
        },
    }
}

fn is_zero(g: Option<u64>) -> bool
    ensures { result ≡ is_zero g }
{
    match g {
        None => false,
        Some(g) => g == 0,
    }
}

// Goes on only if no row has a fault. The estimator is by the stated choice, which suits.
fn need_rows(
    alloc: Global,
    judged: &RowsToJudge<'_>,
    estimator: &mut Estimator,
) -> Result<(), CheckError>
    requires suits { suits judged.now.task.now judged.now.choice.now ≡ true }
    requires task { IsOfTask estimator.old judged.now.task.now
        (suiting judged.now.task.now judged.now.choice.now) }
    requires weight { is_weight (weight_of judged.now) ≡ true }
    requires rise { Rise judged.now.rows.now }
    requires states { first_fault_by (state_fault (space_of judged.now.task.now)) judged.now.line
        judged.now.rows.now ≡ None }
    requires lines { judged.now.line + length judged.now.rows.now < 2 ^ 64 }
    ensures gives { Gives (λ _. true) result (passes (first_fault_by (fault_by judged.now)
        judged.now.line judged.now.rows.now)) }
    ensures task { IsOfTask estimator.new judged.now.task.now
        (suiting judged.now.task.now judged.now.choice.now) }
{
    let mut places = Vec::from_elem(alloc, 0usize, judged.task.actions() as usize)?;
    let fault = rows_fault(judged, estimator, &mut places);
    pass(fault)
}

/// All that is judged before any row is looked at, in one order. The estimator is by the choice that
/// the text states, or by the plain one if that choice doesn't suit this task.
#[tactic(auto, unfolding(crate::specs::Judging::judged_head))]
pub fn judge_head(
    task: &Task,
    estimator: &Estimator,
    text: &StatedText<'_>,
) -> Result<(), CheckError>
    requires task { IsOfTask estimator.now task.now
        (suiting task.now text.now.spelling.stated.choice) }
    ensures gives { Gives (λ _. true) result (judged_head task.now text.now) }
    ensures lawful { IsTask task.now }
    ensures suits { IfOk result (λ x. suits task.now text.now.spelling.stated.choice ≡ true) }
    ensures weight { IfOk result (λ x. is_weight text.now.certificate.weight ≡ true) }
{
    // the walk of a plan asks for a lawful task, as its parts are
    let _ = task.parts();
    let stated = &text.spelling.stated;
    let weight = &text.weight;
    need(
        same_kind(task.kind(), text.spelling.kind),
        CertificateFault::Kind,
    )?;
    pass(width_fault(task, text.spelling.version, text.spelling.width))?;
    // The grounding decides which atoms and actions all later numbers name, so it comes first.
    pass(grounding_fault(task, stated))?;
    pass(stated_fault(task, estimator, stated))?;
    need(is_weight(weight), CertificateFault::Weight)?;
    judge_plan_if_any(task, &text.plan)
}

/// Goes on only if the start has a row whose g is 0.
pub fn need_start(task: &Task, rows: &StatedRows) -> Result<(), CheckError>
    requires { Rise rows.now }
    ensures { Gives (λ _. true) result (start_judged task.now rows.now) }
{
    need(
        is_zero(rows.g_of(&task.initial(), &mut 0)),
        CertificateFault::NoStart,
    )
}

// All that is judged before the rows themselves, in one order.
#[tactic(auto, unfolding(crate::specs::Judging::judged_before))]
fn judge_before(task: &Task, estimator: &Estimator, text: &StatedText<'_>) -> Result<(), CheckError>
    requires task { IsOfTask estimator.now task.now
        (suiting task.now text.now.spelling.stated.choice) }
    requires lines { text.now.first + length text.now.certificate.lines < 2 ^ 64 }
    ensures gives { Gives (λ _. true) result (judged_before task.now text.now) }
    ensures lawful { IsTask task.now }
    ensures suits { IfOk result (λ x. suits task.now text.now.spelling.stated.choice ≡ true) }
    ensures weight { IfOk result (λ x. is_weight text.now.certificate.weight ≡ true) }
    ensures rise { IfOk result (λ x. Rise text.now.certificate.lines) }
    ensures states { IfOk result (λ x. first_fault_by (state_fault (space_of task.now))
        text.now.first text.now.certificate.lines ≡ None) }
{
    let rows = &text.rows;
    let first = text.first;
    judge_head(task, estimator, text)?;
    // Rows are looked up by halving, so their order is judged before any look-up.
    pass(rows_order_fault(first, rows))?;
    pass(states_fault(task, first, rows))?;
    need_start(task, rows)
}

/// The verdict on what a text says, or its first fault. The estimator is by the choice that the
/// text states, or by the plain one if that choice doesn't suit this task.
pub fn judge(
    alloc: Global,
    task: &Task,
    estimator: &mut Estimator,
    text: &StatedText<'_>,
) -> Result<Verdict, CheckError>
    requires task { IsOfTask estimator.old task.now
        (suiting task.now text.now.spelling.stated.choice) }
    requires lines { text.now.first + length text.now.certificate.lines < 2 ^ 64 }
    ensures verdict { Gives (λ x. x) result (judged task.now text.now) }
    ensures lawful { IsTask task.now }
    ensures task { IsOfTask estimator.new task.now
        (suiting task.now text.now.spelling.stated.choice) }
{
    judge_before(task, estimator, text)?;
    let rows = RowsToJudge {
        task,
        choice: &text.spelling.stated.choice,
        weight: &text.weight,
        best: cost_of(&text.plan),
        rows: &text.rows,
        line: text.first,
    };
    need_rows(alloc, &rows, estimator)?;
    Ok(Verdict::on(verdict_of(&text.weight, &text.plan)))
}
