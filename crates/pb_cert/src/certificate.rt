//! The certificate of a search: its spelling, its plan, and its rows in order of the states.
ghost use Rattle.std.specs.Prelude.{◌≡◌, ◌^◌, ◌<◌, ◌≤◌, ℕ, Option, IfOk, length, option_copied};
ghost use Rattle.pb_model.specs.Space.{Space};
ghost use Rattle.pb_model.specs.Guide.{Guide};
ghost use Rattle.pb_model.specs.Store.{IsQuiet};
ghost use Rattle.pb_model.specs.Sound.{IsSound};
ghost use Rattle.pb_model.specs.Certificate.{AreLinesOf, IsPlanIfAny, IsBackedBy, IsValid};
ghost use Rattle.pb_estimate.specs.Spelling.{IsSpelling};
ghost use Rattle.pb_lists.specs.Store.{IsPlaced, store_with};
ghost use Rattle.pb_cert.specs.Starts.{HasStarts};

use crate::Plan;
use crate::rows::{Place, parts_of, places_for};
use pb_estimate::{Choice, ChoiceCase, Spelling};
use pb_lists::{Bundle, Store};
use pb_packed::Packed;
use pb_table_lines::LineStarts;
use std::alloc::{AllocError, Global};
use std::marker::Model;

// A line of a certificate: a state that the search met, with its g, and whether it was Closed.
#[derive(Drop)]
pub(crate) struct Line {
    pub(crate) state: Packed,
    pub(crate) g: u64,
    pub(crate) is_closed: bool,
}

impl Model for Line {
    ghost use Rattle.pb_model.specs.Certificate.{Line};

    ghost Value = { Line };

    ghost view = { λ l. record { state = l.state; g = l.g; is_closed = l.is_closed } };
}

/// A certificate of optimality, and how it is spelled. It borrows the rows of the store that it is
/// of. Contracts see its spelling and the model's certificate.
#[derive(Drop)]
pub struct Certificate<'a> {
    pub(crate) spelling: Spelling,
    // Where the lines of the tables that it states begin, if it states tables.
    pub(crate) starts: Option<LineStarts>,
    pub(crate) num: u64,
    pub(crate) den: u64,
    pub(crate) plan: Option<Plan>,
    pub(crate) parts: Vec<&'a Bundle>,
    pub(crate) places: Vec<Place>,
}

impl<'a> Model for Certificate<'a> {
    ghost use Rattle.std.specs.Prelude.{map};
    ghost use Rattle.pb_estimate.specs.Spelling.{IsSpelling};
    ghost use Rattle.pb_cert.specs.Stated.{SpelledCertificate};
    ghost use Rattle.pb_cert.specs.Listed.{line_at};
    ghost use Rattle.pb_cert.specs.Starts.{HasStarts};

    ghost Value = { SpelledCertificate };

    ghost view = { λ c. record {
      spelling = c.spelling;
      certificate = record {
        weight = record { num = c.num; den = c.den };
        plan = c.plan;
        lines = map (line_at c.parts.items) c.places.items;
      };
    } };

    ghost invariant = { λ c. IsSpelling c.spelling × HasStarts c.spelling.stated.choice c.starts };
}

// Where the lines of the tables of a choice begin, if it has tables. An error is out of memory.
fn starts_of(alloc: Global, choice: &Choice) -> Result<Option<LineStarts>, AllocError>
    ensures { IfOk result (λ starts. HasStarts choice.now starts) }
{
    match choice.case() {
        ChoiceCase::Plain => Ok(None),
        ChoiceCase::Pattern(_) => Ok(None),
        ChoiceCase::Tables(tables) => Ok(Some(LineStarts::of(alloc, tables)?)),
    }
}

impl<'a> Certificate<'a> {
    /// The certificate of a store's rows, at the store's weight, with a plan or with the claim that
    /// none exists, spelled so. An error is out of memory.
    pub fn of<S: Store>(
        alloc: Global,
        spelling: Spelling,
        plan: Option<Plan>,
        store: &'a S,
    ) -> Result<Certificate<'a>, AllocError>
        requires spelling { IsSpelling spelling }
        requires whole { S.is_whole store.now }
        ensures spelling { IfOk result (λ c. c.spelling ≡ spelling) }
        ensures weight { IfOk result (λ c. c.certificate.weight ≡ S.weight store.now) }
        ensures plan { IfOk result (λ c. c.certificate.plan ≡ plan) }
        ensures count { IfOk result (λ c. length c.certificate.lines < 2 ^ 63) }
        ensures lines { IfOk result (λ c. (guide : Guide) → IsPlaced guide.home (S.rows store.now)
            → AreLinesOf guide (S.rows store.now) c.certificate.lines) }
        // If the store is sound, whatever its incumbent is, the lines are those of its rows. The
        // certificate is valid if the store is also quiet, and there is a plan if and only if there
        // is an incumbent. Such a plan must be one of the space, and cost no more than the
        // incumbent.
        ensures rows { IfOk result (λ c. (space : Space) (guide : Guide) (incumbent : Option ℕ)
            → IsSound space guide (store_with (S.rows store.now) (S.weight store.now) incumbent)
            → AreLinesOf guide (S.rows store.now) c.certificate.lines) }
        ensures valid { IfOk result (λ c. (space : Space) (guide : Guide) (incumbent : Option ℕ)
            → IsSound space guide (store_with (S.rows store.now) (S.weight store.now) incumbent)
            → IsQuiet (store_with (S.rows store.now) (S.weight store.now) incumbent)
            → IsPlanIfAny space plan → IsBackedBy incumbent plan
            → IsValid space guide.estimate c.certificate) }
    {
        let starts = starts_of(alloc, &spelling.stated.choice)?;
        let (num, den) = store.weight();
        let parts = parts_of(alloc, store)?;
        let places = places_for(alloc, &parts)?;
        Ok(Certificate {
            spelling,
            starts,
            num,
            den,
            plan,
            parts,
            places,
        })
    }

    /// The plan, or None if the certificate claims that there is none.
    pub fn plan(&self) -> Option<&Plan>
        ensures { option_copied result ≡ self.now.certificate.plan }
    {
        self.plan.as_ref()
    }
}
