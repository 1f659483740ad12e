//! The rule of each queue, and what each step reports.
use crate::letter::Sent;
use crate::view::View;
use crossbeam_queue::protocol::{Join, Lesson, Outcome, Protocol, Split};
use std::marker::{Brand, PhantomData};

/// Which states may be sent, as numbers. The call that makes the queues picks it.
pub trait LetterRule {
    ghost use Rattle.std.specs.Prelude.{ℕ, Bool};

    ghost fits: { ℕ → Bool };
}

impl LetterRule for Brand {
    ghost use Rattle.std.specs.Prelude.{false};

    ghost fits = { λ _. false };
}

/// The rule of one queue.
pub struct Mail<K> {
    rule: PhantomData<K>,
}

impl<K: LetterRule> Protocol<Sent, View> for Mail<K> {
    ghost use Rattle.pb_mail.specs.Views.{first_view};
    ghost use Rattle.pb_mail.specs.Rule.{Delivers};

    ghost holds = { Delivers K.fits };

    ghost first = { first_view };
}

/// A letter is sent.
pub struct Sends;

impl Outcome<Sent, View> for Sends {
    ghost use Rattle.std.specs.Prelude.{◌≡◌};
    ghost use Rattle.pb_mail.specs.Views.{sent_view};

    ghost then = { λ v x w. w ≡ sent_view v x.letter };
}

/// A letter is taken, or the queue is found empty.
pub struct Takes<K> {
    rule: PhantomData<K>,
}

impl<K: LetterRule> Outcome<Sent, View> for Takes<K> {
    ghost use Rattle.pb_mail.specs.Rule.{IsTaken};

    ghost then = { IsTaken K.fits };
}

impl<K: LetterRule> Lesson<Sent, View> for Takes<K> {
    ghost use Rattle.pb_mail.specs.Rule.{IsToldEmpty};

    ghost fact = { IsToldEmpty K.fits };
}

/// A pass is split from the first one.
pub struct Splits;

impl Split<View> for Splits {
    ghost use Rattle.pb_mail.specs.Views.{with_one_more, next_view};

    ghost left = { with_one_more };

    ghost right = { next_view };
}

/// The same, for the queue that the new pass is to take from.
pub struct Hands;

impl Split<View> for Hands {
    ghost use Rattle.pb_mail.specs.Views.{without_role, next_reader};

    ghost left = { without_role };

    ghost right = { next_reader };
}

impl Join<View> for Splits {
    ghost use Rattle.pb_mail.specs.Views.{met_view, spent_view};

    ghost both = { met_view };

    ghost spent = { spent_view };
}
