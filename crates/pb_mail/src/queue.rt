//! The calls on one queue.
ghost use Rattle.std.specs.Prelude.{◌≡◌, ◌^◌, IsTrue, IfOk, IfSome, IfErr, OnOk, OnErr, IfNone, true};
ghost use Rattle.crossbeam_queue.specs.SegTies.{IsSegPassOf};
ghost use Rattle.pb_mail.specs.Views.{first_view, sent_view, with_one_more, next_view, without_role, next_reader, met_view};
ghost use Rattle.pb_mail.specs.Rule.{IsTaken, AreWhole, WasEmpty};

use crate::letter::Sent;
use crate::rule::{Hands, LetterRule, Mail, Sends, Splits, Takes};
use crate::view::View;
use crossbeam_queue::{RuledSegQueue, SegPass};
use std::alloc::{AllocError, Global};
use std::sync::Wait;

/// One queue.
pub type Queue<K> = RuledSegQueue<Sent, View, Mail<K>>;

/// What one pass knows of it.
pub type QueuePass = SegPass<Sent, View>;

/// A queue that nobody else knows yet, and its first pass, which may put letters in and take them
/// out. An error means out of memory.
pub fn open<K: LetterRule>(alloc: Global) -> Result<(Queue<K>, QueuePass), AllocError>
    ensures { IfOk result (λ r. IsSegPassOf r.0 r.1 × (r.1.me.view.client ≡ first_view)) }
{
    Queue::<K>::with_rule(alloc)
}

/// Puts a letter at the end. An error means out of memory, and the letter comes back.
pub fn send<K: LetterRule, R: Wait>(
    rt: &R,
    queue: &Queue<K>,
    queue_pass: &mut QueuePass,
    item: Sent,
) -> Result<(), Sent>
    requires own { IsSegPassOf queue.now queue_pass.old }
    requires live { IsTrue queue_pass.old.me.view.client.is_live }
    requires sender { queue_pass.old.me.view.client.number ≡ item.from }
    requires fit { IsTrue (K.fits item.letter.state) }
    ensures own { IsSegPassOf queue.now queue_pass.new }
    ensures ok { OnOk result (queue_pass.new.me.view.client ≡ sent_view queue_pass.old.me.view.client item.letter) }
    ensures err { OnErr result (queue_pass.new.me.view.client ≡ queue_pass.old.me.view.client) }
    ensures back { IfErr result (λ x. x ≡ item) }
{
    queue.push_as::<Sends, R>(rt, queue_pass, item)
}

/// Takes the first letter. None may also mean that a letter was on its way.
pub fn take<K: LetterRule, R: Wait>(
    rt: &R,
    queue: &Queue<K>,
    queue_pass: &mut QueuePass,
) -> Option<Sent>
    requires own { IsSegPassOf queue.now queue_pass.old }
    requires live { IsTrue queue_pass.old.me.view.client.is_live }
    requires takes { IsTrue queue_pass.old.me.view.client.takes }
    ensures own { IsSegPassOf queue.now queue_pass.new }
    ensures some { IfSome result (λ x. IsTaken K.fits queue_pass.old.me.view.client x queue_pass.new.me.view.client) }
    ensures same { IfNone result (queue_pass.new.me.view.client ≡ queue_pass.old.me.view.client) }
    ensures none { IfNone result (AreWhole queue_pass.old.me.view.client) }
    ensures empty { IfNone result (WasEmpty K.fits queue_pass.old.me.view.client) }
{
    queue.pop_as::<Takes<K>, R>(rt, queue_pass)
}

/// Whether the queue is empty at some moment of the call. Only a yes says something.
pub fn is_empty<K: LetterRule>(queue: &Queue<K>, queue_pass: &mut QueuePass) -> bool
    requires own { IsSegPassOf queue.now queue_pass.old }
    requires live { IsTrue queue_pass.old.me.view.client.is_live }
    requires takes { IsTrue queue_pass.old.me.view.client.takes }
    ensures own { IsSegPassOf queue.now queue_pass.new }
    ensures same { queue_pass.new.me.view.client ≡ queue_pass.old.me.view.client }
    ensures none { result ≡ true → AreWhole queue_pass.old.me.view.client }
    ensures empty { result ≡ true → WasEmpty K.fits queue_pass.old.me.view.client }
{
    queue.is_empty_as::<Takes<K>>(queue_pass)
}

/// One more pass, which may put letters in and not take them out.
pub fn split<K: LetterRule>(queue: &Queue<K>, queue_pass: &mut QueuePass) -> QueuePass
    requires own { IsSegPassOf queue.now queue_pass.old }
    requires live { IsTrue queue_pass.old.me.view.client.is_live }
    requires first { queue_pass.old.me.view.client.number ≡ 0 }
    ensures own { IsSegPassOf queue.now queue_pass.new × IsSegPassOf queue.now result }
    ensures kept { queue_pass.new.me.view.client ≡ with_one_more queue_pass.old.me.view.client }
    ensures given { result.me.view.client ≡ next_view queue_pass.old.me.view.client }
{
    queue.another::<Splits>(queue_pass)
}

/// A pass with the right to take letters, which the first pass then no longer has.
pub fn hand_over<K: LetterRule>(queue: &Queue<K>, queue_pass: &mut QueuePass) -> QueuePass
    requires own { IsSegPassOf queue.now queue_pass.old }
    requires live { IsTrue queue_pass.old.me.view.client.is_live }
    requires first { queue_pass.old.me.view.client.number ≡ 0 }
    requires takes { IsTrue queue_pass.old.me.view.client.takes }
    ensures own { IsSegPassOf queue.now queue_pass.new × IsSegPassOf queue.now result }
    ensures kept { queue_pass.new.me.view.client ≡ without_role queue_pass.old.me.view.client }
    ensures given { result.me.view.client ≡ next_reader queue_pass.old.me.view.client }
{
    queue.another::<Hands>(queue_pass)
}

/// Takes another pass in. This one then knows what that one sent, and may take what that one might.
pub fn meet<K: LetterRule>(queue: &Queue<K>, queue_pass: &mut QueuePass, other: QueuePass)
    requires own { IsSegPassOf queue.now queue_pass.old × IsSegPassOf queue.now other }
    requires live { IsTrue queue_pass.old.me.view.client.is_live × IsTrue other.me.view.client.is_live }
    ensures own { IsSegPassOf queue.now queue_pass.new }
    ensures met { queue_pass.new.me.view.client ≡ met_view queue_pass.old.me.view.client other.me.view.client }
{
    queue.absorb::<Splits>(queue_pass, other);
}
