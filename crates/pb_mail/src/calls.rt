//! Sending and taking.
ghost use Rattle.std.specs.Prelude.{◌≡◌, ◌<◌, ◌↔◌, IsTrue, true, IsNone, IfSome, IfNone, IfErr, OnOk, OnErr};
ghost use Rattle.pb_mail.specs.Views.{sent_view};
ghost use Rattle.pb_mail.specs.Rule.{AreWhole, WasEmpty, HasMetAll};
ghost use Rattle.pb_mail.specs.Passes.{IsPassOf, view_at, number_of, made_by, owners_of, ChangesAt, TakesFrom, KnowsTheSame};

use crate::letter::{Letter, Sent};
use crate::pass::PostPass;
use crate::post::Post;
use crate::queue::{is_empty, send, take};
use crate::rule::LetterRule;
use std::alloc::AllocError;
use std::sync::Wait;

impl<K: LetterRule> Post<K> {
    /// Sends a letter to an owner. The letter comes back if memory runs out.
    pub fn send<R: Wait>(
        &self,
        rt: &R,
        pass: &mut PostPass,
        to: u32,
        letter: Letter,
    ) -> Result<(), (AllocError, Letter)>
        requires own { IsPassOf self.now pass.old }
        requires to { to < owners_of self.now }
        requires fit { IsTrue (K.fits letter.state) }
        ensures own { IsPassOf self.now pass.new }
        ensures number { number_of pass.new ≡ number_of pass.old }
        ensures made { made_by pass.new ≡ made_by pass.old }
        ensures ok { OnOk result (ChangesAt pass.old pass.new to
            (sent_view (view_at pass.old to) letter)) }
        ensures err { OnErr result (KnowsTheSame pass.old pass.new) }
        ensures back { IfErr result (λ e. e.1 ≡ letter) }
    {
        let at = to as usize;
        let item = Sent {
            from: pass.number,
            letter,
        };
        match send(rt, &self.queues[at], &mut pass.queue_passes[at], item) {
            Ok(()) => Ok(()),
            Err(back) => Err((AllocError, back.letter)),
        }
    }

    /// Takes the next letter from its owner's queue, with the sender's number. None only if the
    /// queue was empty at one moment of the call.
    pub fn take<R: Wait>(&self, rt: &R, pass: &mut PostPass) -> Option<(u32, Letter)>
        requires own { IsPassOf self.now pass.old }
        ensures own { IsPassOf self.now pass.new }
        ensures number { number_of pass.new ≡ number_of pass.old }
        ensures made { made_by pass.new ≡ made_by pass.old }
        ensures some { IfSome result (λ r. TakesFrom K.fits pass.old pass.new (number_of pass.old)
            (record { from = r.0; letter = r.1 })) }
        ensures none { IfNone result (KnowsTheSame pass.old pass.new
            × AreWhole (view_at pass.old (number_of pass.old))) }
        ensures empty { IfNone result (WasEmpty K.fits (view_at pass.old (number_of pass.old))) }
    {
        self.take_from(rt, pass, pass.number)
    }

    /// Whether its owner's queue was empty at one moment of the call. Nothing is taken. While others
    /// send, the next `take` may find a letter all the same.
    pub fn is_empty(&self, pass: &mut PostPass) -> bool
        requires own { IsPassOf self.now pass.old }
        ensures own { IsPassOf self.now pass.new }
        ensures number { number_of pass.new ≡ number_of pass.old }
        ensures made { made_by pass.new ≡ made_by pass.old }
        ensures same { KnowsTheSame pass.old pass.new }
        ensures none { result ≡ true → AreWhole (view_at pass.old (number_of pass.old)) }
        ensures empty { result ≡ true → WasEmpty K.fits (view_at pass.old (number_of pass.old)) }
    {
        let at = pass.number as usize;
        is_empty(&self.queues[at], &mut pass.queue_passes[at])
    }

    /// Takes the next letter from any owner's queue, after that owner's pass was met. None only if
    /// the queue was empty at one moment of the call. If all other passes were met, nobody sends any
    /// more: then it is empty for good.
    pub fn clear_next<R: Wait>(
        &self,
        rt: &R,
        pass: &mut PostPass,
        owner: u32,
    ) -> Option<(u32, Letter)>
        requires own { IsPassOf self.now pass.old }
        requires below { owner < owners_of self.now }
        requires takes { IsTrue (view_at pass.old owner).takes }
        ensures own { IsPassOf self.now pass.new }
        ensures number { number_of pass.new ≡ number_of pass.old }
        ensures made { made_by pass.new ≡ made_by pass.old }
        ensures some { IfSome result (λ r. TakesFrom K.fits pass.old pass.new owner
            (record { from = r.0; letter = r.1 })) }
        ensures none { IfNone result (KnowsTheSame pass.old pass.new
            × AreWhole (view_at pass.old owner)) }
        ensures empty { IfNone result (WasEmpty K.fits (view_at pass.old owner)) }
        ensures exact { HasMetAll (view_at pass.old owner)
            → IsNone result ↔ AreWhole (view_at pass.old owner) }
    {
        self.take_from(rt, pass, owner)
    }

    // Takes the next letter from a queue that the pass may take from.
    fn take_from<R: Wait>(&self, rt: &R, pass: &mut PostPass, owner: u32) -> Option<(u32, Letter)>
        requires own { IsPassOf self.now pass.old }
        requires below { owner < owners_of self.now }
        requires takes { IsTrue (view_at pass.old owner).takes }
        ensures own { IsPassOf self.now pass.new }
        ensures number { number_of pass.new ≡ number_of pass.old }
        ensures made { made_by pass.new ≡ made_by pass.old }
        ensures some { IfSome result (λ r. TakesFrom K.fits pass.old pass.new owner
            (record { from = r.0; letter = r.1 })) }
        ensures none { IfNone result (KnowsTheSame pass.old pass.new
            × AreWhole (view_at pass.old owner)) }
        ensures empty { IfNone result (WasEmpty K.fits (view_at pass.old owner)) }
    {
        let at = owner as usize;
        match take(rt, &self.queues[at], &mut pass.queue_passes[at]) {
            Some(taken) => Some((taken.from, taken.letter)),
            None => None,
        }
    }
}
