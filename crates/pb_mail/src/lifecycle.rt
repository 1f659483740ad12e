//! Making the queues, a pass for each owner, and ending the queues.
ghost use Rattle.std.specs.Prelude.{◌≡◌, ◌+◌, ◌<◌, ◌==◌, ℕ, IsTrue, IfOk, OnErr};
ghost use Rattle.pb_mail.specs.Views.{first_view, kept_view, given_view, met_view};
ghost use Rattle.pb_mail.specs.Passes.{IsPassOf, view_at, number_of, made_by, owners_of, IsSplit, HasMet, IsQueuePassOf, HasQueuePasses, HasNewQueuePass};

use crate::pass::PostPass;
use crate::post::Post;
use crate::queue::{Queue, QueuePass, hand_over, meet, open, split};
use crate::rule::LetterRule;
use std::alloc::{AllocError, Global};

// Ends queues, with the letters that are left.
fn end_queues<K: LetterRule>(mut queues: Vec<Queue<K>>) {
    while let Some(queue) = queues.pop() {
        queue.destroy();
    }
    queues.destroy_empty();
}

impl<K: LetterRule> Post<K> {
    /// A queue for each of so many owners, and the pass of owner 0. An error is out of memory.
    pub fn new(alloc: Global, owners: u32) -> Result<(Post<K>, PostPass), AllocError>
        requires { 0 < owners }
        ensures own { IfOk result (λ r. IsPassOf r.0 r.1) }
        ensures owners { IfOk result (λ r. owners_of r.0 ≡ owners) }
        ensures number { IfOk result (λ r. (number_of r.1 ≡ 0)) }
        ensures made { IfOk result (λ r. (made_by r.1 ≡ 1)) }
        ensures views { IfOk result (λ r. (owner : ℕ) → owner < owners
            → view_at r.1 owner ≡ first_view) }
    {
        let mut queue_passes = Vec::with_capacity(alloc, owners as usize)?;
        let mut queues = Vec::with_capacity(alloc, owners as usize)?;
        for _i in 0..owners {
            match open::<K>(alloc) {
                Ok((queue, queue_pass)) => {
                    queues.push_reserved(queue);
                    queue_passes.push_reserved(queue_pass);
                }
                Err(error) => {
                    // A queue can't be dropped, so those that are open are ended before the error
                    // is returned.
                    end_queues(queues);
                    return Err(error);
                }
            }
        }
        Ok((
            Post { queues },
            PostPass {
                queue_passes,
                number: 0,
                made: 1,
            },
        ))
    }

    /// The next owner's pass. Only owner 0's pass makes the others, and it counts them. If memory
    /// runs out it is as before.
    pub fn split(&self, alloc: Global, pass: &mut PostPass) -> Result<PostPass, AllocError>
        requires own { IsPassOf self.now pass.old }
        requires first { number_of pass.old ≡ 0 }
        requires more { made_by pass.old < owners_of self.now }
        ensures own { IsPassOf self.now pass.new }
        ensures number { number_of pass.new ≡ 0 }
        ensures made { IfOk result (λ _. made_by pass.new ≡ made_by pass.old + 1) }
        ensures given { IfOk result (IsPassOf self.now) }
        ensures given_number { IfOk result (λ r. number_of r ≡ made_by pass.old) }
        ensures views { IfOk result (IsSplit (owners_of self.now) pass.old pass.new) }
        ensures err { OnErr result (pass.new ≡ pass.old) }
    {
        // The one step that may fail comes first, so after an error the pass is as before.
        let mut queue_passes = Vec::with_capacity(alloc, self.queues.len())?;
        let number = pass.made;
        for at in 0..self.queues.len() {
            queue_passes.push_reserved(self.split_at(pass, at));
        }
        pass.made += 1;
        Ok(PostPass {
            queue_passes,
            number,
            made: 0,
        })
    }

    /// Takes in another pass: the taker knows from now on what the other one knew, and may take
    /// letters from the queues that the other might take from.
    pub fn meet(&self, pass: &mut PostPass, other: PostPass)
        requires own { IsPassOf self.now pass.old × IsPassOf self.now other }
        ensures own { IsPassOf self.now pass.new }
        ensures number { number_of pass.new ≡ number_of pass.old }
        ensures made { made_by pass.new ≡ made_by pass.old }
        ensures met { HasMet (owners_of self.now) pass.old other pass.new }
    {
        let PostPass {
            mut queue_passes,
            number: _,
            made: _,
        } = other;
        while let Some(queue_pass) = queue_passes.pop() {
            // After the pop the length is the number of the queue whose pass was last.
            self.meet_at(pass, queue_passes.len(), queue_pass);
        }
    }

    // Splits off a queue_pass of one queue.
    fn split_at(&self, pass: &mut PostPass, at: usize) -> QueuePass
        requires below { at < owners_of self.now }
        requires queue_passes { HasQueuePasses self.now pass.old }
        requires live { IsTrue (view_at pass.old at).is_live }
        requires first { (view_at pass.old at).number ≡ 0 }
        requires takes { at ≡ made_by pass.old → IsTrue (view_at pass.old at).takes }
        ensures kept { HasNewQueuePass self.now pass.old pass.new at
            (kept_view (at == made_by pass.old) (view_at pass.old at)) }
        ensures of_queue { IsQueuePassOf self.now at result }
        ensures given { result.me.view.client
            ≡ given_view (at == made_by pass.old) (view_at pass.old at) }
    {
        if at == pass.made as usize {
            hand_over(&self.queues[at], &mut pass.queue_passes[at])
        } else {
            split(&self.queues[at], &mut pass.queue_passes[at])
        }
    }

    // Takes in a queue_pass of one queue.
    fn meet_at(&self, pass: &mut PostPass, at: usize, other: QueuePass)
        requires below { at < owners_of self.now }
        requires queue_passes { HasQueuePasses self.now pass.old }
        requires of_queue { IsQueuePassOf self.now at other }
        requires live { IsTrue (view_at pass.old at).is_live × IsTrue other.me.view.client.is_live }
        ensures met { HasNewQueuePass self.now pass.old pass.new at
            (met_view (view_at pass.old at) other.me.view.client) }
    {
        meet(&self.queues[at], &mut pass.queue_passes[at], other);
    }

    /// Ends the queues, with the letters that are left in them.
    pub fn close(self) {
        let Post { queues } = self;
        end_queues(queues);
    }
}
