//! Three owners on one thread: what each takes, and what is left for the first.
ghost use Rattle.std.specs.Prelude.{◌≡◌, ◌<◌, ◌≤◌, ℕ, IsTrue};
ghost use Rattle.pb_mail.specs.Passes.{IsPassOf, number_of, made_by, owners_of, view_at};

use pb_mail::{Letter, LetterRule, Post, PostPass};
use pb_packed::Packed;
use std::alloc::{AllocError, Global};
use std::sync::Wait;
use std::test::Fail;

/// Any state may be sent.
pub struct AnyState;

impl LetterRule for AnyState {
    ghost use Rattle.std.specs.Prelude.{true};

    ghost fits = { λ _. true };
}

/// A letter that costs so much.
pub fn letter(g: u64) -> Letter {
    let zero = Packed::zero();
    Letter {
        state: zero,
        g,
        parent: zero,
        action: 0,
    }
}

// The taker of a letter, its sender, and its cost.
type Taken = (u32, u32, u64);

// Takes one letter, and notes it, if there is one.
fn take_one<R: Wait>(
    rt: &R,
    post: &Post<AnyState>,
    pass: &mut PostPass,
    taken: &mut Vec<Taken>,
) -> Result<(), AllocError>
    requires own { IsPassOf post.now pass.old }
    ensures own { IsPassOf post.now pass.new }
    ensures number { number_of pass.new ≡ number_of pass.old }
    ensures made { made_by pass.new ≡ made_by pass.old }
{
    let number = pass.number();
    match post.take(rt, pass) {
        Some((from, letter)) => Ok(taken.push((number, from, letter.g))?),
        None => Ok(()),
    }
}

// Takes two letters that are left for an owner, and notes them, if there are any.
fn clear_two<R: Wait>(
    rt: &R,
    post: &Post<AnyState>,
    pass: &mut PostPass,
    owner: u32,
    taken: &mut Vec<Taken>,
) -> Result<(), AllocError>
    requires own { IsPassOf post.now pass.old }
    requires below { owner < owners_of post.now }
    requires takes { IsTrue (view_at pass.old owner).takes }
    ensures own { IsPassOf post.now pass.new }
    ensures roles { (other : ℕ) → IsTrue (view_at pass.old other).takes
        → IsTrue (view_at pass.new other).takes }
{
    clear_one(rt, post, pass, owner, taken)?;
    clear_one(rt, post, pass, owner, taken)
}

// Sends a letter that costs so much. False if memory ran out.
fn send_one<R: Wait>(rt: &R, post: &Post<AnyState>, pass: &mut PostPass, to: u32, g: u64) -> bool
    requires own { IsPassOf post.now pass.old }
    requires to { to < owners_of post.now }
    ensures own { IsPassOf post.now pass.new }
    ensures number { number_of pass.new ≡ number_of pass.old }
    ensures made { made_by pass.new ≡ made_by pass.old }
{
    post.send(rt, pass, to, letter(g)).is_ok()
}

// The first sends 1 and 2 to the second and 3 to the third. The third sends 4 to the second, 5 to
// the first and 6 to itself. False if memory ran out.
fn send_six<R: Wait>(
    rt: &R,
    post: &Post<AnyState>,
    first: &mut PostPass,
    third: &mut PostPass,
) -> bool
    requires first { IsPassOf post.now first.old }
    requires third { IsPassOf post.now third.old }
    requires owners { owners_of post.now ≡ 3 }
    ensures first { IsPassOf post.now first.new }
    ensures first_number { number_of first.new ≡ number_of first.old }
    ensures first_made { made_by first.new ≡ made_by first.old }
    ensures third { IsPassOf post.now third.new }
    ensures third_number { number_of third.new ≡ number_of third.old }
{
    let by_first = send_one(rt, post, first, 1, 1)
        & send_one(rt, post, first, 1, 2)
        & send_one(rt, post, first, 2, 3);
    let by_third = send_one(rt, post, third, 1, 4)
        & send_one(rt, post, third, 0, 5)
        & send_one(rt, post, third, 2, 6);
    by_first & by_third
}

// Takes one letter that is left for an owner, and notes it, if there is one.
fn clear_one<R: Wait>(
    rt: &R,
    post: &Post<AnyState>,
    pass: &mut PostPass,
    owner: u32,
    taken: &mut Vec<Taken>,
) -> Result<(), AllocError>
    requires own { IsPassOf post.now pass.old }
    requires below { owner < owners_of post.now }
    requires takes { IsTrue (view_at pass.old owner).takes }
    ensures own { IsPassOf post.now pass.new }
    ensures roles { (other : ℕ) → IsTrue (view_at pass.old other).takes
        → IsTrue (view_at pass.new other).takes }
{
    match post.clear_next(rt, pass, owner) {
        Some((from, letter)) => Ok(taken.push((owner, from, letter.g))?),
        None => Ok(()),
    }
}

// The second takes all that is sent to it, and the first its one letter. What the third leaves is
// cleared by the first, once it met both others.
fn exchange<R: Wait>(
    rt: &R,
    alloc: Global,
    post: &Post<AnyState>,
    mut first: PostPass,
) -> Result<Vec<Taken>, AllocError>
    requires own { IsPassOf post.now first }
    requires number { number_of first ≡ 0 }
    requires made { made_by first ≡ 1 }
    requires owners { owners_of post.now ≡ 3 }
{
    let mut taken = Vec::new(alloc);
    let mut second = post.split(alloc, &mut first)?;
    let mut third = post.split(alloc, &mut first)?;
    if !send_six(rt, post, &mut first, &mut third) {
        return Err(AllocError);
    }
    take_one(rt, post, &mut second, &mut taken)?;
    take_one(rt, post, &mut second, &mut taken)?;
    take_one(rt, post, &mut second, &mut taken)?;
    take_one(rt, post, &mut second, &mut taken)?;
    take_one(rt, post, &mut first, &mut taken)?;
    post.meet(&mut first, second);
    post.meet(&mut first, third);
    clear_two(rt, post, &mut first, 2, &mut taken)?;
    clear_one(rt, post, &mut first, 1, &mut taken)?;
    Ok(taken)
}

fn exchanged<R: Wait>(rt: &R, alloc: Global) -> Result<Vec<Taken>, AllocError> {
    let (post, first) = Post::<AnyState>::new(alloc, 3)?;
    let taken = exchange(rt, alloc, &post, first);
    post.close();
    taken
}

#[test]
fn letters_come_once_in_the_order_of_their_sender(rt: HostRuntime) -> Result<(), Fail> {
    let taken = exchanged(&rt, rt.alloc())?;
    let wanted = [
        (1, 0, 1),
        (1, 0, 2),
        (1, 2, 4),
        (0, 2, 5),
        (2, 0, 3),
        (2, 2, 6),
    ];
    assert_eq!(rt; taken.as_slice(), wanted.as_slice());
    Ok(())
}
