//! What an action does to images.
ghost use Rattle.std.specs.Prelude.{◌≡◌, ◌*◌, ◌^◌, ◌<◌, ◌≤◌, not, ◌&&◌, length, nat_eq};
ghost use Rattle.pb_packed.specs.Words.{number_of, AreWords};
ghost use Rattle.pb_task.specs.Strips.{action_at, IsStrips};
ghost use Rattle.pb_tables.specs.Images.{may_act, image_after, place_in};
ghost use Rattle.pb_tables.specs.Order.{AreRising};
ghost use Rattle.pb_tables.specs.Looking.{IsEffect};

use crate::images::{ImageList, words_for};
use crate::sets::{both, change, is_within_words};
use pb_packed::Packed;
use pb_task::StripsParts;

/// The sets of an action, cut to the tracked atoms, and the tracked atoms, all in words.
#[derive(Clone, Copy)]
pub struct Effect {
    /// The atoms that must hold before it.
    pub needs: [u64; 16],
    /// The atoms that hold after it.
    pub adds: [u64; 16],
    /// The atoms that it deletes.
    pub deletes: [u64; 16],
    /// The tracked atoms.
    pub tracked: [u64; 16],
    /// How many words hold what it needs, and what it adds.
    pub width: usize,
}

/// The sets of the action of a number, cut to the tracked atoms.
pub fn effect_of(strips: &StripsParts, tracked: &Packed, action: usize) -> Effect
    requires strips { IsStrips strips.now }
    requires tracked { tracked.now < 2 ^ strips.now.atoms }
    requires action { action < length strips.now.actions }
    ensures { IsEffect strips.now.atoms tracked.now (action_at strips.now.actions action) result }
{
    let needs = both(strips.atoms, &strips.actions.needs(action), tracked);
    let adds = both(strips.atoms, &strips.actions.adds(action), tracked);
    let deletes = both(strips.atoms, &strips.actions.deletes(action), tracked);
    Effect {
        needs: needs.to_words(),
        adds: adds.to_words(),
        deletes: deletes.to_words(),
        tracked: tracked.to_words(),
        width: words_for(&needs).max(words_for(&adds)),
    }
}

/// Whether an action adds or deletes a tracked atom.
pub fn touches(effect: &Effect) -> bool
    requires adds { AreWords 16 effect.now.adds }
    requires deletes { AreWords 16 effect.now.deletes }
    ensures { result ≡ not (nat_eq (number_of effect.now.adds) 0
        && nat_eq (number_of effect.now.deletes) 0) }
{
    let adds = Packed::of_slice(&effect.adds);
    let deletes = Packed::of_slice(&effect.deletes);
    !(adds == Packed::zero() && deletes == Packed::zero())
}

/// Whether an action may be taken from an image in words.
#[inline]
pub fn may_act(
    strips: &StripsParts,
    tracked: &Packed,
    action: usize,
    effect: &Effect,
    image: &[u64],
) -> bool
    requires effect { IsEffect strips.now.atoms tracked.now (action_at strips.now.actions action)
        effect.now }
    requires image { AreWords (length image.now) image.now }
    ensures { result ≡ may_act strips.now.atoms tracked.now (action_at strips.now.actions action)
        (number_of image.now) }
{
    // The clauses name the action by its number; the code takes its sets from `effect`.
    let _ = tracked;
    let _ = action;
    is_within_words(strips.atoms, &effect.needs[..effect.width], image)
}

// Writes the image that an action leads to from one in words.
#[inline]
fn write_next(
    strips: &StripsParts,
    tracked: &Packed,
    action: usize,
    effect: &Effect,
    image: &[u64],
    next: &mut [u64],
)
    requires strips { IsStrips strips.now }
    requires tracked { tracked.now < 2 ^ strips.now.atoms }
    requires effect { IsEffect strips.now.atoms tracked.now (action_at strips.now.actions action)
        effect.now }
    requires image { AreWords (length image.now) image.now }
    requires room { length image.now ≤ length next.old }
    requires fits { number_of effect.now.adds < 2 ^ (64 * length next.old) }
    requires few { length next.old ≤ 16 }
    ensures words { AreWords (length next.old) next.new }
    ensures image { number_of next.new ≡ image_after strips.now.atoms tracked.now
        (action_at strips.now.actions action) (number_of image.now) }
{
    let _ = strips;
    let _ = tracked;
    let _ = action;
    change(next, image, &effect.adds, &effect.deletes, &effect.tracked);
}

/// The place of the image that an action leads to from one in words. The look begins at the place
/// `near`.
#[inline]
pub fn place_after(
    strips: &StripsParts,
    tracked: &Packed,
    listed: &ImageList,
    action: usize,
    effect: &Effect,
    image: &[u64],
    near: usize,
) -> Option<usize>
    requires strips { IsStrips strips.now }
    requires tracked { tracked.now < 2 ^ strips.now.atoms }
    requires effect { IsEffect strips.now.atoms tracked.now (action_at strips.now.actions action)
        effect.now }
    requires few { length image.now ≤ 16 }
    requires image { AreWords (length image.now) image.now }
    requires rising { AreRising listed.now }
    ensures { result ≡ place_in listed.now (image_after strips.now.atoms tracked.now
        (action_at strips.now.actions action) (number_of image.now)) }
{
    // What the action adds may take more words than the image has.
    let width = image.len().max(effect.width);
    let mut next = [0; 16];
    let words = &mut next[..width];
    write_next(strips, tracked, action, effect, image, words);
    listed.place_near(words, near)
}
