//! The rule of a caller's lock.
ghost use Rattle.std.specs.Prelude.{List, Option, ℕ};

/// What a lock guards, what one pass knows of it, and the fact that ties the two.
pub trait TurnRule {
    /// What the holder of the turn has. It may be of any type, also of one that can't be dropped.
    type State;

    /// What one pass knows: its view. No value of it is made.
    type View;

    // What holds between any two steps of three things: the state that the last holder left, the
    // number, and the views of all passes, each at its pass's number. The views of passes that were
    // dropped or met stay in the list.
    ghost fact: { Self.State → ℕ → List Self.View → Type 0 };

    // The view of the first pass.
    ghost first: { Self.State → Self.View };

    // What a pass keeps of its view after another is split from it, and what the other gets.
    ghost kept: { Self.View → Self.View };

    ghost given: { Self.View → Self.View };

    // The view of a pass that took in another (its own first), and the view that is left at the
    // other's number.
    ghost met: { Self.View → Self.View → Self.View };

    ghost spent: { Self.View };

    // The view that a load of the number leaves: of the state that the pass has found, if it holds
    // the turn, of the view before, and of the number.
    ghost loaded: { Option Self.State → Self.View → ℕ → Self.View };

    // The view that a lowering leaves, of the view before and the number that was brought.
    ghost lowered: { Self.View → ℕ → Self.View };
}

/// The view that a holder leaves with.
pub trait Leaving<R: TurnRule> {
    /// What the holder says as it leaves, if neither state shows it: for example, what it took out
    /// of the state.
    type Said;

    // Of what it says, of the state that it found, of the state that it leaves, and of its view
    // before.
    ghost after: { Self.Said → R.State → R.State → R.View → R.View };
}
