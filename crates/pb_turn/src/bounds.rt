//! Locks and passes cross threads if the state may, and a pass has no bytes.
use crate::lock::TurnLock;
use crate::pass::{Held, Pass};
use crate::rule::TurnRule;

fn sends<T: Send>(value: &T) {
    let _ = value;
}

fn shares<T: Sync>(value: &T) {
    let _ = value;
}

// Nobody calls this function. Its proof for each rule shows two facts. If the state may be sent to
// another thread, the lock may be sent and shared, and passes and what a holder has may be sent. A
// pass has no bytes.
fn crosses<R: TurnRule>(lock: &TurnLock<R>, pass: &Pass<R>, held: &Held<R>)
where
    R::State: Send,
{
    prove!(size_of::<Pass<R>>() == 0);
    sends(lock);
    shares(lock);
    sends(pass);
    sends(held);
}
