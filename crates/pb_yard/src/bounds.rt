//! Yards and passes cross threads.
use crate::pass::Pass;
use crate::yard::Yard;
use pb_lease::LeaseGraph;

fn sends<T: Send>(value: &T) {
    let _ = value;
}

fn shares<T: Sync>(value: &T) {
    let _ = value;
}

// Nobody calls it. That it is proved shows that a yard may be shared by threads, and that graphs
// and passes may be sent to them.
fn crosses(graph: &LeaseGraph, yard: &Yard, pass: &Pass) {
    sends(graph);
    sends(yard);
    shares(yard);
    sends(pass);
}
