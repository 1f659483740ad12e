//! The gate, which is called when a lease is given, and before it is renewed or given back.

/// A gate is called when a worker has got a lease, and each time before the lease is renewed or
/// given back. A call may hold the worker up, and changes nothing else: tests use it to bring
/// workers together.
pub trait Gate: Sync {
    /// The worker has got a lease of the block.
    fn leased(&self, worker: u32, block: u32);

    /// The worker is about to renew its lease of the block or to give it back.
    fn giving(&self, worker: u32, block: u32);
}

/// A gate that holds nobody: each call returns at once.
#[derive(Clone, Copy)]
pub struct OpenGate;

impl Gate for OpenGate {
    fn leased(&self, _worker: u32, _block: u32) {}

    fn giving(&self, _worker: u32, _block: u32) {}
}
