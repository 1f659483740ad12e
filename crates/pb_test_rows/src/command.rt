//! The program that rows of tests run, as a trait.
ghost use Rattle.std.specs.Thread.{IsSync};

use pb_outside::{MemShelf, MemSink};
use std::alloc::Global;
use std::sync::Wait;
use std::thread::Threads;

/// What rows are about: a program over files and output in memory.
pub trait Command {
    /// Does what the words ask, and gives the exit status.
    fn run<R: Threads + Wait + Sync>(
        &self,
        rt: &R,
        alloc: Global,
        words: &[String],
        shelf: &mut MemShelf,
        sink: &mut MemSink,
    ) -> u8
        // A body of this trait's impl doesn't know by the bound that threads may share the runtime.
        requires { IsSync R.row };
}
