//! The edge of the program: files kept by name, a sink for what is printed, and a gate that holds
//! workers.
#![tactic(auto)]

mod buffer;
mod calls;
mod events;
mod file_shelf;
mod gate;
mod laws;
mod memory;
mod memory_shelf;
mod memory_sink;
mod out_sink;
mod place;
mod shelf;
mod sink;
mod streams;
#[cfg(test)]
mod tests;
mod transcript;

pub use file_shelf::FileShelf;
pub use gate::{Gate, OpenGate};
pub use laws::{memory_serves, saves_are_bounded};
pub use memory::Memory;
pub use memory_shelf::MemShelf;
pub use memory_sink::MemSink;
pub use out_sink::OutSink;
pub use shelf::{Load, Shelf};
pub use sink::{Failed, Sink};
pub use transcript::{Event, Transcript};
