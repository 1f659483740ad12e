//! What saving costs, and what the fakes promise. Each law is the contract of a function without a
//! body.
ghost use Rattle.pb_outside.specs.Laws.{SavesAreBounded, MemoryServes};

/// To save a text takes at most one call more than the text has bytes, even if the last call
/// failed.
pub fn saves_are_bounded()
    ensures { SavesAreBounded }
{}

/// If no failure is listed, a shelf in memory can load each file that it has. It can hold under a
/// name as many bytes as room is reserved for. A sink in memory can then take as many bytes as have
/// room.
pub fn memory_serves()
    ensures { MemoryServes }
{}
