//! The classes that the bytes of a map represent, and a table of them.
ghost use Rattle.std.specs.Prelude.{◌≡◌, ◌<◌, ℕ, None, slice_index_or};
ghost use Rattle.pb_grid.specs.Reading.{class_of_byte};

use pb_task::Class;

// The class of the cell that a byte represents.
#[tactic(auto, unfolding(crate::specs::Reading::class_of_byte))]
fn class_of_byte(byte: u8) -> Option<Class>
    ensures { result ≡ class_of_byte byte }
{
    match byte {
        b'.' | b'G' | b'S' => Some(Class::Land),
        b'W' => Some(Class::Water),
        b'@' | b'O' | b'T' => Some(Class::Blocked),
        _ => None,
    }
}

/// The class that each byte represents. A look-up is faster than a match.
#[derive(Drop)]
pub struct ClassTable {
    classes: [Option<Class>; 256],
    ghost known: { (byte : ℕ) → byte < 256 → slice_index_or classes byte None ≡ class_of_byte byte },
}

impl ClassTable {
    /// The table of all bytes.
    pub fn new() -> ClassTable {
        let mut classes = [None; 256];
        for byte in 0..256u16 {
            classes[byte as usize] = class_of_byte(byte as u8);
        }
        ClassTable { classes }
    }

    /// The class of the cell that a byte represents.
    #[inline]
    pub fn get(&self, byte: u8) -> Option<Class>
        ensures { result ≡ class_of_byte byte }
    {
        self.classes[byte as usize]
    }
}
