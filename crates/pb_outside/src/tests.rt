//! Readers and writers that are interrupted or fail.
ghost use Rattle.std.specs.Prelude.{◌≤◌, IfOk};

use crate::Load;
use crate::streams::{read_whole, write_whole};
use std::alloc::Global;
use std::io;
use std::io::{ErrorKind, Read, Write};

// Gives or takes two bytes a call and is interrupted at every other call. After its last byte it is
// at its end, or fails.
#[derive(Drop)]
struct Trickle {
    left: usize,
    fails: bool,
    is_interrupted: bool,
}

impl Trickle {
    fn new(left: usize, fails: bool) -> Trickle {
        Trickle {
            left,
            fails,
            is_interrupted: false,
        }
    }

    fn step(&mut self, len: usize) -> io::Result<usize>
        ensures { IfOk result (λ n. n ≤ len) }
    {
        self.is_interrupted = !self.is_interrupted;
        if self.is_interrupted {
            return Err(io::Error::from(ErrorKind::Interrupted));
        }
        if self.left == 0 && self.fails {
            return Err(io::Error::from(ErrorKind::Other));
        }
        let count = len.min(2).min(self.left);
        self.left -= count;
        Ok(count)
    }
}

impl Read for Trickle {
    fn read(&mut self, buf: &mut [u8]) -> io::Result<usize> {
        self.step(buf.len())
    }
}

impl Write for Trickle {
    fn write(&mut self, buf: &[u8]) -> io::Result<usize> {
        self.step(buf.len())
    }

    fn flush(&mut self) -> io::Result<()> {
        Ok(())
    }
}

// How many bytes are read, and how many are left.
fn read_from(alloc: Global, mut file: Trickle, most: u64) -> (Result<usize, Load>, usize) {
    let count = match read_whole(alloc, &mut file, most) {
        Ok(bytes) => Ok(bytes.len()),
        Err(error) => Err(error),
    };
    (count, file.left)
}

#[test]
fn interrupted_calls_are_tried_again(rt: HostRuntime) {
    let long = Err(Load::TooLong { seen: 4 });
    assert_eq!(rt;
        read_from(rt.alloc(), Trickle::new(5, false), 5),
        (Ok(5), 0)
    );
    assert_eq!(rt; read_from(rt.alloc(), Trickle::new(9, true), 3), (long, 5));
    assert_eq!(rt;
        read_from(rt.alloc(), Trickle::new(5, true), 5),
        (Err(Load::Failed), 0)
    );
    assert_eq!(rt; write_whole(&mut Trickle::new(4, true), b"none"), Ok(()));
    assert_eq!(rt; write_whole(&mut Trickle::new(3, true), b"none"), Err(3));
    assert_eq!(rt; write_whole(&mut Trickle::new(3, false), b"none"), Err(3));
}
