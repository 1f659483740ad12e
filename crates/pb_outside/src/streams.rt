//! Reading to the end and writing all, over any reader and writer.
ghost use Rattle.std.specs.Prelude.{◌≡◌, ℕ, ◌+◌, ◌-◌, ◌<◌, ◌≤◌, List, take, length, IfOk, IfErr, IfSome, OnOk, OnErr};
ghost use Rattle.std.specs.Io.KnownBytes.{Keeps, Appends, Consumes, IsAtEnd};
ghost use Rattle.pb_outside.specs.Outside.{SeesOneMore};
ghost use Rattle.pb_outside.specs.Streams.{IsLonger, ConsumesUpTo};

use crate::{Failed, Load};
use std::alloc::Global;
use std::io::{ErrorKind, Read, Write};

const PIECE: usize = 4096;

// Reads once, and again if the call was interrupted.
fn read_some<S: Read>(file: &mut S, piece: &mut [u8]) -> Result<usize, Failed>
    ensures within { IfOk result (λ count. count ≤ length piece.new) }
    ensures bytes { IfOk result (λ count. Consumes (S.remaining file.old) (S.remaining file.new)
        (take count piece.new)) }
    ensures end { IfOk result (λ count. count ≡ 0 → 0 < length piece.new
        → IsAtEnd (S.remaining file.new)) }
    ensures err { OnErr result (Keeps (S.remaining file.old) (S.remaining file.new)) }
{
    // A loop without a bound need not end, since each call may be interrupted.
    'tries: for _ in 0..u64::MAX {
        match file.read(piece) {
            Ok(count) => return Ok(count),
            Err(error) => {
                if error.kind() != ErrorKind::Interrupted {
                    return Err(Failed);
                }
            }
        }
    }
    Err(Failed)
}

// How many bytes to ask for next: at least one, and in all at most one more than the caller allows.
fn next_count(most: u64, len: usize) -> usize
    requires { len ≤ most }
    ensures some { 0 < result }
    ensures within { result ≤ PIECE }
    ensures all { len + result ≤ most + 1 }
{
    let left = most - len as u64;
    if left < PIECE as u64 {
        // One byte more than is allowed shows that the file is too long.
        left as usize + 1
    } else {
        PIECE
    }
}

// Reads a file to its end, if it has at most so many bytes. It never takes more than one byte
// beyond them. Every turn takes at least one byte or is the last.
pub(crate) fn read_whole<S: Read>(alloc: Global, file: &mut S, most: u64) -> Result<Vec<u8>, Load>
    ensures whole { IfOk result (λ bytes. IfSome (S.remaining file.old)
        (λ all. all ≡ bytes.items)) }
    ensures short { IfOk result (λ bytes. length bytes.items ≤ most) }
    ensures long { IfErr result (λ e. IfSome (S.remaining file.old) (λ all. IsLonger most e all)) }
    ensures seen { IfErr result (λ e. SeesOneMore most e) }
    ensures taken { ConsumesUpTo (S.remaining file.old) (S.remaining file.new) (most + 1) }
{
    let mut bytes = Vec::new(alloc);
    let mut piece = [0u8; PIECE];
    'turns: loop {
        let part = &mut piece[..next_count(most, bytes.len())];
        let Ok(count) = read_some(file, part) else {
            return Err(Load::Failed);
        };
        if count == 0 {
            return Ok(bytes);
        }
        // No more than `most` bytes are kept, so the subtraction doesn't wrap.
        if count as u64 > most - bytes.len() as u64 {
            return Err(Load::TooLong { seen: most + 1 });
        }
        if bytes.extend_from_slice(&part[..count]).is_err() {
            return Err(Load::Memory);
        }
    }
}

// Writes once, and again if the call was interrupted.
fn write_some<W: Write>(file: &mut W, piece: &[u8]) -> Result<usize, Failed>
    ensures within { IfOk result (λ count. count ≤ length piece.now) }
    ensures bytes { IfOk result (λ count. Appends (W.contents file.old) (W.contents file.new)
        (take count piece.now)) }
    ensures err { OnErr result (Keeps (W.contents file.old) (W.contents file.new)) }
{
    // A loop without a bound need not end, since each call may be interrupted.
    'tries: for _ in 0..u64::MAX {
        match file.write(piece) {
            Ok(count) => return Ok(count),
            Err(error) => {
                if error.kind() != ErrorKind::Interrupted {
                    return Err(Failed);
                }
            }
        }
    }
    Err(Failed)
}

// Writes all bytes, and leaves none in a buffer. An error is the number of bytes that were written.
pub(crate) fn write_whole<W: Write>(file: &mut W, bytes: &[u8]) -> Result<(), usize>
    ensures ok { OnOk result (Appends (W.contents file.old) (W.contents file.new) bytes.now) }
    ensures within { IfErr result (λ kept. kept ≤ length bytes.now) }
    ensures err { IfErr result (λ kept. Appends (W.contents file.old) (W.contents file.new)
        (take kept bytes.now)) }
{
    let mut done = 0;
    'turns: while done < bytes.len() {
        let Ok(count) = write_some(file, &bytes[done..]) else {
            return Err(done);
        };
        // A writer that takes nothing might do so at each call, and the loop would not end.
        if count == 0 {
            return Err(done);
        }
        done += count;
    }
    // Otherwise bytes could stay in the writer's buffer, and their loss would be no error.
    match file.flush() {
        Ok(()) => Ok(()),
        Err(_) => Err(done),
    }
}
