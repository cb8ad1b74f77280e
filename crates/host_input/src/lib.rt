// The check program's input. There is a file only where a read has said that the input has ended: an input that cannot be read to its end
// gives none. Of an input that is longer than any file, only the front is held; what is handed over is refused as the whole input would be.
#![tactic(auto)]

ghost use Rattle.std.specs.Prelude.{◌≡◌, ℕ, ◌+◌, ◌<◌, ◌≤◌, length, List};
ghost use Rattle.host_input.specs.Held.{held_by, held_of, FitsIn, Came, CameAt, HandsOver};

use std::io;
use std::io::Read;

// The bytes of one record more than a file may have: number 2 refuses that many, unless 1 does.
const HELD: usize = 10376;

// The buffer: room for those bytes, and for the remainder by 8 of a longer input.
pub const ROOM: usize = 10383;

// Returns how many bytes to hand over when `got` more bytes have come after an input for which it was `at`. Past `HELD` only the remainder
// by 8 is kept, which is what numbers 1 and 2 look at.
fn held(at: usize, got: usize) -> usize
    ensures count { (n : ℕ) → at ≡ held_of n → result ≡ held_of (n + got) }
    ensures room { result ≤ 10383 }
{
    if got < HELD.saturating_sub(at) {
        return at + got;
    }
    HELD + (at % 8 + got % 8) % 8
}

// What the answer `got` of a read into `buffer` says: how many bytes came, at most `buffer`'s length, or that the read failed. A read that came is
// never told as one that failed, nor the other way round.
fn said(got: io::Result<usize>, buffer: &[u8]) -> io::Result<usize>
    ensures { result ≡ held_by got (length buffer.now) }
{
    match got {
        Ok(n) => Ok(n.min(buffer.len())),
        Err(e) => Err(e),
    }
}

// Reads once from `input` into `buffer`, and returns how many bytes came: none where the input has ended, if `buffer` has room for any.
fn read_into<R: Read>(input: &mut R, buffer: &mut [u8]) -> io::Result<usize>
    ensures { Came (R.remaining input.old) (R.remaining input.new) result buffer.new }
{
    let got = input.read(buffer);
    said(got, buffer)
}

// Reads once, and throws away what came: the input is longer than any file.
fn read_past<R: Read>(input: &mut R) -> io::Result<usize>
    ensures { (room : List ℕ) × (0 < length room) × Came (R.remaining input.old) (R.remaining input.new) result room }
{
    let mut scratch = [0u8; 4096];
    read_into(input, &mut scratch)
}

// Reads once, into `buffer` from place `at` on while there is room for a file, and else past it.
fn read_at<R: Read>(input: &mut R, buffer: &mut [u8], at: usize) -> io::Result<usize>
    requires { 10376 ≤ length buffer.old }
    ensures { CameAt (R.remaining input.old) (R.remaining input.new) result at buffer.old buffer.new }
{
    if at < HELD {
        return read_into(input, &mut buffer[at..HELD]);
    }
    read_past(input)
}

// Reads `input` into `buffer` until a read says that it has ended, or fails. The file is as many bytes at the front of the buffer as the
// answer says; where it is an error, there is none. A proved loop must end, so this one has a number of turns that no input uses up.
pub fn read<R: Read>(input: &mut R, buffer: &mut [u8; ROOM]) -> io::Result<usize>
    ensures fits { FitsIn result }
    ensures bytes { HandsOver (R.remaining input.old) result buffer.new }
{
    let mut at: usize = 0;
    for _ in 0..u64::MAX {
        let got = read_at(input, buffer, at)?;
        if got == 0 {
            return Ok(at);
        }
        at = held(at, got);
    }
    Err(io::Error::from(io::ErrorKind::FileTooLarge))
}
