// Moving a file to the other form of records, as two calls on a file and a lent output (document 02, C-17): `widen` moves eight-byte records
// over to sixteen bytes, and `narrow` moves them back. `put` and `put_narrower` write a part of an output; unfolding uses them too.
#![tactic(auto)]

ghost use Rattle.std.specs.Prelude.{◌≡◌, ◌+◌, ◌*◌, ◌<◌, ◌≤◌, ◌/◌, length};
ghost use Rattle.std.proofs.Math.Seq.{paste};
ghost use Rattle.spec_file.specs.Answers.{tested_of};
ghost use Rattle.spec_file.specs.Refusals.{first_of};
ghost use Rattle.spec_unfold.specs.Calls.{widen_refusals, narrow_refusals};
ghost use Rattle.spec_unfold.specs.Moving.{widened, narrowed, has_long};
ghost use Rattle.call_move.specs.Answers.{Widens, Narrows};
ghost use Rattle.call_move.specs.Fronts.{over};
ghost use Rattle.call_move.specs.LongLaws.{long_at};

use file_wide_checks::WIDTH;
use spec_file::{Fault, RULE_KIND, Refusal, refuse_if};

// ---- writing

// Writes the bytes of `part` to `out`, from byte `at` on. The other bytes of `out` keep their values.
pub fn put(out: &mut [u8], at: usize, part: &[u8])
    requires { at + length part.now ≤ length out.old }
    ensures { out.new ≡ paste out.old at part.now (length part.now) }
{
    out[at..at + part.len()].copy_from_slice(part);
}

// Writes the records of `file`, of eight bytes each, to the front of `out`, each with eight zeros behind it. (Not one function with
// `put_narrower`: that one writes no zeros, and each is proved by the definition of its own form.)
fn put_wider(file: &[u8], out: &mut [u8])
    requires { length file.now / 8 * 16 ≤ length out.old }
    ensures { out.new ≡ over (widened file.now) out.old }
{
    let zeros = [0u8; 8];
    // The records before `i` are written, and the bytes behind them are the old ones.
    for i in 0..file.len() / 8 {
        let from = i * 8;
        put(out, i * WIDTH, &file[from..from + 8]);
        put(out, i * WIDTH + 8, &zeros);
    }
}

// Writes the first eight bytes of each record of `file`, of sixteen bytes each, to the front of `out`.
pub fn put_narrower(file: &[u8], out: &mut [u8])
    requires { length file.now / 16 * 8 ≤ length out.old }
    ensures { out.new ≡ over (narrowed file.now) out.old }
{
    // Eight bytes of each record before `i` are written, and the bytes behind them are the old ones.
    for i in 0..file.len() / WIDTH {
        let from = i * WIDTH;
        put(out, i * 8, &file[from..from + 8]);
    }
}

// ---- what refuses a move

// Returns whether record `i` of `file`, of sixteen bytes each, is a rule with a body above two symbols.
fn long_at(file: &[u8], i: usize) -> bool
    requires { i < length file.now / 16 }
    ensures { result ≡ long_at file.now i }
{
    let from = i * WIDTH;
    file[from] == RULE_KIND && 2 < file[from + 2]
}

// Returns whether a record of `file` is such a rule.
fn has_long(file: &[u8]) -> bool
    ensures { result ≡ has_long file.now }
{
    // No record before `i` is one.
    for i in 0..file.len() / WIDTH {
        if long_at(file, i) {
            return true;
        }
    }
    false
}

// Refuses to move `file` over to an output of `room` bytes: as the file is refused, then with 10 for too little room.
fn widen_refusal(file: &[u8], room: usize) -> Result<(), Refusal>
    ensures { tested_of result ≡ first_of (widen_refusals file.now room) }
{
    file_whole::file_refusal(file)?;
    refuse_if(room < file.len() / 8 * WIDTH, Fault::NoRoom)?;
    Ok(())
}

// Refuses to move `file` back to an output of `room` bytes: as the file is refused, then with 17 for a body above two, then with 10 for too
// little room.
fn narrow_refusal(file: &[u8], room: usize) -> Result<(), Refusal>
    ensures { tested_of result ≡ first_of (narrow_refusals file.now room) }
{
    file_wide::file_refusal(file)?;
    refuse_if(has_long(file), Fault::LongBody)?;
    refuse_if(room < file.len() / WIDTH * 8, Fault::NoRoom)?;
    Ok(())
}

// ---- the calls

// Moves `file`, of eight-byte records, over to sixteen bytes, at the front of `out`; returns the result's length in bytes. The other bytes of
// `out` keep their values. A refusal has one of a file's numbers, or 10; a refused call leaves all bytes.
pub fn widen(file: &[u8], out: &mut [u8]) -> Result<usize, Refusal>
    ensures { Widens file.now out.old out.new result }
{
    widen_refusal(file, out.len())?;
    put_wider(file, out);
    Ok(file.len() / 8 * WIDTH)
}

// Moves `file`, of sixteen-byte records, back to eight bytes, at the front of `out`; returns the result's length in bytes. The other bytes of
// `out` keep their values. A refusal has one of a file's numbers, or 10 or 17; a refused call leaves all bytes.
pub fn narrow(file: &[u8], out: &mut [u8]) -> Result<usize, Refusal>
    ensures { Narrows file.now out.old out.new result }
{
    narrow_refusal(file, out.len())?;
    put_narrower(file, out);
    Ok(file.len() / WIDTH * 8)
}
