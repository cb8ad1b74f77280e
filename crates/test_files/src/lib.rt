// For tests only: what the programs of cases share. Files that are made record by record, in an array of `HELD` bytes, and lines that are
// printed.
#![tactic(auto)]

ghost use Rattle.std.specs.Prelude.{◌≡◌};
ghost use Rattle.spec_file.specs.Answers.{number_of};

use spec_file::{FIRST_REMARK, Refusal, Rule, Transition};
use std::io;

// The bytes, and the number, of two records more than a file may have.
pub const HELD: usize = 10384;

pub const RECORDS: usize = 1298;

// The bytes of the largest valid file: 256 rules, 1,024 moves, 16 finishing stages.
pub const LARGEST: usize = 10368;

// The bytes of plan B with sheet S, and of sheet S alone.
pub const SAMPLE: usize = 72;

pub const SHEET: usize = 32;

// ---- printing

// Each of these writes all of its text to standard output, or answers with the error of the write that failed; then the part of the text
// before it may have been written.

pub fn print(rt: &impl Print, text: &[u8]) -> io::Result<()> {
    rt.write_all(text)
}

pub fn print_number(rt: &impl Print, x: u64) -> io::Result<()> {
    rt.print(x)
}

pub fn print_byte(rt: &impl Print, x: u8) -> io::Result<()> {
    print(rt, b" ")?;
    print_number(rt, u64::from(x))
}

// Prints each of `bytes` as `print_byte` does.
pub fn print_bytes(rt: &impl Print, bytes: &[u8]) -> io::Result<()> {
    for byte in bytes {
        print_byte(rt, *byte)?;
    }
    Ok(())
}

pub fn print_label(rt: &impl Print, label: &[u8]) -> io::Result<()> {
    print(rt, label)?;
    print(rt, b": ")
}

// A refusal as it is printed, with any number.
#[derive(Clone, Copy)]
pub struct Numbered {
    pub number: u64,
    pub place: usize,
}

impl From<Refusal> for Numbered {
    ghost from_gives = { λ refusal said. said ≡ record { number = number_of refusal.fault; place = refusal.place } };

    fn from(refusal: Refusal) -> Numbered {
        Numbered {
            number: refusal.fault.number(),
            place: refusal.place,
        }
    }
}

pub fn print_refused(rt: &impl Print, r: impl Into<Numbered>) -> io::Result<()> {
    let said = r.into();
    print(rt, b"refused ")?;
    print_number(rt, said.number)?;
    print(rt, b" at ")?;
    print_number(rt, said.place as u64)
}

// Prints how many of `cells` are as they were before a call, which is `old`.
pub fn print_kept<T: PartialEq + Copy>(rt: &impl Print, cells: &[T], old: T) -> io::Result<()> {
    let kept = cells.iter().filter(|cell| **cell == old).count();
    print(rt, b", kept ")?;
    print_number(rt, kept as u64)
}

// Prints how many bytes of `out` a call wrote, and these too if there are fewer than `few`.
pub fn print_moved(
    rt: &impl Print,
    answer: Result<usize, Refusal>,
    out: &[u8],
    few: usize,
) -> io::Result<()> {
    match answer {
        Ok(n) => {
            print_number(rt, n as u64)?;
            print(rt, b" bytes")?;
            if n < few {
                print_bytes(rt, front(out, n))?;
            }
            Ok(())
        }
        Err(refusal) => print_refused(rt, refusal),
    }
}

pub fn print_rule(rt: &impl Print, r: Rule) -> io::Result<()> {
    print(rt, b"rule")?;
    print_byte(rt, r.head)?;
    print_byte(rt, r.size)?;
    print_byte(rt, r.first)?;
    print_byte(rt, r.second)
}

pub fn print_move(rt: &impl Print, t: Transition) -> io::Result<()> {
    print(rt, b"move")?;
    print_byte(rt, t.source)?;
    print_byte(rt, t.letter)?;
    print_byte(rt, t.target)
}

pub fn print_finishing(rt: &impl Print, stage: u8) -> io::Result<()> {
    print(rt, b"finishing")?;
    print_byte(rt, stage)
}

// ---- making files

// Returns the first `n` bytes of `bytes`, or all if there are fewer.
pub fn front(bytes: &[u8], n: usize) -> &[u8] {
    &bytes[..n.min(bytes.len())]
}

// Stores the bytes `r` as record `i` of `file`.
pub fn put(file: &mut [u8; HELD], i: usize, r: [u8; 8]) {
    if i < RECORDS {
        file[i * 8..i * 8 + 8].copy_from_slice(&r);
    }
}

// Stores `x` as byte `j` of record `i` of `file`.
pub fn put_byte(file: &mut [u8; HELD], i: usize, j: usize, x: u8) {
    if i < RECORDS && j < 8 {
        file[i * 8 + j] = x;
    }
}

// Stores plan B with sheet S: it has every kind and every body length.
pub fn sample(file: &mut [u8; HELD]) {
    put(file, 0, [1, 0, 2, 129, 3, 0, 0, 0]);
    put(file, 1, [1, 1, 0, 0, 0, 0, 0, 0]);
    put(file, 2, [1, 1, 2, 1, 130, 0, 0, 0]);
    put(file, 3, [1, 2, 1, 129, 0, 0, 0, 0]);
    put(file, 4, [1, 2, 2, 2, 129, 0, 0, 0]);
    put(file, 5, [2, 0, 1, 1, 0, 0, 0, 0]);
    put(file, 6, [2, 0, 3, 2, 0, 0, 0, 0]);
    put(file, 7, [2, 1, 2, 0, 0, 0, 0, 0]);
    put(file, 8, [3, 2, 0, 0, 0, 0, 0, 0]);
}

// Stores sheet S alone.
pub fn sheet(file: &mut [u8; HELD]) {
    put(file, 0, [2, 0, 1, 1, 0, 0, 0, 0]);
    put(file, 1, [2, 0, 3, 2, 0, 0, 0, 0]);
    put(file, 2, [2, 1, 2, 0, 0, 0, 0, 0]);
    put(file, 3, [3, 2, 0, 0, 0, 0, 0, 0]);
}

// How many codes a move may be on: those from here on are remarks.
const CODES: usize = FIRST_REMARK as usize;

// Returns record `i` of a file that has `rules` rules, then `moves` moves, and then finishing stages; the records of each kind rise strictly.
fn entry(i: usize, rules: usize, moves: usize) -> [u8; 8] {
    if i < rules {
        return [1, (i / 128 % 64) as u8, 2, (i % 128) as u8, 0, 0, 0, 0];
    }
    let m = i - rules;
    if m < moves {
        return [
            2,
            (m / (2 * CODES) % 16) as u8,
            (m / 2 % CODES) as u8,
            (m % 2) as u8,
            0,
            0,
            0,
            0,
        ];
    }
    [3, ((m - moves) % 256) as u8, 0, 0, 0, 0, 0, 0]
}

// Stores `rules` rules, then `moves` moves, and then finishing stages up to the end of `file`.
pub fn fill(file: &mut [u8; HELD], rules: usize, moves: usize) {
    for i in 0..RECORDS {
        put(file, i, entry(i, rules, moves));
    }
}
