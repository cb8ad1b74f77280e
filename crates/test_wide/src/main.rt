// Moving files over to sixteen-byte records and back, and unfolding them, case by case: one line for each, a label, what came, a short
// result byte by byte, and how many bytes of the output are as they were. The stored output is what document 02, C-17, asks for.
#![tactic(auto)]

use call_move::{narrow, widen};
use file_wide_checks::WideRecord;
use spec_calls::INITIAL_ALONE;
use spec_file::Refusal;
use std::io;
use test_files::{
    HELD, LARGEST, SAMPLE, fill, front, print, print_kept, print_label, print_moved, print_number,
    sample,
};

// The bytes, and the number, of two sixteen-byte records more than a file may have.
const WIDE: usize = 20768;

const RECORDS: usize = 1298;

// The bytes of the outputs that most cases lend: enough for 256 rules.
const ROOM: usize = 2064;

// What each byte of an output has before a call: no byte of a record.
const OLD: u8 = 255;

// ---- printing

// Prints how many bytes of `a` differ from those at the front of `b`, which is not shorter.
fn print_differing(rt: &impl Print, a: &[u8], b: &[u8]) -> io::Result<()> {
    if b.len() < a.len() {
        return Ok(());
    }
    let differing = a.iter().zip(b).filter(|(x, y)| **x != **y).count();
    print(rt, b"  bytes that differ: ")?;
    print_number(rt, differing as u64)?;
    print(rt, b"\n")
}

// ---- calls

// Unfolds `file` for procedure 0 alone.
fn unfold(file: &[u8], out: &mut [u8]) -> Result<usize, Refusal> {
    call_unfold::unfold(file, INITIAL_ALONE, out)
}

// Each case names its call, which is one of `widen`, `narrow` and `unfold`.

fn report<F: Fn(&[u8], &mut [u8]) -> Result<usize, Refusal>>(
    rt: &impl Print,
    call: F,
    label: &[u8],
    file: &[u8],
    out: &mut [u8],
) -> io::Result<()>
    requires { F.IsAlwaysCallable call }
{
    print_label(rt, label)?;
    let answer = call(file, out);
    print_moved(rt, answer, out, 65)?;
    print_kept(rt, out, OLD)?;
    print(rt, b"\n")
}

// The same with an output of `room` bytes.
fn report_by<F: Fn(&[u8], &mut [u8]) -> Result<usize, Refusal>>(
    rt: &impl Print,
    call: F,
    label: &[u8],
    file: &[u8],
    room: usize,
) -> io::Result<()>
    requires { F.IsAlwaysCallable call }
{
    let mut out = [OLD; ROOM];
    report(rt, call, label, file, &mut out[..room.min(ROOM)])
}

// The same with the output that most cases lend, on the records `records` alone.
fn report_of<F: Fn(&[u8], &mut [u8]) -> Result<usize, Refusal>, const N: usize>(
    rt: &impl Print,
    call: F,
    label: &[u8],
    records: [WideRecord; N],
) -> io::Result<()>
    requires { F.IsAlwaysCallable call }
{
    report_by(rt, call, label, records.as_flattened(), ROOM)
}

// ---- making files of sixteen-byte records

// Stores the bytes `r` as record `i` of `file`.
fn put(file: &mut [u8; WIDE], i: usize, r: WideRecord) {
    if i < RECORDS {
        call_move::put(file, i * 16, &r);
    }
}

// Stores a rule with an empty body for each of the first `n` procedures.
fn put_procedures(file: &mut [u8; WIDE], n: u8) {
    for i in 0..n {
        put(
            file,
            usize::from(i),
            [1, i, 0, 0, 0, 0, 0, 0, 0, 0, 0, 0, 0, 0, 0, 0],
        );
    }
}

// Stores `n` rules of one step code each, 128 for each procedure from 0 on.
fn put_rules(file: &mut [u8; WIDE], n: usize) {
    for i in 0..n {
        let head = (i / 128 % 64) as u8;
        let code = (i % 128) as u8;
        put(
            file,
            i,
            [1, head, 1, code, 0, 0, 0, 0, 0, 0, 0, 0, 0, 0, 0, 0],
        );
    }
}

// ---- cases

// Moves the first `n` bytes of `file` over, which gives `m` bytes, and these back, and unfolds them.
fn over_and_back(
    rt: &impl Print,
    label: &[u8],
    file: &[u8; HELD],
    n: usize,
    m: usize,
) -> io::Result<()> {
    let mut wide = [OLD; WIDE];
    report(rt, widen, label, front(file, n), &mut wide)?;
    let mut back = [OLD; HELD];
    report(rt, narrow, b"and back", front(&wide, m), &mut back)?;
    print_differing(rt, front(file, n), &back)?;
    let mut unfolded = [OLD; HELD];
    report(rt, unfold, b"and unfolded", front(&wide, m), &mut unfolded)?;
    print_differing(rt, front(file, n), &unfolded)
}

fn old_files(rt: &impl Print) -> io::Result<()> {
    let mut file = [0u8; HELD];
    sample(&mut file);
    over_and_back(rt, b"plan B moved over", &file, SAMPLE, SAMPLE * 2)?;
    fill(&mut file, 256, 1024);
    over_and_back(rt, b"1,296 records moved over", &file, LARGEST, LARGEST * 2)
}

fn small_files(rt: &impl Print) -> io::Result<()> {
    let record = [1u8, 0, 2, 129, 3, 0, 0, 0];
    let mut wide = [OLD; 20];
    report(rt, widen, b"one record moved over", &record, &mut wide)?;
    let mut back = [OLD; 20];
    report(rt, narrow, b"and back", front(&wide, 16), &mut back)?;
    report(
        rt,
        widen,
        b"the empty file moved over",
        front(&record, 0),
        &mut back,
    )?;
    report(
        rt,
        narrow,
        b"the empty file moved back",
        front(&record, 0),
        &mut back,
    )?;
    report(
        rt,
        unfold,
        b"the empty file unfolded",
        front(&record, 0),
        &mut back,
    )
}

fn bodies(rt: &impl Print) -> io::Result<()> {
    report_of(
        rt,
        unfold,
        b"a body of 5",
        [[1, 0, 5, 1, 2, 3, 4, 5, 0, 0, 0, 0, 0, 0, 0, 0]],
    )?;
    report_of(
        rt,
        narrow,
        b"a body of 5 moved back",
        [[1, 0, 5, 1, 2, 3, 4, 5, 0, 0, 0, 0, 0, 0, 0, 0]],
    )?;
    report_of(
        rt,
        unfold,
        b"a body of 3",
        [[1, 0, 3, 1, 130, 3, 0, 0, 0, 0, 0, 0, 0, 0, 0, 0]],
    )?;
    report_of(
        rt,
        narrow,
        b"a body of 3 moved back",
        [[1, 0, 3, 1, 130, 3, 0, 0, 0, 0, 0, 0, 0, 0, 0, 0]],
    )?;
    report_of(
        rt,
        unfold,
        b"a body of 2",
        [[1, 0, 2, 1, 130, 0, 0, 0, 0, 0, 0, 0, 0, 0, 0, 0]],
    )?;
    report_of(
        rt,
        narrow,
        b"a body of 2 moved back",
        [[1, 0, 2, 1, 130, 0, 0, 0, 0, 0, 0, 0, 0, 0, 0, 0]],
    )?;
    report_of(
        rt,
        unfold,
        b"an empty body",
        [[1, 0, 0, 0, 0, 0, 0, 0, 0, 0, 0, 0, 0, 0, 0, 0]],
    )
}

fn long_bodies(rt: &impl Print) -> io::Result<()> {
    report_of(
        rt,
        unfold,
        b"a body of 12",
        [[1, 0, 12, 1, 2, 3, 4, 5, 6, 7, 8, 9, 10, 11, 12, 0]],
    )?;
    report_of(
        rt,
        unfold,
        b"a body of 13",
        [[1, 0, 13, 1, 2, 3, 4, 5, 6, 7, 8, 9, 10, 11, 12, 0]],
    )?;
    report_of(
        rt,
        unfold,
        b"symbol 192 at the end of a body of 12",
        [[1, 0, 12, 1, 2, 3, 4, 5, 6, 7, 8, 9, 10, 11, 192, 0]],
    )
}

// Two rules with a long body each: the second chain is numbered behind the first, and the rules are put in file order.
fn two_chains(rt: &impl Print) -> io::Result<()> {
    let first = [1u8, 0, 4, 1, 2, 3, 4, 0, 0, 0, 0, 0, 0, 0, 0, 0];
    report_of(
        rt,
        unfold,
        b"two chains",
        [first, [1, 1, 3, 5, 128, 7, 0, 0, 0, 0, 0, 0, 0, 0, 0, 0]],
    )?;
    report_of(
        rt,
        unfold,
        b"procedure 8 is in use as a symbol",
        [first, [1, 1, 3, 5, 136, 7, 0, 0, 0, 0, 0, 0, 0, 0, 0, 0]],
    )
}

fn with_a_sheet(rt: &impl Print) -> io::Result<()> {
    report_of(
        rt,
        unfold,
        b"a chain, a move and a finishing stage",
        [
            [1, 0, 4, 1, 2, 3, 4, 0, 0, 0, 0, 0, 0, 0, 0, 0],
            [2, 0, 1, 1, 0, 0, 0, 0, 0, 0, 0, 0, 0, 0, 0, 0],
            [3, 1, 0, 0, 0, 0, 0, 0, 0, 0, 0, 0, 0, 0, 0, 0],
        ],
    )
}

fn bytes_that_are_not_used(rt: &impl Print) -> io::Result<()> {
    report_of(
        rt,
        unfold,
        b"byte 15 of a rule",
        [[1, 0, 12, 1, 2, 3, 4, 5, 6, 7, 8, 9, 10, 11, 12, 1]],
    )?;
    report_of(
        rt,
        narrow,
        b"byte 14 of a body of 2",
        [[1, 0, 2, 1, 2, 0, 0, 0, 0, 0, 0, 0, 0, 0, 1, 0]],
    )?;
    report_of(
        rt,
        narrow,
        b"byte 15 of a move",
        [[2, 0, 1, 1, 0, 0, 0, 0, 0, 0, 0, 0, 0, 0, 0, 1]],
    )?;
    report_of(
        rt,
        narrow,
        b"byte 8 of a finishing stage",
        [[3, 0, 0, 0, 0, 0, 0, 0, 1, 0, 0, 0, 0, 0, 0, 0]],
    )
}

fn records_refused(rt: &impl Print) -> io::Result<()> {
    let long = [1u8, 0, 12, 1, 2, 3, 4, 5, 6, 7, 8, 9, 10, 11, 12, 0];
    report_of(rt, unfold, b"two equal records", [long, long])?;
    report_of(
        rt,
        unfold,
        b"byte 14 falls",
        [long, [1, 0, 12, 1, 2, 3, 4, 5, 6, 7, 8, 9, 10, 11, 11, 0]],
    )?;
    report_of(
        rt,
        narrow,
        b"a move on a remark behind a long body",
        [long, [2, 0, 120, 1, 0, 0, 0, 0, 0, 0, 0, 0, 0, 0, 0, 0]],
    )?;
    report_of(
        rt,
        unfold,
        b"kind 4",
        [long, [4, 0, 0, 0, 0, 0, 0, 0, 0, 0, 0, 0, 0, 0, 0, 0]],
    )?;
    report_of(
        rt,
        unfold,
        b"stage 16",
        [long, [2, 16, 1, 1, 0, 0, 0, 0, 0, 0, 0, 0, 0, 0, 0, 0]],
    )
}

fn lengths(rt: &impl Print) -> io::Result<()> {
    let mut file = [0u8; WIDE];
    put_rules(&mut file, RECORDS);
    report_by(rt, unfold, b"8 bytes", front(&file, 8), ROOM)?;
    report_by(rt, narrow, b"17 bytes", front(&file, 17), ROOM)?;
    report_by(rt, narrow, b"20,751 bytes", front(&file, 20751), ROOM)?;
    report_by(rt, narrow, b"1,297 records", front(&file, 20752), ROOM)?;
    report_by(
        rt,
        narrow,
        b"1,296 records, all rules",
        front(&file, 20736),
        ROOM,
    )?;
    let old = [0u8; HELD];
    report_by(rt, widen, b"17 bytes moved over", front(&old, 17), ROOM)
}

// Unfolds the first `n` records of `file` and the rule `r` behind them.
fn behind(
    rt: &impl Print,
    label: &[u8],
    file: &mut [u8; WIDE],
    n: u8,
    r: WideRecord,
) -> io::Result<()> {
    let n = usize::from(n);
    put(file, n, r);
    report_by(rt, unfold, label, front(file, n * 16 + 16), ROOM)
}

// 63 procedures with an empty body each, and then one rule.
fn procedures(rt: &impl Print) -> io::Result<()> {
    let mut file = [0u8; WIDE];
    put_procedures(&mut file, 63);
    behind(
        rt,
        b"63 procedures and a body of 3",
        &mut file,
        63,
        [1, 62, 3, 1, 2, 3, 0, 0, 0, 0, 0, 0, 0, 0, 0, 0],
    )?;
    behind(
        rt,
        b"63 procedures and a body of 4",
        &mut file,
        63,
        [1, 62, 4, 1, 2, 3, 4, 0, 0, 0, 0, 0, 0, 0, 0, 0],
    )?;
    behind(
        rt,
        b"procedure 63 in use as a symbol, and a body of 3",
        &mut file,
        63,
        [1, 62, 3, 1, 2, 191, 0, 0, 0, 0, 0, 0, 0, 0, 0, 0],
    )?;
    behind(
        rt,
        b"64 procedures and a body of 2",
        &mut file,
        63,
        [1, 63, 2, 1, 191, 0, 0, 0, 0, 0, 0, 0, 0, 0, 0, 0],
    )
}

// 250 rules, and then one more.
fn rules(rt: &impl Print) -> io::Result<()> {
    let mut file = [0u8; WIDE];
    put_rules(&mut file, 250);
    behind(
        rt,
        b"256 rules after unfolding",
        &mut file,
        250,
        [1, 2, 7, 1, 2, 3, 4, 5, 6, 7, 0, 0, 0, 0, 0, 0],
    )?;
    behind(
        rt,
        b"257 rules after unfolding",
        &mut file,
        250,
        [1, 2, 8, 1, 2, 3, 4, 5, 6, 7, 8, 0, 0, 0, 0, 0],
    )
}

fn rooms(rt: &impl Print) -> io::Result<()> {
    let mut file = [0u8; HELD];
    sample(&mut file);
    report_by(
        rt,
        widen,
        b"143 bytes of room for plan B",
        front(&file, SAMPLE),
        143,
    )?;
    report_by(rt, widen, b"144 bytes of room", front(&file, SAMPLE), 144)
}

fn rooms_for(rt: &impl Print, r: WideRecord) -> io::Result<()> {
    report_by(rt, narrow, b"7 bytes of room to move a record back", &r, 7)?;
    report_by(rt, narrow, b"8 bytes of room", &r, 8)?;
    report_by(rt, unfold, b"7 bytes of room to unfold it", &r, 7)?;
    report_by(rt, unfold, b"15 bytes of room", &r, 15)?;
    report_by(rt, unfold, b"16 bytes of room", &r, 16)?;
    report_by(rt, unfold, b"no room and a torn record", front(&r, 15), 0)
}

fn other_rooms(rt: &impl Print) -> io::Result<()> {
    rooms_for(rt, [1, 0, 2, 1, 2, 0, 0, 0, 0, 0, 0, 0, 0, 0, 0, 0])?;
    rooms_for(rt, [1, 0, 3, 1, 2, 3, 0, 0, 0, 0, 0, 0, 0, 0, 0, 0])?;
    rooms_for(rt, [1, 63, 3, 1, 2, 3, 0, 0, 0, 0, 0, 0, 0, 0, 0, 0])
}

fn main(rt: HostRuntime) -> io::Result<()> {
    old_files(&rt)?;
    small_files(&rt)?;
    bodies(&rt)?;
    long_bodies(&rt)?;
    two_chains(&rt)?;
    with_a_sheet(&rt)?;
    bytes_that_are_not_used(&rt)?;
    records_refused(&rt)?;
    lengths(&rt)?;
    procedures(&rt)?;
    rules(&rt)?;
    rooms(&rt)?;
    other_rooms(&rt)
}
