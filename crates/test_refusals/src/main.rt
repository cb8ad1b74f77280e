// What a plan file is refused with, case by case: one line for each, a label and the result. The stored output is what document 01
// asks for ("Records", "Numbers a call may refuse with"), and document 02's C-11.
#![tactic(auto)]

ghost use Rattle.std.specs.Prelude.{◌+◌, ◌<◌};

use spec_file::Refusal;
use std::io;
use test_files::{
    HELD, LARGEST, RECORDS, SAMPLE, fill, front, print, print_byte, print_label, print_number,
    print_refused, put, put_byte, sample,
};

// ---- what a file is refused with

// What a whole file is refused with.
fn print_refusal(rt: &impl Print, tested: Result<(), Refusal>) -> io::Result<()> {
    match tested {
        Ok(()) => print(rt, b"ok"),
        Err(refusal) => print_refused(rt, refusal),
    }
}

fn print_whole(rt: &impl Print, file: &[u8; HELD], n: usize) -> io::Result<()> {
    print_refusal(rt, file_whole::file_refusal(front(file, n)))?;
    print(rt, b"\n")
}

fn report(rt: &impl Print, label: &[u8], file: &[u8; HELD], n: usize) -> io::Result<()> {
    print_label(rt, label)?;
    print_whole(rt, file, n)
}

fn report_length(rt: &impl Print, file: &[u8; HELD], n: usize) -> io::Result<()> {
    print_number(rt, n as u64)?;
    print(rt, b" bytes: ")?;
    print_whole(rt, file, n)
}

// The sample with record i replaced.
fn replaced(rt: &impl Print, label: &[u8], i: usize, r: [u8; 8]) -> io::Result<()> {
    let mut file = [0u8; HELD];
    sample(&mut file);
    put(&mut file, i, r);
    report(rt, label, &file, SAMPLE)
}

// The sample with byte j of record i changed.
fn changed(rt: &impl Print, i: usize, j: usize, value: u8) -> io::Result<()> {
    let mut file = [0u8; HELD];
    sample(&mut file);
    put_byte(&mut file, i, j, value);
    print_whole(rt, &file, SAMPLE)
}

// Tries a file of `records` records: `rules` rules, then `moves` moves, and then finishing stages.
fn filled(rt: &impl Print, rules: usize, moves: usize, records: usize) -> io::Result<()> {
    let mut file = [0u8; HELD];
    fill(&mut file, rules, moves);
    print_number(rt, rules as u64)?;
    print(rt, b" rules, ")?;
    print_number(rt, moves as u64)?;
    print(rt, b" moves, ")?;
    print_number(rt, records as u64)?;
    print(rt, b" records: ")?;
    if records <= RECORDS {
        print_whole(rt, &file, records * 8)?;
    }
    Ok(())
}

// ---- the cases

fn lengths(rt: &impl Print) -> io::Result<()> {
    let mut file = [0u8; HELD];
    sample(&mut file);
    report_length(rt, &file, 0)?;
    report_length(rt, &file, 1)?;
    report_length(rt, &file, 7)?;
    report_length(rt, &file, 8)?;
    report_length(rt, &file, 9)?;
    report_length(rt, &file, 71)?;
    report_length(rt, &file, SAMPLE)?;
    report_length(rt, &file, 73)?;
    report(rt, b"the sample and a record of zeros", &file, 80)
}

fn long_lengths(rt: &impl Print) -> io::Result<()> {
    let mut file = [0u8; HELD];
    fill(&mut file, 256, 1024);
    report(rt, b"1,296 records", &file, LARGEST)?;
    report(rt, b"1,296 records and 1 byte", &file, 10369)?;
    report(rt, b"1,297 records", &file, 10376)?;
    report(rt, b"1,297 records and 1 byte", &file, 10377)?;
    report(rt, b"1,297 records and 7 bytes", &file, 10383)?;
    report(rt, b"1,298 records", &file, HELD)
}

fn zeros(rt: &impl Print) -> io::Result<()> {
    let file = [0u8; HELD];
    report(rt, b"8 zeros", &file, 8)?;
    report(rt, b"9 zeros", &file, 9)?;
    report(rt, b"1,296 records of zeros", &file, LARGEST)?;
    report(rt, b"1,297 records of zeros", &file, 10376)
}

fn counts_of_kinds(rt: &impl Print) -> io::Result<()> {
    filled(rt, 256, 0, 256)?;
    filled(rt, 257, 0, 257)?;
    filled(rt, 257, 1023, 1296)?;
    filled(rt, 0, 1024, 1024)?;
    filled(rt, 0, 1025, 1025)?;
    filled(rt, 256, 1025, 1281)?;
    filled(rt, 256, 1025, 1296)?;
    filled(rt, 257, 1025, 1282)?;
    filled(rt, 0, 0, 16)?;
    filled(rt, 0, 0, 17)
}

fn value(rt: &impl Print, label: &[u8], i: usize, j: usize, x: u8) -> io::Result<()> {
    print(rt, label)?;
    print_byte(rt, x)?;
    print(rt, b": ")?;
    changed(rt, i, j, x)
}

// Byte j of the sample's record i: the last value in its range, and the next.
fn range(rt: &impl Print, label: &[u8], i: usize, j: usize, last: u8) -> io::Result<()> {
    value(rt, label, i, j, last)?;
    if last < 255 {
        value(rt, label, i, j, last + 1)?;
    }
    Ok(())
}

fn ranges(rt: &impl Print) -> io::Result<()> {
    range(rt, b"procedure", 4, 1, 63)?;
    range(rt, b"body length", 4, 2, 2)?;
    range(rt, b"symbol alone", 3, 3, 191)?;
    range(rt, b"first symbol", 2, 3, 191)?;
    range(rt, b"second symbol", 2, 4, 191)?;
    range(rt, b"from stage", 7, 1, 15)?;
    range(rt, b"step code", 7, 2, 119)?;
    range(rt, b"remark", 7, 2, 127)?;
    range(rt, b"to stage", 7, 3, 15)?;
    range(rt, b"finishing stage", 8, 1, 15)
}

fn rise(rt: &impl Print) -> io::Result<()> {
    replaced(rt, b"two equal rules", 1, [1, 0, 2, 129, 3, 0, 0, 0])?;
    replaced(rt, b"two equal moves", 6, [2, 0, 1, 1, 0, 0, 0, 0])?;
    replaced(rt, b"a rise in the kind", 8, [3, 0, 0, 0, 0, 0, 0, 0])?;
    replaced(rt, b"a rise in symbol 2", 1, [1, 0, 2, 129, 4, 0, 0, 0])?;
    replaced(rt, b"a fall in symbol 2", 1, [1, 0, 2, 129, 2, 0, 0, 0])?;
    replaced(rt, b"a rise in the to stage", 6, [2, 0, 1, 2, 0, 0, 0, 0])?;
    replaced(rt, b"a fall in the to stage", 6, [2, 0, 1, 0, 0, 0, 0, 0])?;
    replaced(rt, b"a fall before a rise", 7, [2, 0, 2, 7, 0, 0, 0, 0])?;
    replaced(rt, b"a rise before a fall", 7, [2, 0, 4, 0, 0, 0, 0, 0])
}

// A number at a record, by one byte.
fn number_at(rt: &impl Print, number: u64, i: usize, j: usize, x: u8) -> io::Result<()> {
    print_number(rt, number)?;
    print(rt, b" at record ")?;
    print_number(rt, i as u64)?;
    print(rt, b": ")?;
    changed(rt, i, j, x)
}

// At the first record that can have it, a middle one, and the last.
fn each_number(rt: &impl Print) -> io::Result<()> {
    number_at(rt, 3, 0, 0, 4)?;
    number_at(rt, 4, 0, 4, 192)?;
    number_at(rt, 5, 0, 7, 1)?;
    number_at(rt, 6, 1, 1, 0)?;
    number_at(rt, 3, 5, 0, 255)?;
    number_at(rt, 4, 5, 3, 255)?;
    number_at(rt, 5, 5, 5, 255)?;
    number_at(rt, 6, 5, 0, 1)?;
    number_at(rt, 12, 5, 2, 120)?;
    number_at(rt, 3, 8, 0, 4)?;
    number_at(rt, 4, 8, 1, 255)?;
    number_at(rt, 5, 8, 6, 1)?;
    number_at(rt, 6, 8, 0, 1)
}

fn unused_byte(rt: &impl Print, label: &[u8], i: usize, j: usize) -> io::Result<()> {
    print(rt, label)?;
    print(rt, b", byte ")?;
    print_number(rt, j as u64)?;
    print(rt, b": ")?;
    changed(rt, i, j, 255)
}

// Each byte of the sample's record i from byte j on, which the record does not use.
fn unused_from(rt: &impl Print, label: &[u8], i: usize, j: usize) -> io::Result<()> {
    for at in j..8 {
        unused_byte(rt, label, i, at)?;
    }
    Ok(())
}

fn unused(rt: &impl Print) -> io::Result<()> {
    unused_from(rt, b"body length 0", 1, 3)?;
    unused_from(rt, b"body length 1", 3, 4)?;
    unused_from(rt, b"body length 2", 4, 5)?;
    unused_from(rt, b"move", 6, 4)?;
    unused_from(rt, b"finishing stage", 8, 2)
}

// The sample with two bytes changed: byte b of record a, and byte d of record c to 255.
fn changed_twice(
    rt: &impl Print,
    label: &[u8],
    a: usize,
    b: usize,
    x: u8,
    c: usize,
    d: usize,
) -> io::Result<()> {
    let mut file = [0u8; HELD];
    sample(&mut file);
    put_byte(&mut file, a, b, x);
    put_byte(&mut file, c, d, 255);
    report(rt, label, &file, SAMPLE)
}

// The earlier record wins, whatever its number.
fn two_records(rt: &impl Print) -> io::Result<()> {
    changed_twice(rt, b"5 at 2 and 3 at 6", 2, 5, 1, 6, 0)?;
    changed_twice(rt, b"6 at 1 and 4 at 2", 1, 1, 0, 2, 1)?;
    changed_twice(rt, b"5 at 5 and 4 at 6", 5, 4, 1, 6, 3)?;
    changed_twice(rt, b"3 at 7 and 3 at 8", 7, 0, 4, 8, 0)?;
    changed_twice(rt, b"3 at 0, 6 at 1 and 4 at 8", 0, 0, 4, 8, 1)
}

// Within a record the first test that holds wins, in the order of document 01 and C-11: 3, 4, 5, 12, 6, 7.
fn two_numbers(rt: &impl Print) -> io::Result<()> {
    replaced(rt, b"3 and 6", 5, [0, 0, 0, 0, 0, 0, 0, 0])?;
    replaced(
        rt,
        b"3, the rest 255",
        5,
        [4, 255, 255, 255, 255, 255, 255, 255],
    )?;
    replaced(rt, b"4 and 5", 5, [2, 0, 128, 1, 1, 0, 0, 0])?;
    replaced(rt, b"4 and 6", 5, [1, 0, 1, 192, 0, 0, 0, 0])?;
    replaced(rt, b"5 and 6", 5, [1, 0, 1, 1, 1, 0, 0, 0])?;
    replaced(rt, b"4, 5 and 6", 5, [1, 0, 3, 0, 0, 0, 0, 1])?;
    replaced(rt, b"4 and 12", 7, [2, 16, 120, 0, 0, 0, 0, 0])?;
    replaced(rt, b"5 and 12", 7, [2, 1, 120, 0, 1, 0, 0, 0])?;
    replaced(rt, b"12 and 6", 8, [2, 0, 120, 0, 0, 0, 0, 0])
}

// `rules` rules, then `moves` moves, and a record after them: `HELD` bytes have room for 1,298 records.
fn after(rt: &impl Print, label: &[u8], rules: usize, moves: usize, r: [u8; 8]) -> io::Result<()>
    requires { rules + moves < 1298 }
{
    let mut file = [0u8; HELD];
    fill(&mut file, rules, moves);
    let at = rules + moves;
    put(&mut file, at, r);
    report(rt, label, &file, at * 8 + 8)
}

// A 257th rule, and a 1,025th move.
fn with_seven(rt: &impl Print) -> io::Result<()> {
    after(
        rt,
        b"257th rule, 4 and 7",
        256,
        0,
        [1, 64, 0, 0, 0, 0, 0, 0],
    )?;
    after(rt, b"257th rule, 5 and 7", 256, 0, [1, 2, 0, 9, 0, 0, 0, 0])?;
    after(rt, b"257th rule, 6 and 7", 256, 0, [1, 0, 0, 0, 0, 0, 0, 0])?;
    after(rt, b"3 after 256 rules", 256, 0, [4, 0, 0, 0, 0, 0, 0, 0])?;
    after(
        rt,
        b"1,025th move, 4 and 7",
        0,
        1024,
        [2, 4, 128, 0, 0, 0, 0, 0],
    )?;
    after(
        rt,
        b"1,025th move, 5 and 7",
        0,
        1024,
        [2, 4, 0, 0, 1, 0, 0, 0],
    )?;
    after(
        rt,
        b"1,025th move, 12 and 7",
        0,
        1024,
        [2, 4, 127, 0, 0, 0, 0, 0],
    )?;
    after(
        rt,
        b"1,025th move, 6 and 7",
        0,
        1024,
        [2, 4, 31, 1, 0, 0, 0, 0],
    )?;
    after(
        rt,
        b"a rule after 1,024 moves",
        0,
        1024,
        [1, 0, 0, 0, 0, 0, 0, 0],
    )
}

// ---- all

fn main(rt: HostRuntime) -> io::Result<()> {
    lengths(&rt)?;
    long_lengths(&rt)?;
    zeros(&rt)?;
    counts_of_kinds(&rt)?;
    ranges(&rt)?;
    rise(&rt)?;
    each_number(&rt)?;
    unused(&rt)?;
    two_records(&rt)?;
    two_numbers(&rt)?;
    with_seven(&rt)
}
