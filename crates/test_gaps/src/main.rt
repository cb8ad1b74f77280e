// Listing a sheet's gaps and doubles, case by case: one line for each, a label, what came, few entries byte by byte, and how many bytes of
// the buffer are as they were. The stored output is what document 02, C-16, asks for.
#![tactic(auto)]

use call_gaps::LIST_BYTES;
use spec_file::Refusal;
use std::io;
use test_files::{
    HELD, LARGEST, SAMPLE, fill, front, print, print_byte, print_kept, print_label, print_number,
    print_refused, put, sample,
};

const LARGER: usize = LIST_BYTES + 1;

// What each byte has before a call: no stage, code or number of moves.
const OLD: u8 = 255;

// ---- printing

fn print_entries(rt: &impl Print, list: &[u8]) -> io::Result<()> {
    for byte in list.iter().filter(|byte| **byte != OLD) {
        print_byte(rt, *byte)?;
    }
    Ok(())
}

// Prints the entries too, where they are few.
fn print_listed(rt: &impl Print, answer: Result<usize, Refusal>, list: &[u8]) -> io::Result<()> {
    match answer {
        Ok(n) => {
            print_number(rt, n as u64)?;
            print(rt, b" entries")?;
            if n < 10 {
                print_entries(rt, list)?;
            }
        }
        Err(refusal) => {
            print_refused(rt, refusal)?;
        }
    }
    print_kept(rt, list, OLD)?;
    print(rt, b"\n")
}

// ---- cases

fn list(rt: &impl Print, label: &[u8], file: &[u8; HELD], n: usize) -> io::Result<()> {
    list_by(rt, label, file, n, LIST_BYTES)
}

fn list_by(
    rt: &impl Print,
    label: &[u8],
    file: &[u8; HELD],
    n: usize,
    room: usize,
) -> io::Result<()> {
    let mut buffer = [OLD; LARGER];
    let lent = &mut buffer[..room.min(LARGER)];
    print_label(rt, label)?;
    let answer = call_gaps::list(front(file, n), lent);
    print_listed(rt, answer, lent)
}

fn sheet_of_plan_b(rt: &impl Print) -> io::Result<()> {
    let mut file = [0u8; HELD];
    sample(&mut file);
    list(rt, b"sheet S", &file, SAMPLE)?;
    list(rt, b"the empty file", &file, 0)
}

// Two stages and two codes. From stage 0 a move on code 1 stands twice, from stage 1 the one on code 2 is not there.
fn forgotten_and_doubled(rt: &impl Print) -> io::Result<()> {
    let mut file = [0u8; HELD];
    put(&mut file, 0, [2, 0, 1, 0, 0, 0, 0, 0]);
    put(&mut file, 1, [2, 0, 1, 1, 0, 0, 0, 0]);
    put(&mut file, 2, [2, 0, 2, 1, 0, 0, 0, 0]);
    put(&mut file, 3, [2, 1, 1, 0, 0, 0, 0, 0]);
    put(&mut file, 4, [3, 1, 0, 0, 0, 0, 0, 0]);
    list(rt, b"a doubled move and a forgotten one", &file, 40)?;
    put(&mut file, 0, [2, 0, 1, 1, 0, 0, 0, 0]);
    put(&mut file, 1, [2, 0, 2, 1, 0, 0, 0, 0]);
    put(&mut file, 2, [2, 1, 1, 0, 0, 0, 0, 0]);
    put(&mut file, 3, [2, 1, 2, 0, 0, 0, 0, 0]);
    list(rt, b"both mended", &file, 40)
}

fn stages_taken(rt: &impl Print) -> io::Result<()> {
    let mut file = [0u8; HELD];
    put(&mut file, 0, [2, 15, 119, 15, 0, 0, 0, 0]);
    put(&mut file, 1, [3, 9, 0, 0, 0, 0, 0, 0]);
    list(rt, b"stage 0, in no record", &file, 8)?;
    list(rt, b"a finishing stage in no move", &file, 16)?;
    put(&mut file, 0, [2, 0, 7, 4, 0, 0, 0, 0]);
    list(rt, b"a stage that a move leads to", &file, 8)?;
    put(&mut file, 0, [3, 3, 0, 0, 0, 0, 0, 0]);
    list(rt, b"no moves", &file, 8)
}

// Two moves from stage 0 on each code, and all stages are finishing; then the largest file, in which no pair has one move.
fn every_pair(rt: &impl Print) -> io::Result<()> {
    let mut file = [0u8; HELD];
    fill(&mut file, 0, 240);
    list(rt, b"every pair", &file, 2048)?;
    fill(&mut file, 256, 1024);
    list(rt, b"every pair of the largest file", &file, LARGEST)
}

fn other_buffers(rt: &impl Print) -> io::Result<()> {
    let mut file = [0u8; HELD];
    sample(&mut file);
    list_by(rt, b"5,759 bytes", &file, SAMPLE, 5759)?;
    list_by(rt, b"5,761 bytes", &file, SAMPLE, 5761)?;
    list_by(rt, b"5,759 bytes and no entry", &file, 0, 5759)?;
    list_by(rt, b"no byte on 71 bytes", &file, 71, 0)?;
    put(&mut file, 1, [2, 0, 120, 0, 0, 0, 0, 0]);
    list_by(rt, b"no byte and a move on a remark", &file, SAMPLE, 0)
}

fn main(rt: HostRuntime) -> io::Result<()> {
    sheet_of_plan_b(&rt)?;
    forgotten_and_doubled(&rt)?;
    stages_taken(&rt)?;
    every_pair(&rt)?;
    other_buffers(&rt)
}
