// The record step from places, and walks by steps, case by case: one line for each, a label and the result. The stored output is what
// document 01 asks for ("Records", "Numbers a call may refuse with").
#![tactic(auto)]

use file_reader::{Step, step_at};
use spec_file::Record;
use std::io;
use test_files::{
    HELD, LARGEST, RECORDS, SAMPLE, fill, front, print, print_finishing, print_label, print_move,
    print_number, print_refused, print_rule, put, sample,
};

// ---- steps from places

fn print_record(rt: &impl Print, r: Record) -> io::Result<()> {
    match r {
        Record::Rule(rule) => print_rule(rt, rule),
        Record::Transition(t) => print_move(rt, t),
        Record::Final(stage) => print_finishing(rt, stage),
    }
}

fn print_given(rt: &impl Print, r: Record, next: usize) -> io::Result<()> {
    print_record(rt, r)?;
    print(rt, b", next ")?;
    print_number(rt, next as u64)
}

fn print_step(rt: &impl Print, step: Step) -> io::Result<()> {
    match step {
        Ok(Some((r, next))) => print_given(rt, r, next),
        Err(refusal) => print_refused(rt, refusal),
        Ok(None) => print(rt, b"ended"),
    }
}

fn step(
    rt: &impl Print,
    label: &[u8],
    file: &[u8; HELD],
    n: usize,
    place: usize,
) -> io::Result<()> {
    print(rt, label)?;
    print(rt, b", step from ")?;
    print_number(rt, place as u64)?;
    print(rt, b": ")?;
    print_step(rt, step_at(front(file, n), place))?;
    print(rt, b"\n")
}

// A step from each place from one to before another.
fn steps(
    rt: &impl Print,
    label: &[u8],
    file: &[u8; HELD],
    n: usize,
    from: usize,
    to: usize,
) -> io::Result<()> {
    for place in from..to {
        step(rt, label, file, n, place)?;
    }
    Ok(())
}

fn steps_on_valid(rt: &impl Print) -> io::Result<()> {
    let mut file = [0u8; HELD];
    sample(&mut file);
    steps(rt, b"the sample", &file, SAMPLE, 0, 11)?;
    step(rt, b"the sample", &file, SAMPLE, usize::MAX)?;
    step(rt, b"the empty file", &file, 0, 0)?;
    step(rt, b"the empty file", &file, 0, usize::MAX)?;
    fill(&mut file, 256, 1024);
    steps(rt, b"1,296 records", &file, LARGEST, 255, 257)?;
    steps(rt, b"1,296 records", &file, LARGEST, 1279, 1281)?;
    steps(rt, b"1,296 records", &file, LARGEST, 1295, 1298)
}

fn steps_on_refused(rt: &impl Print) -> io::Result<()> {
    let mut file = [0u8; HELD];
    fill(&mut file, 256, 1024);
    steps(rt, b"71 bytes", &file, 71, 0, 2)?;
    steps(rt, b"71 bytes", &file, 71, 8, 10)?;
    step(rt, b"71 bytes", &file, 71, usize::MAX)?;
    step(rt, b"1,297 records", &file, 10376, 0)?;
    steps(rt, b"1,297 records", &file, 10376, 1295, 1299)?;
    step(rt, b"1,297 records", &file, 10376, usize::MAX)?;
    step(rt, b"1,297 records and 1 byte", &file, 10377, 0)
}

// The sample with record 5 replaced, and steps from it and from the next record.
fn step_over(rt: &impl Print, label: &[u8], r: [u8; 8]) -> io::Result<()> {
    let mut file = [0u8; HELD];
    sample(&mut file);
    put(&mut file, 5, r);
    steps(rt, label, &file, SAMPLE, 5, 7)
}

// Checks 6 and 7 look at the records before, without checking those again.
fn steps_over_faults(rt: &impl Print) -> io::Result<()> {
    step_over(rt, b"kind 0", [0, 0, 0, 0, 0, 0, 0, 0])?;
    step_over(rt, b"kind 255", [255, 0, 0, 0, 0, 0, 0, 0])?;
    step_over(rt, b"step code 128", [2, 0, 128, 1, 0, 0, 0, 0])?;
    step_over(rt, b"remark 127", [2, 0, 127, 1, 0, 0, 0, 0])?;
    step_over(rt, b"an unused byte, then more", [2, 0, 1, 1, 0, 0, 0, 9])?;
    step_over(
        rt,
        b"an unused byte, then the same",
        [2, 0, 3, 2, 0, 0, 0, 1],
    )?;
    step_over(rt, b"a fall", [1, 0, 1, 1, 0, 0, 0, 0])
}

// 12 comes before 6.
fn steps_on_remarks(rt: &impl Print) -> io::Result<()> {
    let mut file = [0u8; HELD];
    put(&mut file, 0, [2, 0, 120, 1, 0, 0, 0, 0]);
    put(&mut file, 1, [2, 0, 120, 1, 0, 0, 0, 0]);
    steps(rt, b"two equal moves on a remark", &file, 16, 0, 2)
}

fn steps_around_fault(rt: &impl Print) -> io::Result<()> {
    let mut file = [0u8; HELD];
    sample(&mut file);
    put(&mut file, 3, [9, 9, 9, 9, 9, 9, 9, 9]);
    steps(rt, b"kind 9 at 3", &file, SAMPLE, 0, 9)
}

// Earlier records count by their kind; the 258th rule is not the 257th.
fn steps_over_limits(rt: &impl Print) -> io::Result<()> {
    let mut file = [0u8; HELD];
    fill(&mut file, 258, 0);
    steps(rt, b"258 rules", &file, LARGEST, 255, 259)?;
    put(&mut file, 10, [1, 200, 9, 9, 9, 9, 9, 9]);
    step(rt, b"258 rules, one faulty", &file, LARGEST, 256)?;
    put(&mut file, 10, [9, 0, 0, 0, 0, 0, 0, 0]);
    steps(rt, b"258 rules, one now kind 9", &file, LARGEST, 256, 258)?;
    fill(&mut file, 0, 1026);
    steps(rt, b"1,026 moves", &file, LARGEST, 1023, 1027)?;
    put(&mut file, 10, [2, 200, 9, 9, 9, 9, 9, 9]);
    step(rt, b"1,026 moves, one faulty", &file, LARGEST, 1024)?;
    put(&mut file, 10, [9, 0, 0, 0, 0, 0, 0, 0]);
    steps(
        rt,
        b"1,026 moves, one now kind 9",
        &file,
        LARGEST,
        1024,
        1026,
    )
}

// ---- the walk over a whole file

// How many records of each kind a walk passed.
#[derive(Clone, Copy, Default)]
struct Tally {
    rules: u64,
    moves: u64,
    finishing: u64,
}

impl Tally {
    fn count(&mut self, r: Record) {
        let passed = match r {
            Record::Rule(_) => &mut self.rules,
            Record::Transition(_) => &mut self.moves,
            Record::Final(_) => &mut self.finishing,
        };
        *passed = passed.wrapping_add(1);
    }
}

fn print_tally(rt: &impl Print, t: Tally) -> io::Result<()> {
    print_number(rt, t.rules)?;
    print(rt, b" rules, ")?;
    print_number(rt, t.moves)?;
    print(rt, b" moves, ")?;
    print_number(rt, t.finishing)?;
    print(rt, b" finishing stages, ")
}

fn print_stop(rt: &impl Print, t: Tally, out: Step) -> io::Result<()> {
    print_tally(rt, t)?;
    print_step(rt, out)?;
    print(rt, b"\n")
}

// A walk from step to step. A proved loop ends, so it has a number of turns.
fn walk_file(rt: &impl Print, file: &[u8]) -> io::Result<()> {
    let mut t = Tally::default();
    let mut place: usize = 0;
    for _ in 0..RECORDS {
        let out = step_at(file, place);
        let Ok(Some((r, next))) = out else {
            return print_stop(rt, t, out);
        };
        t.count(r);
        place = next;
    }
    Ok(())
}

fn walk(rt: &impl Print, label: &[u8], file: &[u8; HELD], n: usize) -> io::Result<()> {
    print_label(rt, label)?;
    walk_file(rt, front(file, n))
}

fn walks(rt: &impl Print) -> io::Result<()> {
    let mut file = [0u8; HELD];
    sample(&mut file);
    walk(rt, b"walk over the sample", &file, SAMPLE)?;
    walk(rt, b"walk over the empty file", &file, 0)?;
    walk(rt, b"walk over 71 bytes", &file, 71)?;
    put(&mut file, 6, [4, 0, 0, 0, 0, 0, 0, 0]);
    walk(rt, b"walk to kind 4 at 6", &file, SAMPLE)?;
    fill(&mut file, 256, 1024);
    walk(rt, b"walk over 1,296 records", &file, LARGEST)?;
    walk(rt, b"walk over 1,297 records", &file, 10376)?;
    fill(&mut file, 257, 1023);
    walk(rt, b"walk to the 257th rule", &file, LARGEST)
}

// ---- all

fn main(rt: HostRuntime) -> io::Result<()> {
    steps_on_valid(&rt)?;
    steps_on_refused(&rt)?;
    steps_over_faults(&rt)?;
    steps_on_remarks(&rt)?;
    steps_around_fault(&rt)?;
    steps_over_limits(&rt)?;
    walks(&rt)
}
