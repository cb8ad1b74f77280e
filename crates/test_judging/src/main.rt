// Judging a run on a file, case by case: one line for each, a label and the result. The stored output is what document 01 asks for
// ("Numbers a call may refuse with", the cases of "The check program").
#![tactic(auto)]

use call_judge::Judged;
use spec_file::Refusal;
use std::io;
use test_files::{
    HELD, SAMPLE, SHEET, front, print, print_label, print_refused, put, sample, sheet,
};

const WORD: usize = 65536;

fn print_judged(rt: &impl Print, judged: Result<Judged, Refusal>) -> io::Result<()> {
    match judged {
        Ok(Judged::Accepted) => print(rt, b"accepted"),
        Ok(Judged::TurnedAway) => print(rt, b"turned away"),
        Err(refusal) => print_refused(rt, refusal),
    }
}

fn judge(
    rt: &impl Print,
    label: &[u8],
    file: &[u8; HELD],
    n: usize,
    word: &[u8],
) -> io::Result<()> {
    print_label(rt, label)?;
    print_judged(rt, call_judge::judge(front(file, n), word))?;
    print(rt, b"\n")
}

// The steps 1 and 2 by turns.
fn alternate(word: &mut [u8; WORD]) {
    for (i, step) in word.iter_mut().enumerate() {
        *step = (i % 2 + 1) as u8;
    }
}

fn runs_on_sheet(rt: &impl Print) -> io::Result<()> {
    let mut file = [0u8; HELD];
    sheet(&mut file);
    judge(rt, b"run 1 3", &file, SHEET, &[1, 3])?;
    judge(rt, b"run 1 2 3", &file, SHEET, &[1, 2, 3])?;
    judge(rt, b"run 3", &file, SHEET, &[3])?;
    judge(rt, b"run 1 2", &file, SHEET, &[1, 2])?;
    judge(rt, b"run 2 3", &file, SHEET, &[2, 3])?;
    judge(rt, b"run 1 2 3 3", &file, SHEET, &[1, 2, 3, 3])?;
    judge(rt, b"the empty run", &file, SHEET, b"")?;
    judge(rt, b"run 1 120 2 127 3", &file, SHEET, &[1, 120, 2, 127, 3])?;
    judge(rt, b"run 1 119 2 3", &file, SHEET, &[1, 119, 2, 3])?;
    judge(rt, b"run 127", &file, SHEET, &[127])?;
    judge(rt, b"run 128", &file, SHEET, &[128])?;
    judge(rt, b"run 1 2 3 255", &file, SHEET, &[1, 2, 3, 255])
}

fn runs_on_sample(rt: &impl Print) -> io::Result<()> {
    let mut file = [0u8; HELD];
    sample(&mut file);
    judge(rt, b"run 1 3, rules in front", &file, SAMPLE, &[1, 3])?;
    judge(rt, b"run 1 2 3, rules in front", &file, SAMPLE, &[1, 2, 3])?;
    judge(rt, b"the empty run on the empty file", &file, 0, b"")?;
    judge(
        rt,
        b"run 1 2 3, finishing stage cut off",
        &file,
        64,
        &[1, 2, 3],
    )?;
    judge(rt, b"run 1 2 3 on 71 bytes", &file, 71, &[1, 2, 3])
}

// Sheet S with stage 0 finishing too.
fn runs_with_stage_0(rt: &impl Print) -> io::Result<()> {
    let mut file = [0u8; HELD];
    sheet(&mut file);
    put(&mut file, 3, [3, 0, 0, 0, 0, 0, 0, 0]);
    put(&mut file, 4, [3, 2, 0, 0, 0, 0, 0, 0]);
    judge(rt, b"the empty run, stage 0 finishing", &file, 40, b"")?;
    judge(rt, b"run 1 2, stage 0 finishing", &file, 40, &[1, 2])?;
    judge(rt, b"run 1, stage 0 finishing", &file, 40, &[1])
}

fn long_runs(rt: &impl Print) -> io::Result<()> {
    let mut file = [0u8; HELD];
    let mut word = [0u8; WORD];
    sheet(&mut file);
    alternate(&mut word);
    judge(rt, b"65,534 steps", &file, SHEET, front(&word, 65534))?;
    judge(rt, b"65,535 steps", &file, SHEET, front(&word, 65535))?;
    judge(rt, b"65,536 steps", &file, SHEET, front(&word, 65536))?;
    word[65532] = 3;
    judge(
        rt,
        b"65,533 steps, the last 3",
        &file,
        SHEET,
        front(&word, 65533),
    )?;
    word[65533] = 128;
    judge(
        rt,
        b"65,534 steps, the last 128",
        &file,
        SHEET,
        front(&word, 65534),
    )?;
    judge(
        rt,
        b"65,533 steps, 128 after them",
        &file,
        SHEET,
        front(&word, 65533),
    )
}

fn long_runs_with_stage_0(rt: &impl Print) -> io::Result<()> {
    let mut file = [0u8; HELD];
    let mut word = [0u8; WORD];
    sheet(&mut file);
    put(&mut file, 3, [3, 0, 0, 0, 0, 0, 0, 0]);
    alternate(&mut word);
    judge(
        rt,
        b"65,534 steps, stage 0 finishing",
        &file,
        SHEET,
        front(&word, 65534),
    )?;
    judge(
        rt,
        b"65,533 steps, stage 0 finishing",
        &file,
        SHEET,
        front(&word, 65533),
    )?;
    judge(
        rt,
        b"65,535 steps, stage 0 finishing",
        &file,
        SHEET,
        front(&word, 65535),
    )
}

// The file's own number comes first.
fn long_runs_on_refused(rt: &impl Print) -> io::Result<()> {
    let mut file = [0u8; HELD];
    let mut word = [0u8; WORD];
    sample(&mut file);
    alternate(&mut word);
    judge(
        rt,
        b"65,535 steps on the sample",
        &file,
        SAMPLE,
        front(&word, 65535),
    )?;
    judge(
        rt,
        b"65,535 steps on 71 bytes",
        &file,
        71,
        front(&word, 65535),
    )?;
    judge(
        rt,
        b"65,535 steps on 1,298 records",
        &file,
        HELD,
        front(&word, 65535),
    )?;
    put(&mut file, 6, [4, 0, 0, 0, 0, 0, 0, 0]);
    judge(
        rt,
        b"65,535 steps on a file with kind 4",
        &file,
        SAMPLE,
        front(&word, 65535),
    )?;
    judge(rt, b"run 128 on a file with kind 4", &file, SAMPLE, &[128])
}

// Code 1 leads to stage 1 or 2; only stage 1 goes on with 2, only stage 2 with 3. No run takes both.
fn choices(rt: &impl Print) -> io::Result<()> {
    let mut file = [0u8; HELD];
    put(&mut file, 0, [2, 0, 1, 1, 0, 0, 0, 0]);
    put(&mut file, 1, [2, 0, 1, 2, 0, 0, 0, 0]);
    put(&mut file, 2, [2, 1, 2, 1, 0, 0, 0, 0]);
    put(&mut file, 3, [2, 2, 3, 3, 0, 0, 0, 0]);
    put(&mut file, 4, [3, 3, 0, 0, 0, 0, 0, 0]);
    judge(rt, b"choices, run 1 3", &file, 40, &[1, 3])?;
    judge(rt, b"choices, run 1 2", &file, 40, &[1, 2])?;
    judge(rt, b"choices, run 1 2 3", &file, 40, &[1, 2, 3])?;
    judge(rt, b"choices, run 1 3 2", &file, 40, &[1, 3, 2])?;
    put(&mut file, 4, [3, 1, 0, 0, 0, 0, 0, 0]);
    judge(
        rt,
        b"choices, stage 1 finishing, run 1 2 2",
        &file,
        40,
        &[1, 2, 2],
    )?;
    judge(
        rt,
        b"choices, stage 1 finishing, run 1 3",
        &file,
        40,
        &[1, 3],
    )
}

fn main(rt: HostRuntime) -> io::Result<()> {
    runs_on_sheet(&rt)?;
    runs_on_sample(&rt)?;
    runs_with_stage_0(&rt)?;
    long_runs(&rt)?;
    long_runs_with_stage_0(&rt)?;
    long_runs_on_refused(&rt)?;
    choices(&rt)
}
