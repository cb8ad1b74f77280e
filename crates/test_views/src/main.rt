// The views of a file and the stretch of its moves, case by case: one line for each, a label and the result. The stored output is what
// document 01 asks for ("Records").
#![tactic(auto)]

use std::io;
use test_files::{
    HELD, LARGEST, SAMPLE, SHEET, fill, front, print, print_finishing, print_label, print_move,
    print_number, print_rule, put, sample, sheet,
};

// ---- the views

fn counts(rt: &impl Print, label: &[u8], file: &[u8; HELD], n: usize) -> io::Result<()> {
    let f = front(file, n);
    print_label(rt, label)?;
    print_number(rt, file_views::record_count(f) as u64)?;
    print(rt, b" records, ")?;
    print_number(rt, file_views::rule_count(f) as u64)?;
    print(rt, b" rules, ")?;
    print_number(rt, file_views::transition_count(f) as u64)?;
    print(rt, b" moves, ")?;
    print_number(rt, file_views::final_count(f) as u64)?;
    print(rt, b" finishing stages\n")
}

fn view_rule(rt: &impl Print, label: &[u8], file: &[u8; HELD], i: usize) -> io::Result<()> {
    print_label(rt, label)?;
    print_rule(rt, file_views::rule_at(front(file, SAMPLE), i))?;
    print(rt, b"\n")
}

fn view_move(rt: &impl Print, label: &[u8], file: &[u8; HELD], i: usize) -> io::Result<()> {
    print_label(rt, label)?;
    print_move(rt, file_views::transition_at(front(file, SAMPLE), i))?;
    print(rt, b"\n")
}

fn view_finishing(rt: &impl Print, label: &[u8], file: &[u8; HELD], i: usize) -> io::Result<()> {
    print_label(rt, label)?;
    print_finishing(rt, file_views::final_at(front(file, SAMPLE), i))?;
    print(rt, b"\n")
}

fn views_of_files(rt: &impl Print) -> io::Result<()> {
    let mut file = [0u8; HELD];
    sample(&mut file);
    counts(rt, b"counts of the sample", &file, SAMPLE)?;
    counts(rt, b"counts of the empty file", &file, 0)?;
    view_rule(rt, b"record 0 as a rule", &file, 0)?;
    view_rule(rt, b"record 4 as a rule", &file, 4)?;
    view_move(rt, b"record 5 as a move", &file, 5)?;
    view_move(rt, b"record 7 as a move", &file, 7)?;
    view_finishing(rt, b"record 8 as a finishing stage", &file, 8)?;
    fill(&mut file, 256, 1024);
    counts(rt, b"counts of 1,296 records", &file, LARGEST)
}

// ---- the moves stretch

fn print_stretch(rt: &impl Print, moves: &[u8]) -> io::Result<()> {
    print_number(rt, moves.len() as u64)?;
    print(rt, b" bytes")?;
    let n = moves.len() / 8;
    if 0 < n {
        print(rt, b", first ")?;
        print_move(rt, file_views::transition_at(moves, 0))?;
        print(rt, b", last ")?;
        print_move(rt, file_views::transition_at(moves, n - 1))?;
    }
    print(rt, b"\n")
}

fn stretch(rt: &impl Print, label: &[u8], file: &[u8; HELD], n: usize) -> io::Result<()> {
    print_label(rt, label)?;
    print_stretch(rt, file_whole::transition_stretch(front(file, n)))
}

fn stretches(rt: &impl Print) -> io::Result<()> {
    let mut file = [0u8; HELD];
    sample(&mut file);
    stretch(rt, b"moves of the sample", &file, SAMPLE)?;
    stretch(rt, b"moves of the sample's first 6 records", &file, 48)?;
    stretch(rt, b"moves of the sample's rules", &file, 40)?;
    stretch(rt, b"moves of the empty file", &file, 0)?;
    stretch(rt, b"moves of 71 bytes", &file, 71)?;
    put(&mut file, 8, [3, 16, 0, 0, 0, 0, 0, 0]);
    stretch(
        rt,
        b"moves of a file refused at its last record",
        &file,
        SAMPLE,
    )?;
    sheet(&mut file);
    stretch(rt, b"moves of sheet S", &file, SHEET)
}

fn long_stretches(rt: &impl Print) -> io::Result<()> {
    let mut file = [0u8; HELD];
    fill(&mut file, 256, 1024);
    stretch(rt, b"moves of 1,296 records", &file, LARGEST)?;
    stretch(rt, b"moves of 1,297 records", &file, 10376)?;
    fill(&mut file, 0, 1024);
    stretch(rt, b"moves of 1,024 moves", &file, 8192)?;
    fill(&mut file, 256, 0);
    stretch(
        rt,
        b"moves of 256 rules and 16 finishing stages",
        &file,
        2176,
    )
}

// ---- all

fn main(rt: HostRuntime) -> io::Result<()> {
    views_of_files(&rt)?;
    stretches(&rt)?;
    long_stretches(&rt)
}
