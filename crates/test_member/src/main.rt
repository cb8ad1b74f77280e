// Recognizing a run on a file, case by case: one line for each, a label, what came, and the cells of the table that are not 0, by their
// numbers; of a refused call how many cells are as they were. The stored output is what document 02, C-12, asks for.
#![tactic(auto)]

use call_member::Recognized;
use member_table::STRETCH_CELLS;
use spec_file::Refusal;
use std::io;
use test_files::{
    HELD, SAMPLE, front, print, print_kept, print_label, print_number, print_refused, put, sample,
};

const LARGER: usize = STRETCH_CELLS + 1;

// What each cell has before a call.
const OLD: u64 = 9;

// ---- printing

fn print_cells(rt: &impl Print, table: &[u64]) -> io::Result<()> {
    for (i, set) in table.iter().enumerate() {
        if *set != 0 {
            print(rt, b" ")?;
            print_number(rt, i as u64)?;
            print(rt, b"=")?;
            print_number(rt, *set)?;
        }
    }
    Ok(())
}

fn print_recognized(
    rt: &impl Print,
    answer: Result<Recognized, Refusal>,
    table: &[u64],
) -> io::Result<()> {
    match answer {
        Ok(Recognized::Derived) => {
            print(rt, b"derived")?;
            print_cells(rt, table)?;
        }
        Ok(Recognized::NotDerived) => {
            print(rt, b"not derived")?;
            print_cells(rt, table)?;
        }
        Err(refusal) => {
            print_refused(rt, refusal)?;
            print_kept(rt, table, OLD)?;
        }
    }
    print(rt, b"\n")
}

// ---- cases

fn recognize(
    rt: &impl Print,
    label: &[u8],
    file: &[u8; HELD],
    n: usize,
    word: &[u8],
) -> io::Result<()> {
    recognize_by(rt, label, file, n, word, STRETCH_CELLS)
}

fn recognize_by(
    rt: &impl Print,
    label: &[u8],
    file: &[u8; HELD],
    n: usize,
    word: &[u8],
    cells: usize,
) -> io::Result<()> {
    let mut table = [OLD; LARGER];
    let lent = &mut table[..cells.min(LARGER)];
    print_label(rt, label)?;
    let answer = call_member::recognize(front(file, n), word, lent);
    print_recognized(rt, answer, lent)
}

fn runs_of_plan_b(rt: &impl Print) -> io::Result<()> {
    let mut file = [0u8; HELD];
    sample(&mut file);
    recognize(rt, b"run 1 2 3", &file, SAMPLE, &[1, 2, 3])?;
    recognize(rt, b"run 2 1 3", &file, SAMPLE, &[2, 1, 3])?;
    recognize(rt, b"the empty run on the empty file", &file, 0, b"")
}

// Procedure 0 gives itself twice, the step 1 or nothing; procedure 1 gives only itself, and procedure 2 gives 1 or 0.
fn empty_bodies_and_cycles(rt: &impl Print) -> io::Result<()> {
    let mut file = [0u8; HELD];
    put(&mut file, 0, [1, 0, 0, 0, 0, 0, 0, 0]);
    put(&mut file, 1, [1, 0, 1, 1, 0, 0, 0, 0]);
    put(&mut file, 2, [1, 0, 2, 128, 128, 0, 0, 0]);
    put(&mut file, 3, [1, 1, 1, 129, 0, 0, 0, 0]);
    put(&mut file, 4, [1, 1, 2, 128, 129, 0, 0, 0]);
    put(&mut file, 5, [1, 2, 1, 128, 0, 0, 0, 0]);
    put(&mut file, 6, [1, 2, 1, 129, 0, 0, 0, 0]);
    recognize(rt, b"run 1 2 1", &file, 56, &[1, 2, 1])
}

// Only the highest procedure has a run. The code 127 is a remark, and a step like any other here.
fn highest_procedure(rt: &impl Print) -> io::Result<()> {
    let mut file = [0u8; HELD];
    put(&mut file, 0, [1, 0, 2, 191, 127, 0, 0, 0]);
    put(&mut file, 1, [1, 63, 1, 127, 0, 0, 0, 0]);
    recognize(rt, b"run 127 127", &file, 16, &[127, 127])
}

fn long_runs(rt: &impl Print) -> io::Result<()> {
    let mut file = [0u8; HELD];
    sample(&mut file);
    let mut long = [1u8; 65];
    recognize(rt, b"64 steps", &file, 0, &long[..64])?;
    recognize(rt, b"65 steps", &file, SAMPLE, &long)?;
    long[64] = 128;
    recognize(rt, b"65 steps, the last 128", &file, SAMPLE, &long)
}

fn other_tables(rt: &impl Print) -> io::Result<()> {
    let mut file = [0u8; HELD];
    sample(&mut file);
    let long = [1u8; 65];
    recognize_by(rt, b"2,144 cells", &file, SAMPLE, &[3], 2144)?;
    recognize_by(rt, b"2,146 cells", &file, SAMPLE, &[3], 2146)?;
    recognize_by(rt, b"65 steps and 2,144 cells", &file, SAMPLE, &long, 2144)?;
    recognize_by(rt, b"65 steps and no cell on 71 bytes", &file, 71, &long, 0)
}

fn main(rt: HostRuntime) -> io::Result<()> {
    runs_of_plan_b(&rt)?;
    empty_bodies_and_cycles(&rt)?;
    highest_procedure(&rt)?;
    long_runs(&rt)?;
    other_tables(&rt)
}
