// The cases that document 01 marks P, as far as the library can be given rows and a budget, each as the check program prints it.
// The stored output is what document 01 asks for, and for plans without runs what C-15 of document 02 does; test_judging compares the judged runs.
#![tactic(auto)]

use relation::Relation;
use spec_calls::{INITIAL_ALONE, Options, Row};
use std::io;

// Plan A with sheet S.
const PLAN_A: [u8; 64] = [
    1, 0, 2, 129, 3, 0, 0, 0, 1, 1, 0, 0, 0, 0, 0, 0, 1, 1, 2, 1, 130, 0, 0, 0, 1, 2, 2, 2, 129, 0,
    0, 0, 2, 0, 1, 1, 0, 0, 0, 0, 2, 0, 3, 2, 0, 0, 0, 0, 2, 1, 2, 0, 0, 0, 0, 0, 3, 2, 0, 0, 0, 0,
    0, 0,
];

// Plan B with sheet S.
const PLAN_B: [u8; 72] = [
    1, 0, 2, 129, 3, 0, 0, 0, 1, 1, 0, 0, 0, 0, 0, 0, 1, 1, 2, 1, 130, 0, 0, 0, 1, 2, 1, 129, 0, 0,
    0, 0, 1, 2, 2, 2, 129, 0, 0, 0, 2, 0, 1, 1, 0, 0, 0, 0, 2, 0, 3, 2, 0, 0, 0, 0, 2, 1, 2, 0, 0,
    0, 0, 0, 3, 2, 0, 0, 0, 0, 0, 0,
];

// Only the rule "0 gives nothing", and the same with stage 0 finishing.
const LONE: [u8; 8] = [1, 0, 0, 0, 0, 0, 0, 0];

const LONE_FINAL: [u8; 16] = [1, 0, 0, 0, 0, 0, 0, 0, 3, 0, 0, 0, 0, 0, 0, 0];

// The rules "0 gives 1 (procedure 0)" and "1 gives nothing": procedure 0 never ends.
const ENDLESS: [u8; 16] = [1, 0, 2, 1, 128, 0, 0, 0, 1, 1, 0, 0, 0, 0, 0, 0];

// Symbols 191 and 192; two equal records.
const SYMBOL_191: [u8; 8] = [1, 0, 1, 191, 0, 0, 0, 0];

const SYMBOL_192: [u8; 8] = [1, 0, 1, 192, 0, 0, 0, 0];

const EQUAL: [u8; 16] = [1, 0, 0, 0, 0, 0, 0, 0, 1, 0, 0, 0, 0, 0, 0, 0];

// Prints the text of a check of `file` over `rows` rows, each initialised to `old`, with a budget of `budget` joins.
fn print(rt: &impl Print, file: &[u8], rows: usize, old: Row, budget: u64) -> io::Result<()> {
    let mut text = [0u8; host_report::TEXT];
    let size = host_report::render(
        file,
        rows,
        old,
        Options {
            budget,
            starts: INITIAL_ALONE,
        },
        &mut text,
    );
    rt.write_all(&text[..size])
}

fn with_1024(rt: &impl Print, file: &[u8], budget: u64) -> io::Result<()> {
    print(rt, file, 1024, Row::blank(), budget)
}

// Prints the text of a check of `file` over `rows` rows of zeros, with the check program's budget.
fn with_rows(rt: &impl Print, file: &[u8], rows: usize) -> io::Result<()> {
    print(rt, file, rows, Row::blank(), 1000000)
}

// A row that holds 7s.
fn sevens() -> Row {
    let words = [7; relation::WORDS];
    Row {
        head: 7,
        rule: 7,
        relation: Relation::read(&words, 0),
        left: 7,
        right: 7,
        len: 7,
        birth: 7,
        retired: 7,
    }
}

// Checks over a journal of other old contents, which do not matter.
fn with_old_rows(rt: &impl Print, file: &[u8]) -> io::Result<()> {
    print(rt, file, 1024, sevens(), 1000000)
}

fn plan_a(rt: &impl Print) -> io::Result<()> {
    let file = PLAN_A;
    with_1024(rt, &file, 1000000)?;
    with_1024(rt, &file, 11)?;
    with_1024(rt, &file, 12)?;
    with_rows(rt, &file, 3)?;
    with_rows(rt, &file, 4)?;
    with_old_rows(rt, &file)?;
    with_rows(rt, &file, 0)
}

fn plan_b(rt: &impl Print) -> io::Result<()> {
    let file = PLAN_B;
    with_1024(rt, &file, 1000000)?;
    with_old_rows(rt, &file)
}

fn small_files(rt: &impl Print) -> io::Result<()> {
    let none = [0u8; 0];
    with_1024(rt, &none, 0)?;
    let lone = LONE;
    with_1024(rt, &lone, 1000000)?;
    let last = LONE_FINAL;
    with_1024(rt, &last, 1000000)
}

// Plans without runs: the answer is empty, unless the rows or the joins run out first.
fn without_runs(rt: &impl Print) -> io::Result<()> {
    let endless = ENDLESS;
    with_1024(rt, &endless, 1000000)?;
    print(rt, &endless, 1, sevens(), 2)?;
    with_1024(rt, &endless, 1)?;
    let plan = PLAN_A;
    let headless = &plan[8..];
    with_1024(rt, headless, 1000000)?;
    with_rows(rt, headless, 3)?;
    with_rows(rt, headless, 2)?;
    with_1024(rt, headless, 8)
}

fn symbols(rt: &impl Print) -> io::Result<()> {
    let high = SYMBOL_191;
    with_1024(rt, &high, 1000000)?;
    let above = SYMBOL_192;
    with_1024(rt, &above, 1000000)?;
    let equal = EQUAL;
    with_1024(rt, &equal, 1000000)
}

fn main(rt: HostRuntime) -> io::Result<()> {
    plan_a(&rt)?;
    plan_b(&rt)?;
    small_files(&rt)?;
    without_runs(&rt)?;
    symbols(&rt)
}
