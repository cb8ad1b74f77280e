// Checks and unfolding from sets of starting procedures, case by case: one line for each, a label and what came. Of a check: the verdict, joins,
// used rows and pass, and of a broken one the row, its procedure and its run. Of an unfolding: the length, and a short result byte by byte.
// The stored output is what document 02, C-18, asks for.
#![tactic(auto)]

use file_wide_checks::WideRecord;
use host_result::{BROKEN, CheckResult, EMPTY, FULL, HOLDS, SPENT};
use spec_calls::{INITIAL_ALONE, Options, Row};
use std::io;
use test_files::{
    HELD, SAMPLE, front, print, print_bytes, print_label, print_moved, print_number, put, sample,
};

// The rows and the budget of most checks.
const ROWS: usize = 1024;

const BUDGET: u64 = 1000000;

// The set of no procedure, of procedure 63 alone, and of all 64.
const NONE: u64 = 0;

const LAST: u64 = 1 << 63;

const ALL: u64 = u64::MAX;

// The bytes of plan A with sheet S.
const PLAN_A: usize = 64;

// The bytes of a file with a rule of each procedure, a move and a finishing stage.
const EACH: usize = 528;

// ---- printing

// Prints the verdict with this `code`, or the number that refuses the check.
fn print_code(rt: &impl Print, code: u64) -> io::Result<()> {
    match code {
        HOLDS => print(rt, b"holds "),
        BROKEN => print(rt, b"broken "),
        FULL => print(rt, b"full "),
        SPENT => print(rt, b"spent "),
        EMPTY => print(rt, b"empty "),
        refusal => {
            print(rt, b"refused ")?;
            print_number(rt, refusal)?;
            print(rt, b", ")
        }
    }
}

fn print_counts(rt: &impl Print, told: CheckResult) -> io::Result<()> {
    print_number(rt, told.joins)?;
    print(rt, b" ")?;
    print_number(rt, told.used)?;
    print(rt, b" ")?;
    print_number(rt, told.pass)
}

// Prints the row, its procedure and its run, which stands at the front of `run`.
fn print_shown(rt: &impl Print, told: CheckResult, run: &[u8]) -> io::Result<()> {
    print(rt, b", row ")?;
    print_number(rt, told.row)?;
    print(rt, b" of procedure ")?;
    print_number(rt, told.head)?;
    print(rt, b", run")?;
    print_bytes(rt, front(run, told.length as usize))
}

fn print_told(rt: &impl Print, told: CheckResult, run: &[u8]) -> io::Result<()> {
    print_code(rt, told.code)?;
    print_counts(rt, told)?;
    if told.code == BROKEN {
        print_shown(rt, told, run)?;
    }
    print(rt, b"\n")
}

// ---- calls

// Checks `file` from the set `starts` over `rows` rows, with a budget of `budget` joins.
fn check_by(
    rt: &impl Print,
    label: &[u8],
    file: &[u8],
    starts: u64,
    rows: usize,
    budget: u64,
) -> io::Result<()> {
    print_label(rt, label)?;
    let mut run = [0u8; 64];
    let options = Options { budget, starts };
    let told = host_check::check_and_write(file, rows, Row::blank(), options, 0, &mut run);
    print_told(rt, told, &run)
}

// The same of the first `n` bytes of `file`, with the rows and the budget of most checks.
fn check(
    rt: &impl Print,
    label: &[u8],
    file: &[u8; HELD],
    n: usize,
    starts: u64,
) -> io::Result<()> {
    check_by(rt, label, front(file, n), starts, ROWS, BUDGET)
}

fn unfold(rt: &impl Print, label: &[u8], file: &[u8], starts: u64) -> io::Result<()> {
    print_label(rt, label)?;
    let mut out = [0u8; 64];
    let answer = call_unfold::unfold(file, starts, &mut out);
    print_moved(rt, answer, &out, 33)?;
    print(rt, b"\n")
}

// ---- checks

fn plan_a(file: &mut [u8; HELD]) {
    put(file, 0, [1, 0, 2, 129, 3, 0, 0, 0]);
    put(file, 1, [1, 1, 0, 0, 0, 0, 0, 0]);
    put(file, 2, [1, 1, 2, 1, 130, 0, 0, 0]);
    put(file, 3, [1, 2, 2, 2, 129, 0, 0, 0]);
    put(file, 4, [2, 0, 1, 1, 0, 0, 0, 0]);
    put(file, 5, [2, 0, 3, 2, 0, 0, 0, 0]);
    put(file, 6, [2, 1, 2, 0, 0, 0, 0, 0]);
    put(file, 7, [3, 2, 0, 0, 0, 0, 0, 0]);
}

// Procedures 1 and 2 of plan A have runs that its sheet turns away, and procedure 5 has no rule.
fn members_of_plan_a(rt: &impl Print) -> io::Result<()> {
    let mut file = [0u8; HELD];
    plan_a(&mut file);
    check(rt, b"plan A from 0", &file, PLAN_A, INITIAL_ALONE)?;
    check(rt, b"from 1", &file, PLAN_A, 2)?;
    check(rt, b"from 2", &file, PLAN_A, 4)?;
    check(rt, b"from 0 and 2", &file, PLAN_A, 5)?;
    check(rt, b"from 1 and 2", &file, PLAN_A, 6)?;
    check(rt, b"from 5", &file, PLAN_A, 32)?;
    check(rt, b"from 0 and 5", &file, PLAN_A, 33)?;
    check(rt, b"from 2 and 5", &file, PLAN_A, 36)?;
    check(rt, b"from none", &file, PLAN_A, NONE)?;
    check(rt, b"from all", &file, PLAN_A, ALL)
}

// Checks plan A from the set `starts` over `rows` rows, with a budget of `budget` joins.
fn plan_a_by(
    rt: &impl Print,
    label: &[u8],
    starts: u64,
    rows: usize,
    budget: u64,
) -> io::Result<()> {
    let mut file = [0u8; HELD];
    plan_a(&mut file);
    check_by(rt, label, front(&file, PLAN_A), starts, rows, budget)
}

// Full and spent come before empty and holds.
fn rows_and_joins(rt: &impl Print) -> io::Result<()> {
    plan_a_by(rt, b"from 0 and 5 with 3 rows", 33, 3, BUDGET)?;
    plan_a_by(rt, b"with 4 rows", 33, 4, BUDGET)?;
    plan_a_by(rt, b"with 11 joins", 33, ROWS, 11)?;
    plan_a_by(rt, b"with 12 joins", 33, ROWS, 12)?;
    plan_a_by(rt, b"from none with 3 rows", NONE, 3, BUDGET)?;
    plan_a_by(rt, b"with 11 joins", NONE, ROWS, 11)?;
    plan_a_by(rt, b"with no rows", NONE, 0, BUDGET)
}

fn members_of_plan_b(rt: &impl Print) -> io::Result<()> {
    let mut file = [0u8; HELD];
    sample(&mut file);
    check(rt, b"plan B from 0", &file, SAMPLE, INITIAL_ALONE)?;
    check(rt, b"from 0 and 5", &file, SAMPLE, 33)?;
    check(rt, b"from 2", &file, SAMPLE, 4)?;
    check(rt, b"from 5", &file, SAMPLE, 32)?;
    check(rt, b"from none", &file, SAMPLE, NONE)?;
    check(rt, b"the empty file from 0", &file, 0, INITIAL_ALONE)?;
    check(rt, b"from none", &file, 0, NONE)?;
    check(rt, b"from all", &file, 0, ALL)
}

// Stores for each of the first `n` procedures the rule that it gives step 1.
fn put_procedures(file: &mut [u8; HELD], n: u8) {
    for i in 0..n {
        put(file, usize::from(i), [1, i, 1, 1, 0, 0, 0, 0]);
    }
}

// Stores a sheet that accepts step 1 alone, from record `i` on.
fn put_sheet(file: &mut [u8; HELD], i: usize) {
    if i < 1000 {
        put(file, i, [2, 0, 1, 1, 0, 0, 0, 0]);
        put(file, i + 1, [3, 1, 0, 0, 0, 0, 0, 0]);
    }
}

// Every procedure has the run of step 1; then procedure 40 the run of step 2; then procedure 63 none.
fn all_procedures(rt: &impl Print) -> io::Result<()> {
    let mut file = [0u8; HELD];
    put_procedures(&mut file, 64);
    put_sheet(&mut file, 64);
    check(rt, b"a run of each procedure, from all", &file, EACH, ALL)?;
    check(rt, b"from 63", &file, EACH, LAST)?;
    put(&mut file, 40, [1, 40, 1, 2, 0, 0, 0, 0]);
    check(rt, b"one of 40 turned away, from all", &file, EACH, ALL)?;
    check(rt, b"from 63", &file, EACH, LAST)?;
    put_procedures(&mut file, 63);
    put_sheet(&mut file, 63);
    check(rt, b"none of 63, from all", &file, EACH - 8, ALL)?;
    check(rt, b"from 63", &file, EACH - 8, LAST)
}

// Only procedure 63 has a rule, and its run is turned away.
fn the_last_procedure(rt: &impl Print) -> io::Result<()> {
    let mut file = [0u8; HELD];
    put(&mut file, 0, [1, 63, 1, 2, 0, 0, 0, 0]);
    put_sheet(&mut file, 1);
    check(rt, b"a run of 63 turned away, from 63", &file, 24, LAST)?;
    check(rt, b"from 62", &file, 24, LAST / 2)?;
    check(rt, b"from 0", &file, 24, INITIAL_ALONE)?;
    check(rt, b"from none", &file, 24, NONE)
}

// ---- unfolding

// A body of three steps: its chain procedure is not in the set. Procedure 0 is in use, whether it is in the set or not.
fn one_chain(rt: &impl Print) -> io::Result<()> {
    let r: WideRecord = [1, 0, 3, 1, 2, 3, 0, 0, 0, 0, 0, 0, 0, 0, 0, 0];
    unfold(rt, b"a body of 3 for 0", &r, INITIAL_ALONE)?;
    unfold(rt, b"for none", &r, NONE)?;
    unfold(rt, b"for 1", &r, 2)?;
    unfold(rt, b"for 5", &r, 32)?;
    unfold(rt, b"for 0 and 5", &r, 33)?;
    unfold(rt, b"for 62", &r, LAST / 2)?;
    unfold(rt, b"for 63", &r, LAST)?;
    unfold(rt, b"for all", &r, ALL)
}

fn other_bodies(rt: &impl Print) -> io::Result<()> {
    let two: WideRecord = [1, 0, 2, 1, 2, 0, 0, 0, 0, 0, 0, 0, 0, 0, 0, 0];
    unfold(rt, b"a body of 2 for all", &two, ALL)?;
    let four: WideRecord = [1, 0, 4, 1, 2, 3, 4, 0, 0, 0, 0, 0, 0, 0, 0, 0];
    unfold(rt, b"a body of 4 for 61", &four, LAST / 4)?;
    unfold(rt, b"for 62", &four, LAST / 2)?;
    let used: WideRecord = [1, 0, 3, 1, 136, 3, 0, 0, 0, 0, 0, 0, 0, 0, 0, 0];
    unfold(rt, b"procedure 8 in use, for 5", &used, 32)?;
    unfold(rt, b"for 8", &used, 256)?;
    unfold(rt, b"for 9", &used, 512)
}

// A body of three steps with a sheet that accepts it, as records of sixteen bytes.
fn accepted() -> [u8; 80] {
    let mut file = [0u8; 80];
    call_move::put(&mut file, 0, &[1, 0, 3, 1, 2, 3, 0, 0]);
    call_move::put(&mut file, 16, &[2, 0, 1, 1, 0, 0, 0, 0]);
    call_move::put(&mut file, 32, &[2, 1, 2, 2, 0, 0, 0, 0]);
    call_move::put(&mut file, 48, &[2, 2, 3, 3, 0, 0, 0, 0]);
    call_move::put(&mut file, 64, &[3, 3, 0, 0, 0, 0, 0, 0]);
    file
}

// Unfolds that file for the set `starts`, and checks the result from procedure 0, and from 0 and 1.
fn unfold_and_check(rt: &impl Print, label: &[u8], starts: u64) -> io::Result<()> {
    let file = accepted();
    unfold(rt, label, &file, starts)?;
    let mut out = [0u8; 48];
    let _ = call_unfold::unfold(&file, starts, &mut out);
    check_by(rt, b"checked from 0", &out, INITIAL_ALONE, ROWS, BUDGET)?;
    check_by(rt, b"checked from 0 and 1", &out, 3, ROWS, BUDGET)
}

fn main(rt: HostRuntime) -> io::Result<()> {
    members_of_plan_a(&rt)?;
    rows_and_joins(&rt)?;
    members_of_plan_b(&rt)?;
    all_procedures(&rt)?;
    the_last_procedure(&rt)?;
    one_chain(&rt)?;
    other_bodies(&rt)?;
    unfold_and_check(&rt, b"a plan unfolded for 0", INITIAL_ALONE)?;
    unfold_and_check(&rt, b"for 0 and 1", 3)
}
