// Compares the inclusion check with an unpruned search that shares no code with it, on small files made from a fixed seed (the crate
// test_random). The search (the crate `test_unpruned`) finds all relations of all words of each nonterminal and discards none. Of each file
// (comparison.rt):
//
// 1. With 1,024 rows and a budget of 1,000,000 the file is not refused, and the verdict is holds, broken or empty as the search says. The word
//    behind a broken answer's row is as long as the row says, is turned away by judging, and has the row's relation.
// 2. Each used row has a relation that the search found, no live row is above another of its nonterminal, and where the verdict is holds or
//    empty each relation that the search found is above a live row.
// 3. A longer journal and a larger budget give the same verdict, joins, used rows, pass, row and journal rows.
// 4. So does a journal with old contents that look like rows; past the used rows it keeps them.
// 5. With 1 to 6 rows and a budget of 0 to 40 the answer is spent with as many joins as the budget has and fewer than the check makes,
//    or full with all rows used and fewer than the check uses, or the same whole answer.
// 6. A file with a move on a remark is refused with 12, at the first such record, and nothing else is tried on it.
// 7. From a set of nonterminals the verdict is broken if the search found a word of a member that is turned away, else empty if a member has
//    no word, else holds. The word that is shown is one of the member that is told, by the search's list, and is turned away by judging.
//
// Written are the counts of files, of those that hold, of empty ones, of those among these two in which the check keeps fewer rows than there
// are relations, of broken ones; of full, spent and other answers under 5; of answers under 7 that hold, are empty, are broken; of refused
// files; of files with more relations than the search has room for, which are skipped; and of mismatches, each of which is also written with
// the file's number and the comparison that fails.
#![tactic(auto)]

mod comparison;

use comparison::Outcome;
use host_result::{BROKEN, EMPTY, FULL, HOLDS, SPENT};
use std::io;
use test_random::Trial;
use test_unpruned::Verdict;

const FILES: u64 = 10000;

// What is counted.
#[derive(Clone, Copy, Default)]
struct Tally {
    holds: u64,
    empty: u64,
    pruned: u64,
    broken: u64,
    full: u64,
    spent: u64,
    neither: u64,
    from_holds: u64,
    from_empty: u64,
    from_broken: u64,
    refused: u64,
    skipped: u64,
    mismatches: u64,
}

fn count_one(n: &mut u64) {
    *n = n.wrapping_add(1);
}

fn line(rt: &impl Print, name: &[u8], n: u64) -> io::Result<()> {
    rt.write_all(name)?;
    rt.println(n)
}

// Counts the verdict with ample rows and joins.
fn count_verdict(tally: &mut Tally, outcome: Outcome, verdict: Verdict) {
    count_one(match outcome.verdict {
        BROKEN => &mut tally.broken,
        EMPTY => &mut tally.empty,
        _ => &mut tally.holds,
    });
    if outcome.verdict != BROKEN && outcome.used < verdict.relations {
        count_one(&mut tally.pruned);
    }
}

// Counts the verdict with few rows and a small budget.
fn count_small(tally: &mut Tally, verdict: u64) {
    count_one(match verdict {
        FULL => &mut tally.full,
        SPENT => &mut tally.spent,
        _ => &mut tally.neither,
    });
}

// Counts the verdict from a set. As one function with `count_small` it would be no plainer: their verdicts and counters are all different.
fn count_from_set(tally: &mut Tally, verdict: u64) {
    count_one(match verdict {
        HOLDS => &mut tally.from_holds,
        EMPTY => &mut tally.from_empty,
        _ => &mut tally.from_broken,
    });
}

fn count_mismatch(
    rt: &impl Print,
    tally: &mut Tally,
    number: u64,
    failing: Option<u64>,
) -> io::Result<()> {
    if let Some(failing) = failing {
        count_one(&mut tally.mismatches);
        line(rt, b"file ", number)?;
        line(rt, b"fails ", failing)?;
    }
    Ok(())
}

// Searches `file`, and compares.
fn try_file(
    rt: &impl Print,
    number: u64,
    file: &[u8],
    trial: Trial,
    tally: &mut Tally,
) -> io::Result<()> {
    if let Some(remark) = test_unpruned::remark_transition(file) {
        count_one(&mut tally.refused);
        return count_mismatch(rt, tally, number, comparison::refusal(file, remark));
    }
    let mut room = [test_unpruned::BLANK; test_unpruned::LIMIT];
    let found = test_unpruned::search(file, &mut room);
    if found.len() == test_unpruned::LIMIT {
        count_one(&mut tally.skipped);
        return Ok(());
    }
    let verdict = test_unpruned::decide(file, found);
    let outcome = comparison::compare(file, found, verdict, trial);
    count_verdict(tally, outcome, verdict);
    count_small(tally, outcome.small);
    count_from_set(tally, outcome.from_set);
    count_mismatch(rt, tally, number, outcome.failing)
}

// Draws the next file and what is tried on it, and tries it.
fn try_next(rt: &impl Print, number: u64, seed: &mut u64, tally: &mut Tally) -> io::Result<()> {
    let mut buffer = [0u8; 192];
    let size = test_random::next(seed, &mut buffer);
    let trial = test_random::draw_trial(seed);
    try_file(rt, number, &buffer[..size.min(192)], trial, tally)
}

fn try_all(rt: &impl Print, tally: &mut Tally) -> io::Result<()> {
    let mut seed: u64 = 1;
    for number in 0..FILES {
        try_next(rt, number, &mut seed, tally)?;
    }
    Ok(())
}

fn report_checks(rt: &impl Print, tally: Tally) -> io::Result<()> {
    line(rt, b"files ", FILES)?;
    line(rt, b"holds ", tally.holds)?;
    line(rt, b"empty ", tally.empty)?;
    line(rt, b"pruned ", tally.pruned)?;
    line(rt, b"broken ", tally.broken)
}

fn report_trials(rt: &impl Print, tally: Tally) -> io::Result<()> {
    line(rt, b"full ", tally.full)?;
    line(rt, b"spent ", tally.spent)?;
    line(rt, b"neither ", tally.neither)
}

fn report_sets(rt: &impl Print, tally: Tally) -> io::Result<()> {
    line(rt, b"from a set holds ", tally.from_holds)?;
    line(rt, b"from a set empty ", tally.from_empty)?;
    line(rt, b"from a set broken ", tally.from_broken)
}

fn report_rest(rt: &impl Print, tally: Tally) -> io::Result<()> {
    line(rt, b"refused ", tally.refused)?;
    line(rt, b"skipped ", tally.skipped)?;
    line(rt, b"mismatches ", tally.mismatches)
}

fn main(rt: HostRuntime) -> io::Result<()> {
    let mut tally = Tally::default();
    try_all(&rt, &mut tally)?;
    report_checks(&rt, tally)?;
    report_trials(&rt, tally)?;
    report_sets(&rt, tally)?;
    report_rest(&rt, tally)
}
