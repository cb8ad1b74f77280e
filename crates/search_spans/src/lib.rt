// How far the lists of a pass go over old rows, the rows that were there when the pass before began. Rows rise along a list, so its old rows
// come first: they are its span. When a pass begins, the span of each list is measured and noted behind the lists (crate `search_state` draws
// the cells), so that whoever passes over them can count them by their number.
// The table, the words and the rules are parameters whose length each clause asks, and no struct with an invariant: hosts lend them, and what
// holds a loan would be lent on at each step.
#![tactic(auto)]

ghost use Rattle.std.specs.Prelude.{◌≡◌, false, ◌≤◌, ◌<◌, length};
ghost use Rattle.spec_file.specs.Entries.{entry_of};
ghost use Rattle.spec_file.specs.Limits.{nonterminals};
ghost use Rattle.spec_file.specs.Views.{symbol_of};
ghost use Rattle.spec_language.specs.Grammar.{nonterminal};
ghost use Rattle.search_state.specs.Forming.{some, left_part, right_part};
ghost use Rattle.search_state.specs.Layout.{row_cells, heads, span_cells, end};
ghost use Rattle.search_spans.specs.Spans.{Along, Measured, NoneLeads, Measures, MeasuresOne, Spans};

use search_state::{ABSENT, ENDS, FIRSTS, PROCEDURES, STEPS};
use spec_file::TERMINALS;

// From the position `first`, `steps` steps along its list, each to an old row, lead to the position `last`.
#[derive(Clone, Copy)]
pub struct Span {
    pub first: usize,
    pub steps: u64,
    pub last: usize,
}

// ---- measuring

// The cell that has the number `steps`.
fn steps_cell(steps: u64) -> u32
    requires { steps ≤ end }
    ensures { result ≡ steps }
{
    steps as u32
}

// Goes from the row `first` along its list as long as the next row is below `old`.
fn reach(lists: &[u32], old: usize, first: usize) -> Span
    requires { (span_cells ≤ length lists.now) × (old ≤ row_cells) }
    ensures { Along lists.now old first result.steps result.last × (result.steps ≤ old) }
{
    let mut steps = 0u64;
    let mut last = first;
    let mut next = search_order::after(lists, last);
    // `steps` steps lead from `first` to `last`, and `next` is the position after it. Rows rise, which the loop asks so that it ends.
    while (last < next) & (next < old) {
        steps += 1;
        last = next;
        next = search_order::after(lists, last);
    }
    Span { first, steps, last }
}

// Notes how far the list of procedure `x` goes over the rows below `old`. Where no two of them begin it, nothing is noted: its span is its
// first row alone.
fn measure_one(lists: &mut [u32], old: usize, x: usize)
    requires { (span_cells ≤ length lists.old) × (old ≤ row_cells) × (x < nonterminals) }
    ensures { MeasuresOne old x lists.old lists.new }
{
    let first = search_order::position(lists[FIRSTS + x]);
    if first < old {
        let next = search_order::position(lists[first]);
        if next < old {
            let span = reach(lists, old, first);
            lists[STEPS + x] = steps_cell(span.steps);
            lists[ENDS + x] = search_order::cell(span.last);
        }
    }
}

// Notes how far each list goes over the rows below `old`.
fn measure_all(lists: &mut [u32], old: usize)
    requires { (span_cells ≤ length lists.old) × (old ≤ row_cells) }
    ensures { Measures old lists.old lists.new }
{
    // The lists of the procedures below `x` are measured.
    for x in 0..PROCEDURES {
        measure_one(lists, old, x);
    }
}

// Returns whether a row below `old` leads to another such row. Dead rows are asked too: where only these do, measuring notes nothing.
fn leads_on(lists: &[u32], old: usize) -> bool
    requires { (span_cells ≤ length lists.now) × (old ≤ row_cells) }
    ensures { result ≡ false → NoneLeads old old lists.now }
{
    // No row below `i` leads to a row below `old`. (No `any`, whose calls go through a trait: tests/dividing follows those of the loop over the
    // candidates by their names.)
    for i in 0..old {
        if search_order::position(lists[i]) < old {
            return true;
        }
    }
    false
}

// Notes how far each list goes over the rows below `old`. Where none of these leads to another, there is nothing to note: in the first two
// passes of a check, where no row is old, and in a chain of single rows.
pub fn measure(lists: &mut [u32], old: usize)
    requires { (span_cells ≤ length lists.old) × (old ≤ row_cells) }
    ensures { Measures old lists.old lists.new }
{
    if leads_on(lists, old) {
        measure_all(lists, old);
    }
}

// ---- reading

// The number that a cell has.
fn number(cell: u32) -> u64
    ensures { (result ≡ cell) × (result ≤ 4294967295) }
{
    cell as u64
}

// The span of a position alone.
fn alone(position: usize) -> Span
    ensures { result ≡ record { first = position; steps = 0; last = position } }
{
    Span {
        first: position,
        steps: 0,
        last: position,
    }
}

// The span of the list of nonterminal `x`. It was noted where the first two rows are below `old`.
fn list_span(lists: &[u32], old: usize, x: usize) -> Span
    requires { (span_cells ≤ length lists.now) × Measured old lists.now × (x < heads) }
    ensures { Spans old lists.now (some (nonterminal x)) result }
{
    let first = search_order::position(lists[FIRSTS + x]);
    if PROCEDURES <= x || old <= first || old <= search_order::after(lists, first) {
        return alone(first);
    }
    let steps = number(lists[STEPS + x]);
    let last = search_order::position(lists[ENDS + x]);
    Span { first, steps, last }
}

// The span of a symbol.
fn span_of(lists: &[u32], old: usize, symbol: u8) -> Span
    requires { (span_cells ≤ length lists.now) × Measured old lists.now }
    ensures { Spans old lists.now (some (symbol_of symbol)) result }
{
    if symbol < TERMINALS {
        return alone(ABSENT);
    }
    list_span(lists, old, (symbol - TERMINALS) as usize)
}

// The span of the left part of the body of `rule`.
pub fn left_span(lists: &[u32], old: usize, rule: [u8; 4]) -> Span
    requires { (span_cells ≤ length lists.now) × Measured old lists.now }
    ensures { Spans old lists.now (left_part (entry_of rule).body) result }
{
    match rule[1] {
        0 => alone(ABSENT),
        _ => span_of(lists, old, rule[2]),
    }
}

// The span of its right part. (One match, as above: a function for both parts would be told which by a parameter.)
pub fn right_span(lists: &[u32], old: usize, rule: [u8; 4]) -> Span
    requires { (span_cells ≤ length lists.now) × Measured old lists.now }
    ensures { Spans old lists.now (right_part (entry_of rule).body) result }
{
    match rule[1] {
        0 | 1 => alone(ABSENT),
        _ => span_of(lists, old, rule[3]),
    }
}
