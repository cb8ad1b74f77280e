// The passes of the search, in steps on values: the place after a candidate, the pass after this one, and the end.
// The table, the words and the rules are parameters whose length each clause asks, and no struct with an invariant: hosts lend them, and what
// holds a loan would be lent on at each step.
#![tactic(auto)]

ghost use Rattle.std.specs.Prelude.{◌<◌, ◌≡◌, [], length};
ghost use Rattle.relation.specs.Digits.{bit};
ghost use Rattle.spec_file.specs.Limits.{nonterminals};
ghost use Rattle.spec_file.specs.Views.{cons_if};
ghost use Rattle.search_state.specs.Layout.{table_cells};
ghost use Rattle.search_laws.specs.States.{each_linked, all_linked};
ghost use Rattle.search_laws.specs.Steps.{MayPass, MayOpen, MayGoOn, MayAdvance};
ghost use Rattle.search_laws.specs.OnRelations.{OpensPass, Closes, GoesFrom, GoesOn, Advances};

use search_cover::CoverAnswer;
use search_laws::{Outcome, Reached};
use search_state::{Counts, END, END_CELL, FIRSTS, Fate, State, Terms};
use spec_file::NONTERMINALS;

// A pass over n rules begins: the lists first, which are then measured, and its first place that needs work. The state is not here: a call
// that is handed one, or gives one, made the compiler copy its padding for each candidate.
pub fn open_pass(
    rules: &[[u8; 4]],
    table: &mut [u32],
    n: usize,
    terms: Terms,
    counts: Counts,
) -> Reached
    requires { MayOpen rules.now n terms counts table.old }
    ensures { OpensPass rules.now table.old n terms counts table.new result }
{
    search_links::gather(table, counts.used);
    search_skip::measure_in(table, terms.old);
    let place = search_skip::first_in(rules, table, n);
    search_skip::pass_over(rules, table, n, terms, Reached { counts, place })
}

// Returns whether the nonterminal `p`, if it is in the set `starts`, has a live row: whether its cell of `table` leads to one.
fn linked(table: &[u32], starts: u64, p: u8) -> bool
    requires { (length table.now ≡ table_cells) × (p < nonterminals) }
    ensures { result ≡ each_linked table.now (cons_if (bit starts p) p []) }
{
    if spec_calls::is_member(starts, p) {
        return table[FIRSTS + p as usize] != END_CELL;
    }
    true
}

// Returns whether each nonterminal of the set `starts` has a live row. It ends where no member is left: of procedure 0 alone after one turn.
pub fn all_linked(table: &[u32], starts: u64) -> bool
    requires { length table.now ≡ table_cells }
    ensures { result ≡ all_linked starts table.now }
{
    let mut all = true;
    // `all` says whether each member below `p` has a live row.
    for p in 0..NONTERMINALS {
        let place = p as u32;
        if starts >> place == 0 {
            return all;
        }
        all = all & linked(table, starts, p);
    }
    all
}

// Ends the pass of `state`, which has come to `counts`: it added no row and was the last, or the next begins, and has added none.
fn close_pass(rules: &[[u8; 4]], table: &mut [u32], state: State, counts: Counts) -> State
    requires { MayGoOn rules.now state counts table.old }
    ensures { Closes rules.now table.old state counts table.new result }
{
    let terms = state.terms;
    if counts.added == 0 {
        return search_step::finish(state, terms, counts, all_linked(table, terms.starts));
    }
    let next = terms.next_pass(counts.used);
    let fresh = Counts {
        used: counts.used,
        joins: counts.joins,
        added: 0,
    };
    let at = open_pass(rules, table, state.rules, next, fresh);
    search_step::stand_or_finish(state, next, at, all_linked(table, next.starts))
}

// From a place on to the first that needs work, or to the end of the pass.
fn go_from(rules: &[[u8; 4]], table: &mut [u32], state: State, from: Reached) -> State
    requires { MayGoOn rules.now state from.counts table.old × MayPass rules.now state.rules state.terms table.old from.place }
    ensures { GoesFrom rules.now table.old state from table.new result }
{
    let n = state.rules;
    let terms = state.terms;
    let at = search_skip::pass_over(rules, table, n, terms, from);
    let counts = at.counts;
    let place = at.place;
    if place.rule < n {
        return search_step::stand_at(state, terms, counts, place);
    }
    close_pass(rules, table, state, counts)
}

// Moves the search to the next place whose candidate must be formed, or ends the pass. The current candidate was formed, so its rows are not
// both old. Later rights are younger, so their candidates must be formed too: no test is necessary.
fn go_on(rules: &[[u8; 4]], table: &mut [u32], state: State, counts: Counts) -> State
    requires { MayGoOn rules.now state counts table.old × (state.place.rule < state.rules) × MayPass rules.now state.rules state.terms table.old state.place }
    ensures { GoesOn rules.now table.old state counts table.new result }
{
    let terms = state.terms;
    let here = state.place;
    let right = search_skip::after_in(table, here.right);
    if right != END {
        return search_step::stand_at(state, terms, counts, here.with_right(right));
    }
    let place = search_skip::next_row_in(rules, table, state.rules, here);
    go_from(rules, table, state, Reached { counts, place })
}

// After a candidate: the next place, the next pass, or the end.
pub fn advance(
    rules: &[[u8; 4]],
    table: &mut [u32],
    state: State,
    fate: Fate,
    found: CoverAnswer,
) -> State
    requires { MayAdvance rules.now state fate found table.old }
    ensures { Advances rules.now table.old state fate found table.new result }
{
    search_decide::remember_hint(table, state, fate, found);
    let outcome = search_decide::decide(state, fate);
    match outcome {
        Outcome::Going(counts) => go_on(rules, table, state, counts),
        Outcome::Stopped(stop) => search_step::stop(state, stop),
    }
}
