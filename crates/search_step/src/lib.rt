// Where the search stands, in steps on values: at a place, at the end with a verdict, and what it then answers.
// State, terms and counts are parameters of their own: where the terms are the next pass's, they are no longer the state's.
#![tactic(auto)]

ghost use Rattle.std.specs.Prelude.{◌≡◌, false, ℕ};
ghost use Rattle.search_state.specs.Phases.{is_going};
ghost use Rattle.search_laws.specs.Meanings.{totals_of, code_of, answer_numbered, answer_in};
ghost use Rattle.search_laws.specs.declared.Answer.TheVariants as answer;
ghost use Rattle.search_laws.specs.declared.Totals.{Totals};
ghost use Rattle.search_laws.specs.States.{ended, standing, finished, opening, stopped_in};

use search_laws::{Answer, EMPTY, FULL, HOLDS, Reached, SPENT, Stop, Totals};
use search_state::{Counts, Phase, Place, State, Terms, Unbroken};

// The number of a verdict that shows no row. Read back, it gives the verdict, and it is not that of "broken".
pub fn code_of(unbroken: Unbroken) -> u8
    ensures number { result ≡ code_of unbroken }
    ensures back { (i : ℕ) (n : Totals) → answer_numbered result i n ≡ answer.Ended unbroken n }
{
    match unbroken {
        Unbroken::Holds => HOLDS,
        Unbroken::Full => FULL,
        Unbroken::Spent => SPENT,
        Unbroken::Empty => EMPTY,
    }
}

// At the end, with the verdict that `phase` has: `Spent` where it has none, since no search goes on from here.
pub fn end_with(state: State, terms: Terms, counts: Counts, phase: Phase) -> State
    ensures end { result ≡ ended state terms counts phase }
    ensures over { is_going result.phase ≡ false }
{
    let place = state.place;
    let over = match phase {
        Phase::Going | Phase::Waiting => Phase::Ended(Unbroken::Spent),
        Phase::Ended(_) | Phase::Broken(_) => phase,
    };
    State {
        phase: over,
        left_row: 0,
        right_row: 0,
        terms,
        counts,
        place,
        rows: state.rows,
        rules: state.rules,
    }
}

// Returns the state at `place`, or the end where the budget is spent. The terms are made anew from their fields: copied whole, they took the padding behind the final
// states with them, eight instructions for each candidate.
pub fn stand_at(state: State, terms: Terms, counts: Counts, place: Place) -> State
    ensures { result ≡ standing state terms counts place }
{
    if terms.spent(counts.joins) {
        return end_with(state, terms, counts, Phase::Ended(Unbroken::Spent));
    }
    State {
        phase: Phase::Going,
        left_row: search_state::position_row(place.left, counts.used),
        right_row: search_state::position_row(place.right, counts.used),
        terms: Terms {
            budget: terms.budget,
            starts: terms.starts,
            finals: terms.finals,
            pass: terms.pass,
            present: terms.present,
            old: terms.old,
        },
        counts,
        place,
        rows: state.rows,
        rules: state.rules,
    }
}

// After a pass that has added no row: the only place where the end of a check is decided. It holds where `nonempty`, that is, where each
// nonterminal whose words count has a live row, and so a word; else it is empty.
pub fn finish(state: State, terms: Terms, counts: Counts, nonempty: bool) -> State
    ensures { result ≡ finished state terms counts nonempty }
{
    if nonempty {
        return end_with(state, terms, counts, Phase::Ended(Unbroken::Holds));
    }
    end_with(state, terms, counts, Phase::Ended(Unbroken::Empty))
}

// At the first place of a pass that needs work. Past the last rule there is none: the pass adds no row, and `nonempty` decides the end.
pub fn stand_or_finish(state: State, terms: Terms, at: Reached, nonempty: bool) -> State
    ensures { result ≡ opening state terms at nonempty }
{
    let counts = at.counts;
    let place = at.place;
    if place.rule < state.rules {
        return stand_at(state, terms, counts, place);
    }
    finish(state, terms, counts, nonempty)
}

// The search has stopped at a candidate.
pub fn stop(state: State, stop: Stop) -> State
    ensures { result ≡ stopped_in state stop }
{
    let terms = state.terms;
    match stop {
        Stop::Ended(unbroken, counts) => end_with(state, terms, counts, Phase::Ended(unbroken)),
        Stop::Broken(row, counts) => end_with(state, terms, counts, Phase::Broken(row)),
    }
}

// ---- the answer

fn sum_up(state: State) -> Totals
    ensures { result ≡ totals_of state.counts state.terms.pass }
{
    let counts = state.counts;
    let terms = state.terms;
    Totals {
        joins: counts.joins,
        used: counts.used,
        pass: terms.pass,
    }
}

// The answer of a search that has ended; no other is asked.
pub fn answer_of(state: State) -> Answer
    ensures { result ≡ answer_in state }
{
    let totals = sum_up(state);
    match state.phase {
        Phase::Ended(unbroken) => Answer::Ended(unbroken, totals),
        Phase::Broken(row) => Answer::Broken(row, totals),
        Phase::Going | Phase::Waiting => Answer::Ended(Unbroken::Spent, totals),
    }
}
