// One row of the journal, one way to take a symbol, and one candidate of the working order, each by value. All that is done with an effect in
// a search stands here: comparing, retiring, opening, breaking. A rule is four bytes: its head, its body's size and its
// symbols.
#![tactic(auto)]

ghost use Rattle.std.specs.Prelude.{◌≡◌, [], ◌+◌, ◌*◌, ◌≤◌, ◌<◌, length};
ghost use Rattle.relation.specs.Relation.{contained};
ghost use Rattle.relation.specs.Representation.{relation_words, value};
ghost use Rattle.relation.specs.Stored.{with_relation};
ghost use Rattle.spec_file.specs.Views.{symbol_of};
ghost use Rattle.spec_order.specs.Candidates.{sole};
ghost use Rattle.spec_order.specs.Order.{larger, born};
ghost use Rattle.spec_file.specs.Entries.{entry_of};
ghost use Rattle.spec_calls.specs.Rows.{row_of};
ghost use Rattle.search_rows.specs.Base.{empty_body, joined, breaking};
ghost use Rattle.search_rows.specs.Base as order;
ghost use Rattle.search_rows.specs.Meanings.{composing_of, candidate_of, taken_as};
ghost use Rattle.search_state.specs.Comparing.{is_below, retired_in, replaced_by};
ghost use Rattle.search_state.specs.Fates.{fate_in};
ghost use Rattle.search_state.specs.Forming.{symbol_choice, formed_by};
ghost use Rattle.search_rows.specs.Forming.{among_first, with_effect, formed_with};

use relation::{Effect, Letter, StateSet};
use search_state::{Comparison, Fate, Place, State};
use spec_calls::{ABSENT, Row};
use spec_file::TERMINALS;

// What would become a row.
#[derive(Clone, Copy)]
pub struct Candidate {
    pub head: u8,
    pub rule: u64,
    pub relation: Effect,
    pub left: u64,
    pub right: u64,
    pub len: u64,
}

// A nonterminal and a rule of it.
#[derive(Clone, Copy)]
struct Origin {
    head: u8,
    rule: u64,
}

// One way to take a symbol, but for its effect.
#[derive(Clone, Copy)]
struct Choice {
    pointer: u64,
    len: u64,
}

// ---- a row and a candidate

// Compares `row` with `candidate`: `row` covers it where it is live, of the same nonterminal, and its relation is contained in the
// candidate's; it is larger where the candidate's is contained in its own, and not the other way round.
pub fn compare(row: Row, candidate: Candidate) -> Comparison
    ensures { (result.covers ≡ is_below contained (candidate_of candidate) (row_of row)) × (result.larger ≡ larger contained (candidate_of candidate) (row_of row)) }
{
    let held = row.relation;
    let formed = candidate.relation;
    let alike = (row.head == candidate.head as u64) & (row.retired == 0);
    let within = held.contained(formed);
    let over = formed.contained(held);
    Comparison {
        covers: alike & within,
        larger: alike & (over & !within),
    }
}

// The row, retired in this pass.
fn retired(row: Row, pass: u64) -> Row
    ensures { row_of result ≡ retired_in pass (row_of row) }
{
    let relation = row.relation;
    Row {
        head: row.head,
        rule: row.rule,
        relation,
        left: row.left,
        right: row.right,
        len: row.len,
        birth: row.birth,
        retired: pass,
    }
}

// The row that the candidate becomes.
fn new_row(pass: u64, candidate: Candidate) -> Row
    ensures { row_of result ≡ born pass (candidate_of candidate) }
{
    let relation = candidate.relation;
    Row {
        head: candidate.head as u64,
        rule: candidate.rule,
        relation,
        left: candidate.left,
        right: candidate.right,
        len: candidate.len,
        birth: pass,
        retired: 0,
    }
}

// Returns what is to be stored in the place of `held`: the row that `candidate` becomes, if `new`, which is past the used rows; else `held`,
// retired in this pass if it is larger than `candidate`, which `compared` says.
pub fn replacement(
    state: State,
    candidate: Candidate,
    new: bool,
    compared: Comparison,
    held: Row,
) -> Row
    ensures { row_of result ≡ replaced_by state.terms.pass (candidate_of candidate) new compared.larger (row_of held) }
{
    let terms = state.terms;
    if new {
        return new_row(terms.pass, candidate);
    }
    if compared.larger {
        return retired(held, terms.pass);
    }
    held
}

// Returns whether `candidate` is of a nonterminal of the set `starts` and its relation rejects, where `finals` are the final states.
fn breaks(starts: u64, finals: StateSet, candidate: Candidate) -> bool
    ensures { result ≡ breaking starts finals (candidate_of candidate) }
{
    let formed = candidate.relation;
    spec_calls::is_member(starts, candidate.head) & formed.rejects(finals)
}

// Decides what becomes of `candidate`, where a row covers it or not.
pub fn fate(state: State, candidate: Candidate, covered: bool) -> Fate
    ensures { result ≡ fate_in state candidate.head covered (breaking state.terms.starts state.terms.finals (candidate_of candidate)) }
{
    let terms = state.terms;
    search_state::fate_of(
        state,
        candidate.head,
        covered,
        breaks(terms.starts, terms.finals, candidate),
    )
}

// Stores the effect of `candidate` at place `i` of `words`.
pub fn put_candidate(words: &mut [Letter], i: usize, candidate: Candidate)
    requires { (i + 1) * relation_words ≤ length words.old }
    ensures { words.new ≡ with_relation words.old i (candidate_of candidate).effect }
{
    let formed = candidate.relation;
    formed.store(words, i);
}

// ---- forming a candidate

// Returns how `symbol` is taken: a terminal by itself, a nonterminal by row `i`, which is `row`.
fn choice_of(symbol: u8, i: usize, row: Row) -> Choice
    ensures { taken_as (symbol_choice (composing_of []) (symbol_of symbol) i (row_of row)) result }
{
    if symbol < TERMINALS {
        return Choice {
            pointer: ABSENT,
            len: 1,
        };
    }
    Choice {
        pointer: i as u64,
        len: row.len,
    }
}

fn empty_body(origin: Origin, effect: Effect) -> Candidate
    ensures { candidate_of result ≡ with_effect (value effect) (empty_body origin.head origin.rule) }
{
    Candidate {
        head: origin.head,
        rule: origin.rule,
        relation: effect,
        left: ABSENT,
        right: ABSENT,
        len: 0,
    }
}

fn one_symbol(origin: Origin, effect: Effect, first: Choice) -> Candidate
    ensures { (c : order.Choice) → taken_as c first → candidate_of result ≡ with_effect (value effect) (sole origin.head origin.rule c) }
{
    Candidate {
        head: origin.head,
        rule: origin.rule,
        relation: effect,
        left: first.pointer,
        right: ABSENT,
        len: first.len,
    }
}

fn two_symbols(origin: Origin, effect: Effect, first: Choice, second: Choice) -> Candidate
    ensures { (c d : order.Choice) → taken_as c first → taken_as d second → candidate_of result ≡ with_effect (value effect) (joined origin.head origin.rule c d) }
{
    Candidate {
        head: origin.head,
        rule: origin.rule,
        relation: effect,
        left: first.pointer,
        right: second.pointer,
        len: spec_calls::capped_sum(first.len, second.len),
    }
}

// Returns the candidate of `place` with this `effect`, whose rule is `rule` and whose rows are `left` and `right`.
fn form_from(rule: [u8; 4], effect: Effect, place: Place, left: Row, right: Row) -> Candidate
    ensures { candidate_of result ≡ with_effect (value effect) (formed_by (composing_of []) (entry_of rule) place (row_of left) (row_of right)) }
{
    let origin = Origin {
        head: rule[0],
        rule: place.rule as u64,
    };
    let size = rule[1];
    if size == 0 {
        return empty_body(origin, effect);
    }
    let first = choice_of(rule[2], place.left, left);
    if size == 1 {
        return one_symbol(origin, effect, first);
    }
    let second = choice_of(rule[3], place.right, right);
    two_symbols(origin, effect, first, second)
}

// Returns `row`, which was read for `position`, or a row of zeros where `position` is none of the `used` rows.
fn among(row: Row, position: usize, used: usize) -> Row
    ensures { result ≡ among_first row position used }
{
    if position < used {
        return row;
    }
    Row::blank()
}

// Forms the candidate of the place at which `state` stands, whose effect is `effect`, from the two rows that were read for it.
pub fn form(rules: &[[u8; 4]], state: State, effect: Effect, left: Row, right: Row) -> Candidate
    requires { state.place.rule < length rules.now }
    ensures { candidate_of result ≡ formed_with (value effect) rules.now state left right }
{
    let counts = state.counts;
    let place = state.place;
    let r = place.rule;
    let rule = rules[r];
    let first = among(left, place.left, counts.used);
    let second = among(right, place.right, counts.used);
    form_from(rule, effect, place, first, second)
}
