// What judging and the inclusion check look up in a file, read once from its bytes, whatever they are: the relation of each
// terminal, the mask of final states, and the rules as rows of numbers.
// `i` is below the count of records in each clause: an index of its own in each function. The tables are lent, of fixed size.
#![tactic(auto)]

ghost use Rattle.std.specs.Prelude.{◌≡◌, cond, [], ◌≤◌, ◌<◌, eqb, length};
ghost use Rattle.relation.specs.Relation.{states};
ghost use Rattle.relation.specs.Digits.{number};
ghost use Rattle.spec_language.specs.WordRelation.{is_final};
ghost use Rattle.spec_file.specs.Limits.{letter_words, rule_limit};
ghost use Rattle.spec_file.specs.Records.{record_count, record_at, kind_at, rule_kind, transition_kind, final_kind};
ghost use Rattle.spec_file.specs.Views.{transition_of, final_of, transitions_of, automaton_of};
ghost use Rattle.file_tables.specs.Tables.{letter_table, with_transition, with_state, rule_bytes_in, rows_of, rows_in, with_row, written, RuleTable};

use relation::{Relation, STATES, StateSet};
use spec_file::{
    FINAL_KIND, FIRST_REMARK, LETTER_WORDS, Letters, RULE_KIND, RULE_LIMIT, TERMINALS,
    TRANSITION_KIND,
};

// Record i is of the kind.
fn of_kind(file: &[u8], i: usize, kind: u8) -> bool
    requires { i < record_count file.now }
    ensures { result ≡ eqb (kind_at file.now i) kind }
{
    file[i * 8] == kind
}

// ---- the relations of the terminals

// Stores in `table` what the relations of the terminals are without a transition: that of the empty word for each remark, and no pair for
// any other. So nothing but transitions is read from the file.
fn without_transitions(table: &mut Letters)
    ensures { table.new ≡ letter_table states [] }
{
    *table = [0; LETTER_WORDS];
    let stays = Relation::identity();
    // The remarks below `c` have every (a, a), and no other letter has a pair.
    for c in FIRST_REMARK..TERMINALS {
        stays.store(table, c as usize);
    }
}

// Stores the pair of record `i` in its letter's relation in `table`, where the record is a transition on a terminal that is no remark; else
// stores nothing: on a remark no transition is taken, also in a file that is refused for it.
fn read_transition(file: &[u8], i: usize, table: &mut Letters)
    requires { (i < record_count file.now) × (length table.old ≡ letter_words) }
    ensures { table.new ≡ cond (eqb (kind_at file.now i) transition_kind) (with_transition states table.old (transition_of (record_at file.now i))) table.old }
{
    if !of_kind(file, i, TRANSITION_KIND) {
        return;
    }
    let t = file_views::transition_at(file, i);
    let letter = t.letter;
    if FIRST_REMARK <= letter {
        return;
    }
    let at = letter as usize;
    let old = Relation::read(table, at);
    let new = old.insert(t.source, t.target);
    new.store(table, at);
}

// Stores the relation of each terminal in `table`: relation `c` has the pairs of the transitions of `file` on terminal `c`, and that of a
// remark every (a, a).
pub fn letter_relations(file: &[u8], table: &mut Letters)
    ensures { table.new ≡ letter_table states (transitions_of file.now) }
{
    without_transitions(table);
    // The transitions among the first `i` records are stored.
    for i in 0..file.len() / 8 {
        read_transition(file, i, table);
    }
}

// ---- the final states

// Returns `mask` with `state` in it; `mask` itself where `state` is none.
fn with_state(mask: StateSet, state: u8) -> StateSet
    ensures { result ≡ with_state states mask state }
{
    if STATES <= state {
        return mask;
    }
    let place = state as u32;
    let bit: StateSet = 1 << place;
    mask | bit
}

// Returns `mask` with the state of record `i`, where the record is a final state; else `mask`.
fn read_final(file: &[u8], i: usize, mask: StateSet) -> StateSet
    requires { i < record_count file.now }
    ensures { result ≡ cond (eqb (kind_at file.now i) final_kind) (with_state states mask (final_of (record_at file.now i))) mask }
{
    if !of_kind(file, i, FINAL_KIND) {
        return mask;
    }
    with_state(mask, file_views::final_at(file, i))
}

// Returns the set of the final states of `file`.
pub fn final_states(file: &[u8]) -> StateSet
    ensures { result ≡ number states (is_final (automaton_of file.now)) }
{
    let mut mask: StateSet = 0;
    // `mask` has the final states among the first `i` records.
    for i in 0..file.len() / 8 {
        mask = read_final(file, i, mask);
    }
    mask
}

// ---- the rules

// Head, body length, first and second symbol of record i, read as a rule.
fn row_at(file: &[u8], i: usize) -> [u8; 4]
    requires { i < record_count file.now }
    ensures { result ≡ rule_bytes_in (record_at file.now i) }
{
    let r = file_views::rule_at(file, i);
    [r.head, r.size, r.first, r.second]
}

// Takes record i in after n rows, where it is a rule and fewer than the limit are written; gives the count of rows then.
fn read_rule(file: &[u8], i: usize, rows: &mut [[u8; 4]], n: usize) -> usize
    requires { (i < record_count file.now) × (rule_limit ≤ length rows.old) }
    ensures { rows_in rows.new result ≡ cond (eqb (kind_at file.now i) rule_kind) (with_row (rows_in rows.old n) (rule_bytes_in (record_at file.now i))) (rows_in rows.old n) }
{
    if !of_kind(file, i, RULE_KIND) {
        return n;
    }
    if RULE_LIMIT <= n {
        return n;
    }
    rows[n] = row_at(file, i);
    n + 1
}

// The first rules up to the limit, in file order; gives their count.
fn read_rules(file: &[u8], rows: &mut [[u8; 4]]) -> usize
    requires { rule_limit ≤ length rows.old }
    ensures { rows_in rows.new result ≡ written rows.old (rows_of file.now) }
{
    let mut n: usize = 0;
    // The rules among the first `i` records are stored, up to the limit; they are `n` rows.
    for i in 0..file.len() / 8 {
        n = read_rule(file, i, rows, n);
    }
    n
}

// Stores the first rules of `file`, up to the limit, in `table`, each as head, body length, first and second symbol; returns their count.
pub fn rule_table(file: &[u8], table: &mut [[u8; 4]; RULE_LIMIT]) -> usize
    ensures { RuleTable file.now table.old table.new result }
{
    read_rules(file, table)
}
