// The table of a word of at most 64 letters: which nonterminals derive each stretch of it, by rules whose heads are below 64. Rows are
// filled from the last one on, each from its shortest stretch on, so that the parts of a stretch are known before it.
#![tactic(auto)]

ghost use Rattle.std.specs.Prelude.{◌≡◌, map, ℕ, ◌+◌, ◌≤◌, ◌<◌, length, get_or, set};
ghost use Rattle.spec_language.specs.Grammar.{production_of};
ghost use Rattle.spec_file.specs.Limits.{terminals};
ghost use Rattle.spec_file.specs.Entries.{entry_of};
ghost use Rattle.spec_calls.specs.Recognizing.{run_limit, cell, stretch_cells, TableShows};
ghost use Rattle.member_laws.specs.Sets.{Heads};
ghost use Rattle.member_laws.specs.Spans.{span_cells, RightStarts, Exact};
ghost use Rattle.member_laws.specs.Filling.{Done, DoneFrom, RowKnown, FullStarts, Filled};
ghost use Rattle.member_table.specs.Sentence.{IsPrepared};

use member_sets::{SETS, Sets};

// The most steps of a recorded run.
pub const RUN_LIMIT: usize = 64;

// The cells of its table: one for each stretch.
pub const STRETCH_CELLS: usize = (RUN_LIMIT + 1) * (RUN_LIMIT + 2) / 2;

// A word for each step and nonterminal.
const SPAN_CELLS: usize = SETS * (RUN_LIMIT + 1);

// What the sets of all stretches are found from: the rules, the word, the nonterminals that derive the empty word, and for each nonterminal
// the closure of its units.
#[derive(Clone, Copy)]
struct Sentence<'a> {
    rules: &'a [[u8; 4]],
    word: &'a [u8],
    empties: u64,
    units: &'a Sets,
}

// ---- one stretch

// Returns the nonterminals that derive the stretch of the word from step `i` up to step `j`. Of no letter they are those of the empty word;
// else the closure of the heads that the letter's units have, or the rules whose two symbols spell the stretch.
fn derive(sentence: &Sentence, ends: &Sets, starts: &[u64], i: usize, j: usize) -> u64
    requires prepared { IsPrepared sentence.now }
    requires row { RowKnown (map entry_of sentence.now.rules.now) sentence.now.word.now i j ends.now }
    requires right { RightStarts (map entry_of sentence.now.rules.now) sentence.now.word.now starts.now }
    requires full { FullStarts (map entry_of sentence.now.rules.now) sentence.now.word.now (Done i j) starts.now }
    requires room { length starts.now ≡ span_cells }
    requires stretch { (i ≤ j) × (j ≤ length sentence.now.word.now) }
    ensures { Exact (map entry_of sentence.now.rules.now) sentence.now.word.now i j result }
{
    let Sentence {
        rules,
        word,
        empties,
        units,
        ..
    } = *sentence;
    if i == j {
        return empties;
    }
    let heads = if j == i + 1 {
        member_units::unit_heads(rules, word[i], empties)
    } else {
        member_spans::split_heads(rules, word, ends, starts, i, j)
    };
    member_units::union(units, heads)
}

// Stores `value` in the cell of the stretch from step `i` up to step `j`.
fn put(table: &mut [u64], i: usize, j: usize, value: u64)
    requires { (length table.old ≡ stretch_cells) × (i ≤ j) × (j ≤ run_limit) }
    ensures { table.new ≡ set table.old (cell i j) value }
{
    let at = i * (131 - i) / 2 + (j - i);
    table[at] = value;
}

// Finds the set of the stretch from step `i` up to step `j`, stores it in its cell, and sets its bits in `ends` and `starts`; step 64 is in
// no middle, so it is no end that is asked for.
fn fill_stretch(
    sentence: &Sentence,
    ends: &mut Sets,
    starts: &mut [u64],
    table: &mut [u64],
    i: usize,
    j: usize,
)
    requires prepared { IsPrepared sentence.now }
    requires row { RowKnown (map entry_of sentence.now.rules.now) sentence.now.word.now i j ends.old }
    requires filled { Filled (map entry_of sentence.now.rules.now) sentence.now.word.now (Done i j) starts.old table.old }
    requires stretch { (i ≤ j) × (j ≤ length sentence.now.word.now) }
    ensures row { RowKnown (map entry_of sentence.now.rules.now) sentence.now.word.now i (j + 1) ends.new }
    ensures filled { Filled (map entry_of sentence.now.rules.now) sentence.now.word.now (Done i (j + 1)) starts.new table.new }
{
    let set = derive(sentence, ends, starts, i, j);
    put(table, i, j, set);
    if i == j {
        return;
    }
    member_spans::mark_all(starts, SETS * j, set, i);
    if RUN_LIMIT <= j {
        return;
    }
    member_spans::mark_all(ends, 0, set, j);
}

// ---- the table

// Stores the cells of the stretches from step `i` on, where those that begin later are stored.
fn fill_row(sentence: &Sentence, starts: &mut [u64], table: &mut [u64], i: usize)
    requires prepared { IsPrepared sentence.now }
    requires filled { Filled (map entry_of sentence.now.rules.now) sentence.now.word.now (DoneFrom (i + 1)) starts.old table.old }
    requires step { i ≤ length sentence.now.word.now }
    ensures { Filled (map entry_of sentence.now.rules.now) sentence.now.word.now (DoneFrom i) starts.new table.new }
{
    let mut ends = [0; SETS];
    for j in i..=sentence.word.len() {
        fill_stretch(sentence, &mut ends, starts, table, i, j);
    }
}

// Stores the cells of all stretches, where none is stored.
fn fill_rows(sentence: &Sentence, starts: &mut [u64], table: &mut [u64])
    requires prepared { IsPrepared sentence.now }
    requires filled { Filled (map entry_of sentence.now.rules.now) sentence.now.word.now (DoneFrom (length sentence.now.word.now + 1)) starts.old table.old }
    ensures { Filled (map entry_of sentence.now.rules.now) sentence.now.word.now (DoneFrom 0) starts.new table.new }
{
    for i in (0..=sentence.word.len()).rev() {
        fill_row(sentence, starts, table, i);
    }
}

// Stores in each cell of `table` which nonterminals derive its stretch of `word`, and 0 in the cells past its end.
pub fn fill(rules: &[[u8; 4]], word: &[u8], table: &mut [u64])
    requires { Heads (map entry_of rules.now) × (length word.now ≤ run_limit) × ((k : ℕ) → k < length word.now → get_or word.now k 0 < terminals) × (length table.old ≡ stretch_cells) }
    ensures { TableShows (map production_of (map entry_of rules.now)) word.now table.new }
{
    let mut direct = [0; SETS];
    let mut units = [0; SETS];
    let mut starts = [0; SPAN_CELLS];
    let empties = member_sets::nullable(rules);
    member_units::fill_direct(rules, empties, &mut direct);
    member_units::fill_units(&direct, &mut units);
    table.fill(0);
    let sentence = Sentence {
        rules,
        word,
        empties,
        units: &units,
    };
    fill_rows(&sentence, &mut starts, table);
}
