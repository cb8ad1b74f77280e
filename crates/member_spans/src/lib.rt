// What is known of the stretches of a word, as bits of words, and the rules of two symbols that spell a stretch in two parts. Bit k of entry
// p of `ends` is set where nonterminal p derives the stretch from the row's step up to step k; bit k of cell SETS j + p of `starts` where p
// derives the stretch from step k up to step j. So all splits of a stretch between two symbols are one `and`.
// The word and the two tables are parameters with their bounds: the tables are lent, and of other sizes.
#![tactic(auto)]

ghost use Rattle.std.specs.Prelude.{◌≡◌, map, ◌+◌, ◌≤◌, ◌<◌, length, get_or, set as put};
ghost use Rattle.spec_file.specs.Limits.{nonterminals};
ghost use Rattle.spec_file.specs.Views.{symbol_of};
ghost use Rattle.spec_file.specs.Entries.{entry_of};
ghost use Rattle.spec_calls.specs.Recognizing.{run_limit};
ghost use Rattle.member_laws.specs.Sets.{with, Heads};
ghost use Rattle.member_laws.specs.Spans.{span_cells, Marks, ends_of, starts_of, splits, SplitHeads};

use member_sets::{SETS, Sets};
use spec_file::{NONTERMINALS, SYMBOL_BYTES, TERMINALS};

// ---- what is known

// Sets bit `place` of the cell `at`.
fn mark(cells: &mut [u64], at: usize, place: usize)
    requires { (at < length cells.old) × (place < 64) }
    ensures { cells.new ≡ put cells.old at (with (get_or cells.old at 0) place) }
{
    let bit = member_sets::digit(place);
    cells[at] |= bit;
}

// Sets bit `place` of the cells of the nonterminals of `set`; the cell of nonterminal 0 is `base`.
pub fn mark_all(cells: &mut [u64], base: usize, set: u64, place: usize)
    requires { (base + nonterminals ≤ length cells.old) × (place < 64) }
    ensures { Marks base set place cells.old cells.new }
{
    for p in 0..NONTERMINALS {
        if member_sets::among(TERMINALS + p, set) {
            mark(cells, base + p as usize, place);
        }
    }
}

// ---- rules of two symbols

// Returns the ends of the stretches from step `i` on that `symbol` spells: a letter of the word ends at the next step.
// (`starts_of` asks the letter before, another table and another cell: one function for both would have three parameters more.)
fn ends_of(symbol: u8, word: &[u8], ends: &Sets, i: usize) -> u64
    requires { (i < length word.now) × (i + 1 < 64) }
    ensures { result ≡ ends_of word.now ends.now i (symbol_of symbol) }
{
    if symbol < TERMINALS {
        if word[i] == symbol {
            return member_sets::digit(i + 1);
        }
        return 0;
    }
    if SYMBOL_BYTES <= symbol {
        return 0;
    }
    let at = (symbol - TERMINALS) as usize;
    ends[at]
}

// Returns the starts of the stretches up to step `j` that `symbol` spells: a letter of the word starts at the step before.
fn starts_of(symbol: u8, word: &[u8], starts: &[u64], j: usize) -> u64
    requires { (0 < j) × (j ≤ length word.now) × (j ≤ run_limit) × (length starts.now ≡ span_cells) }
    ensures { result ≡ starts_of word.now starts.now j (symbol_of symbol) }
{
    if symbol < TERMINALS {
        if word[j - 1] == symbol {
            return member_sets::digit(j - 1);
        }
        return 0;
    }
    if SYMBOL_BYTES <= symbol {
        return 0;
    }
    let at = SETS * j + (symbol - TERMINALS) as usize;
    starts[at]
}

// Returns whether `rule` has two symbols that spell the stretch from step `i` up to step `j`, each a part with a letter.
fn rule_splits(rule: [u8; 4], word: &[u8], ends: &Sets, starts: &[u64], i: usize, j: usize) -> bool
    requires { (i + 1 < j) × (j ≤ length word.now) × (j ≤ run_limit) × (length starts.now ≡ span_cells) }
    ensures { result ≡ splits word.now ends.now starts.now i j rule }
{
    if rule[1] < 2 {
        return false;
    }
    let left = ends_of(rule[2], word, ends, i);
    let right = starts_of(rule[3], word, starts, j);
    left & right != 0
}

// Returns the heads of those rules.
pub fn split_heads(
    rules: &[[u8; 4]],
    word: &[u8],
    ends: &Sets,
    starts: &[u64],
    i: usize,
    j: usize,
) -> u64
    requires { Heads (map entry_of rules.now) × (i + 1 < j) × (j ≤ length word.now) × (j ≤ run_limit) × (length starts.now ≡ span_cells) }
    ensures { SplitHeads rules.now word.now ends.now starts.now i j result }
{
    member_sets::with_heads(
        rules,
        0,
        |rule| rule_splits(*rule, word, ends, starts, i, j),
    )
}
