// Writing the word behind a journal row (document 01, "Writing a run"): the row writer and the symbol writer call each other, and the row
// number falls. Nothing is tested on the way: the caller has tested that the rows fit and that the buffer has room.
#![tactic(auto)]

ghost use Rattle.std.specs.Prelude.{◌≡◌, ◌≤◌, ◌<◌, map, length};
ghost use Rattle.spec_file.specs.Views.{symbol_of};
ghost use Rattle.spec_file.specs.Entries.{entry_of};
ghost use Rattle.spec_calls.specs.Rows.{row_of};
ghost use Rattle.call_write_word.specs.Parts.{nothing, older_row, part_of, body_parts, parts_of, part_word, Ready, Wrote};

use spec_calls::Row;
use spec_file::TERMINALS;

// ---- what a row hands over to. A rule is four bytes: its head, its body's length, its two symbols.

// What one symbol of a row's body hands over to: the older row that a nonterminal points to, a terminal, or nothing where there is no symbol.
#[derive(Clone, Copy, PartialEq, Eq)]
pub enum Part {
    Nothing,
    Terminal(u8),
    Row(usize),
}

// Returns the part that is no symbol. Nothing here calls it; it stays, as a public name.
pub fn no_part() -> Part
    ensures { result ≡ nothing }
{
    Part::Nothing
}

// Returns the part of `symbol`, whose pointer in the row is `pointer`.
fn symbol_part(symbol: u8, pointer: u64) -> Part
    ensures { result ≡ part_of (symbol_of symbol) pointer }
{
    if symbol < TERMINALS {
        Part::Terminal(symbol)
    } else {
        Part::Row(pointer as usize)
    }
}

// Returns the parts of the body of `rule`, from left to right, whose pointers in the row are `left` and `right`.
fn body_parts(rule: [u8; 4], left: u64, right: u64) -> (Part, Part)
    ensures { result ≡ body_parts (entry_of rule).body left right }
{
    let [_, size, first, second] = rule;
    match size {
        0 => (Part::Nothing, Part::Nothing),
        1 => (symbol_part(first, left), Part::Nothing),
        _ => (symbol_part(first, left), symbol_part(second, right)),
    }
}

// Returns what `row` hands over to. A row of length 0 hands over to nothing, however many rows its pointers lead to: so the time to write a
// word is bounded by its length.
fn row_parts(rules: &[[u8; 4]], row: Row) -> (Part, Part)
    requires { row.rule < length rules.now }
    ensures { result ≡ parts_of (map entry_of rules.now) (row_of row) }
{
    if row.len == 0 {
        return (Part::Nothing, Part::Nothing);
    }
    body_parts(rules[row.rule as usize], row.left, row.right)
}

// ---- writing

// Writes the word behind row `row` to `buffer`: the first symbol's, and then the second's into what remains of the buffer. Returns its
// length.
#[cycle(write_row_write_symbol)]
fn write_row(journal: &[Row], rules: &[[u8; 4]], row: usize, buffer: &mut [u8]) -> usize
    requires { Ready (map entry_of rules.now) (map row_of journal.now) (older_row row) (length buffer.old) }
    ensures { Wrote (part_word (map entry_of rules.now) (map row_of journal.now) (older_row row)) buffer.old buffer.new result }
{
    let (first, second) = row_parts(rules, journal[row]);
    let n = write_symbol(journal, rules, first, buffer);
    let m = write_symbol(journal, rules, second, &mut buffer[n..]);
    n + m
}

// Writes the symbol `x` to `buffer`: a terminal as itself, a nonterminal as the word behind its older row. Returns how many bytes were
// written.
#[cycle(write_row_write_symbol)]
pub fn write_symbol(journal: &[Row], rules: &[[u8; 4]], x: Part, buffer: &mut [u8]) -> usize
    requires { Ready (map entry_of rules.now) (map row_of journal.now) x (length buffer.old) }
    ensures { Wrote (part_word (map entry_of rules.now) (map row_of journal.now) x) buffer.old buffer.new result }
{
    match x {
        Part::Nothing => 0,
        Part::Terminal(symbol) => {
            buffer[0] = symbol;
            1
        }
        Part::Row(row) => write_row(journal, rules, row, buffer),
    }
}
