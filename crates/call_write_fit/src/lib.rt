// Whether the rows of a journal fit the rules (document 01, "Numbers a call may refuse with", 9). One loop holds the journal; each test takes
// rows by value. A rule is four bytes: its head, its body's length, its two symbols.
// A row, its number and the two rows that it names go together through three functions in a row, and nowhere else.
#![tactic(auto)]

ghost use Rattle.std.specs.Prelude.{◌&&◌, ◌≡◌, map, ◌≤◌, length};
ghost use Rattle.spec_file.specs.Views.{symbol_of};
ghost use Rattle.spec_order.specs.Fitting.{all_rows_fit};
ghost use Rattle.spec_file.specs.Entries.{entry_of};
ghost use Rattle.spec_calls.specs.Rows.{row_of};
ghost use Rattle.call_write_fit.specs.Forms.{no_forms};
ghost use Rattle.call_write_fit.specs.ByValue.{lower_of, pointer_by, length_by, body_by, row_by, last_len};

use spec_calls::{ABSENT, Row};
use spec_file::TERMINALS;

// Returns the row that `pointer`, a pointer of row `i`, names if that is a lower row, else `i`: always a row that can be read.
fn lower(pointer: u64, i: usize) -> usize
    ensures { result ≡ lower_of pointer i }
{
    i.min(pointer as usize)
}

// Tests the `pointer` of `symbol` in row `i`: at a terminal it is ABSENT, at a nonterminal a lower row of that nonterminal. `named` is the row
// that `lower` gives for it.
fn pointer_fits(i: usize, symbol: u8, pointer: u64, named: Row) -> bool
    ensures { result ≡ pointer_by i (symbol_of symbol) pointer (row_of named) }
{
    if symbol < TERMINALS {
        return pointer == ABSENT;
    }
    let p = pointer as usize;
    if p < i {
        return named.head == (symbol - TERMINALS) as u64;
    }
    false
}

// Returns the length of `symbol`: 1 for a terminal, and for a nonterminal the length in `named`, the row that it points to.
fn symbol_length(symbol: u8, named: Row) -> u64
    ensures { result ≡ length_by (symbol_of symbol) (row_of named) }
{
    if symbol < TERMINALS {
        return 1;
    }
    named.len
}

// Tests the pointers and the length of `row`, which is row `i`, against the body of `rule`. `left` and `right` are the rows that its pointers
// name, if lower.
fn body_fits(i: usize, rule: [u8; 4], row: Row, left: Row, right: Row) -> bool
    ensures { result ≡ body_by i (entry_of rule).body (row_of row) (row_of left) (row_of right) }
{
    let [_, size, a, b] = rule;
    match size {
        0 => ((row.left == ABSENT) & (row.right == ABSENT)) & (row.len == 0),
        1 => {
            let first = pointer_fits(i, a, row.left, left);
            let n = symbol_length(a, left);
            (first & (row.right == ABSENT)) & (row.len == spec_calls::capped_sum(n, 0))
        }
        _ => {
            let first = pointer_fits(i, a, row.left, left);
            let second = pointer_fits(i, b, row.right, right);
            let n = symbol_length(a, left);
            let m = symbol_length(b, right);
            (first & second) & (row.len == spec_calls::capped_sum(n, m))
        }
    }
}

// Tests `row`, which is row `i`: its rule is there and has its head, and its body fits. `left` and `right` are the rows that its pointers
// name, if lower.
fn row_fits(rules: &[[u8; 4]], i: usize, row: Row, left: Row, right: Row) -> bool
    ensures { result ≡ row_by (map entry_of rules.now) i (row_of row) (row_of left) (row_of right) }
{
    match rules.get(row.rule as usize) {
        Some(rule) => (u64::from(rule[0]) == row.head) & body_fits(i, *rule, row, left, right),
        None => false,
    }
}

// The test so far: `fits` says whether all rows tested fit, and `len` is the length in the last of them. No `Option`: `rows_fit` promises the
// length also where a row does not fit.
#[derive(Clone, Copy)]
pub struct Fit {
    pub fits: bool,
    pub len: u64,
}

// Adds row `i` to the test: `fits` stays true only if row `i` fits as well, and `len` becomes the length in row `i`.
fn fit_after(fit: Fit, rules: &[[u8; 4]], i: usize, row: Row, left: Row, right: Row) -> Fit
    ensures { (result.fits ≡ (fit.fits && row_by (map entry_of rules.now) i (row_of row) (row_of left) (row_of right))) × (result.len ≡ row.len) }
{
    Fit {
        fits: fit.fits & row_fits(rules, i, row, left, right),
        len: row.len,
    }
}

// ---- the journal

// Tests whether the first `rows` rows of `journal` fit `rules`, and returns the length in the last of them, which number 10 is decided by.
pub fn rows_fit(journal: &[Row], rules: &[[u8; 4]], rows: usize) -> Fit
    requires { rows ≤ length journal.now }
    ensures { (result.fits ≡ all_rows_fit no_forms (map row_of journal.now) (map entry_of rules.now) rows)
        × (result.len ≡ last_len (map row_of journal.now) rows) }
{
    let mut fit = Fit { fits: true, len: 0 };
    for (i, row) in journal[..rows].iter().enumerate() {
        let left = journal[lower(row.left, i)];
        let right = journal[lower(row.right, i)];
        fit = fit_after(fit, rules, i, *row, left, right);
    }
    fit
}
