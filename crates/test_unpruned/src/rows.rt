// For tests only: compares the rows that a check leaves, each as numbers, with the list of the unpruned search and with another journal.
use crate::{Entry, NONTERMINALS, Numbers, RETIRED, Relation, TERMINALS};

// Returns the pair of the list that `row` is: its nonterminal's symbol and its relation.
fn pair_of(row: Numbers) -> Entry {
    crate::pair(TERMINALS + row[0] % NONTERMINALS, relation_of(row))
}

// Returns the relation of `row`.
pub fn relation_of(row: Numbers) -> Relation {
    Relation {
        w0: row[2],
        w1: row[3],
        w2: row[4],
        w3: row[5],
    }
}

// Tests whether each pair of states in `x` is one in `y`.
fn contained(x: Relation, y: Relation) -> bool {
    let both = Relation {
        w0: x.w0 | y.w0,
        w1: x.w1 | y.w1,
        w2: x.w2 | y.w2,
        w3: x.w3 | y.w3,
    };
    both == y
}

// Tests whether `row` is live, has the symbol of `pair`, and its relation is contained in that of `pair`.
fn below(row: Numbers, pair: Entry) -> bool {
    let own = pair_of(row);
    row[RETIRED] == 0 && own.symbol == pair.symbol && contained(own.relation, pair.relation)
}

// Tests whether some row, other than row `left_out`, is below `pair`.
fn has_below(journal: &[Numbers], left_out: Option<usize>, pair: Entry) -> bool {
    journal
        .iter()
        .enumerate()
        .any(|(i, row)| left_out != Some(i) && below(*row, pair))
}

// Tests whether the rows have relations that are on the list, and the live ones are an antichain: none is below another.
pub fn sound(journal: &[Numbers], found: &[Entry]) -> bool {
    journal.iter().enumerate().all(|(i, row)| {
        let pair = pair_of(*row);
        crate::listed(found, pair) && (row[RETIRED] != 0 || !has_below(journal, Some(i), pair))
    })
}

// Tests whether `pair` has a live row below it, if its symbol is a nonterminal.
fn covered(journal: &[Numbers], pair: Entry) -> bool {
    pair.symbol < TERMINALS || has_below(journal, None, pair)
}

// Tests whether each relation that the list has for a nonterminal has a live row below it.
pub fn covering(journal: &[Numbers], found: &[Entry]) -> bool {
    found.iter().all(|pair| covered(journal, *pair))
}

// Tests whether two rows are the same in all fields.
pub fn same_row(x: Numbers, y: Numbers) -> bool {
    x == y
}

// Tests whether both journals have a row `i`, and the two are the same.
fn same_at(one: &[Numbers], other: &[Numbers], i: usize) -> bool {
    i < one.len() && i < other.len() && one[i] == other[i]
}

// Tests whether two journals have the same rows from row `from` on and before row `end`.
pub fn same(one: &[Numbers], other: &[Numbers], from: usize, end: usize) -> bool {
    (from..end).all(|i| same_at(one, other, i))
}
