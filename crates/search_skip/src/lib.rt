// From place to place of a pass, and past those that need no work (semi-naive evaluation). A candidate of rows that were there when the pass
// before began was formed in that pass, so that a live row covers it: it is one join, and nothing else. Such candidates stand together, and
// are counted by their number: the old rights of a left by a sum, the old lefts of a rule, each with all its rights, by a product.
// The table, the words and the rules are parameters whose length each clause asks, and no struct with an invariant: hosts lend them, and what
// holds a loan would be lent on at each step.
#![tactic(auto)]

ghost use Rattle.std.specs.Prelude.{◌≤◌, ◌≡◌, true, length, take};
ghost use Rattle.search_state.specs.Layout.{row_cells, table_cells, lists_in, end};
ghost use Rattle.search_order.specs.Lists.{after_in};
ghost use Rattle.search_order.specs.Places as places;
ghost use Rattle.search_laws.specs.Steps.{is_before, repeats_at, passes_at, moved_to, Later, MayPass, PassesSpan, PassesOver, MeasuresIn};

use search_laws::Reached;
use search_state::{ABSENT, Counts, END, LISTS, Place, Terms};

// ---- the lists of the pass

// The first place of the pass.
pub fn first_in(rules: &[[u8; 4]], table: &[u32], n: usize) -> Place
    requires { (length table.now ≡ table_cells) × (n ≤ length rules.now) }
    ensures { places.FirstPlace (lists_in table.now) (take n rules.now) 0 result }
{
    search_order::first_place(&table[LISTS..], &rules[..n], 0)
}

// The position after this one.
pub fn after_in(table: &[u32], i: usize) -> usize
    requires { length table.now ≡ table_cells }
    ensures { result ≡ after_in (lists_in table.now) i }
{
    search_order::after(&table[LISTS..], i)
}

// The place after this one, which has no right position after it.
pub fn next_row_in(rules: &[[u8; 4]], table: &[u32], n: usize, place: Place) -> Place
    requires { (length table.now ≡ table_cells) × (n ≤ length rules.now) × (after_in (lists_in table.now) place.right ≡ end) }
    ensures { places.NextPlace (lists_in table.now) (take n rules.now) place result }
{
    search_order::next_row(&table[LISTS..], &rules[..n], place)
}

// The place after this one, where `right` is the position after its right.
fn next_in(rules: &[[u8; 4]], table: &[u32], n: usize, place: Place, right: usize) -> Place
    requires { (length table.now ≡ table_cells) × (n ≤ length rules.now) × (right ≡ after_in (lists_in table.now) place.right) }
    ensures { places.NextPlace (lists_in table.now) (take n rules.now) place result }
{
    if right != END {
        return place.with_right(right);
    }
    next_row_in(rules, table, n, place)
}

// Measures how far the lists go over the rows below `old`.
pub fn measure_in(table: &mut [u32], old: usize)
    requires { (length table.old ≡ table_cells) × (old ≤ row_cells) }
    ensures { MeasuresIn old table.old table.new }
{
    search_spans::measure(&mut table[LISTS..], old)
}

// ---- what the pass before formed

// No row, or one of the first n.
fn is_before(n: usize, position: usize) -> bool
    ensures { result ≡ is_before n position }
{
    (position < n) | (position == ABSENT)
}

// The pass before formed the candidate of the place.
fn repeats(n: usize, place: Place) -> bool
    ensures { result ≡ repeats_at n place }
{
    (0 < n) & (is_before(n, place.left) & is_before(n, place.right))
}

// It may be passed over: the place is one of the first n rules, and the budget is not spent.
fn may_pass(terms: Terms, n: usize, at: Reached) -> bool
    ensures { result ≡ passes_at terms n at }
{
    let counts = at.counts;
    let place = at.place;
    (place.rule < n) & (!terms.spent(counts.joins) & repeats(terms.old, place))
}

// The rule of `at` at other positions, with `joins` joins.
fn moved(at: Reached, joins: u64, left: usize, right: usize) -> Reached
    ensures { result ≡ moved_to at joins left right }
{
    let counts = at.counts;
    let place = at.place;
    Reached {
        counts: Counts {
            used: counts.used,
            joins,
            added: counts.added,
        },
        place: Place::first(place.rule, left, right),
    }
}

// Counts at once what may be passed over from the place of `at` on: its old rights by a sum, and where no other right is left, its old lefts
// with all of them by a product. Returns the place of the last candidate that is counted. The budget is asked first: where it leaves fewer
// joins, less is counted, the place alone at the least, so that a check ends spent with as many joins as its budget.
fn pass_span(rules: &[[u8; 4]], table: &[u32], n: usize, terms: Terms, at: Reached) -> Reached
    requires { MayPass rules.now n terms table.now at.place × (passes_at terms n at ≡ true) }
    ensures { PassesSpan (take n rules.now) table.now terms at result }
{
    let counts = at.counts;
    let place = at.place;
    let r = place.rule;
    let rule = rules[r];
    let joins = counts.joins + 1;
    let lists = &table[LISTS..];
    let rights = search_spans::right_span(lists, terms.old, rule);
    if (rights.first != place.right) | (terms.budget - joins < rights.steps) {
        return moved(at, joins, place.left, place.right);
    }
    let row = joins + rights.steps;
    let next = after_in(table, rights.last);
    if next != END {
        return moved(at, row, place.left, rights.last);
    }
    let lefts = search_spans::left_span(lists, terms.old, rule);
    let more = lefts.steps * (rights.steps + 1);
    if (lefts.first != place.left) | (terms.budget - row < more) {
        return moved(at, row, place.left, rights.last);
    }
    moved(at, row + more, lefts.last, rights.last)
}

// Returns whether no old row follows the place: none follows its right, after which comes `right`, nor, where no right follows, its `left`.
// This is for speed alone: a chain of single rows asks for no span. The end is asked for first, so that the compiler knows it in `next_in`.
fn is_alone(table: &[u32], old: usize, left: usize, right: usize) -> bool
    requires { length table.now ≡ table_cells }
{
    if right != END {
        return old <= right;
    }
    let following = after_in(table, left);
    if following != END {
        return old <= following;
    }
    true
}

// From a place that may be passed over to the first place after those that are counted with it.
fn pass_left(rules: &[[u8; 4]], table: &[u32], n: usize, terms: Terms, at: Reached) -> Reached
    requires { MayPass rules.now n terms table.now at.place × (passes_at terms n at ≡ true) }
    ensures { PassesOver (take n rules.now) table.now terms at result × Later (take n rules.now) table.now at.place result.place }
{
    let counts = at.counts;
    let place = at.place;
    let right = after_in(table, place.right);
    if is_alone(table, terms.old, place.left, right) {
        let next = next_in(rules, table, n, place, right);
        let counted = Counts {
            used: counts.used,
            joins: counts.joins + 1,
            added: counts.added,
        };
        return Reached {
            counts: counted,
            place: next,
        };
    }
    let last = pass_span(rules, table, n, terms, at);
    let counted = last.counts;
    let from = last.place;
    let right = after_in(table, from.right);
    let next = next_in(rules, table, n, from, right);
    Reached {
        counts: counted,
        place: next,
    }
}

// From a place on to the first that may not be passed over.
pub fn pass_over(rules: &[[u8; 4]], table: &[u32], n: usize, terms: Terms, from: Reached) -> Reached
    requires { MayPass rules.now n terms table.now from.place }
    ensures { PassesOver (take n rules.now) table.now terms from result }
{
    let mut at = from;
    // Every candidate from `from` up to `at` was formed by the pass before, and is counted. (What ends the loop is a test of the place, so it is no `for`.)
    while may_pass(terms, n, at) {
        at = pass_left(rules, table, n, terms, at);
    }
    at
}
