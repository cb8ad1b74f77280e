// The order in which a pass takes its candidates: rules in file order, the left symbol outer, the right one inner, rows rising. The rows
// that were live when the pass began stand in lists: cell i has the row after row i in the list of its nonterminal, and cell FIRSTS + x the
// first row of nonterminal x, as in the table's first cells (crate `search_state` draws them).
// The table, the words and the rules are parameters whose length each clause asks, and no struct with an invariant: hosts lend them, and what
// holds a loan would be lent on at each step.
#![tactic(auto)]

ghost use Rattle.std.specs.Prelude.{◌≡◌, ◌≤◌, length};
ghost use Rattle.spec_file.specs.Views.{symbol_of};
ghost use Rattle.spec_file.specs.Entries.{entry_of};
ghost use Rattle.search_state.specs.Forming.{some, left_part, right_part};
ghost use Rattle.search_state.specs.Layout.{list_cells, end};
ghost use Rattle.search_order.specs.Lists.{after_in};
ghost use Rattle.search_order.specs.Places.{FirstPosition, FirstPlace, NextPlace};

use search_state::{ABSENT, END, FIRSTS, Place, ROWS};
use spec_file::TERMINALS;

// ---- positions

// The position that a cell has.
pub fn position(cell: u32) -> usize
    ensures { result ≡ cell }
{
    cell as usize
}

// The cell of a position.
pub fn cell(position: usize) -> u32
    requires { position ≤ end }
    ensures { result ≡ position }
{
    position as u32
}

// The position after this one.
pub fn after(lists: &[u32], i: usize) -> usize
    requires { list_cells ≤ length lists.now }
    ensures { result ≡ after_in lists.now i }
{
    if i < ROWS {
        return position(lists[i]);
    }
    END
}

// ---- the places of a rule

// The first position of a symbol.
fn first_of(lists: &[u32], symbol: u8) -> usize
    requires { list_cells ≤ length lists.now }
    ensures { FirstPosition lists.now (some (symbol_of symbol)) result }
{
    if symbol < TERMINALS {
        return ABSENT;
    }
    let cell = FIRSTS + (symbol - TERMINALS) as usize;
    position(lists[cell])
}

// The first position of each part of the body of rule r.
fn beginning(lists: &[u32], rule: [u8; 4], r: usize) -> Place
    requires { list_cells ≤ length lists.now }
    ensures { (result.rule ≡ r) × FirstPosition lists.now (left_part (entry_of rule).body) result.left × FirstPosition lists.now (right_part (entry_of rule).body) result.right }
{
    match rule[1] {
        0 => Place::first(r, ABSENT, ABSENT),
        1 => Place::first(r, first_of(lists, rule[2]), ABSENT),
        _ => {
            let left = first_of(lists, rule[2]);
            let right = first_of(lists, rule[3]);
            Place::first(r, left, right)
        }
    }
}

// ---- the places of a pass

// The first place from rule r on; past the last rule where there is none.
pub fn first_place(lists: &[u32], rules: &[[u8; 4]], r: usize) -> Place
    requires { list_cells ≤ length lists.now }
    ensures { FirstPlace lists.now rules.now r result }
{
    // The rules before the current one form no candidate.
    for r in r..rules.len() {
        let place = beginning(lists, rules[r], r);
        if (place.left != END) & (place.right != END) {
            return place;
        }
    }
    Place::first(r.max(rules.len()), END, END)
}

// The place after this one, which has no right position after it: the next left, or the next rule.
pub fn next_row(lists: &[u32], rules: &[[u8; 4]], place: Place) -> Place
    requires { (list_cells ≤ length lists.now) × (after_in lists.now place.right ≡ end) }
    ensures { NextPlace lists.now rules.now place result }
{
    let r = place.rule;
    if rules.len() <= r {
        return place;
    }
    let left = after(lists, place.left);
    if left != END {
        let rule = rules[r];
        let start = beginning(lists, rule, r);
        return Place::first(r, left, start.right);
    }
    first_place(lists, rules, r + 1)
}
