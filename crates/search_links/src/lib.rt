// The table in which the search finds rows, of which crate `search_state` draws the layout: the laws of its links, which lead along the live rows of
// each nonterminal, rising (specs), a table without a row, and the copying of the links to the lists when a pass begins.
// The table, the words and the rules are parameters whose length each clause asks, and no struct with an invariant: hosts lend them, and what
// holds a loan would be lent on at each step.
#![tactic(auto)]

ghost use Rattle.std.specs.Prelude.{◌≡◌, ◌≤◌, length};
ghost use Rattle.search_state.specs.Layout.{row_cells, list_cells, table_cells};
ghost use Rattle.search_links.specs.Covers.{Unlinked};
ghost use Rattle.search_links.specs.Listing.{Copied, Gathered};

use search_state::{END_CELL, FIRSTS, LASTS, LISTS};

// Makes `table`, whatever it has, one without a row: the first row of each nonterminal is none. All other cells keep what they have: a link is
// written when its row is added, the lists when a pass begins, and a hint is compared before it is believed.
pub fn unlink_all(table: &mut [u32])
    requires { length table.old ≡ table_cells }
    ensures { Unlinked table.new }
{
    table[FIRSTS..LASTS].fill(END_CELL);
}

// Copies the links in the cells from `from` to `to` to the lists.
fn copy_links(table: &mut [u32], from: usize, to: usize)
    requires { (length table.old ≡ table_cells) × (from ≤ to) × (to ≤ list_cells) }
    ensures { Copied from to table.old table.new }
{
    // The links before `i` are copied. (No `copy_within`, whose calls go through a trait: tests/dividing follows those of the loop over the
    // candidates by their names.)
    for i in from..to {
        table[LISTS + i] = table[i];
    }
}

// Makes the rows that are live now, among the first `used`, the lists of the pass: copies the links of these rows and of the heads.
pub fn gather(table: &mut [u32], used: usize)
    requires { (length table.old ≡ table_cells) × (used ≤ row_cells) }
    ensures { Gathered used table.old table.new }
{
    copy_links(table, 0, used);
    copy_links(table, FIRSTS, LASTS);
}
