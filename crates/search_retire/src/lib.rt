// A candidate that no row covers becomes a row, and the larger rows retire: a cursor over the live rows of its nonterminal and then the new
// row, moved in steps that know neither a row nor a candidate. A step is given what comparing the row at the cursor with the candidate gave,
// keeps the links, and returns the cursor at the row to compare next, or none after the new row.
#![tactic(auto)]

ghost use Rattle.std.specs.Prelude.{◌≡◌, length};
ghost use Rattle.search_state.specs.Layout.{table_cells};
ghost use Rattle.search_retire.specs.Steps.{retire_from, begun, stepped, links_after};
ghost use Rattle.search_retire.specs.Clearing.{MayClear};

use search_cover::CoverAnswer;
use search_state::{Comparison, END, FIRSTS, Fate, State};

// `row` is the row to replace next: the linked row to which the link in `cell` leads, or, if `new`, the first row that is not used, and
// `cell` is the last link of the nonterminal.
#[derive(Clone, Copy)]
pub struct RetireCursor {
    pub new: bool,
    pub row: usize,
    pub cell: usize,
}

// The cursor at the linked row `row`, or at the new row if `row` is past the last one.
fn at_link(used: usize, row: usize, cell: usize) -> RetireCursor
    ensures { result ≡ retire_from used row cell }
{
    if row < used {
        return RetireCursor {
            new: false,
            row,
            cell,
        };
    }
    RetireCursor {
        new: true,
        row: used,
        cell,
    }
}

// The beginning. Nothing is to be done where a row covers or the journal is full, which `fate` says. Where `found`, which looking for a cover
// gave, says that no row is larger, none retires and only the new row is left.
pub fn begin(table: &[u32], state: State, fate: Fate, found: CoverAnswer) -> Option<RetireCursor>
    requires { length table.now ≡ table_cells }
    ensures { result ≡ begun table.now state.counts.used fate found }
{
    if fate.covered | fate.full {
        return None;
    }
    let used = state.counts.used;
    if found.larger {
        let cell = FIRSTS + fate.head as usize;
        return Some(at_link(used, search_order::position(table[cell]), cell));
    }
    Some(at_link(used, END, found.cell))
}

// One step, after the row at `cursor` was replaced: a row that `compared` says is larger has retired and is linked no more, another stays
// linked, and the new row is linked last.
// (One function for both kinds of row: a closure for each would be lent the table twice.)
pub fn step(
    table: &mut [u32],
    state: State,
    cursor: RetireCursor,
    compared: Comparison,
) -> Option<RetireCursor>
    requires { MayClear state.counts.used cursor table.old }
    ensures { (result ≡ stepped table.old state.counts.used cursor compared.larger) × (table.new ≡ links_after table.old state.counts.used cursor compared.larger) }
{
    let used = state.counts.used;
    let row = cursor.row;
    let cell = cursor.cell;
    if cursor.new {
        table[used] = search_order::cell(END);
        table[cell] = search_order::cell(used);
        return None;
    }
    let link = table[row];
    let next = search_order::position(link);
    if compared.larger {
        table[cell] = link;
        return Some(at_link(used, next, cell));
    }
    Some(at_link(used, next, row))
}
