// Where a check starts: what refuses it, and else the file's tables and the first pass.
#![tactic(auto)]

ghost use Rattle.std.specs.Prelude.{◌≡◌, length};
ghost use Rattle.spec_calls.specs.Rows.{settings_of};
ghost use Rattle.search_state.specs.Layout.{table_cells};
ghost use Rattle.search_cover.specs.Near.{near_words};
ghost use Rattle.call_check_start.specs.Starting.{waiting, Starts};

use relation::{Letter, StateSet};
use search_state::{Counts, Phase, Place, State, Terms};
use spec_calls::Options;
use spec_file::{Letters, RULE_LIMIT, Refusal};

// The state before the first pass, over a journal of `rows` rows and `rules` rules, where `finals` is the set of final states.
fn wait(rows: usize, rules: usize, options: Options, finals: StateSet) -> State
    ensures { result ≡ waiting (settings_of rows options) rules finals }
{
    State {
        phase: Phase::Waiting,
        left_row: 0,
        right_row: 0,
        terms: Terms {
            budget: options.budget,
            starts: options.starts,
            finals,
            pass: 1,
            present: 0,
            old: 0,
        },
        counts: Counts {
            used: 0,
            joins: 0,
            added: 0,
        },
        place: Place::first(0, 0, 0),
        rows,
        rules,
    }
}

// Where nothing refuses the check of `file` over a journal of `rows` rows, stores the relation of each terminal in `letters` and the rules in
// `rules`, and begins the first pass, for which it sets up `table` and `near`. Both may have any contents: only what is read before it is
// written is cleared, the first rows of the nonterminals in `table` and the nonterminal of `near`. Returns the state then.
pub fn prepare(
    file: &[u8],
    letters: &mut Letters,
    rules: &mut [[u8; 4]; RULE_LIMIT],
    table: &mut [u32],
    near: &mut [Letter],
    rows: usize,
    options: Options,
) -> Result<State, Refusal>
    requires { (length table.old ≡ table_cells) × (length near.old ≡ near_words) }
    ensures { Starts file.now (settings_of rows options) letters.new rules.new table.new near.new result }
{
    call_refusals::refusal_for(file, rows)?;
    file_tables::letter_relations(file, letters);
    let finals = file_tables::final_states(file);
    let n = file_tables::rule_table(file, rules);
    search_links::unlink_all(table);
    search_cover::forget(near);
    let before = wait(rows, n, options, finals);
    let terms = before.terms;
    let at = search_passes::open_pass(&rules[..], table, n, terms, before.counts);
    let nonempty = search_passes::all_linked(table, terms.starts);
    Ok(search_step::stand_or_finish(before, terms, at, nonempty))
}
