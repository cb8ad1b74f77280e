// The two loops that hold the lent journal; all else is covered code on values and on arrays of numbers. A loop reads rows, hands them to covered
// steps, and stores what these return: what an effect is, only `search_rows` knows.
#![tactic(auto)]

ghost use Rattle.std.specs.Prelude.{T};
ghost use Rattle.search_state.specs.Phases.{is_going};
ghost use Rattle.search_laws.specs.OnRelations.{NearIn, MayInsert, CandidateInserted, Running, Ran};

use relation::Letter;
use search_cover::CoverAnswer;
use search_rows::Candidate;
use search_state::{Fate, Phase, State};
use spec_calls::Row;

// Where `fate` says that no row covers `candidate` and there is room, the larger rows retire and it becomes the next row. `found` is where
// looking for a cover ended.
fn insert(
    journal: &mut [Row],
    table: &mut [u32],
    state: State,
    candidate: Candidate,
    fate: Fate,
    found: CoverAnswer,
)
    requires { MayInsert state candidate fate found journal.old table.old }
    ensures { CandidateInserted state candidate found journal.old table.old journal.new table.new }
{
    let mut next = search_retire::begin(table, state, fate, found);
    while let Some(cursor) = next {
        let row = cursor.row;
        let held = journal[row];
        let compared = search_rows::compare(held, candidate);
        journal[row] = search_rows::replacement(state, candidate, cursor.new, compared, held);
        next = search_retire::step(table, state, cursor, compared);
    }
}

// Takes the candidates one after the other, to the end of the search: those that a hinted row covers by a glance, and each other one in a turn of
// the loop, with the effect that the glance has formed. Between `find` and `insert` it is decided, once for both `insert` and `advance`, what
// becomes of the candidate: rows that are used again (request C-19) make room at that seam, before it is asked.
pub fn run(
    journal: &mut [Row],
    table: &mut [u32],
    near: &mut [Letter],
    letters: &[Letter],
    rules: &[[u8; 4]],
    state: State,
) -> State
    requires { Running letters.now rules.now state journal.old state journal.old table.old × (T (is_going state.phase) → NearIn state journal.old near.old) }
    ensures { Ran letters.now rules.now state journal.old journal.new table.new result }
{
    let mut state = state;
    while let Phase::Going = state.phase {
        let tried = search_glance::glance(letters, rules, near, table, state);
        let here = tried.state;
        let i = here.left_row;
        let left = journal[i];
        let k = here.right_row;
        let right = journal[k];
        let candidate = search_rows::form(rules, here, tried.effect, left, right);
        let head = candidate.head;
        let found = search_cover::find(
            near,
            table,
            here,
            head,
            tried.effect,
            tried.covers,
            tried.slot,
        );
        let covered = found.covers;
        let fate = search_rows::fate(here, candidate, covered);
        insert(journal, table, here, candidate, fate, found);
        search_cover::keep_near(near, here, candidate, fate, found);
        state = search_passes::advance(rules, table, here, fate, found);
    }
    state
}
