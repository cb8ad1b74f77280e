// The inclusion check on a file. It asks nothing of its caller; a refused call does not change the journal.
#![tactic(auto)]

ghost use Rattle.std.specs.Prelude.{◌≡◌};
ghost use Rattle.call_check.specs.Clauses.{Checks};

use relation::Letter;
use search_cover::NEAR_WORDS;
use search_laws::Answer;
use search_state::CELLS;
use spec_calls::{Options, Row};
use spec_file::{LETTER_WORDS, Letters, RULE_LIMIT, Refusal};

// Decides whether every word of the plan in `file` is accepted, by the working order over the lent `journal`, in which it stores the rows that it
// uses; `options` has the budget of joins. It works in the lent `table` and `near`, which may have any contents: nothing is cleared but what is
// read.
pub fn check_in(
    file: &[u8],
    journal: &mut [Row],
    table: &mut [u32; CELLS],
    near: &mut [Letter; NEAR_WORDS],
    options: Options,
) -> Result<Answer, Refusal>
    ensures { Checks file.now options journal.old journal.new result }
{
    let mut letters: Letters = [0; LETTER_WORDS];
    let mut rules = [[0u8; 4]; RULE_LIMIT];
    let rows = journal.len();
    let state = call_check_start::prepare(
        file,
        &mut letters,
        &mut rules,
        table,
        near,
        rows,
        options,
    )?;
    let last = search_loops::run(journal, table, near, &letters, &rules, state);
    Ok(search_step::answer_of(last))
}

// The same with a table and words of its own.
pub fn check(file: &[u8], journal: &mut [Row], options: Options) -> Result<Answer, Refusal>
    ensures { Checks file.now options journal.old journal.new result }
{
    let mut table = [0u32; CELLS];
    let mut near: [Letter; NEAR_WORDS] = [0; NEAR_WORDS];
    check_in(file, journal, &mut table, &mut near, options)
}
