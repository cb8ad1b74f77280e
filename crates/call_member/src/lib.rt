// Whether the plan of a file derives a recorded run, and which procedures derive each stretch of it (document 02, C-12), as a call on a file.
#![tactic(auto)]

ghost use Rattle.std.specs.Prelude.{◌≡◌, ◌≤◌, length};
ghost use Rattle.spec_file.specs.Answers.{tested_of};
ghost use Rattle.spec_file.specs.Refusals.{fault, first_of};
ghost use Rattle.spec_file.specs.Views.{productions_of};
ghost use Rattle.spec_calls.specs.Judging.{word_fault};
ghost use Rattle.spec_calls.specs.Recognizing.{run_limit, stretch_cells, TableShows, recognize_refusals};
ghost use Rattle.call_member.specs.Answers.{Recognizing};

use member_table::{RUN_LIMIT, STRETCH_CELLS};
use spec_file::{Fault, RULE_LIMIT, Refusal, refuse_if};

// Whether the initial symbol derives a word.
#[derive(Clone, Copy, Debug, PartialEq, Eq)]
pub enum Recognized {
    Derived,
    NotDerived,
}

// Refuses a call on `file`, `word` and a table of `cells` cells: as judging refuses it, by the code of judging, then with 13 a word of more than
// 64 steps, then with 14 a table of any other size.
fn refusal_for(file: &[u8], word: &[u8], cells: usize) -> Result<(), Refusal>
    ensures { tested_of result ≡ first_of (recognize_refusals file.now word.now cells) }
{
    call_judge::refusal_for(file, word)?;
    refuse_if(RUN_LIMIT < word.len(), Fault::LongRun)?;
    refuse_if(cells != STRETCH_CELLS, Fault::TableSize)?;
    Ok(())
}

// Stores in `table` which procedures of the file derive each stretch of `word`.
fn fill(file: &[u8], word: &[u8], table: &mut [u64])
    requires { ((fault file.now).number ≡ 0) × (word_fault word.now ≡ 0) × (length word.now ≤ run_limit) × (length table.old ≡ stretch_cells) }
    ensures { TableShows (productions_of file.now) word.now table.new }
{
    let mut rules = [[0u8; 4]; RULE_LIMIT];
    let n = file_tables::rule_table(file, &mut rules);
    member_table::fill(&rules[..n], word, table);
}

// Returns whether the initial symbol derives `word` by the rules of `file`, and stores in each cell of `table` which nonterminals derive its
// stretch: bit p is set for nonterminal p. A refusal has one of a file's numbers, or 11, 13 or 14; a refused call leaves `table` as it was.
pub fn recognize(file: &[u8], word: &[u8], table: &mut [u64]) -> Result<Recognized, Refusal>
    ensures { Recognizing file.now word.now table.old table.new result }
{
    refusal_for(file, word, table.len())?;
    fill(file, word, table);
    let at = word.len();
    let derived = table[at] & 1 == 1;
    if derived {
        return Ok(Recognized::Derived);
    }
    Ok(Recognized::NotDerived)
}
