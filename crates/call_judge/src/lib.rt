// Judging one word against the automaton of a file (document 01: a run against the order sheet).
#![tactic(auto)]

ghost use Rattle.std.specs.Prelude.{◌≡◌, false, leb};
ghost use Rattle.std.specs.List.{list_any};
ghost use Rattle.relation.specs.Relation.{states};
ghost use Rattle.relation.specs.Representation.{value};
ghost use Rattle.spec_language.specs.WordRelation.{rejected};
ghost use Rattle.spec_file.specs.Limits.{terminals};
ghost use Rattle.spec_file.specs.Views.{automaton_of};
ghost use Rattle.spec_file.specs.Answers.{fault_of, tested_of};
ghost use Rattle.spec_file.specs.Refusals.{first_of};
ghost use Rattle.spec_calls.specs.Judging.{word_fault, judge_refusals};
ghost use Rattle.call_judge.specs.Answers.{Judging};
ghost use Rattle.call_judge.specs.Letters.{strays};
ghost use Rattle.call_judge.specs.TableRelation.{table_relation};

use relation::Relation;
use spec_calls::LONG_WORD;
use spec_file::{Fault, LETTER_WORDS, Letters, Refusal, TERMINALS, refuse_if};

// The most letters of a word that is judged.
const WORD_LIMIT: usize = LONG_WORD as usize - 1;

// What is judged of a word.
#[derive(Clone, Copy, Debug, PartialEq, Eq)]
pub enum Judged {
    Accepted,
    TurnedAway,
}

// Tests whether a letter of `word` is no terminal.
fn strays(word: &[u8]) -> bool
    ensures { result ≡ list_any (λ c. leb terminals c) word.now }
{
    word.iter().any(|c| TERMINALS <= *c)
}

// Refuses `word` with 11 where it is too long or has a letter that is no terminal.
pub fn word_fault(word: &[u8]) -> Result<(), Fault>
    ensures { fault_of result ≡ word_fault word.now }
{
    refuse_if(WORD_LIMIT < word.len() || strays(word), Fault::UnfitRun)
}

// Returns the relation of `word`, all of whose letters are terminals, by the `table` of their relations: one composition for each letter.
fn relation_by(table: &Letters, word: &[u8]) -> Relation
    requires { strays word.now ≡ false }
    ensures { value result ≡ table_relation states table.now word.now }
{
    let mut r = Relation::identity();
    // `r` is the relation of the letters before `c`.
    for c in word {
        let letter = Relation::read(table, *c as usize);
        r = r.compose(letter);
    }
    r
}

// No pair from state 0 to a final state in the relation of the word.
fn turns_away(file: &[u8], word: &[u8]) -> bool
    requires { strays word.now ≡ false }
    ensures { result ≡ rejected states (automaton_of file.now) word.now }
{
    let mut table: Letters = [0; LETTER_WORDS];
    file_tables::letter_relations(file, &mut table);
    let r = relation_by(&table, word);
    let finals = file_tables::final_states(file);
    r.rejects(finals)
}

// Refuses a call on `file` and `word`: as the file is refused, then with 11.
pub fn refusal_for(file: &[u8], word: &[u8]) -> Result<(), Refusal>
    ensures { tested_of result ≡ first_of (judge_refusals file.now word.now) }
{
    file_whole::file_refusal(file)?;
    word_fault(word)?;
    Ok(())
}

// Returns whether a path on `word` leads from state 0 to a final state of the automaton of `file`. A refusal has one of a file's numbers, or 11.
pub fn judge(file: &[u8], word: &[u8]) -> Result<Judged, Refusal>
    ensures { Judging file.now word.now result }
{
    refusal_for(file, word)?;
    if turns_away(file, word) {
        return Ok(Judged::TurnedAway);
    }
    Ok(Judged::Accepted)
}
