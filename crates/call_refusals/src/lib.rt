// What the two calls on a file and a journal share: what refuses both of them, and the file's rules in their table.
#![tactic(auto)]

ghost use Rattle.std.specs.Prelude.{◌≡◌};
ghost use Rattle.spec_file.specs.Answers.{tested_of};
ghost use Rattle.spec_file.specs.Refusals.{first_of};
ghost use Rattle.spec_calls.specs.Checking.{check_refusals};

use spec_calls::JOURNAL_LIMIT;
use spec_file::{Fault, Refusal, refuse_if};

// Refuses a call on `file` and a journal of `rows` rows: for the file, and then with 8, for no row or too many.
pub fn refusal_for(file: &[u8], rows: usize) -> Result<(), Refusal>
    ensures { tested_of result ≡ first_of (check_refusals file.now rows) }
{
    file_whole::file_refusal(file)?;
    refuse_if((rows == 0) | (JOURNAL_LIMIT < rows), Fault::JournalSize)?;
    Ok(())
}
