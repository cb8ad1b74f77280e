// Writing a word on a file and a journal. It asks nothing of its caller; a refused call does not change the buffer.
#![tactic(auto)]

ghost use Rattle.std.specs.Prelude.{◌≡◌, map};
ghost use Rattle.spec_calls.specs.Rows.{row_of};
ghost use Rattle.spec_calls.specs.Writing.{too_long};
ghost use Rattle.call_write.specs.Clauses.{Writes};

use call_write_word::Part;
use spec_calls::{LONG_WORD, Row};
use spec_file::{Fault, RULE_LIMIT, Refusal, refuse_if};

// Returns whether a word of `n` steps is too long to be written, or longer than a buffer of `room` bytes.
fn too_long(n: u64, room: usize) -> bool
    ensures { result ≡ too_long n room }
{
    (LONG_WORD <= n) | ((room as u64) < n)
}

// Writes the word behind `row` of the journal, of which `used` rows are used, to the front of `buffer`, and returns its length. It refuses with 9 by
// the counts first, so that only rows of the journal are looked at.
pub fn write(
    file: &[u8],
    journal: &[Row],
    used: usize,
    row: usize,
    buffer: &mut [u8],
) -> Result<usize, Refusal>
    ensures { Writes file.now (map row_of journal.now) used row buffer.old buffer.new result }
{
    call_refusals::refusal_for(file, journal.len())?;
    refuse_if((used <= row) | (journal.len() < used), Fault::UnfitRow)?;
    let mut rules = [[0u8; 4]; RULE_LIMIT];
    let n = file_tables::rule_table(file, &mut rules);
    let known = &rules[..n];
    let fit = call_write_fit::rows_fit(journal, known, row + 1);
    refuse_if(!fit.fits, Fault::UnfitRow)?;
    refuse_if(too_long(fit.len, buffer.len()), Fault::NoRoom)?;
    Ok(call_write_word::write_symbol(journal, known, Part::Row(row), buffer))
}
