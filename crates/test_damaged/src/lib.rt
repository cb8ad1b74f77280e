// For tests only (test_writing): a check, one row of its journal replaced, and the run behind a row written. The parameters and the answer
// are plain values and lent bytes.
#![tactic(auto)]

ghost use Rattle.test_damaged.specs.Clauses.{WritesDamaged};

use spec_calls::{JOURNAL_LIMIT, Options, Row};
use spec_file::Refusal;

// Checks `file` over a journal of `rows` rows, each initialised to `row`, with these `options`; stores `row` as journal row `place`;
// and writes the run behind row `named` to `buffer`, with `used` rows used.
pub fn write_damaged(
    file: &[u8],
    rows: usize,
    options: Options,
    place: usize,
    row: Row,
    used: usize,
    named: usize,
    buffer: &mut [u8],
) -> Result<usize, Refusal>
    ensures { WritesDamaged file.now rows options place row used named buffer.old buffer.new result }
{
    let mut journal = [row; JOURNAL_LIMIT];
    let n = host_result::lent_rows(rows);
    let _ = call_check::check(file, &mut journal[..n], options);
    let at = host_result::row_number(place);
    journal[at] = row;
    call_write::write(file, &journal[..n], used, named, buffer)
}
