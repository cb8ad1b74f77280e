// One call for programs and hosts: the check over a journal of the library's own, and the run of a broken answer in the lent buffer. Its
// parameters and its answer are plain values and lent bytes, so whoever calls it is proved by the toolchain. And a row of a journal
// that a host lends.
#![tactic(auto)]

ghost use Rattle.std.specs.Prelude.{◌≡◌, get_or};
ghost use Rattle.spec_calls.specs.Rows.{blank};
ghost use Rattle.host_check.specs.Clauses.{ChecksAlone};

use host_result::CheckResult;
use spec_calls::{JOURNAL_LIMIT, Options, Row};

// Runs a check of `file` on a fresh journal of `rows` rows, each initialised to `old`, with these `options`. If the verdict is broken, writes
// its run to `buffer`. The result also contains the row at `sample_row` of the journal after the check, for tests.
pub fn check_and_write(
    file: &[u8],
    rows: usize,
    old: Row,
    options: Options,
    sample_row: usize,
    buffer: &mut [u8],
) -> CheckResult
    ensures { ChecksAlone file.now rows old options sample_row buffer.old buffer.new result }
{
    let mut journal = [old; JOURNAL_LIMIT];
    let n = host_result::lent_rows(rows);
    let checked = call_check::check(file, &mut journal[..n], options);
    let named = host_result::row_to_write(checked, file.len());
    let at = host_result::row_number(named.row);
    let row = journal[at];
    let at_sample = host_result::row_number(sample_row);
    let sample = journal[at_sample];
    let m = named.bytes;
    let writing = call_write::write(&file[..m], &journal[..n], named.used, named.row, buffer);
    host_result::to_result(checked, row, sample, writing)
}

// Returns row `at` of `journal`, or a row of zeros where it has none.
pub fn row_at(journal: &[Row], at: usize) -> Row
    ensures { result ≡ get_or journal.now at blank }
{
    if at < journal.len() {
        return journal[at];
    }
    Row::blank()
}
