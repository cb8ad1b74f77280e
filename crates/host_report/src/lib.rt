// The answer of a check as document 01, "The check program", has it, rendered into a lent buffer.
#![tactic(auto)]

ghost use Rattle.spec_calls.specs.Rows.{settings_of};
ghost use Rattle.spec_calls.specs.Printing.{text_of, program_room, program_text};
ghost use Rattle.host_page.specs.Clauses.{Printed};
ghost use Rattle.host_lines.specs.Lines.{text_told};

use host_result::CheckResult;
use spec_calls::{INITIAL_ALONE, Options, Row};

// The check program's journal, budget and run buffer (document 01).
const ROWS: usize = 1024;

const BUDGET: u64 = 1000000;

const RUN: usize = 4096;

// The size of a buffer that every text fits into: 4 bytes for each step of a run, and some for the lines before them.
pub const TEXT: usize = 16640;

// Stores the lines of `told` at the front of `text`, with the run that is in `buffer`. Every text fits: it has at most
// 163 + 4 * RUN bytes.
fn put_whole(text: &mut [u8; TEXT], told: CheckResult, buffer: &[u8; RUN]) -> usize
    ensures { Printed (text_told told buffer.now) text.old text.new result }
{
    host_lines::put_told(text, told, buffer)
}

// Checks `file` over a journal of `rows` rows, each initialised to `old`, with these `options`, and stores what is to be printed
// at the front of `text`. Returns its length.
pub fn render(file: &[u8], rows: usize, old: Row, options: Options, text: &mut [u8; TEXT]) -> usize
    ensures { Printed (text_of file.now (settings_of rows options) program_room) text.old text.new result }
{
    let mut buffer = [0u8; RUN];
    let told = host_check::check_and_write(file, rows, old, options, 0, &mut buffer);
    put_whole(text, told, &buffer)
}

// Stores what the check program prints of `file` at the front of `text`, and returns its length.
#[tactic(auto, unfolding(spec_calls::specs::Printing::program_text))]
pub fn answer(file: &[u8], text: &mut [u8; TEXT]) -> usize
    ensures { Printed (program_text file.now) text.old text.new result }
{
    let options = Options {
        budget: BUDGET,
        starts: INITIAL_ALONE,
    };
    render(file, ROWS, Row::blank(), options, text)
}
