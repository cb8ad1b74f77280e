// The lines of an answer as document 01, "The check program", has them, put into a lent buffer from the numbers of a check (`CheckResult`). Each
// function stores into `text` from place `at` on and returns the place after what it stored, as those of crate `host_page` do.
#![tactic(auto)]

ghost use Rattle.std.specs.Prelude.{◌≡◌, [], ◌∷◌, ◌++◌, ◌+◌, ◌*◌, ◌≤◌, length, take};
ghost use Rattle.spec_calls.specs.Printing.{line_feed, blanked, numbers_line, refused_line};
ghost use Rattle.host_page.specs.Page.{page, puts};
ghost use Rattle.host_lines.specs.Lines.{totals_line, row_line, run_line, broken_text, text_told};

use host_result::{BROKEN, CheckResult, EMPTY, FULL, HOLDS, SPENT};

// Stores `a`, `b` and `c`, each after a blank, and the end of the line.
fn put_three(text: &mut [u8], at: usize, a: u64, b: u64, c: u64) -> usize
    ensures { page result text.new ≡ puts (blanked (a ∷ b ∷ c ∷ []) ++ (line_feed ∷ [])) (page at text.old) }
{
    let first = host_page::put_blanked(text, at, a);
    let second = host_page::put_blanked(text, first, b);
    let third = host_page::put_blanked(text, second, c);
    host_page::put(text, third, b'\n')
}

// Stores the line `refused` with `number`.
fn put_refused(text: &mut [u8], at: usize, number: u64) -> usize
    ensures { page result text.new ≡ puts (refused_line number) (page at text.old) }
{
    let word = host_page::put_all(text, at, b"refused");
    let end = host_page::put_blanked(text, word, number);
    host_page::put(text, end, b'\n')
}

// Stores line 1: the verdict's `word`, joins, used rows, pass.
fn put_totals(text: &mut [u8], at: usize, word: &[u8], told: CheckResult) -> usize
    ensures { page result text.new ≡ puts (totals_line word.now told) (page at text.old) }
{
    let end = host_page::put_all(text, at, word);
    put_three(text, end, told.joins, told.used, told.pass)
}

// Stores line 2 of a broken answer: the row, its pairs and its length.
fn put_row(text: &mut [u8], at: usize, told: CheckResult) -> usize
    ensures { page result text.new ≡ puts (row_line told) (page at text.old) }
{
    let row = host_page::put_decimal(text, at, told.row);
    let pairs = host_page::put_blanked(text, row, told.pairs);
    let length = host_page::put_blanked(text, pairs, told.length);
    host_page::put(text, length, b'\n')
}

// Stores the first `n` step codes of `buffer`, separated by one blank, and the end of the line; if `buffer` is shorter, those that it has.
// (`n` is the length that was told, which may be above what `buffer` has: so the two are no one slice.)
fn put_steps(text: &mut [u8], at: usize, buffer: &[u8], n: usize) -> usize
    ensures { page result text.new ≡ puts (numbers_line (take n buffer.now)) (page at text.old) }
{
    let m = n.min(buffer.len());
    let end = host_page::put_separated(text, at, &buffer[..m]);
    host_page::put(text, end, b'\n')
}

// Stores line 3 of a broken answer: the number that refuses to write the run, or its steps, which are at the front of `buffer`.
fn put_run(text: &mut [u8], at: usize, told: CheckResult, buffer: &[u8]) -> usize
    ensures { page result text.new ≡ puts (run_line told buffer.now) (page at text.old) }
{
    if told.refused != 0 {
        return put_refused(text, at, told.refused);
    }
    put_steps(text, at, buffer, told.length as usize)
}

// Stores the three lines of a broken answer.
fn put_broken(text: &mut [u8], at: usize, told: CheckResult, buffer: &[u8]) -> usize
    ensures { page result text.new ≡ puts (broken_text told buffer.now) (page at text.old) }
{
    let second = put_totals(text, at, b"broken", told);
    let third = put_row(text, second, told);
    put_run(text, third, told, buffer)
}

// Stores all lines of an answer from the start of `text` on, by the number in `told`. `buffer` has the run of a broken answer. The second
// clause bounds the length, so that a caller knows how much room is enough.
#[tactic(auto, unfolding(crate::specs::Lines::text_told))]
pub fn put_told(text: &mut [u8], told: CheckResult, buffer: &[u8]) -> usize
    ensures put { page result text.new ≡ puts (text_told told buffer.now) (page 0 text.old) }
    ensures long { length (text_told told buffer.now) ≤ 163 + length buffer.now * 4 }
{
    match told.code {
        HOLDS => put_totals(text, 0, b"holds", told),
        FULL => put_totals(text, 0, b"full", told),
        SPENT => put_totals(text, 0, b"spent", told),
        EMPTY => put_totals(text, 0, b"empty", told),
        BROKEN => put_broken(text, 0, told, buffer),
        refusal => put_refused(text, 0, refusal),
    }
}
