// The result of a check as numbers for a host, and what is decided around the check: how many rows are lent, and which of them are read
// afterwards.
#![tactic(auto)]

ghost use Rattle.std.specs.Prelude.{◌≡◌, ◌≤◌, ◌<◌};
ghost use Rattle.spec_calls.specs.Checking.{journal_limit};
ghost use Rattle.host_result.specs.Fronts.{front_of, place_of, name_of, name_in};
ghost use Rattle.spec_calls.specs.Codes.{refused_by};
ghost use Rattle.host_result.specs.Results.{unbroken_by, broken_by, told_of, told_as, written_as, numbered_of};
ghost use Rattle.spec_file.specs.Answers.{refusal_of};
ghost use Rattle.spec_file.specs.Refusals.{Refusal as Said};

use search_laws::{Answer, Totals};
use spec_calls::{ABSENT, JOURNAL_LIMIT, Row};
use spec_file::Refusal;

// The numbers of the verdicts, as wide as those of the refusals.
pub const HOLDS: u64 = search_laws::HOLDS as u64;

pub const BROKEN: u64 = search_laws::BROKEN as u64;

pub const FULL: u64 = search_laws::FULL as u64;

pub const SPENT: u64 = search_laws::SPENT as u64;

pub const EMPTY: u64 = search_laws::EMPTY as u64;

// What a host is told: the number that refuses, or the verdict's; the refused record's number; joins, used rows and pass; and of a broken
// answer the row, its pairs, its length, what refuses to write its run, or 0, and its nonterminal (`head`). And `sample`, a row of the journal
// after the check.
// (Numbers and no enum, since C and the printed lines have these.)
#[derive(Clone, Copy)]
pub struct CheckResult {
    pub code: u64,
    pub place: u64,
    pub joins: u64,
    pub used: u64,
    pub pass: u64,
    pub row: u64,
    pub pairs: u64,
    pub length: u64,
    pub refused: u64,
    pub head: u64,
    pub sample: Row,
}

// The row of which the run is to be written, the used rows, and how many bytes of the file the writing is given.
// (No Option: where nothing is to be written, `row_to_write` promises row 0 of no used row, which hosts' rows are read by all the same.)
#[derive(Clone, Copy)]
pub struct RowToWrite {
    pub used: usize,
    pub row: usize,
    pub bytes: usize,
}

// ---- refusals

// What refuses a call, as a host is told of it: by a number, and by the record that it names.
pub trait Refuses: Copy {
    ghost says: { Self → Said };

    fn number(self) -> u64
        ensures { result ≡ (says self).number };

    fn place(self) -> usize
        ensures { result ≡ (says self).place };
}

impl Refuses for Refusal {
    ghost says = { refusal_of };

    fn number(self) -> u64 {
        self.fault.number()
    }

    fn place(self) -> usize {
        self.place
    }
}

// A refusal with any number, such as one of a caller's own.
#[derive(Clone, Copy)]
pub struct Numbered {
    pub number: u64,
    pub place: usize,
}

impl Refuses for Numbered {
    ghost says = { numbered_of };

    fn number(self) -> u64 {
        self.number
    }

    fn place(self) -> usize {
        self.place
    }
}

// ---- before the check

// The number of rows to lend: `rows`, or 0 if the array is too short. Refusal 8 covers both cases, so the caller sees no difference.
pub fn lent_rows(rows: usize) -> usize
    ensures { (result ≡ front_of rows) × (result ≤ journal_limit) }
{
    if rows <= JOURNAL_LIMIT {
        return rows;
    }
    0
}

// ---- after the check

// Returns `i`, if a journal may have that row, or else row 0: a row that can be read.
pub fn row_number(i: usize) -> usize
    ensures { (result ≡ place_of i) × (result < journal_limit) }
{
    if i < JOURNAL_LIMIT {
        return i;
    }
    0
}

// Returns what to write after `answer` on a file of `size` bytes: the row of a broken answer, with the whole file. Where nothing is broken, it
// names a row that is not below the used ones, so that no run is written, and no byte of the file, so that it is not read again.
fn broken_row(answer: Answer, size: usize) -> RowToWrite
    ensures { result ≡ name_of answer size }
{
    match answer {
        Answer::Ended(_, _) => RowToWrite {
            used: 0,
            row: 0,
            bytes: 0,
        },
        Answer::Broken(row, totals) => RowToWrite {
            used: totals.used,
            row,
            bytes: size,
        },
    }
}

// The same after a check; a refused one has nothing to write.
pub fn row_to_write<E: Copy>(checked: Result<Answer, E>, size: usize) -> RowToWrite
    ensures { result ≡ name_in checked size }
{
    match checked {
        Err(_) => RowToWrite {
            used: 0,
            row: 0,
            bytes: 0,
        },
        Ok(answer) => broken_row(answer, size),
    }
}

// ---- telling

// Returns the number that refused to write the run, or 0.
// (0 is what a host is told of a run that was written.)
fn refused_by<E: Refuses>(writing: Result<usize, E>) -> u64
    ensures { result ≡ refused_by (written_as E.says writing) }
{
    match writing {
        Err(refusal) => refusal.number(),
        Ok(_) => 0,
    }
}

// Returns the result of an answer that is not broken.
fn unbroken_result(code: u64, totals: Totals, sample: Row) -> CheckResult
    ensures { result ≡ unbroken_by code totals sample }
{
    CheckResult {
        code,
        place: 0,
        joins: totals.joins,
        used: totals.used as u64,
        pass: totals.pass,
        row: ABSENT,
        pairs: 0,
        length: 0,
        refused: 0,
        head: 0,
        sample,
    }
}

// A broken answer with its row.
fn broken_result<E: Refuses>(
    i: usize,
    totals: Totals,
    row: Row,
    sample: Row,
    writing: Result<usize, E>,
) -> CheckResult
    ensures { result ≡ broken_by i totals row sample (refused_by (written_as E.says writing)) }
{
    let relation = row.relation;
    CheckResult {
        code: BROKEN,
        place: 0,
        joins: totals.joins,
        used: totals.used as u64,
        pass: totals.pass,
        row: i as u64,
        pairs: relation.pairs() as u64,
        length: row.len,
        refused: refused_by(writing),
        head: row.head,
        sample,
    }
}

fn answer_result<E: Refuses>(
    answer: Answer,
    row: Row,
    sample: Row,
    writing: Result<usize, E>,
) -> CheckResult
    ensures { result ≡ told_of answer row sample (refused_by (written_as E.says writing)) }
{
    match answer {
        Answer::Ended(unbroken, totals) => unbroken_result(
            search_step::code_of(unbroken) as u64,
            totals,
            sample,
        ),
        Answer::Broken(i, totals) => broken_result(i, totals, row, sample, writing),
    }
}

// Builds the host's result. `row` is the journal row of a broken answer and is ignored for every other; `sample` is passed through; `writing`
// says whether the run of a broken answer was written.
pub fn to_result<E: Refuses, F: Refuses>(
    checked: Result<Answer, E>,
    row: Row,
    sample: Row,
    writing: Result<usize, F>,
) -> CheckResult
    ensures { result ≡ told_as E.says checked row sample (refused_by (written_as F.says writing)) }
{
    match checked {
        Err(refusal) => CheckResult {
            code: refusal.number(),
            place: refusal.place() as u64,
            joins: 0,
            used: 0,
            pass: 0,
            row: 0,
            pairs: 0,
            length: 0,
            refused: 0,
            head: 0,
            sample,
        },
        Ok(answer) => answer_result(answer, row, sample, writing),
    }
}

// The same where no run is written, and so none is refused.
pub fn to_unwritten<E: Refuses>(checked: Result<Answer, E>, row: Row) -> CheckResult
    ensures { result ≡ told_as E.says checked row row 0 }
{
    to_result(checked, row, row, Ok::<usize, E>(0))
}
