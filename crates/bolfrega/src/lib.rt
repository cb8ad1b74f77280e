// The library for hosts in C and Rust: the calls of document 01 as functions on numbers and lent bytes. No function asks anything of
// its caller. A result below 100 is the number that refused the call; from 100 on it is an answer (the verdicts' numbers are in
// `host_result`). `include/bolfrega.h` says the same to C.
#![tactic(auto)]

ghost use Rattle.std.specs.Prelude.{◌≡◌, [], ◌∷◌, ◌++◌};
ghost use Rattle.spec_file.specs.Answers.{said_by};
ghost use Rattle.spec_calls.specs.Rows.{blank};
ghost use Rattle.host_result.specs.Results.{numbers_in};
ghost use Rattle.host_check.specs.Clauses.{ChecksAlone};
ghost use Rattle.bolfrega.specs.Codes.{version, record_code, record_values};
ghost use Rattle.bolfrega.specs.Clauses.{Refuses, StepsFrom, MovesAt, Judges, Recognizes, ListsGaps, ToldSize, WidensFile, NarrowsFile, UnfoldsFile, ChecksZeros, ChecksFrom, of_initial, ChecksRows, WritesRun};
ghost use Rattle.bolfrega.specs.OwnRows.{ToldRows};
ghost use Rattle.spec_calls.specs.Base.{initial_alone};

use call_judge::Judged;
use call_member::Recognized;
use host_result::CheckResult;
use relation::Letter;
use search_cover::NEAR_WORDS;
use search_laws::Answer;
use search_state::CELLS;
use spec_calls::{INITIAL_ALONE, Options, Row};
use spec_file::{Record, Refusal};

// (Numbers, since C has them.)
const VERSION: u64 = 3;

const ACCEPTED: u64 = 110;

const TURNED_AWAY: u64 = 111;

const DERIVED: u64 = 112;

const NOT_DERIVED: u64 = 113;

const LISTED: u64 = 114;

const CONVERTED: u64 = 115;

const WRITTEN: u64 = 116;

const RULE: u64 = 117;

const MOVE: u64 = 118;

const FINISHING: u64 = 119;

const ENDED: u64 = 120;

// Returns the version of this interface.
#[unsafe(no_mangle)]
pub extern "C" fn bolfrega_version() -> u64
    ensures { result ≡ version }
{
    VERSION
}

// Returns the number that refuses `file`, or 0. Stores the number of the refused record, counted from 0, in `place`, or 0 where none is.
#[unsafe(no_mangle)]
pub extern "C" fn bolfrega_refusal(file: &[u8], place: &mut u64) -> u64
    ensures { Refuses file.now result place.new }
{
    match file_whole::file_refusal(file) {
        Ok(()) => {
            *place = 0;
            0
        }
        Err(refusal) => {
            *place = refusal.place as u64;
            refusal.fault.number()
        }
    }
}

// Returns the number of what `found` is.
fn record_code(found: Record) -> u64
    ensures { result ≡ record_code (said_by found) }
{
    match found {
        Record::Rule(_) => RULE,
        Record::Transition(_) => MOVE,
        Record::Final(_) => FINISHING,
    }
}

// Returns what `found` says, as four numbers.
fn record_values(found: Record) -> [u64; 4]
    ensures { result ≡ record_values (said_by found) }
{
    match found {
        Record::Rule(rule) => [
            rule.head as u64,
            rule.size as u64,
            rule.first as u64,
            rule.second as u64,
        ],
        Record::Transition(transition) => [
            transition.source as u64,
            transition.letter as u64,
            transition.target as u64,
            0,
        ],
        Record::Final(state) => [state as u64, 0, 0, 0],
    }
}

// Reads the record at `from` of `file`: returns RULE, MOVE or FINISHING, ENDED past the last record, or the number that refuses the step.
// Stores what the record says in `values`, zeros where none came; the place of the next record in `next`, or `from` where none came; and
// the refused record's number in `place`, or 0.
#[unsafe(no_mangle)]
pub extern "C" fn bolfrega_step(
    file: &[u8],
    from: usize,
    place: &mut u64,
    values: &mut [u64; 4],
    next: &mut u64,
) -> u64
    ensures { StepsFrom file.now from result place.new values.new next.new }
{
    match file_reader::step_at(file, from) {
        Ok(Some((record, after))) => {
            *place = 0;
            *values = record_values(record);
            *next = after as u64;
            record_code(record)
        }
        Err(stopped) => {
            *place = stopped.place as u64;
            *values = [0, 0, 0, 0];
            *next = from as u64;
            stopped.fault.number()
        }
        Ok(None) => {
            *place = 0;
            *values = [0, 0, 0, 0];
            *next = from as u64;
            ENDED
        }
    }
}

// Stores where the moves of `file` stand in it: from the byte `offset` on, `length` bytes; both are 0 where the file is refused.
#[unsafe(no_mangle)]
pub extern "C" fn bolfrega_moves(file: &[u8], offset: &mut u64, length: &mut u64)
    ensures { MovesAt file.now offset.new length.new }
{
    if file_whole::file_refusal(file).is_err() {
        *offset = 0;
        *length = 0;
        return;
    }
    *offset = file_views::rule_count(file) as u64 * 8;
    *length = file_views::transition_count(file) as u64 * 8;
}

// Judges `run` by the sheet in `file`: returns ACCEPTED, TURNED_AWAY, or the number that refuses the call. Stores the number of the refused
// record in `place`, or 0 where none is.
#[unsafe(no_mangle)]
pub extern "C" fn bolfrega_judge(file: &[u8], run: &[u8], place: &mut u64) -> u64
    ensures { Judges file.now run.now result place.new }
{
    match call_judge::judge(file, run) {
        Ok(Judged::Accepted) => {
            *place = 0;
            ACCEPTED
        }
        Ok(Judged::TurnedAway) => {
            *place = 0;
            TURNED_AWAY
        }
        Err(refused) => {
            *place = refused.place as u64;
            refused.fault.number()
        }
    }
}

// Returns whether the plan derives the `run`: DERIVED, NOT_DERIVED, or the number that refuses the call, with `place` as above. Stores in bit
// p of each cell of `table` whether procedure p derives the cell's stretch of the run; a refused call leaves `table` as it was.
#[unsafe(no_mangle)]
pub extern "C" fn bolfrega_recognize(
    file: &[u8],
    run: &[u8],
    place: &mut u64,
    table: &mut [u64],
) -> u64
    ensures { Recognizes file.now run.now table.old table.new result place.new }
{
    match call_member::recognize(file, run, table) {
        Ok(Recognized::Derived) => {
            *place = 0;
            DERIVED
        }
        Ok(Recognized::NotDerived) => {
            *place = 0;
            NOT_DERIVED
        }
        Err(found) => {
            *place = found.place as u64;
            found.fault.number()
        }
    }
}

// Tells a size: returns `code` where `answer` has one, or the number that refuses the call. Stores the number of the refused record in `place`, or
// 0, and in `size` what the answer has, 0 for a refused call.
fn tell_size(answer: Result<usize, Refusal>, code: u64, place: &mut u64, size: &mut u64) -> u64
    ensures { ToldSize code answer result place.new size.new }
{
    match answer {
        Ok(n) => {
            *place = 0;
            *size = n as u64;
            code
        }
        Err(why) => {
            *place = why.place as u64;
            *size = 0;
            why.fault.number()
        }
    }
}

// Lists the gaps and doubles of the sheet in `file`: returns LISTED, or the number that refuses the call, with `place` as above. Stores their
// count in `entries`, 0 for a refused call, and writes them to the front of `list`, each as stage, code and number of moves. The other bytes
// of `list` keep their values, and a refused call leaves all of them as they were.
#[unsafe(no_mangle)]
pub extern "C" fn bolfrega_list(
    file: &[u8],
    place: &mut u64,
    entries: &mut u64,
    list: &mut [u8],
) -> u64
    ensures { ListsGaps file.now list.old list.new result place.new entries.new }
{
    let listed = call_gaps::list(file, list);
    tell_size(listed, LISTED, place, entries)
}

// ---- the other form of records

// Moves `file`, of eight-byte records, over to sixteen bytes: returns CONVERTED, or the number that refuses the call, with `place` as
// above. Stores the result's length in `length`, 0 for a refused call, and writes the result to the front of `out`. The other bytes of `out`
// keep their values, and a refused call leaves all of them as they were.
#[unsafe(no_mangle)]
pub extern "C" fn bolfrega_widen(
    file: &[u8],
    place: &mut u64,
    length: &mut u64,
    out: &mut [u8],
) -> u64
    ensures { WidensFile file.now out.old out.new result place.new length.new }
{
    let moved = call_move::widen(file, out);
    tell_size(moved, CONVERTED, place, length)
}

// Moves `file`, of sixteen-byte records, back to eight bytes; its numbers and lent places are those of `bolfrega_widen`.
#[unsafe(no_mangle)]
pub extern "C" fn bolfrega_narrow(
    file: &[u8],
    place: &mut u64,
    length: &mut u64,
    out: &mut [u8],
) -> u64
    ensures { NarrowsFile file.now out.old out.new result place.new length.new }
{
    let moved = call_move::narrow(file, out);
    tell_size(moved, CONVERTED, place, length)
}

// Unfolds `file`, of sixteen-byte records, into a file of eight-byte records for a check, with chain procedures for its longer bodies; its
// numbers and lent places are those of `bolfrega_widen`.
#[unsafe(no_mangle)]
pub extern "C" fn bolfrega_unfold(
    file: &[u8],
    place: &mut u64,
    length: &mut u64,
    out: &mut [u8],
) -> u64
    ensures { UnfoldsFile initial_alone file.now out.old out.new result place.new length.new }
{
    let moved = call_unfold::unfold(file, INITIAL_ALONE, out);
    tell_size(moved, CONVERTED, place, length)
}

// As `bolfrega_unfold`, for the set `starts` of starting procedures, bit p for procedure p: none of them becomes a chain procedure.
#[unsafe(no_mangle)]
pub extern "C" fn bolfrega_unfold_from(
    file: &[u8],
    starts: u64,
    place: &mut u64,
    length: &mut u64,
    out: &mut [u8],
) -> u64
    ensures { UnfoldsFile starts file.now out.old out.new result place.new length.new }
{
    let moved = call_unfold::unfold(file, starts, out);
    tell_size(moved, CONVERTED, place, length)
}

// ---- the check

// The eight details in the order of the header.
fn details_of(told: CheckResult) -> [u64; 8]
    ensures { result ≡ numbers_in told }
{
    [
        told.place,
        told.joins,
        told.used,
        told.pass,
        told.row,
        told.pairs,
        told.length,
        told.refused,
    ]
}

// The nine details in the order of the header: the eight, and the procedure.
fn nine_of(told: CheckResult) -> [u64; 9]
    ensures { result ≡ numbers_in told ++ (told.head ∷ []) }
{
    let eight = details_of(told);
    [
        eight[0], eight[1], eight[2], eight[3], eight[4], eight[5], eight[6], eight[7], told.head,
    ]
}

// Checks `file` with these `options` over a journal of `rows` rows of zeros, and writes the run of a broken answer to `buffer`.
fn check_zeros(file: &[u8], rows: usize, options: Options, buffer: &mut [u8]) -> CheckResult
    ensures { ChecksAlone file.now rows blank options 0 buffer.old buffer.new result }
{
    host_check::check_and_write(file, rows, Row::blank(), options, 0, buffer)
}

// Checks the plan in `file` against its sheet over a journal of `rows` rows of zeros, with a budget of `budget` joins. Returns the verdict's
// number, or the number that refuses the call. Stores in `details` the refused record's number, joins, used rows, pass, and for a broken
// answer the row, its pairs, its length and the number that refuses to write its run, or 0. Writes a run that is not refused to the front of
// `buffer`; otherwise `buffer` keeps its bytes.
#[unsafe(no_mangle)]
pub extern "C" fn bolfrega_check(
    file: &[u8],
    rows: usize,
    budget: u64,
    details: &mut [u64; 8],
    buffer: &mut [u8],
) -> u64
    ensures { ChecksZeros file.now (of_initial rows budget) details.new buffer.old buffer.new result }
{
    let options = Options {
        budget,
        starts: INITIAL_ALONE,
    };
    let told = check_zeros(file, rows, options, buffer);
    *details = details_of(told);
    told.code
}

// As `bolfrega_check`, for the set `starts` of starting procedures, bit p for procedure p: checks that the sheet accepts every run of every
// member. Stores in the last of `details` the procedure of the run that is shown, 0 unless broken.
#[unsafe(no_mangle)]
pub extern "C" fn bolfrega_check_from(
    file: &[u8],
    starts: u64,
    rows: usize,
    budget: u64,
    details: &mut [u64; 9],
    buffer: &mut [u8],
) -> u64
    ensures { ChecksFrom file.now (record { rows = rows; budget = budget; starts = starts }) details.new buffer.old buffer.new result }
{
    let options = Options { budget, starts };
    let told = check_zeros(file, rows, options, buffer);
    *details = nine_of(told);
    told.code
}

// ---- over a host's own rows

// Stores the nine details of `checked` in `details`, where `row` is the row that a broken answer names, and returns its number.
fn tell_rows(checked: Result<Answer, Refusal>, row: Row, details: &mut [u64; 9]) -> u64
    ensures { ToldRows checked row result details.new }
{
    let told = host_result::to_unwritten(checked, row);
    *details = nine_of(told);
    told.code
}

// As `bolfrega_check_from`, over the rows of `journal`, which the host lends, in a `table` and in words (`near`) that it lends too. All three
// may have any contents: nothing is cleared but what is read. The rows that the check uses are those of `journal` then; the others keep their
// contents, and a refused call leaves all of them as they were. No run is written, so the detail of that is 0.
#[unsafe(no_mangle)]
pub extern "C" fn bolfrega_check_rows(
    file: &[u8],
    starts: u64,
    budget: u64,
    journal: &mut [Row],
    table: &mut [u32; CELLS],
    near: &mut [Letter; NEAR_WORDS],
    details: &mut [u64; 9],
) -> u64
    ensures { ChecksRows file.now (record { budget = budget; starts = starts }) journal.old journal.new details.new result }
{
    let options = Options { budget, starts };
    let checked = call_check::check_in(file, journal, table, near, options);
    let named = host_result::row_to_write(checked, 0);
    let row = host_check::row_at(journal, named.row);
    tell_rows(checked, row, details)
}

// Writes the run behind row `row` of `journal`, of which `used` rows are used, to the front of `buffer`: returns WRITTEN, or the number that
// refuses the call, with `place` as above. Stores the run's length in `length`, 0 for a refused call. The other bytes of `buffer` keep their
// values, and a refused call leaves all of them as they were.
#[unsafe(no_mangle)]
pub extern "C" fn bolfrega_write(
    file: &[u8],
    journal: &[Row],
    used: usize,
    row: usize,
    place: &mut u64,
    length: &mut u64,
    buffer: &mut [u8],
) -> u64
    ensures { WritesRun file.now journal.now used row buffer.old buffer.new result place.new length.new }
{
    let writing = call_write::write(file, journal, used, row, buffer);
    tell_size(writing, WRITTEN, place, length)
}
