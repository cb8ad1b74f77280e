// One file: compares the answer of the inclusion check with the unpruned search, and with its own answers over other journals and budgets.
use call_judge::Judged;
use host_result::CheckResult;
use relation::Relation;
use spec_calls::{INITIAL_ALONE, Options, Row};
use test_random::Trial;
use test_unpruned::{Entry, FIELDS, LEFT, LENGTH, Numbers, Verdict, rows, same_relation};

const ROWS: usize = 1024;

const MORE_ROWS: usize = 2048;

const BUDGET: u64 = 1000000;

const LARGER_BUDGET: u64 = 4000000;

// The number that refuses a move on a remark.
const ON_REMARK: u64 = 12;

// How many rows of a journal are compared: no file uses as many.
const KEPT: usize = 64;

// ---- rows as numbers

// Returns a row as numbers, its relation as some of them.
fn numbers(row: Row) -> Numbers {
    let relation = row.relation;
    let mut words = [0; relation::WORDS];
    relation.store(&mut words, 0);
    [
        row.head,
        row.rule,
        words[0],
        words[1],
        words[2],
        words[3],
        row.left,
        row.right,
        row.len,
        row.birth,
        row.retired,
    ]
}

// Returns the row of these numbers.
fn row_of(x: Numbers) -> Row {
    let words = [x[2], x[3], x[4], x[5]];
    Row {
        head: x[0],
        rule: x[1],
        relation: Relation::read(&words, 0),
        left: x[6],
        right: x[7],
        len: x[8],
        birth: x[9],
        retired: x[10],
    }
}

// Returns how many rows to compare where `used` rows are used: two more, so that there are rows that should be untouched.
fn looked_at(used: u64) -> usize {
    if used < 62 {
        return used as usize + 2;
    }
    KEPT
}

// ---- checks

fn ask(file: &[u8], rows: usize, old: Row, budget: u64, sample_row: usize) -> CheckResult {
    let mut buffer = [0u8; 4096];
    host_check::check_and_write(
        file,
        rows,
        old,
        Options {
            budget,
            starts: INITIAL_ALONE,
        },
        sample_row,
        &mut buffer,
    )
}

// Stores the first `count` rows that a check leaves in `journal`, each from a check of its own.
fn collect(file: &[u8], rows: usize, old: Row, budget: u64, count: usize, journal: &mut [Numbers]) {
    for (i, row) in journal.iter_mut().take(count).enumerate() {
        let told = ask(file, rows, old, budget, i);
        *row = numbers(told.sample);
    }
}

fn same(x: CheckResult, y: CheckResult) -> bool {
    (x.code == y.code)
        & (x.row == y.row)
        & (x.joins == y.joins)
        & (x.used == y.used)
        & (x.pass == y.pass)
}

// Returns the word of a broken answer, which stands at the front of `buffer`, or none where the buffer is shorter than the word.
fn word_told(told: CheckResult, buffer: &[u8]) -> Option<&[u8]> {
    let size = told.length as usize;
    if buffer.len() < size {
        return None;
    }
    Some(&buffer[..size])
}

fn turned_away(file: &[u8], word: &[u8]) -> bool {
    call_judge::judge(file, word) == Ok(Judged::TurnedAway)
}

// Tests whether the word in `buffer` is as long as the broken row says, is turned away, and has the row's relation.
fn shown(file: &[u8], journal: &[Numbers], told: CheckResult, buffer: &[u8]) -> bool {
    let row = told.row as usize;
    if journal.len() <= row {
        return false;
    }
    let held = journal[row];
    let Some(word) = word_told(told, buffer) else {
        return false;
    };
    (told.refused == 0)
        & (held[LENGTH] == told.length)
        & turned_away(file, word)
        & same_relation(rows::relation_of(held), test_unpruned::word(file, word))
}

// Returns the number of the verdict that the unpruned search gives for the set `starts`.
fn expected(verdict: Verdict, starts: u64) -> u64 {
    if verdict.turned & starts != 0 {
        return host_result::BROKEN;
    }
    if verdict.worded & starts == starts {
        return host_result::HOLDS;
    }
    host_result::EMPTY
}

// Tests whether the verdict is the one of the unpruned search, and a broken one has a word to show.
fn right(
    file: &[u8],
    journal: &[Numbers],
    told: CheckResult,
    buffer: &[u8],
    verdict: Verdict,
) -> bool {
    if told.code == host_result::BROKEN {
        return (expected(verdict, INITIAL_ALONE) == host_result::BROKEN)
            & shown(file, journal, told, buffer);
    }
    told.code == expected(verdict, INITIAL_ALONE)
}

// Tests whether the used rows have relations that the unpruned search found, and the live ones are an antichain; if the check holds or is empty,
// no relation is without a live row below it, so that the live rows are the smallest relations.
fn accounted(journal: &[Numbers], told: CheckResult, found: &[Entry]) -> bool {
    let used = &journal[..journal.len().min(told.used as usize)];
    let sound = rows::sound(used, found);
    if (told.code == host_result::HOLDS) | (told.code == host_result::EMPTY) {
        return sound & rows::covering(used, found);
    }
    sound
}

// Tests whether a longer journal and a larger budget give the same answer and the same rows.
fn same_with_more(file: &[u8], journal: &[Numbers], told: CheckResult) -> bool {
    let mut longer = [[0u64; FIELDS]; KEPT];
    let again = ask(file, MORE_ROWS, Row::blank(), LARGER_BUDGET, 0);
    let n = looked_at(again.used);
    collect(file, MORE_ROWS, Row::blank(), LARGER_BUDGET, n, &mut longer);
    same(told, again) & rows::same(journal, &longer, 0, told.used as usize)
}

// Returns a row that no file uses, one of the 960 from row 64 on, by a number below 1,024.
fn far_row(drawn: u64) -> usize {
    KEPT + (drawn % 960) as usize
}

// Tests whether a journal with other old contents gives the same answer and the same rows, and the rest of it is untouched.
fn same_with_old(file: &[u8], journal: &[Numbers], told: CheckResult, old: Numbers) -> bool {
    let mut other = [old; KEPT];
    let again = ask(file, ROWS, row_of(old), BUDGET, 0);
    let n = looked_at(again.used);
    collect(file, ROWS, row_of(old), BUDGET, n, &mut other);
    let far = ask(file, ROWS, row_of(old), BUDGET, far_row(old[LEFT]));
    let fresh = [old; KEPT];
    let used = told.used as usize;
    same(told, again)
        & rows::same(journal, &other, 0, used)
        & rows::same(&other, &fresh, used, KEPT)
        & rows::same_row(numbers(far.sample), old)
}

// Tests an answer with few rows and a small budget: it is full or spent just where the rows or the joins run out, and else the same answer.
fn fair(told: CheckResult, small: CheckResult, few: usize, budget: u64) -> bool {
    if small.code == host_result::SPENT {
        return (small.joins == budget) & (budget < told.joins);
    }
    if small.code == host_result::FULL {
        return (small.used == few as u64) & ((few as u64) < told.used);
    }
    same(told, small)
}

// ---- sets of nonterminals

// Returns the set that is tried: the drawn one, or of it those that have a word, or those of which none is turned away, or both.
fn tried(drawn: u64, kind: u64, verdict: Verdict) -> u64 {
    let calm = drawn & !verdict.turned;
    match kind {
        0 => drawn,
        1 => drawn & verdict.worded,
        2 => calm,
        _ => calm & verdict.worded,
    }
}

// Tests whether `word` is a word of the nonterminal `head`, by the list: it has one with the word's relation.
fn is_word(file: &[u8], found: &[Entry], head: u64, word: &[u8]) -> bool {
    let symbol = test_unpruned::TERMINALS + head % test_unpruned::NONTERMINALS;
    let relation = test_unpruned::word(file, word);
    test_unpruned::listed(found, test_unpruned::pair(symbol, relation))
}

// Tests whether a broken answer to a check from the set `starts` shows a word of a member, and that is turned away.
fn shown_from(file: &[u8], found: &[Entry], starts: u64, told: CheckResult, buffer: &[u8]) -> bool {
    let Some(word) = word_told(told, buffer) else {
        return false;
    };
    (told.refused == 0)
        & ((starts >> (told.head % 64)) % 2 == 1)
        & is_word(file, found, told.head, word)
        & turned_away(file, word)
}

// The verdict's number of a check from a set, and whether it is right.
#[derive(Clone, Copy)]
struct FromSet {
    code: u64,
    right: bool,
}

// Checks `file` from the set `starts`, and compares with the unpruned search.
fn check_from(file: &[u8], found: &[Entry], verdict: Verdict, starts: u64) -> FromSet {
    let mut buffer = [0u8; 4096];
    let options = Options {
        budget: BUDGET,
        starts,
    };
    let told = host_check::check_and_write(file, ROWS, Row::blank(), options, 0, &mut buffer);
    let shows = (told.code != host_result::BROKEN) | shown_from(file, found, starts, told, &buffer);
    FromSet {
        code: told.code,
        right: (told.code == expected(verdict, starts)) & shows,
    }
}

// ---- a file

// Returns 6, the number of this comparison, unless the check of `file` is refused with 12 at record `record`, its first move on a remark.
pub fn refusal(file: &[u8], record: usize) -> Option<u64> {
    let told = ask(file, ROWS, Row::blank(), BUDGET, 0);
    if (told.code == ON_REMARK) & (told.place == record as u64) {
        return None;
    }
    Some(6)
}

// The result for one file: the verdict and the used rows, the verdict with few rows and a small budget, the verdict from a set, and the number
// of the first comparison that failed.
#[derive(Clone, Copy)]
pub struct Outcome {
    pub verdict: u64,
    pub used: u64,
    pub small: u64,
    pub from_set: u64,
    pub failing: Option<u64>,
}

// Makes the comparisons of `file`, of which the unpruned search has listed `found` and given `verdict`.
pub fn compare(file: &[u8], found: &[Entry], verdict: Verdict, trial: Trial) -> Outcome {
    let mut buffer = [0u8; 4096];
    let old = Row::blank();
    let told = host_check::check_and_write(
        file,
        ROWS,
        old,
        Options {
            budget: BUDGET,
            starts: INITIAL_ALONE,
        },
        0,
        &mut buffer,
    );
    let mut journal = [[0u64; FIELDS]; KEPT];
    let n = looked_at(told.used);
    collect(file, ROWS, old, BUDGET, n, &mut journal);
    let small = ask(file, trial.few, old, trial.budget, 0);
    let other = trial.old;
    let starts = tried(trial.set, trial.budget % 4, verdict);
    let from_set = check_from(file, found, verdict, starts);
    let comparisons = [
        (1, right(file, &journal, told, &buffer, verdict)),
        (2, accounted(&journal, told, found)),
        (3, same_with_more(file, &journal, told)),
        (4, same_with_old(file, &journal, told, other)),
        (5, fair(told, small, trial.few, trial.budget)),
        (7, from_set.right),
    ];
    let failing = comparisons.iter().find(|(_, right)| !*right);
    Outcome {
        verdict: told.code,
        used: told.used,
        small: small.code,
        from_set: from_set.code,
        failing: failing.map(|(number, _)| *number),
    }
}
