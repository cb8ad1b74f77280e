// The state of the search, by value, and what is said of one candidate on its way through it. No effect is named here: these types are the
// same whatever an effect is.
#![tactic(auto)]

ghost use Rattle.std.specs.Prelude.{◌≤◌, ◌≡◌};
ghost use Rattle.search_state.specs.Budgets.{is_spent};
ghost use Rattle.search_state.specs.Positions.{position_row, first_at};
ghost use Rattle.search_state.specs.Fates.{fate_in};
ghost use Rattle.search_state.specs.NextPass.{next_pass};

use relation::StateSet;

// ---- the table (one array of cells, and rows by their numbers: hosts lend it, and there is no heap)

// The search finds rows through one array of cells of 32 bits, and this is where it has what:
//
//   0           FIRSTS       LASTS        SLOTS              LISTS                       LISTS + STEPS                    CELLS
//   |  links    |  firsts    |  lasts     |  slots           |  lists                     |  steps       |  ends         |
//   |  ROWS     |  HEADS     |  HEADS     |  SLOT_CELLS      |  links and firsts, copied  |  PROCEDURES  |  PROCEDURES   |
//
// Links: cell i has the live row after row i in the list of its nonterminal. Firsts: cell FIRSTS + x has the first live row of nonterminal x.
// Lasts and slots are hints, rows to compare first: cell LASTS + x has the row of x that covered last, and a slot has a row by its nonterminal
// and relation. Lists: the links and firsts as they were when the pass began. Steps and ends: how far the list of procedure x goes over old
// rows, the number of steps from its first row and the row where they end. What is in the lists and behind them is numbered from cell LISTS
// on: FIRSTS + x, STEPS + x, ENDS + x.
pub const ROWS: usize = spec_calls::JOURNAL_LIMIT;

pub const HEADS: usize = 256;

// A digest is below 32,749, and sixteen times a nonterminal is added to it.
pub const SLOT_CELLS: usize = 36864;

pub const FIRSTS: usize = ROWS;

pub const LASTS: usize = FIRSTS + HEADS;

pub const SLOTS: usize = LASTS + HEADS;

pub const LISTS: usize = SLOTS + SLOT_CELLS;

// Of each procedure the steps and the end are kept.
pub const PROCEDURES: usize = spec_file::NONTERMINALS as usize;

pub const STEPS: usize = FIRSTS + HEADS;

pub const ENDS: usize = STEPS + PROCEDURES;

pub const CELLS: usize = LISTS + ENDS + PROCEDURES;

// Positions are numbers and no Options, since a cell of the lent table is one: ABSENT and END are above every row, so one comparison rules out both.

// The position of a symbol that is no row.
pub const ABSENT: usize = spec_calls::ABSENT as usize;

// No position is left: what a cell has that leads to no row.
pub const END: usize = ABSENT + 1;

// The same as a cell: a table of these has no row in any list.
pub const END_CELL: u32 = END as u32;

// ---- the state

// Where a candidate stands in a pass: its rule, and the rows of its two symbols.
#[derive(Clone, Copy)]
pub struct Place {
    pub rule: usize,
    pub left: usize,
    pub right: usize,
}

impl Place {
    // The first place of `rule` with these two positions. Places are made by these two functions alone, so that a coordinate more is added here.
    pub fn first(rule: usize, left: usize, right: usize) -> Place
        ensures { result ≡ first_at rule left right }
    {
        Place { rule, left, right }
    }

    // The first place with another right position.
    pub fn with_right(self, right: usize) -> Place
        ensures { result ≡ first_at self.rule self.left right }
    {
        Place {
            rule: self.rule,
            left: self.left,
            right,
        }
    }
}

// The rows used and the joins made since the check began, and the rows added since the pass began. Whether a pass was the last is read from
// `added`: where rows may be dropped, `used` can not tell.
#[derive(Clone, Copy)]
pub struct Counts {
    pub used: usize,
    pub joins: u64,
    pub added: usize,
}

// What does not change in a pass: the joins that may be made, the set of the nonterminals whose words have to be accepted (`starts`), the
// final states, the number of the pass, and the rows used when it began (`present`) and when the pass before began (`old`). What is formed of
// old rows alone was formed in the pass before.
#[derive(Clone, Copy)]
pub struct Terms {
    pub budget: u64,
    pub starts: u64,
    pub finals: StateSet,
    pub pass: u64,
    pub present: usize,
    pub old: usize,
}

impl Terms {
    // Returns whether the budget is used up by `joins` joins: the only place where this is decided. No check makes more joins than its
    // budget, so "at least" says the same as document 01's "equal", and leaves room for one more join where it is false.
    pub fn spent(self, joins: u64) -> bool
        ensures { result ≡ is_spent self.budget joins }
    {
        self.budget <= joins
    }

    // Returns the terms of the next pass, which begins with `used` rows.
    pub fn next_pass(self, used: usize) -> Terms
        requires { self.pass ≤ 65535 }
        ensures { result ≡ next_pass self used }
    {
        Terms {
            budget: self.budget,
            starts: self.starts,
            finals: self.finals,
            pass: self.pass + 1,
            present: used,
            old: self.present,
        }
    }
}

// A verdict that shows no row.
#[derive(Clone, Copy)]
pub enum Unbroken {
    Holds,
    Full,
    Spent,
    Empty,
}

// How far a search is: it goes on at a place, it has not begun, or it has ended with a verdict; a broken one names its row.
#[derive(Clone, Copy)]
pub enum Phase {
    Going,
    Waiting,
    Ended(Unbroken),
    Broken(usize),
}

// The search between two candidates. While its `phase` is `Going`, `place` is the candidate to form next, and `left_row` and `right_row` are the
// journal rows to read for it (0 if its body has no such row). `rows` is the journal's length, `rules` the number of rules.
#[derive(Clone, Copy)]
pub struct State {
    pub phase: Phase,
    pub left_row: usize,
    pub right_row: usize,
    pub terms: Terms,
    pub counts: Counts,
    pub place: Place,
    pub rows: usize,
    pub rules: usize,
}

// What comparing a journal row with a candidate gives: the row `covers` the candidate, or is strictly `larger` than it. A row that is not
// live, or is of another nonterminal, does neither.
// (Two tests of one row, each of which another step asks: an enum of their three outcomes would be taken apart at each.)
#[derive(Clone, Copy)]
pub struct Comparison {
    pub covers: bool,
    pub larger: bool,
}

// What becomes of a candidate of the nonterminal `head`: a row covers it (`covered`), or else the journal is `full`, or else it becomes a
// row, which `breaks` the plan or not.
// (Counting, inserting and hints each ask other flags: an enum of the four outcomes would be taken apart at each.)
#[derive(Clone, Copy)]
pub struct Fate {
    pub head: u8,
    pub covered: bool,
    pub full: bool,
    pub breaks: bool,
}

// Returns the row of `position` among the first `count` rows, or row 0 where `position` is no row: ABSENT and END are below no count.
pub fn position_row(position: usize, count: usize) -> usize
    ensures { result ≡ position_row position count }
{
    if position < count {
        return position;
    }
    0
}

// Decides what becomes of a candidate, from what is known of its effect: whether a row covers it, and whether it breaks as a new row. Whether
// the journal is full is asked here and nowhere else: inserting and counting are both given the answer, and where rows are to be used again
// (request C-19), it is asked after room was made.
pub fn fate_of(state: State, head: u8, covered: bool, breaks: bool) -> Fate
    ensures { result ≡ fate_in state head covered breaks }
{
    let counts = state.counts;
    Fate {
        head,
        covered,
        full: counts.used == state.rows,
        breaks,
    }
}
