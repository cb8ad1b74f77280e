// What each public call answers, as definitions on a file's bytes, and the theorems about them. And what the calls share in code: a row of
// the lent journal, with its limits, and the options of a check. Definitions in specs/: Base (the order over relations, a set of starting
// nonterminals), Replies (a call answers or refuses), Checking, Judging, Recognizing, Listing, Writing (the five calls), Gaps (what is to
// be listed), DemandThree (what an answer promises), Codes (the numbers of the verdicts), Printing (the program's text), Rows (how the
// code's rows, rules and options are read). Theorems: Promising and Truth (an answer keeps its promises), VerdictTruth, JournalTruth,
// JudgingTruth, StrikingTruth, WritingTruth, ReplyLaws, BaseLaws; OldFiles (what stays of a file from before request C-14); ListingTruth, by
// MoveCounts (how many transitions a pair has), GapLists (what the list has, its order, its length) and OnePath (what an empty list promises);
// MemberLaws (the members of a set), AsSoFar (for the initial nonterminal alone the check is the one before request C-18, which is in SoFar).
// Computed: Cases (document 01's P table, remarks, plans without runs, sets), Examples, Pins (what only a definition's text settles).
#![tactic(auto)]

ghost use Rattle.std.specs.Prelude.{◌≡◌, ◌+◌};
ghost use Rattle.spec_order.specs.Journal.{capped};
ghost use Rattle.spec_calls.specs.Base.{members_of, is_one_of};
ghost use Rattle.spec_calls.specs.Rows.{blank};

use relation::Effect;
use spec_file::NONTERMINALS;

// The most rows of a journal.
pub const JOURNAL_LIMIT: usize = 4096;

// The pointer of a symbol that is a terminal, or is not there.
pub const ABSENT: u64 = 65535;

// The length of a word of this many letters, and of every longer one.
pub const LONG_WORD: u64 = 65535;

// A kept effect. A pointer is the number of an older row, or ABSENT; a length is exact below LONG_WORD; a live row is retired in pass 0. A host
// may lend its own rows (`include/bolfrega.h` names their eleven words): C's layout.
#[repr(C)]
#[derive(Clone, Copy)]
pub struct Row {
    pub head: u64,
    pub rule: u64,
    pub relation: Effect,
    pub left: u64,
    pub right: u64,
    pub len: u64,
    pub birth: u64,
    pub retired: u64,
}

impl Row {
    // Returns a row of zeros: what a host's journal begins with, and what is read where a place has no row.
    pub fn blank() -> Row
        ensures { result ≡ blank }
    {
        Row {
            head: 0,
            rule: 0,
            relation: Effect::empty(),
            left: 0,
            right: 0,
            len: 0,
            birth: 0,
            retired: 0,
        }
    }
}

// What a caller chooses for a check beside the file and the journal: `budget` is the number of joins that it may make, and `starts` the set of
// the nonterminals whose words have to be accepted, bit p for nonterminal p. One struct, so that one choice more changes the calls that make
// it or read the field, and no call between them.
#[derive(Clone, Copy)]
pub struct Options {
    pub budget: u64,
    pub starts: u64,
}

// The set of the initial nonterminal alone.
pub const INITIAL_ALONE: u64 = 1;

// Returns whether the nonterminal `p` is in `set`. A byte that is no nonterminal is in no set.
pub fn is_member(set: u64, p: u8) -> bool
    ensures { result ≡ is_one_of (members_of set) p }
{
    if NONTERMINALS <= p {
        return false;
    }
    let place = p as u32;
    (set >> place) & 1 == 1
}

// Returns the sum of the lengths `a` and `b`, or LONG_WORD where it is that or more.
pub fn capped_sum(a: u64, b: u64) -> u64
    ensures { result ≡ capped (a + b) }
{
    if a < LONG_WORD {
        if b < LONG_WORD - a {
            return a + b;
        }
    }
    LONG_WORD
}
