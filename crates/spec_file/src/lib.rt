// What a plan file of 8-byte records says, and the types in which the code says it. Definitions in specs/: Limits (document 01's numbers),
// Forms (the forms of records, of 8 and of 16 bytes), Records (records and their bytes), Refusals (numbers 1 to 7 and 12), Reading and Walk (steps of a reader, the stretch),
// Views (the grammar and the automaton), Entries (counts, readings by number), Answers (the code's types as the definitions have them). Laws of
// a file that is not refused: Valid, Ranges, Sorted and Rising (rules first, then transitions, then finals), EntryLaws, StretchLaws; of reading
// by steps WalkLaws; of the order of refusals RefusalLaws.
#![tactic(auto)]

ghost use Rattle.std.specs.Prelude.{◌≡◌, true, false, MatchResult};
ghost use Rattle.spec_file.specs.Answers.{number_of, of_call, fault_of};

// The kinds of records. (Bytes of a file, where any other may stand too; what is read by them is a `Record`.)
pub const RULE_KIND: u8 = 1;

pub const TRANSITION_KIND: u8 = 2;

pub const FINAL_KIND: u8 = 3;

// The most rules and transitions of a file (document 01: rules, and moves), and the most records: a file has each state as a final one at most
// once.
pub const RULE_LIMIT: usize = 256;

pub const TRANSITION_LIMIT: usize = 1024;

pub const RECORD_LIMIT: usize = RULE_LIMIT + TRANSITION_LIMIT + relation::STATES as usize;

// Terminals are below this (document 01: step codes), and so are nonterminals (procedures) and the bytes of symbols, terminals first.
pub const TERMINALS: u8 = 128;

pub const NONTERMINALS: u8 = 64;

pub const SYMBOL_BYTES: u8 = TERMINALS + NONTERMINALS;

// The terminals from this one on are remarks (C-11), on which no transition may be.
pub const FIRST_REMARK: u8 = 120;

// The table of the terminals' relations, in their order: how many words it has, and its type.
pub const LETTER_WORDS: usize = TERMINALS as usize * relation::WORDS;

pub type Letters = [relation::Letter; LETTER_WORDS];

// Why a call is refused: each has a number in document 01 or 02, which hosts get.
#[derive(Clone, Copy, Debug, PartialEq, Eq)]
pub enum Fault {
    // 1 and 2: the file's length is no multiple of 8, or it has too many records.
    TornRecord,
    TooManyRecords,
    // 3 to 7, of one record.
    UnknownKind,
    AboveRange,
    StrayByte,
    NotRising,
    OverLimit,
    // 8 to 11: the lent journal, the row named for writing, the room for a result, the run.
    JournalSize,
    UnfitRow,
    NoRoom,
    UnfitRun,
    // 12, of one record: a transition on a remark.
    MoveOnRemark,
    // 13 to 15: a run too long to be recognized, its table, the room for a list.
    LongRun,
    TableSize,
    ShortList,
    // 16 to 18, of files of sixteen-byte records: 16 in the place of 1, a body too long to move back, too many chain procedures or rules.
    TornWideRecord,
    LongBody,
    TooManyChains,
}

impl Fault {
    // Returns the number of the fault.
    pub fn number(self) -> u64
        ensures { result ≡ number_of self }
    {
        match self {
            Fault::TornRecord => 1,
            Fault::TooManyRecords => 2,
            Fault::UnknownKind => 3,
            Fault::AboveRange => 4,
            Fault::StrayByte => 5,
            Fault::NotRising => 6,
            Fault::OverLimit => 7,
            Fault::JournalSize => 8,
            Fault::UnfitRow => 9,
            Fault::NoRoom => 10,
            Fault::UnfitRun => 11,
            Fault::MoveOnRemark => 12,
            Fault::LongRun => 13,
            Fault::TableSize => 14,
            Fault::ShortList => 15,
            Fault::TornWideRecord => 16,
            Fault::LongBody => 17,
            Fault::TooManyChains => 18,
        }
    }
}

// What refuses a call: the fault, and for 3 to 7 and 12 the record's number, else 0.
#[derive(Clone, Copy, Debug, PartialEq, Eq)]
pub struct Refusal {
    pub fault: Fault,
    pub place: usize,
}

// By `?` the fault of a call is its refusal, which names no record.
impl From<Fault> for Refusal {
    ghost from_gives = { λ fault refusal. refusal ≡ of_call fault };

    fn from(fault: Fault) -> Refusal {
        Refusal { fault, place: 0 }
    }
}

// Refuses with `fault` where its test `holds`, and else passes.
pub fn refuse_if(holds: bool, fault: Fault) -> Result<(), Fault>
    ensures { MatchResult result (λ _. holds ≡ false) (λ f. (holds ≡ true) × (f ≡ fault)) }
{
    if holds {
        return Err(fault);
    }
    Ok(())
}

// Returns what a test of record `place` says, where a refusal names the record.
pub fn of_record(tested: Result<(), Fault>, place: usize) -> Result<(), Refusal>
    ensures { MatchResult result (λ _. fault_of tested ≡ 0) (λ x. (number_of x.fault ≡ fault_of tested) × (x.place ≡ place)) }
{
    tested.map_err(|fault| Refusal { fault, place })
}

// A rule: its head (document 01: the procedure), its body length, and the bytes of its symbols.
#[derive(Clone, Copy)]
pub struct Rule {
    pub head: u8,
    pub size: u8,
    pub first: u8,
    pub second: u8,
}

// Document 01: a move from stage to stage on a step code.
#[derive(Clone, Copy)]
pub struct Transition {
    pub source: u8,
    pub letter: u8,
    pub target: u8,
}

// What a record says; Final: document 01's finishing stage.
#[derive(Clone, Copy)]
pub enum Record {
    Rule(Rule),
    Transition(Transition),
    Final(u8),
}
