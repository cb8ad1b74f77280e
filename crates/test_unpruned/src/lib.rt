// For tests only (test_inclusion): lists the relations of all words of each nonterminal, none left out, with no code of the inclusion check.
// The list holds pairs of a symbol, as a rule's body spells it, and the relation of a word of that symbol.
#![tactic(auto)]

pub mod rows;

// The numbers of document 01 that this search needs, written anew here so that nothing is shared with the check.
const STATES: u64 = 16;

pub const TERMINALS: u64 = 128;

pub const NONTERMINALS: u64 = 64;

// The terminals from here on are remarks (document 02, C-11).
const FIRST_REMARK: u64 = 120;

const RECORD_BYTES: usize = 8;

// A relation: a row of 16 bits for each state, which has the states that it leads to; four rows to a word, state 0 lowest.
#[derive(Clone, Copy, PartialEq, Eq)]
pub struct Relation {
    pub w0: u64,
    pub w1: u64,
    pub w2: u64,
    pub w3: u64,
}

pub const WORDS: usize = 4;

// How many words a pair of the list has: a symbol, and those of a relation.
pub const PAIR: usize = WORDS + 1;

const ROWS: u64 = 4;

// A pair of the list: a symbol, and the relation of a word of it.
#[derive(Clone, Copy, PartialEq, Eq)]
pub struct Entry {
    pub symbol: u64,
    pub relation: Relation,
}

// Records that are read of a file, and records that a file has room for.
pub const RECORDS: usize = 24;

const ROOM: usize = 32;

// The most pairs of the list.
pub const LIMIT: usize = 512;

pub type Found = [Entry; LIMIT];

// What stands in a list where no pair stands yet.
pub const BLANK: Entry = Entry {
    symbol: 0,
    relation: Relation {
        w0: 0,
        w1: 0,
        w2: 0,
        w3: 0,
    },
};

// A row of the journal as numbers, in document 01's order: nonterminal, rule, the words of the relation, left and right pointer, length,
// birth, retired.
pub const FIELDS: usize = WORDS + 7;

pub const LEFT: usize = 6;

pub const LENGTH: usize = 8;

pub const RETIRED: usize = 10;

pub type Numbers = [u64; FIELDS];

// ---- the file

// Returns byte `i` of record `record`, or 0 past the end of `file`.
fn byte(file: &[u8], record: usize, i: usize) -> u64 {
    let at = record % ROOM * RECORD_BYTES + i % RECORD_BYTES;
    if at < file.len() {
        u64::from(file[at])
    } else {
        0
    }
}

// The symbols of a rule's body; of one that no file has, above two symbols, the first two.
#[derive(Clone, Copy)]
enum Body {
    Empty,
    One(u64),
    Two(u64, u64),
    Longer(u64, u64),
}

// A rule of the file. `head` is the symbol that spells its nonterminal in a body.
#[derive(Clone, Copy)]
struct Rule {
    head: u64,
    body: Body,
}

// A record that says something: a rule, a transition from one state to another on the letter `code`, or a final state.
#[derive(Clone, Copy)]
enum Record {
    Rule(Rule),
    Transition { from: u64, code: u64, to: u64 },
    Final(u64),
}

// Reads the body of the rule that record `r` is.
fn read_body(file: &[u8], r: usize) -> Body {
    match byte(file, r, 2) {
        0 => Body::Empty,
        1 => Body::One(byte(file, r, 3)),
        2 => Body::Two(byte(file, r, 3), byte(file, r, 4)),
        _ => Body::Longer(byte(file, r, 3), byte(file, r, 4)),
    }
}

// Reads record `r`, or none where it says nothing.
fn read_record(file: &[u8], r: usize) -> Option<Record> {
    match byte(file, r, 0) {
        1 => Some(Record::Rule(Rule {
            head: TERMINALS + byte(file, r, 1) % NONTERMINALS,
            body: read_body(file, r),
        })),
        2 => Some(Record::Transition {
            from: byte(file, r, 1),
            code: byte(file, r, 2),
            to: byte(file, r, 3),
        }),
        3 => Some(Record::Final(byte(file, r, 1))),
        _ => None,
    }
}

// Returns whether the letter `code` is a remark.
fn is_remark(code: u64) -> bool {
    (FIRST_REMARK..TERMINALS).contains(&code)
}

// Returns whether record `r` is a transition on a remark.
fn is_remark_transition(file: &[u8], r: usize) -> bool {
    match read_record(file, r) {
        Some(Record::Transition { code, .. }) => is_remark(code),
        _ => false,
    }
}

// Returns the number of the first record of `file` that is a transition on a remark, or none where none of those that are read is.
pub fn remark_transition(file: &[u8]) -> Option<usize> {
    (0..RECORDS).find(|r| is_remark_transition(file, *r))
}

// ---- relations

impl Relation {
    // The relation without pairs.
    fn empty() -> Relation {
        BLANK.relation
    }

    // The relation of the empty word: each state with itself.
    fn identity() -> Relation {
        let mut relation = Relation::empty();
        for a in 0..STATES {
            relation = relation.with(a, a);
        }
        relation
    }

    // Returns the row of state `a`.
    fn row(self, a: u64) -> u64 {
        let word = match a / ROWS % ROWS {
            0 => self.w0,
            1 => self.w1,
            2 => self.w2,
            _ => self.w3,
        };
        (word >> (a % ROWS * STATES)) % 65536
    }

    // Adds the states of `row` to the row of state `a`.
    fn with_row(mut self, a: u64, row: u64) -> Relation {
        let moved = row % 65536 << (a % ROWS * STATES);
        match a / ROWS % ROWS {
            0 => self.w0 |= moved,
            1 => self.w1 |= moved,
            2 => self.w2 |= moved,
            _ => self.w3 |= moved,
        }
        self
    }

    // Returns whether the relation has the pair (a, b).
    fn has(self, a: u64, b: u64) -> bool {
        (self.row(a) >> (b % STATES)) % 2 == 1
    }

    // Adds the pair (a, b).
    fn with(self, a: u64, b: u64) -> Relation {
        self.with_row(a, 1u64 << (b % STATES))
    }

    // Composes the relation with `next`: the row of `a` has the row of `b` in `next` for each pair (a, b).
    fn compose(self, next: Relation) -> Relation {
        let mut relation = Relation::empty();
        for a in 0..STATES {
            for b in 0..STATES {
                if self.has(a, b) {
                    relation = relation.with_row(a, next.row(b));
                }
            }
        }
        relation
    }
}

// Returns the relation of the letter `code`: the pairs (a, b) with a transition from a to b on it; of a remark that of the empty word.
fn letter(file: &[u8], code: u64) -> Relation {
    if is_remark(code) {
        return Relation::identity();
    }
    let mut relation = Relation::empty();
    for r in 0..RECORDS {
        if let Some(Record::Transition { from, code: on, to }) = read_record(file, r) {
            if on == code {
                relation = relation.with(from, to);
            }
        }
    }
    relation
}

// Returns the relation of the word `letters`.
pub fn word(file: &[u8], letters: &[u8]) -> Relation {
    let mut relation = Relation::identity();
    for code in letters {
        relation = relation.compose(letter(file, u64::from(*code)));
    }
    relation
}

// Tests whether record `r` is a final state to which `relation` has a pair from state 0.
fn accepting(file: &[u8], relation: Relation, r: usize) -> bool {
    match read_record(file, r) {
        Some(Record::Final(state)) => relation.has(0, state),
        _ => false,
    }
}

// Tests whether `relation` has no pair from state 0 to a final state.
fn rejecting(file: &[u8], relation: Relation) -> bool {
    !(0..RECORDS).any(|r| accepting(file, relation, r))
}

// ---- the list

// Returns the pair of `symbol` and `relation`.
pub fn pair(symbol: u64, relation: Relation) -> Entry {
    Entry { symbol, relation }
}

// Returns the relation of `pair`.
pub fn relation_of(pair: Entry) -> Relation {
    pair.relation
}

pub fn same_relation(x: Relation, y: Relation) -> bool {
    x == y
}

// Tests whether `pair` is on the list `found`.
pub fn listed(found: &[Entry], pair: Entry) -> bool {
    found.iter().any(|other| *other == pair)
}

// The list while it is filled: its first `count` pairs stand.
#[derive(Drop)]
struct List<'a> {
    found: &'a mut Found,
    count: usize,
}

impl List<'_> {
    // Appends the pair of `symbol` and `relation`, if it is new and there is room.
    fn add(&mut self, symbol: u64, relation: Relation) {
        let new = pair(symbol, relation);
        if self.count < LIMIT && !listed(&self.found[..self.count], new) {
            self.found[self.count] = new;
            self.count += 1;
        }
    }

    // Appends `symbol` with its own relation, if it is a letter.
    fn add_letter(&mut self, file: &[u8], symbol: u64) {
        if symbol < TERMINALS {
            self.add(symbol, letter(file, symbol));
        }
    }

    // Appends what `rule` gives by itself: the empty word of a body with no symbol, and the letters of its body.
    fn add_alone(&mut self, file: &[u8], rule: Rule) {
        match rule.body {
            Body::Empty => self.add(rule.head, Relation::identity()),
            Body::One(symbol) => self.add_letter(file, symbol),
            Body::Two(first, second) | Body::Longer(first, second) => {
                self.add_letter(file, first);
                self.add_letter(file, second);
            }
        }
    }

    // Appends `head` with the composition of the two relations, if the symbols of `left` and `right` are `first` and `second`.
    fn add_composed(&mut self, head: u64, first: u64, second: u64, left: Entry, right: Entry) {
        if left.symbol == first && right.symbol == second {
            self.add(head, left.relation.compose(right.relation));
        }
    }

    // Appends what `rule` gives with pair `k` of the list and those before it, each with it in both orders.
    fn add_with(&mut self, rule: Rule, k: usize) {
        if LIMIT <= k {
            return;
        }
        let pair = self.found[k];
        match rule.body {
            Body::Empty | Body::Longer(_, _) => {}
            Body::One(symbol) => {
                if pair.symbol == symbol {
                    self.add(rule.head, pair.relation);
                }
            }
            Body::Two(first, second) => {
                for j in 0..k + 1 {
                    let other = self.found[j];
                    self.add_composed(rule.head, first, second, pair, other);
                    self.add_composed(rule.head, first, second, other, pair);
                }
            }
        }
    }

    // Appends what the rules of `file` give by themselves.
    fn begin(&mut self, file: &[u8]) {
        for r in 0..RECORDS {
            if let Some(Record::Rule(rule)) = read_record(file, r) {
                self.add_alone(file, rule);
            }
        }
    }

    // Appends what the rules of `file` give with pair `k` of the list and those before it.
    fn take_up(&mut self, file: &[u8], k: usize) {
        for r in 0..RECORDS {
            if let Some(Record::Rule(rule)) = read_record(file, r) {
                self.add_with(rule, k);
            }
        }
    }
}

// Lists every symbol with every relation of its words at the front of `found`, and returns the list. Each pair is taken up once, with those
// before it, so each two pairs meet once. If the list has `LIMIT` pairs, some may be missing.
pub fn search<'a>(file: &[u8], found: &'a mut Found) -> &'a [Entry] {
    let mut list = List {
        found: &mut *found,
        count: 0,
    };
    list.begin(file);
    for k in 0..LIMIT {
        if k < list.count {
            list.take_up(file, k);
        }
    }
    let count = list.count;
    &found[..count.min(LIMIT)]
}

// What a list says: the set of the nonterminals that have a word, the set of those of which a word is turned away, bit p for nonterminal p in
// each, and how many relations belong to nonterminals.
#[derive(Clone, Copy)]
pub struct Verdict {
    pub worded: u64,
    pub turned: u64,
    pub relations: u64,
}

// Returns what the list `found` says.
pub fn decide(file: &[u8], found: &[Entry]) -> Verdict {
    let mut said = Verdict {
        worded: 0,
        turned: 0,
        relations: 0,
    };
    for pair in found {
        if TERMINALS <= pair.symbol {
            let alone = 1u64 << (pair.symbol % NONTERMINALS);
            said.worded |= alone;
            if rejecting(file, pair.relation) {
                said.turned |= alone;
            }
            said.relations = said.relations.wrapping_add(1);
        }
    }
    said
}
