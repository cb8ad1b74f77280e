// Relations on the states of an automaton as four words of 64 bits: a row of 16 bits for each state, four rows to a word, so that the pair
// (a, b) is bit a * 16 + b of the four together. No other crate knows that. Definitions in specs/: Digits (binary digits), Relation (pairs,
// identity, composition, containment, rejecting), Representation (how the code holds one), Stored (relations in a table), Turns (the steps of
// a composition), Columns (the columns of a relation, and a composition by them). Laws, for every number of states and words: DigitLaws, Pieces
// (numbers made of pieces: words, rows), RelationLaws, Product (composition by masks and by products, of any count of rows), Parts (composition
// word by word), Words (containment and composition in the code's words), ColumnLaws, Cells (a relation's columns), StoredLaws, Counting (pairs),
// Masks (final states), KeyLaws.
#![tactic(auto)]

ghost use Rattle.std.specs.Prelude.{◌≡◌, ◌+◌, ◌*◌, ◌/◌, ◌^◌, ◌<◌, ◌≤◌, length, ◌==◌, bit_or};
ghost use Rattle.relation.specs.Columns.{column_cells, AreColumns, by_columns, cell, cells_from, word_by, columns_of};
ghost use Rattle.relation.specs.Digits.{bit, subset};
ghost use Rattle.relation.specs.Product.{product, spread, repeated, crossed};
ghost use Rattle.relation.specs.Relation.{states, identity, compose, contained, single, insert, pairs, turned, digest, key_of, rejects};
ghost use Rattle.relation.specs.Representation.{rows_of_word, relation_words, of_words, word, value, none};
ghost use Rattle.relation.specs.Stored.{relation_in, with_relation};
ghost use Rattle.relation.specs.Turns.{Moved, Joined};

// How many states an automaton has.
pub const STATES: u8 = 16;

// The same number as wide as a place: how many places a row of a relation has.
const SIDE: u32 = STATES as u32;

// The last of the four rows in a word.
const LAST_ROW: u32 = 3;

// A set of states: state `s` is in it where bit `s` is set.
pub type StateSet = u16;

// One word of a table of letters' relations, and how many words one relation takes there.
pub type Letter = u64;

pub const WORDS: usize = 4;

// How many words the columns of a relation take: one for each middle state and each word of the relation.
pub const COLUMNS: usize = 64;

// The lowest bit of each row of a word, and the bits of its lowest row.
const COLUMN: u64 = 0x0001_0001_0001_0001;

const ROW: u64 = 0xffff;

// The lower half of each row of a word: the pairs to the states below 8.
const LOWER_HALVES: u64 = 0x00ff_00ff_00ff_00ff;

// A prime.
const DIGESTS: u64 = 32749;

// A relation. Its words are known to this crate only: a caller makes, joins, compares and stores relations by the functions below. They are
// fields and no array, so that a row of the journal stays a struct of numbers. Hosts have rows, and so relations, in memory of their own: C's layout.
#[repr(C)]
#[derive(Clone, Copy, PartialEq, Eq)]
pub struct Relation {
    w0: u64,
    w1: u64,
    w2: u64,
    w3: u64,
}

// What a check compares and joins (document 01: an effect).
pub type Effect = Relation;

// Returns the relation with the given words.
fn of_words(w0: u64, w1: u64, w2: u64, w3: u64) -> Relation
    ensures { result ≡ of_words w0 w1 w2 w3 }
{
    Relation { w0, w1, w2, w3 }
}

// Returns the bits of `x` that `y` lacks.
fn outside(x: u64, y: u64) -> u64
    ensures { (result == 0) ≡ subset x y }
{
    (x & y) ^ x
}

// Tests whether every bit of `x` is one of `y`: of two keys, whether the second relation can have every pair of the first.
pub fn within(x: u64, y: u64) -> bool
    ensures { result ≡ subset x y }
{
    outside(x, y) == 0
}

// Returns the word `x` turned by `places` places: the bits that leave it above come in below. (The library's `rotate_left` takes a remainder, which
// tests/dividing finds in the loop over the candidates.)
fn turned(x: u64, places: u32) -> u64
    requires { (0 < places) × (places < 64) }
    ensures { result ≡ turned places x }
{
    (x << places) | (x >> (64 - places))
}

// Returns all bits of each row of `x` whose lowest bit is set. A row's bits are the next row's lowest bit less its own, so one subtraction
// makes all four rows; it wraps at the highest row only.
fn spread(x: u64) -> u64
    ensures { result ≡ spread states rows_of_word x }
{
    let lowest = x & COLUMN;
    (lowest << 16).wrapping_sub(lowest)
}

// Returns the lowest row of `y` in each of four rows. A row has 16 bits, so no product of it with a bit of `COLUMN` meets another.
fn repeated(y: u64) -> u64
    ensures { result ≡ repeated states rows_of_word y }
{
    (y & ROW) * COLUMN
}

// Returns the pairs of the four rows `x` with the states of the four lowest columns in the middle: `r0` to `r3` have the row of each of these
// states four times, and a row of `x` takes those whose state it leads to.
fn block(x: u64, r0: u64, r1: u64, r2: u64, r3: u64) -> u64
    ensures { result ≡ crossed states rows_of_word rows_of_word x (word (of_words r0 r1 r2 r3)) }
{
    (spread(x) & r0) | (spread(x >> 1) & r1) | (spread(x >> 2) & r2) | (spread(x >> 3) & r3)
}

// Returns the pairs of four rows with four states in the middle, to whose states the four rows of `y` belong: `c0` to `c3` are the columns of
// these states, the lowest bit of each row that leads to the state, each times the row of its state. A column has at most one bit in each
// row, so the product puts the row of `y` into the rows of the column, and nothing carries.
fn crossed_by(c0: u64, c1: u64, c2: u64, c3: u64, y: u64) -> u64
    requires { AreColumns rows_of_word (word (of_words c0 c1 c2 c3)) }
    ensures { result ≡ by_columns (word (of_words c0 c1 c2 c3)) y }
{
    let first = c0 * (y & ROW);
    let second = c1 * ((y >> 16) & ROW);
    let third = c2 * ((y >> 32) & ROW);
    let fourth = c3 * ((y >> 48) & ROW);
    first | second | third | fourth
}

// Returns the pairs of the four rows `x` with the states of the four lowest columns in the middle, to whose states the four rows of `y` belong.
fn crossed(x: u64, y: u64) -> u64
    ensures { result ≡ product states rows_of_word rows_of_word x y }
{
    crossed_by(
        x & COLUMN,
        (x >> 1) & COLUMN,
        (x >> 2) & COLUMN,
        (x >> 3) & COLUMN,
        y,
    )
}

// Returns the pairs of the four rows `x` with the states below 8 in the middle, whose rows are those of `y0` and `y1`.
fn crossed_twice(x: u64, y0: u64, y1: u64) -> u64
    ensures { result ≡ bit_or (product states rows_of_word rows_of_word x y0) (product states rows_of_word rows_of_word (x / 2 ^ rows_of_word) y1) }
{
    crossed(x, y0) | crossed(x >> 4, y1)
}

// Returns the pairs of four rows with four states in the middle, to whose states the four rows of `y` belong. The columns of these states in
// the four rows are in `columns` at `at` and 4, 8 and 12 places after it.
// (The cells are a plain array, whose fact each clause asks: a struct around it would be copied where the array is lent.)
fn by_columns(columns: &[u64; COLUMNS], at: usize, y: u64) -> u64
    requires { (at + 12 < column_cells) × AreColumns column_cells (cell columns.now) }
    ensures { result ≡ by_columns (cells_from columns.now at) y }
{
    crossed_by(
        columns[at],
        columns[at + 4],
        columns[at + 8],
        columns[at + 12],
        y,
    )
}

// Returns word `w` of a composition with `next`, where the states from 8 on have no rows in `next`: the columns of the relation before it are
// in `columns`.
fn by_two(columns: &[u64; COLUMNS], w: usize, next: Relation) -> u64
    requires { (w < relation_words) × AreColumns column_cells (cell columns.now) }
    ensures { result ≡ word_by 2 columns.now w next }
{
    by_columns(columns, w, next.w0) | by_columns(columns, w + 16, next.w1)
}

// Returns word `w` of a composition with `next`, with all middle states. (One function with the count of words as a parameter would need the
// words of `next` in an array, which they are not.)
fn by_four(columns: &[u64; COLUMNS], w: usize, next: Relation) -> u64
    requires { (w < relation_words) × AreColumns column_cells (cell columns.now) }
    ensures { result ≡ word_by 4 columns.now w next }
{
    by_two(columns, w, next)
        | by_columns(columns, w + 32, next.w2)
        | by_columns(columns, w + 48, next.w3)
}

impl Relation {
    // No pair: the relation of a terminal without transitions.
    pub fn empty() -> Relation
        ensures { result ≡ none }
    {
        of_words(0, 0, 0, 0)
    }

    // Every pair (a, a): the relation of the empty word.
    pub fn identity() -> Relation
        ensures { value result ≡ identity states }
    {
        of_words(
            0x0008_0004_0002_0001,
            0x0080_0040_0020_0010,
            0x0800_0400_0200_0100,
            0x8000_4000_2000_1000,
        )
    }

    // Returns the relation of the one pair (a, b), or of no pair where `a` or `b` is no state.
    pub fn single(a: u8, b: u8) -> Relation
        ensures { value result ≡ single states a b }
    {
        let from = a as u32;
        let to = b as u32;
        if SIDE <= from || SIDE <= to {
            return Relation::empty();
        }
        let row = from & LAST_ROW;
        let bit: u64 = 1 << (row * SIDE + to);
        match from {
            0..=3 => of_words(bit, 0, 0, 0),
            4..=7 => of_words(0, bit, 0, 0),
            8..=11 => of_words(0, 0, bit, 0),
            _ => of_words(0, 0, 0, bit),
        }
    }

    // Returns the relation with the pair (a, b) too; the same relation where `a` or `b` is no state.
    pub fn insert(self, a: u8, b: u8) -> Relation
        ensures { value result ≡ insert states (value self) a b }
    {
        let pair = Relation::single(a, b);
        Relation {
            w0: self.w0 | pair.w0,
            w1: self.w1 | pair.w1,
            w2: self.w2 | pair.w2,
            w3: self.w3 | pair.w3,
        }
    }

    // Reads relation `i` of `table`.
    pub fn read(table: &[Letter], i: usize) -> Relation
        requires { (i + 1) * relation_words ≤ length table.now }
        ensures { result ≡ relation_in table.now i }
    {
        let at = i * WORDS;
        Relation {
            w0: table[at],
            w1: table[at + 1],
            w2: table[at + 2],
            w3: table[at + 3],
        }
    }

    // Stores the relation in `table` as relation `i`.
    pub fn store(self, table: &mut [Letter], i: usize)
        requires { (i + 1) * relation_words ≤ length table.old }
        ensures { table.new ≡ with_relation table.old i (value self) }
    {
        let first = i * WORDS;
        table[first] = self.w0;
        table[first + 1] = self.w1;
        table[first + 2] = self.w2;
        table[first + 3] = self.w3;
    }

    // Returns the words without their four lowest columns, with the next four in their place.
    fn moved(self) -> Relation
        ensures { Moved self result }
    {
        Relation {
            w0: self.w0 >> 4,
            w1: self.w1 >> 4,
            w2: self.w2 >> 4,
            w3: self.w3 >> 4,
        }
    }

    // Adds the pairs of `x` through its four lowest columns, to whose states the four rows of `y` belong.
    fn joined(self, x: Relation, y: u64) -> Relation
        ensures { Joined self x y result }
    {
        if y == 0 {
            return self;
        }
        let r0 = repeated(y);
        let r1 = repeated(y >> 16);
        let r2 = repeated(y >> 32);
        let r3 = repeated(y >> 48);
        Relation {
            w0: self.w0 | block(x.w0, r0, r1, r2, r3),
            w1: self.w1 | block(x.w1, r0, r1, r2, r3),
            w2: self.w2 | block(x.w2, r0, r1, r2, r3),
            w3: self.w3 | block(x.w3, r0, r1, r2, r3),
        }
    }

    // Composes this relation with `next`. Where no state from 8 on leads on in either, as in a file of eight states, the first two words have
    // all that is to be done, and products are faster than masks. Where none does in `next` alone, its first two words have every middle
    // state that leads on. `after` is given both relations made anew of their words: handed on as they came, the two structs are copied by
    // loads of 16 bytes behind stores of 8, and the processor waits for these.
    pub fn compose(self, next: Relation) -> Relation
        ensures { value result ≡ compose states (value self) (value next) }
    {
        if (self.w2 | self.w3 | next.w2 | next.w3) == 0 {
            return of_words(
                crossed_twice(self.w0, next.w0, next.w1),
                crossed_twice(self.w1, next.w0, next.w1),
                0,
                0,
            );
        }
        let x = of_words(self.w0, self.w1, self.w2, self.w3);
        let y = of_words(next.w0, next.w1, next.w2, next.w3);
        if (y.w2 | y.w3) == 0 {
            return after(x, y, 2);
        }
        after(x, y, WORDS)
    }

    // Returns the columns of this relation, for compositions with many others: the column of each middle state in each word, those of one
    // state side by side.
    pub fn columns(self) -> [u64; COLUMNS]
        ensures { result ≡ columns_of self }
    {
        let mut cells = [0u64; COLUMNS];
        // The cells of the states below `state` are the columns of these.
        for state in 0..SIDE {
            let at = (state as usize) * WORDS;
            cells[at] = (self.w0 >> state) & COLUMN;
            cells[at + 1] = (self.w1 >> state) & COLUMN;
            cells[at + 2] = (self.w2 >> state) & COLUMN;
            cells[at + 3] = (self.w3 >> state) & COLUMN;
        }
        cells
    }

    // Composes this relation with `next` as `compose` does, where `columns` are its columns: a composition then masks and shifts no word of
    // this relation. Where no state from 8 on leads on in either, the first two words of both have all that is to be done.
    pub fn compose_by(self, columns: &[u64; COLUMNS], next: Relation) -> Relation
        requires { columns.now ≡ columns_of self }
        ensures { value result ≡ compose states (value self) (value next) }
    {
        let upper = self.w2 | self.w3 | next.w2 | next.w3;
        if upper == 0 {
            return of_words(by_two(columns, 0, next), by_two(columns, 1, next), 0, 0);
        }
        of_words(
            by_four(columns, 0, next),
            by_four(columns, 1, next),
            by_four(columns, 2, next),
            by_four(columns, 3, next),
        )
    }

    // Tests whether every pair of this relation is one of `other`.
    pub fn contained(self, other: Relation) -> bool
        ensures { result ≡ contained (value self) (value other) }
    {
        (outside(self.w0, other.w0)
            | outside(self.w1, other.w1)
            | outside(self.w2, other.w2)
            | outside(self.w3, other.w3))
            == 0
    }

    // Tests the same as `contained`, but asks the first word alone before the others: where many relations are tested and few are contained,
    // that word decides nearly always.
    pub fn contained_if_first(self, other: Relation) -> bool
        ensures { result ≡ contained (value self) (value other) }
    {
        if outside(self.w0, other.w0) != 0 {
            return false;
        }
        self.contained(other)
    }

    // Tests whether both have the same pairs. Nothing calls it yet: request C-23 compares a row's effect with its run's.
    pub fn same(self, other: Relation) -> bool
        ensures { result ≡ (value self == value other) }
    {
        self == other
    }

    // Counts the pairs.
    pub fn pairs(self) -> u32
        ensures { result ≡ pairs states (value self) }
    {
        self.w0.count_ones() + self.w1.count_ones() + self.w2.count_ones() + self.w3.count_ones()
    }

    // Returns a small number of the relation, for a table of hints: equal relations have the same, and others seldom do. Words are turned by
    // other places each, so that rows do not meet.
    pub fn digest(self) -> usize
        ensures { result ≡ digest (value self) }
    {
        let lower = self.w0 ^ turned(self.w1, 8);
        let upper = self.w2 ^ turned(self.w3, 8);
        ((lower ^ turned(upper, 29)) % DIGESTS) as usize
    }

    // Returns the pairs among the states below 8 in one word: of a file of eight states, the whole relation. A relation that is contained in
    // another has a key within the other's, so a caller that keeps keys side by side tests these first, by `within`, and few relations.
    pub fn key(self) -> u64
        ensures { result ≡ key_of (value self) }
    {
        (self.w0 & LOWER_HALVES) | ((self.w1 & LOWER_HALVES) << 8)
    }

    // Tests whether there is no pair (0, f) with f in `finals`, the set of the final states.
    pub fn rejects(self, finals: StateSet) -> bool
        ensures { result ≡ rejects states (bit finals) (value self) }
    {
        self.w0 & (finals as u64) == 0
    }
}

// Returns the pairs of `x` composed with `y` whose middle state has its row in one of the first `count` words of `y`. Each turn takes the next
// word of `y`, which has the rows of four middle states, and the next four columns of `x`. The columns move by a shift, so a turn
// neither multiplies nor divides by the count of states.
fn after(x: Relation, y: Relation, count: usize) -> Relation
    requires { count ≤ relation_words }
    ensures { value result ≡ product states states (count * rows_of_word) (value x) (value y) }
{
    let rows = [y.w0, y.w1, y.w2, y.w3];
    let mut sum = Relation {
        w0: 0,
        w1: 0,
        w2: 0,
        w3: 0,
    };
    let mut rest = x;
    // Each word of `sum` has the pairs with a middle state in a row that was taken, and `rest` begins with the columns of the others.
    for row in &rows[..count] {
        sum = sum.joined(rest, *row);
        rest = rest.moved();
    }
    sum
}
