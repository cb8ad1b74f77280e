// Looking for a row that covers a candidate. One array of words, `near`, has what is read on the way: the effect and the nonterminal of every
// row, and the numbers of the live rows of one nonterminal, each beside a key of its effect. It has those of one nonterminal at a time, since a
// rule's candidates are all of its head; where another is looked for, its rows are numbered along the links. No row of the journal is read.
// The table, the words and the rules are parameters whose length each clause asks, and no struct with an invariant: hosts lend them, and what
// holds a loan would be lent on at each step.
#![tactic(auto)]

ghost use Rattle.std.specs.Prelude.{◌≡◌, true, false, ◌||◌, ◌≤◌, ◌<◌, length, set, MatchOption};
ghost use Rattle.relation.specs.Relation.{contained, key_of};
ghost use Rattle.relation.specs.Representation.{value};
ghost use Rattle.search_rows.specs.Meanings.{candidate_of};
ghost use Rattle.search_state.specs.Layout.{row_cells};
ghost use Rattle.search_cover.specs.Near.{near_words, is_near, count_of, number_at, effect_at};
ghost use Rattle.search_cover.specs.Steps.{with_number, Ready, FirstBelow, NoneAbove, LooksThrough, with_row, kept_at, with_last, Drops, Stays};
ghost use Rattle.search_cover.specs.Seeking.{MayLook, Brings, FindsIn};

use relation::{Effect, Letter, WORDS};
use search_rows::Candidate;
use search_state::{FIRSTS, Fate, ROWS, State};

// ---- the words of `near` (one array with its counts in front: hosts lend it, and there is no heap)

// The first four are numbers: one more than the nonterminal (`HEAD`), or 0 where `near` has none; how many rows of it there are (`COUNT`); and
// the cell that leads past its last live row (`LINK`). From `KEYS` on stand the keys of these rows, from `NUMBERS` on their numbers. From
// `HEADS_OF` on stand the nonterminals of all rows, and then their effects, four words each: that of row i at the place `ROW_PLACES` + i.
const HEAD: usize = 0;

const COUNT: usize = 1;

const LINK: usize = 2;

const KEYS: usize = WORDS;

const NUMBERS: usize = KEYS + ROWS;

pub const HEADS_OF: usize = NUMBERS + ROWS;

pub const ROW_PLACES: usize = 1 + 3 * ROWS / WORDS;

pub const NEAR_WORDS: usize = WORDS * (ROW_PLACES + ROWS);

// What looking for a cover found. Either a row covers the candidate (`covers`): `row`, where it is `linked`, that is, where no hint named it. Or
// none does; then `cell` is the last link of the nonterminal, which a new row is to be linked to, and `larger` says whether a live row may be
// larger than the candidate. `slot` is the cell of the hint by the candidate's effect.
// (No enum: each case has a `slot`, and `begin` of `search_retire`, which is told by `fate` that a row covers, would need an arm without a `cell`.)
#[derive(Clone, Copy)]
pub struct CoverAnswer {
    pub covers: bool,
    pub linked: bool,
    pub row: usize,
    pub cell: usize,
    pub larger: bool,
    pub slot: usize,
}

// ---- the rows of one nonterminal

// Returns whether `near` has the rows of the nonterminal `head`.
fn is_near(near: &[Letter], head: u8) -> bool
    requires { length near.now ≡ near_words }
    ensures { result ≡ is_near near.now head }
{
    near[HEAD] == head as u64 + 1
}

// Makes `near`, whatever it has, one that has no nonterminal: its rows are numbered when one is looked for.
pub fn forget(near: &mut [Letter])
    requires { length near.old ≡ near_words }
    ensures { near.new ≡ set near.old 0 0 }
{
    near[HEAD] = 0;
}

// Puts the row `row` at place `n`, with its key.
fn put_number(near: &mut [Letter], n: usize, row: usize)
    requires { (length near.old ≡ near_words) × (n < row_cells) × (row < row_cells) }
    ensures { near.new ≡ with_number near.old n row }
{
    let held = Effect::read(near, ROW_PLACES + row);
    near[KEYS + n] = held.key();
    near[NUMBERS + n] = row as u64;
}

// Numbers the live rows of the nonterminal `head`, along the links of `table` over the `used` rows.
fn fill(near: &mut [Letter], table: &[u32], used: usize, head: u8)
    requires { MayLook used table.now near.old }
    ensures { Brings used head table.now near.old near.new }
{
    let mut cell = FIRSTS + head as usize;
    let mut row = search_order::position(table[cell]);
    let mut n: usize = 0;
    // `n` rows have been numbered, those before `row`, to which the link in `cell` leads. (Links lead on, so this is no `for`.)
    while row < used {
        put_number(near, n, row);
        cell = row;
        row = search_order::position(table[cell]);
        n += 1;
    }
    near[HEAD] = head as u64 + 1;
    near[COUNT] = n as u64;
    near[LINK] = cell as u64;
}

// Numbers the live rows of the nonterminal `head`, where `near` does not have them already.
fn bring(near: &mut [Letter], table: &[u32], used: usize, head: u8)
    requires { MayLook used table.now near.old }
    ensures { Brings used head table.now near.old near.new }
{
    if !is_near(near, head) {
        fill(near, table, used, head);
    }
}

// ---- looking through them

// Returns the effect of the row at place `i`.
fn effect_of(near: &[Letter], i: usize) -> Effect
    requires { (length near.now ≡ near_words) × (i < row_cells) × (number_at near.now i < row_cells) }
    ensures { value result ≡ effect_at near.now i }
{
    let row = near[NUMBERS + i] as usize;
    Effect::read(near, ROW_PLACES + row)
}

// Returns whether the effect at place `i` is contained in `effect`, whose key is `key`. The key of a contained one is contained too, and seldom
// that of another, so the key decides first.
fn is_below(near: &[Letter], i: usize, key: u64, effect: Effect) -> bool
    requires { Ready row_cells near.now × (i < count_of near.now) × (key ≡ key_of (value effect)) }
    ensures { result ≡ contained (effect_at near.now i) (value effect) }
{
    if !relation::within(near[KEYS + i], key) {
        return false;
    }
    let held = effect_of(near, i);
    held.contained(effect)
}

// Returns whether the effect at place `i` contains `effect`, whose key is `key`. (It is `is_below` with both tests turned round. One function for
// both would have to read the effect at place `i` before its key decides.)
fn is_above(near: &[Letter], i: usize, key: u64, effect: Effect) -> bool
    requires { Ready row_cells near.now × (i < count_of near.now) × (key ≡ key_of (value effect)) }
    ensures { result ≡ contained (value effect) (effect_at near.now i) }
{
    if !relation::within(key, near[KEYS + i]) {
        return false;
    }
    effect.contained(effect_of(near, i))
}

// Returns the place of the first of the `count` effects that is contained in `effect`.
fn first_below(near: &[Letter], count: usize, effect: Effect) -> Option<usize>
    requires { Ready row_cells near.now × (count ≡ count_of near.now) }
    ensures { MatchOption result (FirstBelow near.now count (value effect) count) (λ i. (i < count) × FirstBelow near.now count (value effect) i) }
{
    let key = effect.key();
    // No effect before place `i` is contained in `effect`.
    for i in 0..count {
        if is_below(near, i, key, effect) {
            return Some(i);
        }
    }
    None
}

// Returns whether one of the `count` effects contains `effect`.
fn some_above(near: &[Letter], count: usize, effect: Effect) -> bool
    requires { Ready row_cells near.now × (count ≡ count_of near.now) }
    ensures { result ≡ false → NoneAbove near.now count (value effect) }
{
    let key = effect.key();
    // No effect before place `i` contains `effect`. (An `any` over the places was tried: the proof did not get
    // from its result to what the closure returned at each place.)
    for i in 0..count {
        if is_above(near, i, key, effect) {
            return true;
        }
    }
    false
}

// Looks through the effects for one that is contained in `effect`, whose hint is `slot`. Only where there is none, it is asked whether one
// contains it. (A function of its own in the machine's code too: within the search's loop, which has more at hand than there are registers, the
// place of `near` was read from the stack for each key.)
#[inline(never)]
fn look_through(near: &[Letter], effect: Effect, slot: usize) -> CoverAnswer
    requires { Ready row_cells near.now }
    ensures { LooksThrough near.now (value effect) slot result }
{
    let count = near[COUNT] as usize;
    match first_below(near, count, effect) {
        Some(i) => CoverAnswer {
            covers: true,
            linked: true,
            row: near[NUMBERS + i] as usize,
            cell: FIRSTS,
            larger: false,
            slot,
        },
        None => CoverAnswer {
            covers: false,
            linked: true,
            row: 0,
            cell: near[LINK] as usize,
            larger: some_above(near, count, effect),
            slot,
        },
    }
}

// Looks for a live row that covers a candidate of the nonterminal `head` with this `effect`. Where a hint covers it, which `known` says, nothing
// is left to do; else the live rows of `head` are looked through. Any row that covers will do: the contract is whether there is one.
pub fn find(
    near: &mut [Letter],
    table: &[u32],
    state: State,
    head: u8,
    effect: Effect,
    known: bool,
    slot: usize,
) -> CoverAnswer
    requires { MayLook state.counts.used table.now near.old }
    ensures { FindsIn state.counts.used head (value effect) known slot table.now near.old near.new result }
{
    if known {
        return CoverAnswer {
            covers: true,
            linked: false,
            row: 0,
            cell: FIRSTS,
            larger: false,
            slot,
        };
    }
    let counts = state.counts;
    bring(near, table, counts.used, head);
    look_through(near, effect, slot)
}

// ---- after a candidate

// Notes the effect and the nonterminal of `candidate`, which became row `row`.
fn note_row(near: &mut [Letter], row: usize, candidate: Candidate)
    requires { (length near.old ≡ near_words) × (row < row_cells) }
    ensures { near.new ≡ with_row near.old row candidate.head (candidate_of candidate).effect }
{
    search_rows::put_candidate(near, ROW_PLACES + row, candidate);
    near[HEADS_OF + row] = candidate.head as u64;
}

// Keeps the row at place `i`, as the one at place `k`, unless its effect contains `effect`. Returns how many rows are kept then.
fn keep_row(near: &mut [Letter], i: usize, k: usize, effect: Effect) -> usize
    requires { (length near.old ≡ near_words) × (i < row_cells) × (k ≤ i) × (number_at near.old i < row_cells) }
    ensures { (result, near.new) ≡ kept_at (value effect) near.old i k }
{
    let held = effect_of(near, i);
    if effect.contained(held) {
        return k;
    }
    let row = near[NUMBERS + i] as usize;
    put_number(near, k, row);
    k + 1
}

// Drops the rows whose effect contains `effect`, which may be, if `larger`: they retire. The others close up.
fn drop_above(near: &mut [Letter], larger: bool, effect: Effect)
    requires { Ready row_cells near.old }
    ensures { Drops (value effect) near.old near.new }
{
    if !larger {
        return;
    }
    let count = near[COUNT] as usize;
    let mut k: usize = 0;
    // Of the first `i` rows `k` are kept, and stand in front; from place `i` on all is as it was.
    for i in 0..count {
        k = keep_row(near, i, k, effect);
    }
    near[COUNT] = k as u64;
}

// Puts the row `row` behind the others: it is the last live row of the nonterminal now.
fn put_last(near: &mut [Letter], row: usize)
    requires { (length near.old ≡ near_words) × (count_of near.old < row_cells) × (row < row_cells) }
    ensures { near.new ≡ with_last near.old row }
{
    let count = near[COUNT] as usize;
    put_number(near, count, row);
    near[COUNT] = count as u64 + 1;
    near[LINK] = row as u64;
}

// After `candidate` became a row, which `fate` says, it is noted, the larger rows are dropped, which `found` says may be, and it stands last.
pub fn keep_near(
    near: &mut [Letter],
    state: State,
    candidate: Candidate,
    fate: Fate,
    found: CoverAnswer,
)
    requires { (length near.old ≡ near_words) × ((fate.covered || fate.full) ≡ false → Ready state.counts.used near.old × (state.counts.used < row_cells)) }
    ensures { Stays near.old state.counts.used candidate.head (candidate_of candidate).effect (fate.covered || fate.full) near.new }
{
    if fate.covered | fate.full {
        return;
    }
    let counts = state.counts;
    let used = counts.used;
    note_row(near, used, candidate);
    drop_above(near, found.larger, candidate.relation);
    put_last(near, used);
}
