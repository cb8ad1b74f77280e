// A glance at the candidates of one left row: the effect of each is formed once, and the two rows that hints name are tried for it once. Where one
// of them covers it, it is one join and nothing else. The effects and the nonterminals of all rows stand in an array of words (`near`, crate
// `search_cover`), so that no row of the journal is read.
// The table, the words and the rules are parameters whose length each clause asks, and no struct with an invariant: hosts lend them, and what
// holds a loan would be lent on at each step.
#![tactic(auto)]

ghost use Rattle.std.specs.Prelude.{◌≡◌, true, ◌+◌, ◌≤◌, ◌<◌, length};
ghost use Rattle.relation.specs.Representation.{value};
ghost use Rattle.spec_file.specs.Limits.{letter_words};
ghost use Rattle.spec_file.specs.Entries.{entry_of};
ghost use Rattle.spec_file.specs.Views.{symbol_of};
ghost use Rattle.search_state.specs.Layout.{row_cells, table_cells};
ghost use Rattle.search_cover.specs.Near.{near_words};
ghost use Rattle.search_glance.specs.Glancing.{KnownBelow, Hints, used_effect, symbol_effect, body_effect, Leaves, MayPassFrom, PassedFrom, MayGlance, Tries};

use relation::{Effect, Letter};
use search_cover::{HEADS_OF, ROW_PLACES};
use search_state::{Counts, END, LASTS, SLOTS, State, Terms};
use spec_file::TERMINALS;

// The candidate at which `state` stands: its effect, whether a row that a hint names covers it, and the cell of the hint for its effect.
#[derive(Clone, Copy)]
pub struct Tried {
    pub state: State,
    pub effect: Effect,
    pub covers: bool,
    pub slot: usize,
}

// Whether a row that a hint names covers a candidate, and the cell of the hint for its effect.
#[derive(Clone, Copy)]
pub struct Hinted {
    pub covers: bool,
    pub slot: usize,
}

// ---- the hints

// Returns whether `row` is one of the `used` rows, of the nonterminal `head`, and has an effect that is contained in `effect`.
fn is_below(near: &[Letter], used: usize, head: u8, row: usize, effect: Effect) -> bool
    requires { (length near.now ≡ near_words) × (used ≤ row_cells) }
    ensures { result ≡ true → KnownBelow near.now used head (value effect) }
{
    if used <= row {
        return false;
    }
    if near[HEADS_OF + row] != head as u64 {
        return false;
    }
    let held = Effect::read(near, ROW_PLACES + row);
    held.contained_if_first(effect)
}

// Tries the two rows that hints name for a candidate of `head` with this `effect`: the one that covered last, and the one noted for the effect. Where
// the former covers, the latter is not read, and the remainder that the digest takes is saved: any cell of the hints is returned then.
fn try_hints(near: &[Letter], table: &[u32], used: usize, head: u8, effect: Effect) -> Hinted
    requires { (length near.now ≡ near_words) × (length table.now ≡ table_cells) × (used ≤ row_cells) }
    ensures { Hints near.now used head (value effect) result.covers result.slot }
{
    let last = search_order::position(table[LASTS + head as usize]);
    if is_below(near, used, head, last, effect) {
        return Hinted {
            covers: true,
            slot: SLOTS,
        };
    }
    let slot = SLOTS + effect.digest() + 16 * head as usize;
    let hint = search_order::position(table[slot]);
    let covers = is_below(near, used, head, hint, effect);
    Hinted { covers, slot }
}

// ---- the effects

// Returns the effect of the row `position`, which counts as blank where it is none of the `used` rows.
fn row_effect(near: &[Letter], used: usize, position: usize) -> Effect
    requires { (length near.now ≡ near_words) × (used ≤ row_cells) }
    ensures { value result ≡ used_effect near.now used position }
{
    if position < used {
        return Effect::read(near, ROW_PLACES + position);
    }
    Effect::empty()
}

// Returns the effect of `symbol`, which is taken by the row `position`.
fn effect_of(
    letters: &[Letter],
    near: &[Letter],
    used: usize,
    symbol: u8,
    position: usize,
) -> Effect
    requires { (letter_words ≤ length letters.now) × (length near.now ≡ near_words) × (used ≤ row_cells) }
    ensures { value result ≡ symbol_effect letters.now near.now used (symbol_of symbol) position }
{
    if symbol < TERMINALS {
        return Effect::read(letters, symbol as usize);
    }
    row_effect(near, used, position)
}

// Returns the effect of the candidate of the state's place, whose rule is `rule`.
fn effect_at(letters: &[Letter], near: &[Letter], rule: [u8; 4], state: State) -> Effect
    requires { (letter_words ≤ length letters.now) × (length near.now ≡ near_words) × (state.counts.used ≤ row_cells) }
    ensures { value result ≡ body_effect letters.now near.now state.counts.used (entry_of rule).body state.place.left state.place.right }
{
    let counts = state.counts;
    let place = state.place;
    match rule[1] {
        0 => Effect::identity(),
        1 => effect_of(letters, near, counts.used, rule[2], place.left),
        _ => {
            let left = effect_of(letters, near, counts.used, rule[2], place.left);
            let right = effect_of(letters, near, counts.used, rule[3], place.right);
            left.compose(right)
        }
    }
}

// ---- the candidates of one left row

// Returns whether a candidate may be passed that is the one after `joins` joins: it is known to be covered, which `covers` says, another right comes
// `next`, and the budget leaves a join after its own.
fn may_pass(terms: Terms, joins: u64, covers: bool, next: usize) -> bool
    requires { joins < terms.budget }
    ensures { result ≡ true → Leaves terms.budget joins covers next }
{
    covers & (next != END) & !terms.spent(joins + 1)
}

// Passes the candidates of the state's left row, whose effect is `left`, from that of `tried` on, after whose right row `first` comes, as long as they
// are known to be covered. `left` is before each of them, so its columns are made once. The last right is not passed, nor the last join of the
// budget: what comes after them is not decided here.
fn over_known(
    near: &[Letter],
    table: &[u32],
    tried: Tried,
    head: u8,
    left: Effect,
    first: usize,
) -> Tried
    requires { MayPassFrom table.now near.now head (value left) first tried }
    ensures { PassedFrom table.now near.now head (value left) tried.state result }
{
    let state = tried.state;
    let terms = state.terms;
    let counts = state.counts;
    let place = state.place;
    let used = counts.used;
    let columns = left.columns();
    let mut joins = counts.joins;
    let mut right = place.right;
    let mut next = first;
    let mut effect = tried.effect;
    let mut covers = tried.covers;
    let mut slot = tried.slot;
    // The candidates of the rights before `right` are known to be covered, and counted in `joins`; `effect` is that of its own candidate, of which
    // `covers` and `slot` are what the hints say; `next` comes after it. (What ends the loop was found by the turn before, so this is no `for`.)
    while may_pass(terms, joins, covers, next) {
        joins += 1;
        right = next;
        next = search_skip::after_in(table, right);
        effect = left.compose_by(&columns, row_effect(near, used, right));
        let hinted = try_hints(near, table, used, head, effect);
        covers = hinted.covers;
        slot = hinted.slot;
    }
    let reached = Counts {
        used,
        joins,
        added: counts.added,
    };
    Tried {
        state: search_step::stand_at(state, terms, reached, place.with_right(right)),
        effect,
        covers,
        slot,
    }
}

// Passes the candidates of the state's left row that are known to be covered, and returns the first other one. Only of rules with two symbols, and
// a nonterminal as the second, a left row has several candidates.
pub fn glance(
    letters: &[Letter],
    rules: &[[u8; 4]],
    near: &[Letter],
    table: &[u32],
    state: State,
) -> Tried
    requires { MayGlance letters.now rules.now table.now near.now state }
    ensures { Tries letters.now rules.now table.now near.now state result }
{
    let place = state.place;
    let counts = state.counts;
    let r = place.rule;
    let rule = rules[r];
    let effect = effect_at(letters, near, rule, state);
    let hinted = try_hints(near, table, counts.used, rule[0], effect);
    let tried = Tried {
        state,
        effect,
        covers: hinted.covers,
        slot: hinted.slot,
    };
    if rule[1] != 2 {
        return tried;
    }
    if rule[3] < TERMINALS {
        return tried;
    }
    let next = search_skip::after_in(table, place.right);
    if !may_pass(state.terms, counts.joins, hinted.covers, next) {
        return tried;
    }
    let left = effect_of(letters, near, counts.used, rule[2], place.left);
    over_known(near, table, tried, rule[0], left, next)
}
