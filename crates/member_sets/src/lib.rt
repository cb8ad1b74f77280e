// Sets of nonterminals as words, nonterminal p being in the set where bit p is set; and the set of those that derive the empty word.
#![tactic(auto)]

ghost use Rattle.std.specs.Prelude.{◌≡◌, map, ◌<◌, ◌^◌};
ghost use Rattle.std.specs.Fn.{FnReturnsAt};
ghost use Rattle.spec_file.specs.Limits.{nonterminals};
ghost use Rattle.spec_file.specs.Views.{symbol_of};
ghost use Rattle.spec_file.specs.Entries.{entry_of};
ghost use Rattle.member_laws.specs.Sets.{with, among, all_in, Heads, Nullable};
ghost use Rattle.member_laws.specs.Rounds.{NullRound};
ghost use Rattle.member_sets.specs.Gathering.{Gathered};

use spec_file::{NONTERMINALS, SYMBOL_BYTES, TERMINALS};

// A set, or any other word of digits, for each nonterminal.
pub const SETS: usize = NONTERMINALS as usize;

pub type Sets = [u64; SETS];

// ---- one nonterminal

// Returns the word that has bit `place` alone.
pub fn digit(place: usize) -> u64
    requires { place < 64 }
    ensures { result ≡ 2 ^ place }
{
    let shift = place as u32;
    1 << shift
}

// Returns `set` with nonterminal `p` added.
pub fn with_one(set: u64, p: u8) -> u64
    requires { p < nonterminals }
    ensures { result ≡ with set p }
{
    set | digit(p as usize)
}

// Returns whether `symbol` is a nonterminal of `set`. A byte that is no symbol is in no set.
pub fn among(symbol: u8, set: u64) -> bool
    ensures { result ≡ among set (symbol_of symbol) }
{
    if symbol < TERMINALS {
        return false;
    }
    if SYMBOL_BYTES <= symbol {
        return false;
    }
    let place = (symbol - TERMINALS) as u32;
    (set >> place) & 1 == 1
}

// ---- the heads of rules

// Returns `set` with the heads of those of the `rules` that pass `test`.
pub fn with_heads<F: Fn(&[u8; 4]) -> bool>(rules: &[[u8; 4]], set: u64, test: F) -> u64
    requires heads { Heads (map entry_of rules.now) }
    requires callable { F.IsAlwaysCallable test }
    ensures { Gathered rules.now (λ x b. FnReturnsAt F.Fn test x b) set result }
{
    let mut out = set;
    for rule in rules {
        if test(rule) {
            out = with_one(out, rule[0]);
        }
    }
    out
}

// ---- the empty word

// Returns whether every symbol of the body of `rule` is in `set`; an empty body has none that is not.
fn body_in(rule: [u8; 4], set: u64) -> bool
    ensures { result ≡ all_in set (entry_of rule).body }
{
    let [_, size, first, second] = rule;
    match size {
        0 => true,
        1 => among(first, set),
        _ => among(first, set) & among(second, set),
    }
}

// Returns `set` with the heads of the `rules` whose bodies are in it: they derive the empty word where all of `set` do.
fn null_round(rules: &[[u8; 4]], set: u64) -> u64
    requires { Heads (map entry_of rules.now) }
    ensures { NullRound (map entry_of rules.now) set result }
{
    with_heads(rules, set, |rule| body_in(*rule, set))
}

// Returns the nonterminals that derive the empty word by `rules`: round after round, until one adds nothing. A set that grows is a larger
// word, so the rounds end.
pub fn nullable(rules: &[[u8; 4]]) -> u64
    requires { Heads (map entry_of rules.now) }
    ensures { Nullable (map entry_of rules.now) result }
{
    let mut set: u64 = 0;
    // A loop of its own, as in `member_units::closure`: see there.
    loop {
        let next = null_round(rules, set);
        if next == set {
            return set;
        }
        set = next;
    }
}
