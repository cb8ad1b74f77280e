// Units: rules whose body is one symbol, alone or beside a nonterminal that derives the empty word. Their head derives whatever the symbol
// spells. For each nonterminal the closure of its units, as a table of sets.
#![tactic(auto)]

ghost use Rattle.std.specs.Prelude.{◌≡◌, map, ◌<◌};
ghost use Rattle.spec_file.specs.Limits.{nonterminals};
ghost use Rattle.spec_file.specs.Views.{symbol_of};
ghost use Rattle.spec_file.specs.Entries.{entry_of};
ghost use Rattle.member_laws.specs.Sets.{is_unit, Heads, Nullable, UnitHeads, Direct, ClosureOf, Closures, UnionOf};

use member_sets::Sets;
use spec_file::TERMINALS;

// ---- units of one symbol

// Returns whether the body of `rule` is a unit of `symbol`, where those of the set `empties` derive the empty word.
fn is_unit(rule: [u8; 4], symbol: u8, empties: u64) -> bool
    ensures { result ≡ is_unit empties (symbol_of symbol) (entry_of rule).body }
{
    let [_, size, first, second] = rule;
    // (Few rules have the symbol, so that is asked first: most are done with then.)
    if symbol != first && symbol != second {
        return false;
    }
    match size {
        0 => false,
        1 => symbol == first,
        _ => {
            let left = symbol == first && member_sets::among(second, empties);
            let right = symbol == second && member_sets::among(first, empties);
            left || right
        }
    }
}

// Returns the heads of the `rules` whose body is a unit of `symbol`.
pub fn unit_heads(rules: &[[u8; 4]], symbol: u8, empties: u64) -> u64
    requires { Heads (map entry_of rules.now) × Nullable (map entry_of rules.now) empties }
    ensures { UnitHeads (map entry_of rules.now) empties (symbol_of symbol) result }
{
    member_sets::with_heads(rules, 0, |rule| is_unit(*rule, symbol, empties))
}

// ---- the closure

// Returns the union of the `entries` of the nonterminals of `set`.
pub fn union(entries: &Sets, set: u64) -> u64
    ensures { UnionOf entries.now set result }
{
    let mut out = 0;
    for (q, entry) in entries.iter().enumerate() {
        if member_sets::among(TERMINALS + q as u8, set) {
            out |= *entry;
        }
    }
    out
}

// Returns what is reached from nonterminal `q` through the entries of `direct`: round after round, until one adds nothing. A set that grows
// is a larger word, so the rounds end.
fn closure(direct: &Sets, q: u8) -> u64
    requires { q < nonterminals }
    ensures { ClosureOf direct.now q result }
{
    let mut set = member_sets::with_one(0, q);
    // A loop of its own, as in `nullable`: one function for both would have clauses on growth and on soundness that are longer than the loop.
    loop {
        let more = union(direct, set);
        let next = set | more;
        if next == set {
            return set;
        }
        set = next;
    }
}

// Stores in entry q of `direct` the heads of the units of nonterminal q.
pub fn fill_direct(rules: &[[u8; 4]], empties: u64, direct: &mut Sets)
    requires { Heads (map entry_of rules.now) × Nullable (map entry_of rules.now) empties }
    ensures { Direct (map entry_of rules.now) empties direct.new }
{
    for (q, entry) in direct.iter_mut().enumerate() {
        *entry = unit_heads(rules, TERMINALS + q as u8, empties);
    }
}

// Stores in entry q of `units` what is reached from nonterminal q through the entries of `direct`.
pub fn fill_units(direct: &Sets, units: &mut Sets)
    ensures { Closures direct.now units.new }
{
    for (q, entry) in units.iter_mut().enumerate() {
        *entry = closure(direct, q as u8);
    }
}
