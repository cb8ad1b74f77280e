// What becomes of a candidate, in steps on values: a hint remembers where looking for it ended, and it is counted.
#![tactic(auto)]

ghost use Rattle.std.specs.Prelude.{◌≡◌};
ghost use Rattle.search_laws.specs.Meanings.{born_by, decided_in};
ghost use Rattle.search_laws.specs.Steps.{MayRemember, Remembers, MayDecide};

use search_cover::CoverAnswer;
use search_laws::{Outcome, Stop};
use search_state::{Counts, Fate, LASTS, State, Unbroken};

// Updates the hints: a covering row found through the links becomes the last-cover hint of its nonterminal and the hint of its relation; a
// new row becomes the hint of its relation.
pub fn remember_hint(table: &mut [u32], state: State, fate: Fate, found: CoverAnswer)
    requires { MayRemember state found table.old }
    ensures { Remembers table.old table.new }
{
    let counts = state.counts;
    let used = counts.used;
    let slot = found.slot;
    if !found.covers {
        table[slot] = search_order::cell(used);
        return;
    }
    if found.linked {
        let row = search_order::cell(found.row);
        table[LASTS + fate.head as usize] = row;
        table[slot] = row;
    }
}

// What becomes of a new row.
fn born(broken: bool, row: usize, counts: Counts) -> Outcome
    ensures { result ≡ born_by broken row counts }
{
    if broken {
        return Outcome::Stopped(Stop::Broken(row, counts));
    }
    Outcome::Going(counts)
}

// Counts the candidate as one join more, by its `fate`: a row covers it, there is no room for it, or it is a new row.
pub fn decide(state: State, fate: Fate) -> Outcome
    requires { MayDecide state }
    ensures { result ≡ decided_in state fate }
{
    let counts = state.counts;
    let used = counts.used;
    let joins = counts.joins + 1;
    let added = counts.added;
    if fate.covered {
        return Outcome::Going(Counts { used, joins, added });
    }
    if fate.full {
        return Outcome::Stopped(Stop::Ended(Unbroken::Full, Counts { used, joins, added }));
    }
    let more = Counts {
        used: used + 1,
        joins,
        added: added + 1,
    };
    born(fate.breaks, used, more)
}
