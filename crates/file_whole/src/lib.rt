// The walk over a whole file by steps: its refusal, and the stretch of its transitions.
#![tactic(auto)]

ghost use Rattle.std.specs.Prelude.{◌≡◌, ◌+◌, ◌<◌, ◌^◌};
ghost use Rattle.spec_file.specs.Answers.{said_by, tested_of};
ghost use Rattle.spec_file.specs.Reading.{stretch};
ghost use Rattle.spec_file.specs.Refusals.{fault};
ghost use Rattle.spec_file.specs.Walk.{rules_in, transitions_in};
ghost use Rattle.file_whole.specs.Given.{begun};

use file_reader::Reader;
use spec_file::{Record, Refusal};

fn rules_in(r: Record) -> usize
    ensures { result ≡ rules_in (said_by r) }
{
    match r {
        Record::Rule(_) => 1,
        Record::Transition(_) => 0,
        Record::Final(_) => 0,
    }
}

fn transitions_in(r: Record) -> usize
    ensures { result ≡ transitions_in (said_by r) }
{
    match r {
        Record::Rule(_) => 0,
        Record::Transition(_) => 1,
        Record::Final(_) => 0,
    }
}

// How many rules and transitions a walk has passed.
#[derive(Clone, Copy)]
struct Tally {
    rules: usize,
    transitions: usize,
}

// Returns the tally before the first record.
fn begin() -> Tally
    ensures { result ≡ begun }
{
    Tally {
        rules: 0,
        transitions: 0,
    }
}

// Returns the tally `t` with the record `r`, which is counted by its kind.
fn tallied(t: Tally, r: Record) -> Tally
    requires { (t.rules + rules_in (said_by r) < 2 ^ 64) × (t.transitions + transitions_in (said_by r) < 2 ^ 64) }
    ensures { (result.rules ≡ t.rules + rules_in (said_by r)) × (result.transitions ≡ t.transitions + transitions_in (said_by r)) }
{
    Tally {
        rules: t.rules + rules_in(r),
        transitions: t.transitions + transitions_in(r),
    }
}

// Refuses the whole `file` where a step does. A reader goes from record to record, and the tally gives it the counts, so that each record is
// looked at once.
pub fn file_refusal(file: &[u8]) -> Result<(), Refusal>
    ensures { tested_of result ≡ fault file.now }
{
    let mut reader = Reader::new(file);
    let mut t = begin();
    // The records before the reader pass, and `t` counts them.
    loop {
        let Some((r, next)) = reader.step_after(t.rules, t.transitions)? else {
            return Ok(());
        };
        reader.place = next;
        t = tallied(t, r);
    }
}

// Returns the part of `file` that is its transitions: empty if there are none, or if the file is refused.
pub fn transition_stretch(file: &[u8]) -> &[u8]
    ensures { result.now ≡ stretch file.now }
{
    if file_refusal(file).is_err() {
        return &file[..0];
    }
    let first = file_views::rule_count(file) * 8;
    let end = first + file_views::transition_count(file) * 8;
    &file[first..end]
}
