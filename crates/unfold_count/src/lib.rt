// What unfolding a file of sixteen-byte records needs (document 02, C-17), counted record by record: the number of its first chain
// procedure, how many chain procedures there are to be, and how many rules there were. Specs: Counting (the counts), Parts (a part of a
// record's bytes); their laws are in CountingLaws and PartLaws.
#![tactic(auto)]

ghost use Rattle.std.specs.Prelude.{◌≡◌, ◌+◌, ◌*◌, ◌≤◌, ◌<◌, ◌^◌, ◌/◌, length};
ghost use Rattle.spec_records.specs.Blocks.{records_of};
ghost use Rattle.spec_records.specs.OnRecords.{body_in};
ghost use Rattle.spec_unfold.specs.Chains.{chains_for, above_body};
ghost use Rattle.spec_unfold.specs.Unfolding.{byte_rule, above_byte};
ghost use Rattle.unfold_count.specs.Counting.{with_record, with_records, none_yet};
ghost use Rattle.unfold_count.specs.Parts.{part};

use file_wide_checks::{WIDTH, WideRecord};
use spec_file::{RULE_KIND, TERMINALS};

// The number of the first chain procedure, how many chain procedures there are to be, and how many rules there were.
#[derive(Clone, Copy)]
pub struct Needed {
    pub first: usize,
    pub chains: usize,
    pub rules: usize,
}

// Returns the place behind the body of the rule `r`, which is within the record.
pub fn body_end(r: WideRecord) -> usize
    ensures { (3 ≤ result) × (result ≤ 16) × (part 3 result r ≡ body_in r) }
{
    WIDTH.min(r[2] as usize + 3)
}

// Returns how many chain procedures the rule `r` takes: one for each symbol of its body past the second.
pub fn chains_for(r: WideRecord) -> usize
    ensures { (result ≡ chains_for (byte_rule r)) × (result ≤ 11) }
{
    body_end(r).saturating_sub(5)
}

// Returns the first number above the nonterminal of the symbol `b`, and 0 for a terminal.
fn above_byte(b: u8) -> usize
    ensures { result ≡ above_byte b }
{
    if b < TERMINALS {
        return 0;
    }
    b as usize - TERMINALS as usize + 1
}

// Returns the first number that is `m` or above it, and above each nonterminal in the body of the rule `r`.
fn above_body(r: WideRecord, m: usize) -> usize
    ensures { result ≡ above_body above_byte m (body_in r) }
{
    let body = &r[3..body_end(r)];
    body.iter()
        .fold(m, |top, symbol| top.max(above_byte(*symbol)))
}

// Returns the counts `t` with the record `r`: a rule's head and symbols are in use, and it takes its chain procedures.
fn with_record(t: Needed, r: WideRecord) -> Needed
    requires { (t.chains < 2 ^ 63) × (t.rules < 2 ^ 63) }
    ensures { result ≡ with_record t r }
{
    if r[0] != RULE_KIND {
        return t;
    }
    let above_head = r[1] as usize + 1;
    let first = above_body(r, t.first.max(above_head));
    let chains = t.chains + chains_for(r);
    let rules = t.rules + 1;
    Needed {
        first,
        chains,
        rules,
    }
}

// Returns the counts of the whole `file`, where the first chain procedure is not to be below `least`.
pub fn count_file(file: &[u8], least: usize) -> Needed
    ensures { (result ≡ with_records (none_yet least) (records_of 16 file.now)) × (result.chains ≤ length file.now / 16 * 11) × (result.rules ≤ length file.now / 16) }
{
    let mut t = Needed {
        first: least,
        chains: 0,
        rules: 0,
    };
    for i in 0..file.len() / WIDTH {
        t = with_record(t, file_wide::record_at(file, i));
    }
    t
}
