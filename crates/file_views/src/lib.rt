// The views of a file: counts of its records by kind, and a record by its number, read as a rule, as a transition or as a final state. Each
// takes any bytes: only whole records are counted, and a record past the last one reads as zeros. The product calls `rule_count`,
// `transition_count` and the three readings; `record_count` and `final_count` complete document 01's views, and only tests call them.
#![tactic(auto)]

ghost use Rattle.std.specs.Prelude.{◌≡◌, ◌≤◌};
ghost use Rattle.spec_file.specs.Entries.{rule_count, transition_count, final_count, rule_at, transition_at, final_at};
ghost use Rattle.spec_file.specs.Records.{record_count, count_of};

use spec_file::{FINAL_KIND, RULE_KIND, Rule, TRANSITION_KIND, Transition};

// ---- counts, of the whole records, whatever else they hold

// Counts the records of `kind` among the first `n` records of `file`.
fn count_of(file: &[u8], kind: u8, n: usize) -> usize
    requires { n ≤ record_count file.now }
    ensures { result ≡ count_of file.now kind n }
{
    let mut count: usize = 0;
    // `count` is the number of records of the kind among the first `i`.
    for i in 0..n {
        if file[i * 8] == kind {
            count += 1;
        }
    }
    count
}

// Counts the whole records of `file`.
pub fn record_count(file: &[u8]) -> usize
    ensures { result ≡ record_count file.now }
{
    file.len() / 8
}

// Counts the rules of `file`.
pub fn rule_count(file: &[u8]) -> usize
    ensures { result ≡ rule_count file.now }
{
    count_of(file, RULE_KIND, file.len() / 8)
}

// Counts the transitions of `file`.
pub fn transition_count(file: &[u8]) -> usize
    ensures { result ≡ transition_count file.now }
{
    count_of(file, TRANSITION_KIND, file.len() / 8)
}

// Counts the final states of `file`.
pub fn final_count(file: &[u8]) -> usize
    ensures { result ≡ final_count file.now }
{
    count_of(file, FINAL_KIND, file.len() / 8)
}

// ---- a record by its number

// Reads record `i` of `file` as a rule, whatever its kind. The rules of a file that is not refused are its first records.
pub fn rule_at(file: &[u8], i: usize) -> Rule
    ensures { result ≡ rule_at file.now i }
{
    file_bytes::rule_of(file_bytes::whole_record(file, i))
}

// Reads record `i` of `file` as a transition, whatever its kind. The transitions of a file that is not refused come after its rules.
pub fn transition_at(file: &[u8], i: usize) -> Transition
    ensures { result ≡ transition_at file.now i }
{
    file_bytes::transition_of(file_bytes::whole_record(file, i))
}

// Reads record `i` of `file` as a final state, whatever its kind. The final states of a file that is not refused come last.
pub fn final_at(file: &[u8], i: usize) -> u8
    ensures { result ≡ final_at file.now i }
{
    let r = file_bytes::whole_record(file, i);
    r[1]
}
