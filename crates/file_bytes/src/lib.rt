// The bytes of a record of a file, by its place: any number of them, or the eight of a record by its number; and what these eight say: a rule,
// a transition or a final state.
#![tactic(auto)]

ghost use Rattle.std.specs.Prelude.{◌≡◌, ◌+◌, ◌≤◌, length};
ghost use Rattle.spec_file.specs.Answers.{said_by};
ghost use Rattle.spec_file.specs.Entries.{rule_in, transition_in, whole_record};
ghost use Rattle.spec_file.specs.Records.{bytes_after, record_of};

use spec_file::{RULE_KIND, Record, Rule, TRANSITION_KIND, Transition};

// Copies `N` bytes of `file`, from byte `at` on: a record's, of either width.
pub fn chunk_at<const N: usize>(file: &[u8], at: usize) -> [u8; N]
    requires { at + N ≤ length file.now }
    ensures { result ≡ bytes_after file.now at N 0 }
{
    let mut chunk = [0; N];
    chunk.copy_from_slice(&file[at..at + N]);
    chunk
}

// Copies the bytes of record `i` of `file`; past the last whole record it returns zeros, so it asks nothing of `i`.
pub fn whole_record(file: &[u8], i: usize) -> [u8; 8]
    ensures { result ≡ whole_record file.now i }
{
    if file.len() / 8 <= i {
        return [0u8; 8];
    }
    chunk_at(file, i * 8)
}

// Reads the bytes `r` as a rule, whatever their kind.
pub fn rule_of(r: [u8; 8]) -> Rule
    ensures { result ≡ rule_in r }
{
    Rule {
        head: r[1],
        size: r[2],
        first: r[3],
        second: r[4],
    }
}

// Reads the bytes `r` as a transition, whatever their kind.
pub fn transition_of(r: [u8; 8]) -> Transition
    ensures { result ≡ transition_in r }
{
    Transition {
        source: r[1],
        letter: r[2],
        target: r[3],
    }
}

// Reads the bytes `r` by their kind. Any kind but 1 and 2 reads as a final state: number 3 refuses a record of a kind that is not 1 to 3.
pub fn record_of(r: [u8; 8]) -> Record
    ensures { said_by result ≡ record_of r }
{
    if r[0] == RULE_KIND {
        return Record::Rule(rule_of(r));
    }
    if r[0] == TRANSITION_KIND {
        return Record::Transition(transition_of(r));
    }
    Record::Final(r[1])
}
