// Unfolding a file of sixteen-byte records into one of eight-byte records, as a call on a file and a lent output (document 02, C-17): its
// rules, with chain procedures for the bodies above two symbols, in file order, and then its other records. Specs: Answers (what is
// promised), Results (what is written); the laws are in KeptLaws (the records that are no rules), LengthLaws, WriteLaws, ResultLaws and
// CallLaws.
#![tactic(auto)]

ghost use Rattle.std.specs.Prelude.{◌≡◌, map, ◌*◌, ◌≤◌, length};
ghost use Rattle.spec_file.specs.Answers.{tested_of};
ghost use Rattle.spec_file.specs.Forms.{sixteen};
ghost use Rattle.spec_file.specs.Limits.{nonterminals};
ghost use Rattle.spec_file.specs.Refusals.{fault_in, first_of};
ghost use Rattle.spec_records.specs.Blocks.{bytes_of};
ghost use Rattle.call_move.specs.Fronts.{over};
ghost use Rattle.unfold_order.specs.Keys.{digits_of};
ghost use Rattle.spec_unfold.specs.Unfolding.{least_for};
ghost use Rattle.call_unfold.specs.Answers.{Unfolds};
ghost use Rattle.call_unfold.specs.Results.{unfolded_bytes, Fits, needed_bytes, needed_refusals, Bounded};

use file_wide_checks::WIDTH;
use spec_file::{Fault, NONTERMINALS, RULE_LIMIT, Refusal, refuse_if};
use unfold_count::Needed;
use unfold_order::Keys;

// ---- writing

// Writes the records of which `keys` are the numbers to the front of `out`.
fn put_rules(keys: &[u64], out: &mut [u8])
    requires { length keys.now * 8 ≤ length out.old }
    ensures { out.new ≡ over (bytes_of (map (digits_of 256 8) keys.now)) out.old }
{
    // The records of the keys before `key` are written, and the bytes behind them are the old ones.
    for (i, key) in keys.iter().enumerate() {
        let r = unfold_order::record_of(*key);
        call_move::put(out, i * 8, &r);
    }
}

// Writes what `file` unfolds to, with chain procedures from `first` on, to the front of `out`: its rules in order, and then its other
// records, which stand behind its `rules` rules.
fn put_unfolded(file: &[u8], first: usize, rules: usize, out: &mut [u8])
    requires { Fits file.now first rules (length out.old) }
    ensures { out.new ≡ over (unfolded_bytes file.now first rules) out.old }
{
    let mut keys: Keys = [0u64; RULE_LIMIT];
    let count = unfold_chains::add_rules(file, first, &mut keys);
    put_rules(&keys[..count], out);
    let from = rules * WIDTH;
    let at = count * 8;
    call_move::put_narrower(&file[from..], &mut out[at..]);
}

// ---- what refuses an unfolding

// Returns the length of the result for a file of `records` records, of which the rules need `t`: a record for each, and one for each chain
// procedure.
fn result_bytes(t: Needed, records: usize) -> usize
    requires { Bounded t records }
    ensures { result ≡ needed_bytes t records }
{
    (records + t.chains) * 8
}

// Refuses to unfold a file of `records` records, of which the rules need `t`, to an output of `room` bytes: with 18 for a procedure or a rule
// too many, then with 10 for too little room.
fn refusal_for(t: Needed, records: usize, room: usize) -> Result<(), Refusal>
    requires { Bounded t records }
    ensures { tested_of result ≡ first_of (needed_refusals t records room) }
{
    let procedures = t.first + t.chains;
    let rules = t.rules + t.chains;
    let many = ((NONTERMINALS as usize) < procedures) | (RULE_LIMIT < rules);
    refuse_if(many, Fault::TooManyChains)?;
    refuse_if(room < result_bytes(t, records), Fault::NoRoom)?;
    Ok(())
}

// ---- the call

// Unfolds `file`, which no file check refuses, to the front of `out`; the chain procedures are not to be below `least`.
fn unfold_passed(file: &[u8], least: usize, out: &mut [u8]) -> Result<usize, Refusal>
    requires { ((fault_in sixteen file.now).number ≡ 0) × (least ≤ nonterminals) }
    ensures { Unfolds least file.now out.old out.new result }
{
    let records = file.len() / WIDTH;
    let t = unfold_count::count_file(file, least);
    refusal_for(t, records, out.len())?;
    put_unfolded(file, t.first, t.rules, out);
    Ok(result_bytes(t, records))
}

// Returns one above the highest procedure of the set `starts`, and 0 where it has none: the least number that a chain procedure may have.
fn least_for(starts: u64) -> usize
    ensures { (result ≡ least_for starts) × (result ≤ nonterminals) }
{
    let mut least = 0;
    // `least` is one above the highest procedure of the set below `p`.
    for p in 0..NONTERMINALS {
        if spec_calls::is_member(starts, p) {
            least = p as usize + 1;
        }
    }
    least
}

// Unfolds `file`, of sixteen-byte records, into a file of eight-byte records at the front of `out`, for a check of the set `starts` of starting
// procedures: none of them becomes a chain procedure. Returns the result's length in bytes. The other bytes of `out` keep their values. A
// refusal has one of a file's numbers, or 10 or 18; a refused call leaves all bytes.
pub fn unfold(file: &[u8], starts: u64, out: &mut [u8]) -> Result<usize, Refusal>
    ensures { Unfolds (least_for starts) file.now out.old out.new result }
{
    let least = least_for(starts);
    file_wide::file_refusal(file)?;
    unfold_passed(file, least, out)
}
