// A whole file of sixteen-byte records (document 02, C-17): the bytes of a record by its number, and the refusal of the file, numbers 16, 2
// to 7 and 12. The tests of one record are those of `file_wide_checks`, and of `file_checks` where they read its first eight bytes alone.
// Laws of the walk over the records are in specs/WalkLaws.
// `i` is below the count of records in each clause: an index of its own in each function.
#![tactic(auto)]

ghost use Rattle.std.specs.Prelude.{◌≡◌, cond, ◌<◌, ◌≤◌, eqb};
ghost use Rattle.spec_file.specs.Answers.{fault_of, tested_of};
ghost use Rattle.spec_file.specs.Forms.{sixteen};
ghost use Rattle.spec_file.specs.Records.{record_count_in, record_in, kind_in};
ghost use Rattle.spec_file.specs.Refusals.{exceeds_in, fault_by_in, fault_from_in, fault_in, length_fault_in};

use file_wide_checks::{WIDTH, WideRecord};
use spec_file::{Fault, RECORD_LIMIT, RULE_KIND, Refusal, TRANSITION_KIND, of_record, refuse_if};

// Copies the bytes of record `i`, which is a whole record of `file`.
pub fn record_at(file: &[u8], i: usize) -> WideRecord
    requires { i < record_count_in sixteen file.now }
    ensures { result ≡ record_in sixteen file.now i }
{
    file_bytes::chunk_at(file, i * WIDTH)
}

// Returns whether record `i` of `file` is the first, or exceeds the one before it.
fn exceeds(file: &[u8], i: usize) -> bool
    requires { i < record_count_in sixteen file.now }
    ensures { result ≡ exceeds_in sixteen file.now i }
{
    i == 0 || file_wide_checks::rises(record_at(file, i - 1), record_at(file, i))
}

// Tests record `i`, in the order of the definition; `rules` and `transitions` are the counts of the records before it.
// (As in `file_reader`, at the other width. One function for both would take the six tests as parameters, and each with what it promises.)
fn fault_by(file: &[u8], i: usize, rules: usize, transitions: usize) -> Result<(), Fault>
    requires { i < record_count_in sixteen file.now }
    ensures { fault_of result ≡ fault_by_in sixteen file.now i rules transitions }
{
    let r = record_at(file, i);
    let front = file_wide_checks::front(r);
    refuse_if(!file_checks::kind_known(front), Fault::UnknownKind)?;
    refuse_if(file_wide_checks::above_range(r), Fault::AboveRange)?;
    refuse_if(file_wide_checks::stray_byte(r), Fault::StrayByte)?;
    refuse_if(file_checks::on_remark(front), Fault::MoveOnRemark)?;
    refuse_if(!exceeds(file, i), Fault::NotRising)?;
    refuse_if(
        file_checks::over_limit(front, rules, transitions),
        Fault::OverLimit,
    )
}

// Returns 1 where record `i` of `file` has the kind `kind`, and else 0.
fn of_kind(file: &[u8], i: usize, kind: u8) -> usize
    requires { i < record_count_in sixteen file.now }
    ensures { (result ≡ cond (eqb (kind_in sixteen file.now i) kind) 1 0) × (result ≤ 1) }
{
    usize::from(file[i * WIDTH] == kind)
}

// Refuses `file` by its length: 16 for a torn record, then 2 for too many.
fn length_refusal(file: &[u8]) -> Result<(), Fault>
    ensures { fault_of result ≡ length_fault_in sixteen file.now }
{
    refuse_if(file.len() % WIDTH != 0, Fault::TornWideRecord)?;
    refuse_if(RECORD_LIMIT < file.len() / WIDTH, Fault::TooManyRecords)
}

// Refuses the first record of `file` that a test refuses. Rules and transitions are counted on the way, so that each record is looked at once.
fn records_refusal(file: &[u8]) -> Result<(), Refusal>
    ensures { tested_of result ≡ fault_from_in sixteen file.now (record_count_in sixteen file.now) 0 }
{
    let mut rules: usize = 0;
    let mut transitions: usize = 0;
    // The records before `i` pass, and are counted.
    for i in 0..file.len() / WIDTH {
        of_record(fault_by(file, i, rules, transitions), i)?;
        rules += of_kind(file, i, RULE_KIND);
        transitions += of_kind(file, i, TRANSITION_KIND);
    }
    Ok(())
}

// Refuses the whole `file`: by its length, and then by its records.
pub fn file_refusal(file: &[u8]) -> Result<(), Refusal>
    ensures { tested_of result ≡ fault_in sixteen file.now }
{
    length_refusal(file)?;
    records_refusal(file)
}
