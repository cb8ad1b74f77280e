// Reading a plan file record by record: the reader, which holds the file's bytes and the place of the next record, and its step from any place.
// `step_after` and `step_from` are given the counts of the records before, so that a walk over a file counts no record twice: `file_whole` uses
// `step_after`. `step`, `position`, `advance`, `moved` and `step_at` are document 01's own form of the step, for a caller; here `bolfrega` and tests
// call `step_at`.
#![tactic(auto)]

ghost use Rattle.std.specs.Prelude.{◌≡◌, ◌<◌};
ghost use Rattle.spec_file.specs.Reading.{step_from, step_at};
ghost use Rattle.spec_file.specs.Records.{record_count};
ghost use Rattle.spec_file.specs.Answers.{fault_of};
ghost use Rattle.spec_file.specs.Refusals as refusals;
ghost use Rattle.file_reader.specs.Answers.{step_of, place_after};

use spec_file::{Fault, RECORD_LIMIT, Record, Refusal, of_record, refuse_if};

// The file's bytes, and the place of the next record.
#[derive(Clone, Copy)]
pub struct Reader<'a> {
    pub file: &'a [u8],
    pub place: usize,
}

// A record with the place of the next, or none at the end of the file; or the refusal that stopped the reader.
pub type Step = Result<Option<(Record, usize)>, Refusal>;

// ---- a record in its file

// Tests whether record `i` is the first, or exceeds the one before it.
fn exceeds(file: &[u8], i: usize) -> bool
    requires { i < record_count file.now }
    ensures { result ≡ refusals.exceeds file.now i }
{
    if i == 0 {
        return true;
    }
    file_checks::rises(
        file_bytes::whole_record(file, i - 1),
        file_bytes::whole_record(file, i),
    )
}

// Tests record `i`, in the order of the definition; `rules` and `transitions` are the counts of the records before it.
fn fault_by(file: &[u8], i: usize, rules: usize, transitions: usize) -> Result<(), Fault>
    requires { i < record_count file.now }
    ensures { fault_of result ≡ refusals.fault_by file.now i rules transitions }
{
    let r = file_bytes::whole_record(file, i);
    refuse_if(!file_checks::kind_known(r), Fault::UnknownKind)?;
    refuse_if(file_checks::above_range(r), Fault::AboveRange)?;
    refuse_if(file_checks::stray_byte(r), Fault::StrayByte)?;
    refuse_if(file_checks::on_remark(r), Fault::MoveOnRemark)?;
    refuse_if(!exceeds(file, i), Fault::NotRising)?;
    refuse_if(
        file_checks::over_limit(r, rules, transitions),
        Fault::OverLimit,
    )
}

// Steps from `place`, where `rules` and `transitions` are the counts of the records before it: checks 1 and 2, the end of the file, and then
// the checks of the record there.
pub fn step_from(file: &[u8], place: usize, rules: usize, transitions: usize) -> Step
    ensures { step_of result ≡ step_from file.now place rules transitions }
{
    let records = file.len() / 8;
    refuse_if(file.len() % 8 != 0, Fault::TornRecord)?;
    refuse_if(RECORD_LIMIT < records, Fault::TooManyRecords)?;
    if records <= place {
        return Ok(None);
    }
    of_record(fault_by(file, place, rules, transitions), place)?;
    let record = file_bytes::record_of(file_bytes::whole_record(file, place));
    Ok(Some((record, place + 1)))
}

// Steps from `place`. It counts the records before `place` by their kind alone, and does not check them again.
fn step_counted(file: &[u8], place: usize) -> Step
    ensures { step_of result ≡ step_at file.now place }
{
    if file.len() / 8 <= place {
        return step_from(file, place, 0, 0);
    }
    let before = &file[..place * 8];
    let rules = file_views::rule_count(before);
    let transitions = file_views::transition_count(before);
    step_from(file, place, rules, transitions)
}

// Returns the place after the step `s` from `place`: that of the next record, or `place` where the step gave none.
fn place_after(s: Step, place: usize) -> usize
    ensures { result ≡ place_after (step_of s) place }
{
    match s {
        Ok(Some((_, next))) => next,
        Ok(None) | Err(_) => place,
    }
}

// ---- the reader: thin functions

impl<'a> Reader<'a> {
    pub fn new(file: &'a [u8]) -> Reader<'a>
        ensures { (result.file ≡ file.entry) × (result.place ≡ 0) }
    {
        Reader { file, place: 0 }
    }

    pub fn position(self) -> usize
        ensures { result ≡ self.entry.place }
    {
        self.place
    }

    pub fn step(self) -> Step
        ensures { step_of result ≡ step_at self.entry.file.now self.entry.place }
    {
        step_counted(self.file, self.place)
    }

    // Steps from the place of the reader, where `rules` and `transitions` are the counts of the records before it.
    pub fn step_after(self, rules: usize, transitions: usize) -> Step
        ensures { step_of result ≡ step_from self.entry.file.now self.entry.place rules transitions }
    {
        step_from(self.file, self.place, rules, transitions)
    }

    // Returns the reader after the step `s`: at the next record, or where it was if the step gave none.
    pub fn moved(self, s: Step) -> Reader<'a>
        ensures { (result.file ≡ self.entry.file) × (result.place ≡ place_after (step_of s) self.entry.place) }
    {
        Reader {
            file: self.file,
            place: place_after(s, self.place),
        }
    }

    // Steps, and moves the reader to the next record if the step gave one.
    pub fn advance(&mut self) -> Step
        ensures { (step_of result ≡ step_at self.old.file.now self.old.place) × (self.new.file ≡ self.old.file)
            × (self.new.place ≡ place_after (step_of result) self.old.place) }
    {
        let s = step_counted(self.file, self.place);
        self.place = place_after(s, self.place);
        s
    }
}

// Steps from `place` of `file`, by a reader there.
pub fn step_at(file: &[u8], place: usize) -> Step
    ensures { step_of result ≡ step_at file.now place }
{
    Reader { file, place }.step()
}
