// The list of a sheet's gaps and doubles, as a call on a file and a lent buffer (document 02, C-16). One pass over the records of the file fills
// three tables: the count of transitions for each state and letter, which states are taken and which letters are used. The list is written
// from these.
#![tactic(auto)]

ghost use Rattle.std.specs.Prelude.{◌≡◌, false, ℕ, ◌+◌, ◌*◌, ◌≤◌, ◌<◌, length, get_or, replicate};
ghost use Rattle.relation.specs.Relation.{states};
ghost use Rattle.spec_language.specs.Remarks.{first_remark};
ghost use Rattle.spec_file.specs.Limits.{record_limit};
ghost use Rattle.spec_file.specs.Records.{record_count};
ghost use Rattle.spec_file.specs.Answers.{tested_of};
ghost use Rattle.spec_file.specs.Refusals.{fault, first_of};
ghost use Rattle.spec_file.specs.Views.{automaton_of};
ghost use Rattle.spec_calls.specs.Listing.{gaps_of, list_bytes, list_refusals};
ghost use Rattle.call_gaps.specs.Answers.{Lists};
ghost use Rattle.call_gaps.specs.Sheets.{cell_of, with_move, with_mark, Sheet, Taken, lines_in, put, gap_in, pair_into, state_into, all_into, Bytes};
ghost use Rattle.call_gaps.specs.LineLaws.{lines_of};

use relation::STATES;
use spec_file::{FINAL_KIND, FIRST_REMARK, Fault, Refusal, TRANSITION_KIND, Transition, refuse_if};

// The letters that a transition may have are below this one, so many are the pairs of a state and a letter, and an entry has three bytes.
const LETTERS: usize = FIRST_REMARK as usize;

const PAIRS: usize = STATES as usize * LETTERS;

pub const LIST_BYTES: usize = PAIRS * 3;

// ---- reading

// Returns the place of the count of the state `s` and the letter `c`.
fn cell_of(s: u8, c: u8) -> usize
    ensures { result ≡ cell_of s c }
{
    s as usize * LETTERS + c as usize
}

// Sets the mark at `place`, where `marks` has one.
fn mark(marks: &mut [bool], place: u8)
    ensures { marks.new ≡ with_mark marks.old place }
{
    // A test and a store: the library's `get_mut` does not say what the slice is afterwards.
    let at = place as usize;
    if at < marks.len() {
        marks[at] = true;
    }
}

// Counts one transition more from the state `source` on `letter`, where `counts` has that pair.
fn count(counts: &mut [u16], source: u8, letter: u8)
    requires { (k : ℕ) → get_or counts.old k 0 < record_limit }
    ensures { counts.new ≡ with_move counts.old source letter }
{
    if FIRST_REMARK <= letter {
        return;
    }
    let at = cell_of(source, letter);
    if at < counts.len() {
        counts[at] += 1;
    }
}

// The tables of a sheet.
#[derive(Drop)]
struct Tables {
    // The number of transitions of each state and letter.
    counts: [u16; PAIRS],
    // Which states are taken, and which letters are used.
    taken: [bool; STATES as usize],
    used: [bool; LETTERS],
}

impl Tables {
    // Takes the transition `t` in: counts it, and marks its two states and its letter.
    fn take_move(&mut self, t: Transition)
        requires { (k : ℕ) → get_or self.old.counts k 0 < record_limit }
        ensures { (self.new.counts ≡ with_move self.old.counts t.source t.letter)
            × (self.new.taken ≡ with_mark (with_mark self.old.taken t.source) t.target) × (self.new.used ≡ with_mark self.old.used t.letter) }
    {
        count(&mut self.counts, t.source, t.letter);
        mark(&mut self.taken, t.source);
        mark(&mut self.taken, t.target);
        mark(&mut self.used, t.letter);
    }

    // Takes record `i` of `file` in, where it is a transition or a final state.
    fn take(&mut self, file: &[u8], i: usize)
        requires { (i < record_count file.now) × ((k : ℕ) → get_or self.old.counts k 0 < record_limit) }
        ensures { Taken file.now i self.old.counts self.old.taken self.old.used self.new.counts self.new.taken self.new.used }
    {
        match file[i * 8] {
            TRANSITION_KIND => self.take_move(file_views::transition_at(file, i)),
            FINAL_KIND => mark(&mut self.taken, file_views::final_at(file, i)),
            _ => {}
        }
    }

    // Reads the automaton of `file` into empty tables. State 0 is taken, whatever the records are. (The tables are filled where they stand: handed
    // out, each copy would take 4 KiB of the stack more, of which the header tells hosts.)
    fn read(&mut self, file: &[u8])
        requires few { record_count file.now ≤ record_limit }
        requires empty { (self.old.counts ≡ replicate (states * first_remark) 0) × (self.old.taken ≡ replicate states false) × (self.old.used ≡ replicate first_remark false) }
        ensures { Sheet (automaton_of file.now) self.new.counts self.new.taken self.new.used }
    {
        mark(&mut self.taken, 0);
        // The tables say what the automaton of the records before `i` has.
        for i in 0..file.len() / 8 {
            self.take(file, i);
        }
    }

    // ---- writing

    // Returns whether the state `s` is taken, the letter `c` is used, and the number of transitions isn't one.
    fn is_gap(&self, s: u8, c: u8) -> bool
        requires { (s < states) × (c < first_remark) }
        ensures { result ≡ gap_in self.now.counts self.now.taken self.now.used s c }
    {
        self.taken[s as usize] && self.used[c as usize] && self.counts[cell_of(s, c)] != 1
    }

    // Lists the state `s` with the letter `c` behind `n` entries, where they are a gap or a double; returns the count of entries then.
    fn list_pair(&self, buffer: &mut [u8], s: u8, c: u8, n: usize) -> usize
        requires { Bytes self.now.counts × (s < states) × (c < first_remark) × (n * 3 + 3 ≤ length buffer.old) }
        ensures { (lines_in buffer.new result ≡ pair_into self.now.counts self.now.taken self.now.used s c (lines_in buffer.old n))
            × (result ≤ n + 1) × (length buffer.new ≡ length buffer.old) }
    {
        if !self.is_gap(s, c) {
            return n;
        }
        let moves = self.counts[cell_of(s, c)] as u8;
        write(buffer, n, s, c, moves);
        n + 1
    }

    // Lists the gaps and doubles of the state `s` behind `n` entries, letters rising; returns the count of entries then.
    fn list_state(&self, buffer: &mut [u8], s: u8, n: usize) -> usize
        requires { Bytes self.now.counts × (s < states) × ((n + first_remark) * 3 ≤ length buffer.old) }
        ensures { (lines_in buffer.new result ≡ state_into self.now.counts self.now.taken self.now.used s first_remark (lines_in buffer.old n))
            × (result ≤ n + first_remark) × (length buffer.new ≡ length buffer.old) }
    {
        let mut m = n;
        // The letters below `c` are listed behind the first `n` entries, one entry at most for each.
        for c in 0..FIRST_REMARK {
            m = self.list_pair(buffer, s, c, m);
        }
        m
    }

    // Lists the gaps and doubles of all states, states rising; returns the count of entries.
    fn list_all(&self, buffer: &mut [u8]) -> usize
        requires { Bytes self.now.counts × (list_bytes ≤ length buffer.old) }
        ensures { lines_in buffer.new result ≡ all_into self.now.counts self.now.taken self.now.used states (lines_in buffer.old 0) }
    {
        let mut n = 0;
        // The states below `s` are listed, 120 entries at most for each.
        for s in 0..STATES {
            n = self.list_state(buffer, s, n);
        }
        n
    }
}

// Writes entry `n` of the list to `buffer`: the state `s`, the letter `c` and the number of `moves`.
fn write(buffer: &mut [u8], n: usize, s: u8, c: u8, moves: u8)
    requires { n * 3 + 3 ≤ length buffer.old }
    ensures { buffer.new ≡ put buffer.old n (record { state = s; letter = c; moves = moves }) }
{
    let at = n * 3;
    buffer[at] = s;
    buffer[at + 1] = c;
    buffer[at + 2] = moves;
}

// ---- the call

// Refuses a call on `file` and a buffer of `room` bytes: as the file is refused, then with 15 for a buffer that is too small.
fn refusal_for(file: &[u8], room: usize) -> Result<(), Refusal>
    ensures { tested_of result ≡ first_of (list_refusals file.now room) }
{
    file_whole::file_refusal(file)?;
    refuse_if(room < LIST_BYTES, Fault::ShortList)?;
    Ok(())
}

// Writes the list of `file`, which nothing refuses, to the front of `buffer`; returns the count of entries.
fn fill(file: &[u8], buffer: &mut [u8]) -> usize
    requires { ((fault file.now).number ≡ 0) × (list_bytes ≤ length buffer.old) }
    ensures { lines_in buffer.new result ≡ lines_of buffer.old (gaps_of file.now) }
{
    let mut tables = Tables {
        counts: [0; PAIRS],
        taken: [false; STATES as usize],
        used: [false; LETTERS],
    };
    tables.read(file);
    tables.list_all(buffer)
}

// Returns the count of the gaps and doubles of the sheet in `file`, and writes them to the front of `buffer`, three bytes each: state, letter,
// number of transitions. The other bytes of `buffer` keep their values. A refusal has one of a file's numbers, or 15; a refused call leaves
// all bytes.
pub fn list(file: &[u8], buffer: &mut [u8]) -> Result<usize, Refusal>
    ensures { Lists file.now buffer.old buffer.new result }
{
    refusal_for(file, buffer.len())?;
    Ok(fill(file, buffer))
}
