// Checks 3 to 7 and 12 of one record's bytes (document 01, "Numbers a call may refuse with"; C-11), each a test of its own.
#![tactic(auto)]

ghost use Rattle.std.specs.Prelude.{◌≡◌};
ghost use Rattle.spec_file.specs.Refusals as refusals;
ghost use Rattle.file_checks.specs.BigEndian.{big_endian};

use relation::STATES;
use spec_file::{
    FINAL_KIND, FIRST_REMARK, NONTERMINALS, RULE_KIND, RULE_LIMIT, SYMBOL_BYTES, TERMINALS,
    TRANSITION_KIND, TRANSITION_LIMIT,
};

// Check 3 does not hold: the kind of the record `r` is 1, 2 or 3.
pub fn kind_known(r: [u8; 8]) -> bool
    ensures { result ≡ refusals.kind_known r }
{
    (0 < r[0]) & (r[0] < 4)
}

// Check 4: returns whether a byte that the record `r` uses is above its range.
pub fn above_range(r: [u8; 8]) -> bool
    ensures { result ≡ refusals.above_range r }
{
    let [kind, b1, b2, b3, b4, _, _, _] = r;
    match kind {
        RULE_KIND => {
            ((NONTERMINALS <= b1) | (2 < b2))
                | (((0 < b2) & (SYMBOL_BYTES <= b3)) | ((1 < b2) & (SYMBOL_BYTES <= b4)))
        }
        TRANSITION_KIND => ((STATES <= b1) | (TERMINALS <= b2)) | (STATES <= b3),
        FINAL_KIND => STATES <= b1,
        _ => false,
    }
}

// Check 5: returns whether a byte that the record `r` does not use is not 0.
pub fn stray_byte(r: [u8; 8]) -> bool
    ensures { result ≡ refusals.stray_byte r }
{
    let [kind, _, b2, b3, b4, b5, b6, b7] = r;
    let last = (0 < b5) | ((0 < b6) | (0 < b7));
    match kind {
        RULE_KIND => (((b2 < 1) & (0 < b3)) | ((b2 < 2) & (0 < b4))) | last,
        TRANSITION_KIND => (0 < b4) | last,
        FINAL_KIND => (0 < b2) | ((0 < b3) | ((0 < b4) | last)),
        _ => false,
    }
}

// Check 12: returns whether the record `r` is a transition on a remark. Above the remarks are no terminals, and check 4 has refused these.
pub fn on_remark(r: [u8; 8]) -> bool
    ensures { result ≡ refusals.on_remark r }
{
    (r[0] == TRANSITION_KIND) & (FIRST_REMARK <= r[2])
}

// A record's bytes as one number, the first byte the highest.
pub fn number_of(r: [u8; 8]) -> u64
    ensures { result ≡ big_endian 256 8 r }
{
    u64::from_be_bytes(r)
}

// Check 6 does not hold: the record `s` exceeds `r`, the one before it. The first byte that differs decides, as it does between the two
// numbers.
pub fn rises(r: [u8; 8], s: [u8; 8]) -> bool
    ensures { result ≡ refusals.rises r s }
{
    number_of(r) < number_of(s)
}

// Check 7: returns whether the record `r`, after `rules` rules and `transitions` transitions, is a rule or a transition too many.
pub fn over_limit(r: [u8; 8], rules: usize, transitions: usize) -> bool
    ensures { result ≡ refusals.over_limit r rules transitions }
{
    ((r[0] == RULE_KIND) & (rules == RULE_LIMIT))
        | ((r[0] == TRANSITION_KIND) & (transitions == TRANSITION_LIMIT))
}
