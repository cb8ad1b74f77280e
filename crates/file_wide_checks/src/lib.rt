// Checks 4, 5 and 6 of one record of sixteen bytes (document 02, C-17), each a test of its own. Checks 3, 7 and 12 read the first eight bytes
// alone: `front` gives these to the tests of `file_checks`. Laws of these tests, as tests on lists, are in specs/Scanning.
// The tests of `file_checks` name each of eight bytes, and these go over sixteen: only the definition is the same for both.
#![tactic(auto)]

ghost use Rattle.std.specs.Prelude.{◌≡◌, ◌-◌, ◌<◌, leb, ltb, take, drop};
ghost use Rattle.std.specs.List.{list_any};
ghost use Rattle.spec_file.specs.Forms.{sixteen};
ghost use Rattle.spec_file.specs.Limits.{symbol_bytes};
ghost use Rattle.spec_file.specs.Records.{byte};
ghost use Rattle.spec_file.specs.Refusals as refusals;
ghost use Rattle.file_wide_checks.specs.Front.{front_of, symbols_of};

use spec_file::{FINAL_KIND, NONTERMINALS, RULE_KIND, SYMBOL_BYTES, TRANSITION_KIND};

// The bytes of a record, and the most symbols of a rule's body.
pub const WIDTH: usize = 16;

pub const BODY_LIMIT: usize = 12;

pub type WideRecord = [u8; WIDTH];

// Returns the first eight bytes of the record `r`. A kind, a head, a body's length, a transition and a final state are in these.
pub fn front(r: WideRecord) -> [u8; 8]
    ensures { result ≡ front_of r }
{
    *r.first_chunk().unwrap()
}

// Returns whether a symbol of the body of the rule `r` is above its range. The bytes past the body are not looked at.
fn high_symbol(r: WideRecord) -> bool
    ensures { result ≡ list_any (λ symbol. leb symbol_bytes symbol) (take (byte r 2) (symbols_of r)) }
{
    r[3..3 + BODY_LIMIT]
        .iter()
        .take(r[2] as usize)
        .any(|symbol| SYMBOL_BYTES <= *symbol)
}

// Check 4: returns whether a byte that the record `r` uses is above its range. A record that is no rule uses no byte past its first eight.
pub fn above_range(r: WideRecord) -> bool
    ensures { result ≡ refusals.above_range_in sixteen r }
{
    if r[0] != RULE_KIND {
        return file_checks::above_range(front(r));
    }
    let size = r[2] as usize;
    ((NONTERMINALS <= r[1]) | (BODY_LIMIT < size)) | high_symbol(r)
}

// Returns whether a symbol's byte past the body of the rule `r` is not 0.
fn stray_symbol(r: WideRecord) -> bool
    ensures { result ≡ list_any (λ symbol. ltb 0 symbol) (drop (byte r 2) (symbols_of r)) }
{
    r[3..3 + BODY_LIMIT]
        .iter()
        .skip(r[2] as usize)
        .any(|symbol| 0 < *symbol)
}

// Returns whether a byte of the record `r` is not 0, from byte `from` on.
fn some_byte(r: WideRecord, from: usize) -> bool
    requires { from < sixteen.width }
    ensures { result ≡ list_any (λ byte. ltb 0 byte) (take (sixteen.width - from) (drop from r)) }
{
    r[from..].iter().any(|byte| 0 < *byte)
}

// Check 5: returns whether a byte that the record `r` does not use is not 0. A transition uses the bytes before byte 4, and a final state
// those before byte 2.
pub fn stray_byte(r: WideRecord) -> bool
    ensures { result ≡ refusals.stray_byte_in sixteen r }
{
    let kind = r[0];
    if kind == RULE_KIND {
        return stray_symbol(r) | (0 < r[15]);
    }
    if kind == TRANSITION_KIND {
        return some_byte(r, 4);
    }
    if kind == FINAL_KIND {
        return some_byte(r, 2);
    }
    false
}

// Check 6 does not hold: the record `s` exceeds `r`, the one before it. The first byte that differs decides.
pub fn rises(r: WideRecord, s: WideRecord) -> bool
    ensures { result ≡ refusals.rises_in sixteen r s }
{
    r < s
}
