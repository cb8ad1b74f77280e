// Text in a lent buffer: bytes and decimal numbers, put one after the other. Each function stores into `text` from place `at` on and returns
// the place after what it stored. What does not fit is left out, so nothing is asked of a caller; that all of an answer fits is proved where
// the whole answer is known (crates `host_lines` and report).
//
// `text` and `at` stay two parameters: the public functions' contracts speak of both, so that a struct of the two would only stand beside them.
#![tactic(auto)]

ghost use Rattle.std.specs.Prelude.{◌≡◌, ◌∷◌, ◌+◌, ◌<◌};
ghost use Rattle.spec_calls.specs.Printing.{blank_byte, decimal, blanked, separated};
ghost use Rattle.host_page.specs.Page.{page, put as put_byte, puts};

// Stores `byte` at place `at` of `text`, if `text` is that long.
#[tactic(auto, unfolding(crate::specs::Page::put))]
pub fn put(text: &mut [u8], at: usize, byte: u8) -> usize
    ensures { page result text.new ≡ put_byte byte (page at text.old) }
{
    if at < text.len() {
        text[at] = byte;
        return at + 1;
    }
    at
}

// Stores `bytes`, one after the other.
pub fn put_all(text: &mut [u8], at: usize, bytes: &[u8]) -> usize
    ensures { page result text.new ≡ puts bytes.now (page at text.old) }
{
    let mut place = at;
    for byte in bytes {
        place = put(text, place, *byte);
    }
    place
}

// Returns the ASCII digit of `n`, which is below 10.
fn digit(n: u64) -> u8
    requires { n < 10 }
    ensures { result ≡ 48 + n }
{
    48 + n as u8
}

// Stores `n` in decimal: the digits of `n / 10`, by a call of itself, and then the last one.
pub fn put_decimal(text: &mut [u8], at: usize, n: u64) -> usize
    ensures { page result text.new ≡ puts (decimal n) (page at text.old) }
{
    if n < 10 {
        return put(text, at, digit(n));
    }
    let last = put_decimal(text, at, n / 10);
    put(text, last, digit(n % 10))
}

// Stores a blank, and then `n` in decimal.
pub fn put_blanked(text: &mut [u8], at: usize, n: u64) -> usize
    ensures { page result text.new ≡ puts (blank_byte ∷ decimal n) (page at text.old) }
{
    let next = put(text, at, b' ');
    put_decimal(text, next, n)
}

// Stores each of `numbers` in decimal, each after a blank.
fn put_all_blanked(text: &mut [u8], at: usize, numbers: &[u8]) -> usize
    ensures { page result text.new ≡ puts (blanked numbers.now) (page at text.old) }
{
    let mut place = at;
    for n in numbers {
        place = put_blanked(text, place, u64::from(*n));
    }
    place
}

// Stores `numbers` in decimal, separated by one blank.
pub fn put_separated(text: &mut [u8], at: usize, numbers: &[u8]) -> usize
    ensures { page result text.new ≡ puts (separated numbers.now) (page at text.old) }
{
    let Some((first, rest)) = numbers.split_first() else {
        return at;
    };
    let next = put_decimal(text, at, u64::from(*first));
    put_all_blanked(text, next, rest)
}
