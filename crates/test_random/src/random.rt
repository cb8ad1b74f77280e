// Numbers that look random, and are the same in every run.
ghost use Rattle.std.specs.Prelude.{◌<◌};

// Stores the next number of a linear congruential sequence in `seed`, and returns a number below `below` made from it.
pub fn draw(seed: &mut u64, below: u64) -> u64
    requires { 0 < below }
    ensures { result < below }
{
    let last = *seed;
    let next = (last % 2147483648 * 1103515245 + 12345) % 2147483648;
    *seed = next;
    next / 65536 % below
}
