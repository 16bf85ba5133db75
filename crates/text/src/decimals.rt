// Numbers in base ten, written into a buffer from a place on. Each function answers the place after what it wrote.
ghost use Rattle.std.specs.Prelude.{◌≡◌, ◌+◌, ◌<◌, ◌≤◌, length};
ghost use Rattle.text.specs.Overwriting.{Wrote};
ghost use Rattle.text.specs.Decimals.{natural, integer};

// Writes a word.
pub fn put(out: &mut [u8], at: usize, word: &[u8]) -> usize
    requires { at + length word.now ≤ length out.old }
    ensures { Wrote out.old at word.now result out.new }
{
    let end = at + word.len();
    out[at..end].copy_from_slice(word);
    end
}

// The byte of a digit.
fn digit(d: u64) -> u8
    requires { d < 10 }
    ensures { result ≡ 48 + d }
{
    b'0' + d as u8
}

// Writes the digits of n: those of its tenth, and then the last.
#[tactic(auto, using(crate::proofs::Digits::natural_steps))]
pub fn put_natural(out: &mut [u8], at: usize, n: u64) -> usize
    requires { at + length (natural n) ≤ length out.old }
    ensures { Wrote out.old at (natural n) result out.new }
{
    if n < 10 {
        out[at] = digit(n);
        at + 1
    } else {
        let e = put_natural(out, at, n / 10);
        out[e] = digit(n % 10);
        e + 1
    }
}

// Writes v, with a minus in front where it is below 0.
#[tactic(auto, using(crate::proofs::Digits::integer_low))]
pub fn put_integer(out: &mut [u8], at: usize, v: i64) -> usize
    requires { at + length (integer v) ≤ length out.old }
    ensures { Wrote out.old at (integer v) result out.new }
{
    if v < 0 {
        let e = put(out, at, b"-");
        put_natural(out, e, v.unsigned_abs())
    } else {
        put_natural(out, at, v.unsigned_abs())
    }
}
