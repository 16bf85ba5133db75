// The tokens of a text, one after the other: the position goes in by value, and comes back in the answer.
ghost use Rattle.std.specs.Prelude.{◌≡◌, true, ◌+◌, ◌-◌, ◌*◌, ◌<◌, ◌≤◌, ◌^◌, length, drop};
ghost use Rattle.text.specs.Tokens.{is_blank, is_digit, max_digits, no_needless_zero, unsigned, after_minus, token_of};
ghost use Rattle.text.specs.Positions.{belongs as belongs·rule, stretch, worth_of, plain_worth, next_at};

use crate::{MAX_DIGITS, Token};

fn is_blank(b: u8) -> bool
    ensures { result ≡ is_blank b }
{
    b == b' ' || b == b'\n'
}

// Whether a byte is of a gap, or of a run.
fn belongs(b: u8, blank: bool) -> bool
    ensures { result ≡ belongs·rule blank b }
{
    is_blank(b) == blank
}

// Where a gap or a run ends that starts at a position.
#[tactic(auto, using(crate::proofs::Scanning::stretch_steps))]
fn stretch_end(s: &[u8], at: usize, blank: bool) -> usize
    ensures { result ≡ at + stretch blank (drop at s.now) }
{
    for i in at..s.len() {
        if !belongs(s[i], blank) {
            return i;
        }
    }
    at.max(s.len())
}

// v with one more digit behind it.
fn longer(v: u64, b: u8) -> u64
    requires v_bound { v < 10 ^ 12 }
    requires b_value { is_digit b ≡ true }
    ensures { result ≡ v * 10 + (b - 48) }
{
    v * 10 + u64::from(b - b'0')
}

// What bytes are worth if all are digits.
#[tactic(auto, using(crate::proofs::Scanning::worth_steps))]
fn worth_of(w: &[u8]) -> Option<u64>
    requires { length w.now ≤ max_digits }
    ensures { result ≡ worth_of w.now }
{
    let mut v = 0;
    for &b in w {
        if !b.is_ascii_digit() {
            return None;
        }
        v = longer(v, b);
    }
    Some(v)
}

// Whether there are bytes, and no needless zero in front.
fn is_needed(w: &[u8]) -> bool
    ensures { result ≡ no_needless_zero w.now }
{
    !w.is_empty() && (w[0] != b'0' || w.len() == 1)
}

// What bytes are worth if they are a number with no sign.
fn plain_worth(w: &[u8]) -> Option<u64>
    ensures { result ≡ plain_worth w.now }
{
    if w.len() <= MAX_DIGITS && is_needed(w) {
        worth_of(w)
    } else {
        None
    }
}

// What a run with no minus is.
#[tactic(auto, using(crate::proofs::Scanning::plain_below, crate::proofs::Scanning::unsigned_is))]
fn unsigned_token(w: &[u8]) -> Token
    ensures { result ≡ unsigned w.now }
{
    Some(plain_worth(w)? as i64)
}

// What a minus with the bytes w behind it is.
#[tactic(auto, using(crate::proofs::Scanning::plain_below, crate::proofs::Scanning::minus_is))]
fn minus_token(w: &[u8]) -> Token
    ensures { result ≡ after_minus w.now }
{
    let v = plain_worth(w)?;
    if v == 0 { None } else { Some(-(v as i64)) }
}

// What a run is.
fn token_of(w: &[u8]) -> Token
    ensures { result ≡ token_of w.now }
{
    if !w.is_empty() && w[0] == b'-' {
        minus_token(&w[1..])
    } else {
        unsigned_token(w)
    }
}

// The first token at or after a position, and where it ends.
#[tactic(auto, using(crate::proofs::Scanning::run_within, crate::proofs::Scanning::next_is))]
pub fn next_token(s: &[u8], at: usize) -> Option<(Token, usize)>
    ensures { result ≡ next_at s.now at }
{
    let a = stretch_end(s, at, true);
    if a < s.len() {
        let e = stretch_end(s, a, false);
        Some((token_of(&s[a..e]), e))
    } else {
        None
    }
}
