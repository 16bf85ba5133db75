// A number that has to lie in a range, or to be no less than another, read at a place.
ghost use Rattle.std.specs.Prelude.{◌≡◌, ◌<◌, ◌^◌, ◌≤ℤ◌, IfOk};
ghost use Rattle.sections.specs.Rules.{number, within as within·rule, no_less as noLess·rule};
ghost use Rattle.sections.specs.Sections.{spanning as spanning·rule};

use crate::Outcome;
use problem::Refusal;

// The next number, wherever it lies.
fn next_number(s: &[u8], at: usize) -> Outcome<i64>
    ensures { result ≡ number s.now at }
{
    match text::scanner::next_token(s, at) {
        Some((Some(v), e)) => Ok((v, e)),
        _ => Err(Refusal::Layout),
    }
}

// The next number, from low to high, or else the refusal.
pub fn within(s: &[u8], at: usize, low: i64, high: i64, why: Refusal) -> Outcome<i64>
    ensures read { result ≡ within·rule s.now low high why at }
    ensures range { IfOk result (λ x. (low ≤ℤ x.0) × (x.0 ≤ℤ high)) }
{
    let (v, e) = next_number(s, at)?;
    if low <= v && v <= high {
        Ok((v, e))
    } else {
        Err(why)
    }
}

// The next number, of low or more, or else the refusal.
pub fn no_less(s: &[u8], at: usize, low: i64, why: Refusal) -> Outcome<i64>
    ensures read { result ≡ noLess·rule s.now low why at }
    ensures range { IfOk result (λ x. low ≤ℤ x.0) }
{
    let (v, e) = next_number(s, at)?;
    if low <= v { Ok((v, e)) } else { Err(why) }
}

// The next number, of a magnitude of at most k.
pub(crate) fn spanning(s: &[u8], at: usize, k: u64, why: Refusal) -> Outcome<i64>
    requires { k < 2 ^ 63 }
    ensures { result ≡ spanning·rule s.now k why at }
{
    within(s, at, -(k as i64), k as i64, why)
}
