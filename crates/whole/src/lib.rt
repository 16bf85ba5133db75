#![tactic(auto)]

pub mod buffers;

ghost use Rattle.std.specs.Prelude.{◌≡◌, ◌≤◌, pos, nat_abs, ◌<ℤ◌};
ghost use Rattle.whole.specs.Quotient.{floor_quotient, nearest_quotient};
ghost use Rattle.whole.specs.BitLength.{bit_length};
ghost use Rattle.whole.specs.Divisor as Divisor;

// The quotient of e by a positive pivot, rounded down: the machine's, which cuts towards 0, less 1 where the remainder is below 0. It is not
// `div_euclid`, whose proof would not go through `floor_by_machine`.
pub fn floor_quotient(e: i64, p: i64) -> i64
    requires { pos 0 <ℤ p }
    ensures { result ≡ floor_quotient e p }
{
    let q = e / p;
    let rest = e % p;
    if rest < 0 { q - 1 } else { q }
}

// The quotient of e by a positive pivot to the nearest, a half upwards.
pub fn nearest_quotient(e: i64, p: i64) -> i64
    requires { (nat_abs e ≤ 4294967296) × (nat_abs p ≤ 4294967296) × (pos 0 <ℤ p) }
    ensures { result ≡ nearest_quotient e p }
{
    floor_quotient(2 * e + p, 2 * p)
}

// The greatest common divisor.
pub fn divisor(a: u64, b: u64) -> u64
    ensures { result ≡ Divisor.divisor a b }
{
    if b == 0 { a } else { divisor(b, a % b) }
}

// The bit length of p, the count of its binary digits; 0 has none.
pub fn bit_length(p: u64) -> u32
    ensures { result ≡ bit_length p }
{
    u64::BITS - p.leading_zeros()
}
