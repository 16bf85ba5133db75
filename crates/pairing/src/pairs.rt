// The pairs of a join, looked at in their order.
ghost use Rattle.std.specs.Prelude.{◌≡◌, ◌<◌, length};
ghost use Rattle.pairing.specs.Pairs as Pairs;
ghost use Rattle.pairing.specs.Pairs.{bounds, is_column, matched, pair_up};

use problem::{Lists, Refusal};

// Whether two columns' bounds leave a number that lies in both.
fn leave(lower: i64, upper: i64, lower2: i64, upper2: i64) -> bool
    ensures { result ≡ Pairs.leave lower upper lower2 upper2 }
{
    lower.max(lower2) <= upper.min(upper2)
}

// Whether a, counted from 1, is one of n columns.
fn is_column(n: usize, a: usize) -> bool
    ensures { result ≡ is_column n a }
{
    (1..=n).contains(&a)
}

// Whether a column of the first part, counted from 0, is some column's partner.
fn uses(partners: &[Option<usize>], i: usize) -> bool
    ensures { result ≡ Pairs.uses partners.now i }
{
    partners.contains(&Some(i))
}

// Whether none of 14 holds of the pair, for parts of n and k columns.
fn is_free(n: usize, k: usize, partners: &[Option<usize>], a: usize, b: usize) -> bool
    requires { length partners.now ≡ k }
    ensures { result ≡ Pairs.is_free n k partners.now a b }
{
    is_column(n, a) && !uses(partners, a - 1) && is_column(k, b) && partners[b - 1].is_none()
}

// Whether the bounds of the columns i and j, counted from 0, leave something.
fn leaves(first: Lists<'_>, second: Lists<'_>, i: usize, j: usize) -> bool
    requires upper_len { (length first.upper.now ≡ length first.lower.now) × (length second.upper.now ≡ length second.lower.now) }
    requires i_in_bounds { (i < length first.lower.now) × (j < length second.lower.now) }
    ensures { result ≡ Pairs.leaves (bounds first.entry.lower.now first.entry.upper.now)
        (bounds second.entry.lower.now second.entry.upper.now) i j }
{
    leave(
        first.lower[i],
        first.upper[i],
        second.lower[j],
        second.upper[j],
    )
}

// All pairs in order, 14 first within a pair: each leaves its partner at the second's column. The first that is refused leaves those before it. Of
// the parts' lists only the bounds are read. Pairs are two numbers each, counted from 1: so `koralimbu_join` takes them from C.
#[tactic(auto, unfolding(crate::specs::Pairs::pair_check, crate::specs::Pairs::pair_up))]
pub fn pair_up(
    first: Lists<'_>,
    second: Lists<'_>,
    pairs: &[usize],
    partners: &mut [Option<usize>],
) -> Result<(), Refusal>
    requires upper_len { (length first.upper.now ≡ length first.lower.now) × (length second.upper.now ≡ length second.lower.now) }
    requires partners_len { length partners.old ≡ length second.lower.now }
    ensures { matched result partners.new ≡ pair_up (bounds first.entry.lower.now first.entry.upper.now)
        (bounds second.entry.lower.now second.entry.upper.now) pairs.now partners.old }
{
    let mut rest = pairs;
    // Not in chunks of two: the definition takes a pair off the list, and the proof follows it word by word.
    while let [a, b, tail @ ..] = rest {
        if !is_free(first.lower.len(), second.lower.len(), partners, *a, *b) {
            return Err(Refusal::Pair);
        }
        if !leaves(first, second, *a - 1, *b - 1) {
            return Err(Refusal::PairBounds);
        }
        partners[*b - 1] = Some(*a - 1);
        rest = tail;
    }
    Ok(())
}
