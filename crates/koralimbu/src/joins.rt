// The call for C that joins two parts, which has no `requires` either. Of the lists a are the coefficients, b the right sides, lo and hi the bounds.
ghost use Rattle.std.specs.Prelude.{◌≡◌, length};
ghost use Rattle.problem.specs.References.{SameReferences};
ghost use Rattle.pairing.specs.Parts.{lists, lent_lists, mut_lists, part_of};
ghost use Rattle.koralimbu.specs.Joins.{joining_number, joined_of, joined_length, part_sizes, join_returned, join_called};

use pairing::{Part, Sizes};
use problem::{Lists, ListsMut, Refusal};

// How many numbers tell the sizes of a joined problem: n and m.
const JOINED: usize = 2;

// A part of n columns and m rows.
fn part<'a>(
    n: usize,
    m: usize,
    coefficients: &'a [i64],
    rights: &'a [i64],
    lower: &'a [i64],
    upper: &'a [i64],
    low: &'a [i64],
    high: &'a [i64],
    given: &'a [i64],
    ideals: &'a [i64],
) -> Part<'a>
    ensures { part_of result.sizes (lent_lists result.lists) ≡ part_of (part_sizes n m)
        (lists coefficients.now rights.now lower.now upper.now low.now high.now given.now ideals.now) }
{
    Part {
        sizes: Sizes {
            columns: n,
            rows: m,
        },
        lists: Lists {
            coefficients,
            rights,
            lower,
            upper,
            low,
            high,
            given,
            ideals,
        },
    }
}

fn joining_number(joining: Result<Sizes, Refusal>) -> u32
    ensures { result ≡ joining_number joining }
{
    match joining {
        Ok(_) => 0,
        Err(why) => u32::from(why),
    }
}

fn tell_joined(joining: Result<Sizes, Refusal>, sizes: &mut [usize])
    requires { length sizes.old ≡ joined_length }
    ensures { sizes.new ≡ joined_of joining }
{
    match joining {
        Ok(s) => sizes.copy_from_slice(&[s.columns, s.rows]),
        Err(_) => sizes.fill(0),
    }
}

// A join, in lent lists; the sizes come last.
#[tactic(auto, unfolding(crate::specs::Joins::join_called))]
fn join_parts(
    first: Part<'_>,
    second: Part<'_>,
    pairs: &[usize],
    out: &mut ListsMut<'_>,
    sizes: &mut [usize],
) -> u32
    ensures same_references { SameReferences out.old out.new }
    ensures returned { join_returned result (mut_lists out.new) sizes.new
        ≡ join_called (part_of first.entry.sizes (lent_lists first.entry.lists))
        (part_of second.entry.sizes (lent_lists second.entry.lists)) pairs.now (mut_lists out.old) sizes.old }
{
    if sizes.len() != JOINED {
        return u32::from(Refusal::Length);
    }
    let joining = joining::join(first, second, pairs, out);
    tell_joined(joining, sizes);
    joining_number(joining)
}

// One problem of two parts of n1 and n2 columns and m1 and m2 rows.
pub fn koralimbu_join(
    n1: usize,
    m1: usize,
    a1: &[i64],
    b1: &[i64],
    lo1: &[i64],
    hi1: &[i64],
    low1: &[i64],
    high1: &[i64],
    given1: &[i64],
    ideals1: &[i64],
    n2: usize,
    m2: usize,
    a2: &[i64],
    b2: &[i64],
    lo2: &[i64],
    hi2: &[i64],
    low2: &[i64],
    high2: &[i64],
    given2: &[i64],
    ideals2: &[i64],
    pairs: &[usize],
    a: &mut [i64],
    b: &mut [i64],
    lo: &mut [i64],
    hi: &mut [i64],
    low: &mut [i64],
    high: &mut [i64],
    given: &mut [i64],
    ideals: &mut [i64],
    sizes: &mut [usize],
) -> u32
    ensures { join_returned result
        (lists a.new b.new lo.new hi.new low.new high.new given.new
        ideals.new)
        sizes.new
        ≡ join_called
        (part_of (part_sizes n1 m1) (lists a1.now b1.now lo1.now hi1.now
        low1.now high1.now given1.now ideals1.now))
        (part_of (part_sizes n2 m2) (lists a2.now b2.now lo2.now hi2.now
        low2.now high2.now given2.now ideals2.now))
        pairs.now
        (lists a.old b.old lo.old hi.old low.old high.old given.old
        ideals.old)
        sizes.old }
{
    let first = part(n1, m1, a1, b1, lo1, hi1, low1, high1, given1, ideals1);
    let second = part(n2, m2, a2, b2, lo2, hi2, low2, high2, given2, ideals2);
    let mut out = ListsMut {
        coefficients: a,
        rights: b,
        lower: lo,
        upper: hi,
        low,
        high,
        given,
        ideals,
    };
    join_parts(first, second, pairs, &mut out, sizes)
}
