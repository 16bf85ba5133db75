ghost use Rattle.std.specs.Prelude.{◌≡◌, ◌≤◌};
ghost use Rattle.problem.specs.Limits.{max_bound, max_goal};
ghost use Rattle.settling.specs.declared.Part.TheVariants.{Bounds};
ghost use Rattle.settling.specs.Measures as Measures;
ghost use Rattle.settling.specs.Steps.{is_ranked, is_allowed, is_compared};
ghost use Rattle.settling.specs.Steps as Steps;
ghost use Rattle.settling.specs.Sizes.{FitCell, Crossable};

use crate::{Cell, Measure, Part};
use problem::Problem;

// How far a column lies outside its bounds.
fn distance(c: Cell) -> u64
    requires { FitCell Bounds c }
    ensures { result ≡ Measures.distance c }
{
    if c.value < c.lower {
        (c.lower - c.value).unsigned_abs()
    } else if c.upper < c.value {
        (c.value - c.upper).unsigned_abs()
    } else {
        0
    }
}

// Whether p is the smaller measure, by cross products. Not the `<` of a derive, which compares tops first.
pub fn below(p: Measure, q: Measure) -> bool
    requires { Crossable p × Crossable q }
    ensures { result ≡ Measures.below p q }
{
    p.top * q.bottom < q.top * p.bottom
}

// The larger of 1000 v over the low goal and the high goal over 1000 v.
fn ratio(low: u64, high: u64, v: u64) -> Measure
    requires { (low ≤ max_goal) × (high ≤ max_goal) × (v ≤ max_bound) }
    ensures { result ≡ Measures.ratio low high v }
{
    let p = Measure {
        top: 1000 * v,
        bottom: low,
    };
    let q = Measure {
        top: high,
        bottom: 1000 * v,
    };
    if below(p, q) { q } else { p }
}

// A column's distance, over 1, or its ratio.
#[tactic(auto, unfolding(crate::specs::Measures::measure))]
pub fn measure(part: Part, c: Cell) -> Measure
    requires { FitCell part c }
    ensures { result ≡ Measures.measure part c }
{
    match part {
        Part::Bounds => Measure {
            top: distance(c),
            bottom: 1,
        },
        Part::Goals => ratio(
            c.low.unsigned_abs(),
            c.high.unsigned_abs(),
            c.value.unsigned_abs(),
        ),
    }
}

// Whether a column is tried.
#[tactic(auto, unfolding(crate::specs::Steps::is_ranked))]
pub fn is_ranked(part: Part, c: Cell) -> bool
    requires { FitCell Bounds c }
    ensures { result ≡ is_ranked part c }
{
    match part {
        Part::Bounds => 0 < distance(c),
        Part::Goals => c.low != 0,
    }
}

// Whether a move may leave the column's value.
fn is_allowed(part: Part, c: Cell) -> bool
    requires { FitCell Bounds c }
    ensures { result ≡ is_allowed part c }
{
    match part {
        Part::Bounds => c.value.unsigned_abs() <= Problem::MAX_NUMBER,
        Part::Goals => distance(c) == 0,
    }
}

// Whether a move has to bring the column below the old measure, if it changes it.
fn is_compared(part: Part, c: Cell) -> bool
    requires { FitCell Bounds c }
    ensures { result ≡ is_compared part c }
{
    match part {
        Part::Bounds => true,
        Part::Goals => c.low != 0,
    }
}

// Whether a column passes under a move that adds `change` to it, after which it is c, where it has to come below q.
#[tactic(auto, using(crate::proofs::Sizes::allowed_sized), unfolding(crate::specs::Steps::passes))]
pub fn passes(part: Part, c: Cell, change: i64, q: Measure) -> bool
    requires { FitCell Bounds c × Crossable q }
    ensures { result ≡ Steps.passes part c change q }
{
    is_allowed(part, c) && (change == 0 || !is_compared(part, c) || below(measure(part, c), q))
}
