// A move at a place of the ranking as one number, so that better is smaller. An order of places and moves that is derived would be compared part by
// part; one number is compared at once.
ghost use Rattle.std.specs.Prelude.{◌≡◌, ◌<◌, ◌≤◌};
ghost use Rattle.problem.specs.Limits.{max_columns};
ghost use Rattle.search.specs.Numbers as Numbers;

use problem::Problem;
use settling::{Move, Step};

// How far the numbers of one place lie from those of the next.
pub(crate) const SPAN: usize = 16384;

// The number of the first pair. Singles lie below it.
pub(crate) const FIRST_PAIR: usize = 2 * Problem::MAX_COLUMNS;

fn mark(a: i64) -> usize
    ensures { (result ≡ Numbers.mark a) × (result ≤ 1) }
{
    usize::from(a < 0)
}

#[tactic(auto, unfolding(crate::specs::Numbers::number_of))]
fn number_of(o: Move) -> usize
    requires { (o.s < max_columns) × (o.t < max_columns) }
    ensures { result ≡ Numbers.number_of o }
{
    let x = mark(o.a);
    if o.b == 0 {
        return 2 * o.s + x;
    }
    FIRST_PAIR + (4 * (Problem::MAX_COLUMNS * o.s + o.t) + (2 * x + mark(o.b)))
}

// The number of a move at a place.
#[tactic(auto, using(crate::proofs::Numbering::number_small))]
pub(crate) fn number_at(at: usize, o: Move) -> usize
    requires { (at ≤ max_columns) × (o.s < max_columns) × (o.t < max_columns) }
    ensures { result ≡ Numbers.number_at at o }
{
    at * SPAN + number_of(o)
}

fn sign_of(x: usize) -> i64
    ensures { result ≡ Numbers.sign_of x }
{
    if x == 0 { 1 } else { -1 }
}

#[tactic(auto, unfolding(crate::specs::Numbers::move_of))]
fn move_of(n: usize) -> Move
    ensures { result ≡ Numbers.move_of n }
{
    if n < FIRST_PAIR {
        let s = n / 2;
        return Move {
            s,
            a: sign_of(n % 2),
            t: s,
            b: 0,
        };
    }
    let d = n - FIRST_PAIR;
    let p = d / 4;
    Move {
        s: p / Problem::MAX_COLUMNS,
        a: sign_of(d / 2 % 2),
        t: p % Problem::MAX_COLUMNS,
        b: sign_of(d % 2),
    }
}

// The step that a number stands for. A place behind the order is none.
#[tactic(auto, unfolding(crate::specs::Numbers::step_in))]
pub(crate) fn step_in(order: &[usize], z: usize) -> Option<Step>
    ensures { result ≡ Numbers.step_in order.now z }
{
    let k = z / SPAN;
    if order.len() <= k {
        return None;
    }
    Some(Step {
        column: order[k],
        o: move_of(z % SPAN),
    })
}
