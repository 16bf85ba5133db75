#![tactic(auto)]

// What a column is to come to: the ideal of a low and a high goal, by the whole part of a root and without floating point; without a goal the one
// that is handed in; and how either is brought into the bounds.
ghost use Rattle.std.specs.Prelude.{◌≡◌, ◌+◌, ◌*◌, ◌^◌, ◌<◌, ◌≤◌, pos, nat_abs};
ghost use Rattle.problem.specs.Limits.{max_goal};
ghost use Rattle.goals.specs.Ideals.{raised, whole_root, goal_ideal};
ghost use Rattle.goals.specs.Wishes.{wish_of, wish_mark, wish_number, column_wish, into};
ghost use Rattle.goals.specs.Wishes as Wishes;

// What a column is to come to when it is seated: a number, or its present value.
pub type Wish = Option<i64>;

// k with its bit b, if the root has that bit; else k. Both stay below 2^20, so that the trial's product is below 2^63.
#[tactic(auto, using(crate::proofs::Bits::trial_room))]
fn with_bit(p: u64, k: u64, b: u32) -> u64
    requires { (b < 20) × (k + 2 ^ b < 2 ^ 20) }
    ensures { result ≡ raised p k (k + 2 ^ b) }
{
    let t = k + (1u64 << b);
    if t * t * 1000000 <= p { t } else { k }
}

// The whole part of the root of low × high, over 1,000: the largest k with k × k × 1,000,000 at most their product. Its twenty bits, the largest
// first; but of equal goals it needs no search, since the root of g × g is g.
// Not `(low * high / 1000000).isqrt()`: that halves 32 times where there are 20 bits here, and 10^7 roots of it take 2.1 times as long.
#[tactic(auto, using(crate::proofs::OneGoal::root_square, crate::proofs::Bits::root_turns))]
fn whole_root(low: u64, high: u64) -> u64
    requires { (low ≤ max_goal) × (high ≤ max_goal) }
    ensures { result ≡ whole_root (low * high) }
{
    if low == high {
        return low / 1000;
    }
    let p = low * high;
    let mut k = 0;
    for b in (0..20).rev() {
        k = with_bit(p, k, b);
    }
    k
}

// The ideal of two goals. The products stay below 2^60.
#[tactic(auto, using(crate::proofs::Roots::ideal_sizes), unfolding(crate::specs::Ideals::goal_ideal))]
fn ideal_of(low: u64, high: u64) -> u64
    requires { (low ≤ max_goal) × (high ≤ max_goal) }
    ensures { result ≡ goal_ideal low high }
{
    let k = whole_root(low, high);
    if k == 0 {
        return 1;
    }
    let p = low * high;
    if k * (k + 1) * 1000000 < p { k + 1 } else { k }
}

// The ideal count of intervals for a low and a high goal in thousandths of one.
#[tactic(auto, using(crate::proofs::Roots::ideal_small))]
pub fn goal_ideal(low: i64, high: i64) -> i64
    requires { (nat_abs low ≤ max_goal) × (nat_abs high ≤ max_goal) }
    ensures { result ≡ pos (goal_ideal (nat_abs low) (nat_abs high)) }
{
    ideal_of(low.unsigned_abs(), high.unsigned_abs()) as i64
}

// The wish that a mark and a number stand for: nothing for the mark 0. C hands a wish over as these two, each in a list of its own.
pub fn wish_of(given: i64, x: i64) -> Wish
    ensures { result ≡ wish_of given x }
{
    if given == 0 { None } else { Some(x) }
}

// The mark of a wish: 0 for nothing, and else 1.
pub fn wish_mark(wish: Wish) -> i64
    ensures { result ≡ wish_mark wish }
{
    i64::from(wish.is_some())
}

// The number of a wish: 0 for nothing.
pub fn wish_number(wish: Wish) -> i64
    ensures { result ≡ wish_number wish }
{
    wish.unwrap_or(0)
}

// The wish of a column: what its goals ask for, and without a goal the one that is handed in.
pub fn column_wish(low: i64, high: i64, handed: Wish) -> Wish
    requires { (nat_abs low ≤ max_goal) × (nat_abs high ≤ max_goal) }
    ensures { result ≡ column_wish low high handed }
{
    if low == 0 {
        handed
    } else {
        Some(goal_ideal(low, high))
    }
}

// x brought into the bounds. Not `clamp`, which asks that the lower bound is at most the upper one: these may come in any order.
pub fn into_bounds(lower: i64, upper: i64, x: i64) -> i64
    ensures { result ≡ into lower upper x }
{
    if x < lower {
        return lower;
    }
    if upper < x {
        return upper;
    }
    x
}

// The ideal of a column with the present value x.
#[tactic(auto, unfolding(crate::specs::Wishes::ideal))]
pub fn ideal(lower: i64, upper: i64, wish: Wish, x: i64) -> i64
    ensures { result ≡ Wishes.ideal lower upper wish x }
{
    into_bounds(lower, upper, wish.unwrap_or(x))
}
