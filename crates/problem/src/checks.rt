ghost use Rattle.std.specs.Prelude.{◌≡◌, true, length};
ghost use Rattle.whole.specs.Tests as Tests;
ghost use Rattle.problem.specs.Limits.{max_columns, max_rows};
ghost use Rattle.problem.specs.Checks.{all_span, sizes_fit, row_lengths_fit, column_lengths_fit, ideal_lengths_fit, lent_fit, rows_fit};
ghost use Rattle.problem.specs.Checks.{bound_fits, bounds_fit, goal_inside, both_or_none, goal_fits, goals_fit, posed, first_cause};

use crate::{Lent, Lists, Problem, Refusal};

// Cause 1, against the most columns and rows that the caller allows.
pub fn sizes_fit(p: Problem, columns: usize, rows: usize) -> bool
    ensures { result ≡ sizes_fit columns rows p }
{
    1 <= p.columns && p.columns <= columns && p.rows <= rows
}

// Cause 2 of the rows' lists. The sizes come first, so that the product fits.
pub fn row_lengths_fit(p: Problem, coefficients: &[i64], rights: &[i64]) -> bool
    requires { sizes_fit max_columns max_rows p ≡ true }
    ensures { result ≡ row_lengths_fit p coefficients.now rights.now }
{
    coefficients.len() == p.rows * p.columns && rights.len() == p.rows
}

// Cause 2 of the columns' lists.
pub fn column_lengths_fit(
    p: Problem,
    lower: &[i64],
    upper: &[i64],
    low: &[i64],
    high: &[i64],
) -> bool
    ensures { result ≡ column_lengths_fit p lower.now upper.now low.now high.now }
{
    let n = p.columns;
    lower.len() == n && upper.len() == n && low.len() == n && high.len() == n
}

// Cause 2 of the ideals' lists: whether there is one, and the number.
pub fn ideal_lengths_fit(p: Problem, given: &[i64], ideals: &[i64]) -> bool
    ensures { result ≡ ideal_lengths_fit p given.now ideals.now }
{
    given.len() == p.columns && ideals.len() == p.columns
}

// Cause 2 of the buffers that the call fills.
pub(crate) fn lent_fit(p: Problem, lent: Lent) -> bool
    requires { sizes_fit max_columns max_rows p ≡ true }
    ensures { result ≡ lent_fit p lent }
{
    let n = p.columns;
    lent.tableau == n * (p.rows + n) && lent.values == n && lent.strides == n
}

// Whether x lies in −most to most.
fn spans(x: i64, most: u64) -> bool
    ensures { result ≡ Tests.spans most x }
{
    x.unsigned_abs() <= most
}

// Whether every number lies in −most to most.
pub fn all_span(s: &[i64], most: u64) -> bool
    ensures { result ≡ all_span most s.now }
{
    s.iter().all(|x| spans(*x, most))
}

// Cause 3.
pub(crate) fn rows_fit(coefficients: &[i64], rights: &[i64]) -> bool
    ensures { result ≡ rows_fit coefficients.now rights.now }
{
    all_span(coefficients, Problem::MAX_COEFFICIENT) && all_span(rights, Problem::MAX_RIGHT)
}

// Cause 4 at one column.
pub(crate) fn bound_fits(lower: i64, upper: i64) -> bool
    ensures { result ≡ bound_fits lower upper }
{
    spans(lower, Problem::MAX_BOUND) && spans(upper, Problem::MAX_BOUND) && lower <= upper
}

// Cause 4. The lengths come first, so that each column has both bounds.
pub(crate) fn bounds_fit(lower: &[i64], upper: &[i64]) -> bool
    requires { length upper.now ≡ length lower.now }
    ensures { result ≡ bounds_fit lower.now upper.now }
{
    for j in 0..lower.len() {
        if !bound_fits(lower[j], upper[j]) {
            return false;
        }
    }
    true
}

// Whether a goal lies in 0 to the highest.
fn goal_inside(goal: i64) -> bool
    ensures { result ≡ goal_inside goal }
{
    0 <= goal && goal.unsigned_abs() <= Problem::MAX_GOAL
}

// Whether a low and a high goal are both 0 or both set.
fn both_or_none(low: i64, high: i64) -> bool
    ensures { result ≡ both_or_none low high }
{
    (low == 0) == (high == 0)
}

// Cause 5 at one column. Goals of 0 are no goals, and ask nothing of the lower bound.
pub(crate) fn goal_fits(lower: i64, low: i64, high: i64) -> bool
    ensures { result ≡ goal_fits lower low high }
{
    if !goal_inside(low) || !goal_inside(high) || !both_or_none(low, high) {
        return false;
    }
    low <= high && (low == 0 || 1 <= lower)
}

// Cause 5. The lengths come first here too.
pub(crate) fn goals_fit(lower: &[i64], low: &[i64], high: &[i64]) -> bool
    requires { (length low.now ≡ length lower.now) × (length high.now ≡ length lower.now) }
    ensures { result ≡ goals_fit lower.now low.now high.now }
{
    for j in 0..lower.len() {
        if !goal_fits(lower[j], low[j], high[j]) {
            return false;
        }
    }
    true
}

// The first cause of 1 to 6 that holds, in the order of document 01's table.
#[tactic(auto, unfolding(crate::specs::Checks::first_cause))]
pub fn first_cause(p: Problem, lists: Lists<'_>, lent: Lent) -> Result<(), Refusal>
    ensures { result ≡ first_cause (posed p lists.entry) lent }
{
    if !sizes_fit(p, Problem::MAX_COLUMNS, Problem::MAX_ROWS) {
        return Err(Refusal::Size);
    }
    if !row_lengths_fit(p, lists.coefficients, lists.rights) {
        return Err(Refusal::Length);
    }
    if !column_lengths_fit(p, lists.lower, lists.upper, lists.low, lists.high) {
        return Err(Refusal::Length);
    }
    if !ideal_lengths_fit(p, lists.given, lists.ideals) {
        return Err(Refusal::Length);
    }
    if !lent_fit(p, lent) {
        return Err(Refusal::Length);
    }
    if !rows_fit(lists.coefficients, lists.rights) {
        return Err(Refusal::Coefficient);
    }
    if !bounds_fit(lists.lower, lists.upper) {
        return Err(Refusal::Bound);
    }
    if !goals_fit(lists.lower, lists.low, lists.high) {
        return Err(Refusal::Goal);
    }
    if Problem::MAX_STEPS < p.limit {
        return Err(Refusal::Limit);
    }
    Ok(())
}
