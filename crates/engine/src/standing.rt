// Refusal 10: whether a lent list lies within ±M and keeps every row.
ghost use Rattle.std.specs.Prelude.{◌≡◌, ◌-ℤ◌};
ghost use Rattle.whole.specs.Tests.{is_zero};
ghost use Rattle.lattice.specs.Sums as Sums;
ghost use Rattle.engine.specs.Standing.{Summable, Standable, stands_in};

use problem::checks::all_span;
use problem::{Lists, Problem};

// The coefficients of a row times the values, added up from the last one. At most `Problem::MAX_COLUMNS` products keep the sum far below 2^63.
fn dot(row: &[i64], values: &[i64]) -> i64
    requires { Summable row.now values.now }
    ensures { result ≡ Sums.dot row.now values.now }
{
    let mut s = 0;
    for j in (0..row.len()).rev() {
        s += values[j] * row[j];
    }
    s
}

// Whether the values keep a row: its sum is the right side.
fn keeps_row(row: &[i64], right: i64, values: &[i64]) -> bool
    requires { Summable row.now values.now }
    ensures { result ≡ is_zero (Sums.dot row.now values.now -ℤ right) }
{
    dot(row, values) == right
}

// Whether a lent list lies within ±M and keeps every row.
pub(crate) fn stands(p: Problem, lists: Lists<'_>, values: &[i64]) -> bool
    requires { Standable p lists.coefficients.now lists.rights.now values.now }
    ensures { result ≡ stands_in p lists.entry.coefficients.now lists.entry.rights.now values.now }
{
    if !all_span(values, Problem::MAX_NUMBER) {
        return false;
    }
    let n = p.columns;
    for i in 0..p.rows {
        let at = i * n;
        if !keeps_row(&lists.coefficients[at..at + n], lists.rights[i], values) {
            return false;
        }
    }
    true
}
