ghost use Rattle.std.specs.Prelude.{◌≡◌, ltb, pos, nat_abs, neg_ℤ, ◌<ℤ◌, ◌≤◌, length};
ghost use Rattle.lattice.specs.Rows.{plus, neg};
ghost use Rattle.problem.specs.Limits.{M, any_beyond};
ghost use Rattle.tableau.specs.Within.{Within};
ghost use Rattle.tableau.specs.Elimination as Elimination;
ghost use Rattle.tableau.specs.RowSteps.{StopsRow, quotient_of, row_step, Pivot};

use crate::Beyond;
use problem::Problem;
use whole::{floor_quotient, nearest_quotient};

// Which rows a pivot is taken from: those below it, or those above.
// No closure: what holds of both quotients (0 of 0, no larger than the entry) would be asked of it in each contract from `each` down.
#[derive(Clone, Copy)]
pub(crate) enum Way {
    Below,
    Above,
}

impl Way {
    // How often the pivot goes into the entry e, by the rule of these rows. Most pivots are 1, and need no division.
    fn quotient(self, e: i64, p: i64) -> i64
        requires { (nat_abs e ≤ M) × (nat_abs p ≤ M) × (pos 0 <ℤ p) }
        ensures { result ≡ quotient_of self e p }
    {
        if p == 1 {
            return e;
        }
        match self {
            Way::Below => nearest_quotient(e, p),
            Way::Above => floor_quotient(e, p),
        }
    }
}

// Turns the sign of every number.
pub(crate) fn negate(row: &mut [i64])
    requires { Within row.old }
    ensures { row.new ≡ neg row.old }
{
    for x in row {
        *x = -*x;
    }
}

// Takes q times the pivot from the row, and collects the bits of what is left: M has only ones, so that together they are beyond M exactly where one
// number is. A loop with no early end is done several numbers at a time.
fn subtract_all(row: &mut [i64], pivot: &[i64], q: i64) -> u64
    requires row_len { length row.old ≡ length pivot.now }
    requires within { Within row.old × Within pivot.now }
    requires q_bound { nat_abs q ≤ M }
    ensures row_after { row.new ≡ plus (neg_ℤ q) pivot.now row.old }
    ensures result_value { ltb M result ≡ any_beyond (plus (neg_ℤ q) pivot.now row.old) }
{
    let mut bits = 0;
    // By the place of each number: what is written through a `zip` of the two rows, no proof knows afterwards.
    for (i, x) in row.iter_mut().enumerate() {
        *x -= q * pivot[i];
        bits |= x.unsigned_abs();
    }
    bits
}

// Takes q times the pivot from the row. Most quotients are 1 or −1, and at these the product falls away.
fn subtract(row: &mut [i64], pivot: &[i64], q: i64) -> Result<(), Beyond>
    requires row_len { length row.old ≡ length pivot.now }
    requires within { Within row.old × Within pivot.now }
    requires q_bound { nat_abs q ≤ M }
    ensures { StopsRow (Elimination.subtract q pivot.now row.old) result row.new }
{
    let bits = match q {
        1 => subtract_all(row, pivot, 1),
        -1 => subtract_all(row, pivot, -1),
        _ => subtract_all(row, pivot, q),
    };
    if Problem::MAX_NUMBER < bits {
        return Err(Beyond);
    }
    Ok(())
}

// One row by the pivot, whose first number other than 0 is at c: the numbers before it stay as they are.
pub(crate) fn step(row: &mut [i64], pivot: &[i64], c: usize, way: Way) -> Result<(), Beyond>
    requires pivot { Pivot (length row.old) c pivot.now }
    requires within { Within row.old }
    ensures { StopsRow (row_step way c pivot.now row.old) result row.new }
{
    let e = row[c];
    if e == 0 {
        return Ok(());
    }
    let q = way.quotient(e, pivot[c]);
    if q == 0 {
        return Ok(());
    }
    subtract(&mut row[c..], &pivot[c..], q)
}
