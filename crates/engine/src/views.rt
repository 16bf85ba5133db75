ghost use Rattle.std.specs.Prelude.{◌≡◌, ◌≤◌};
ghost use Rattle.problem.specs.Limits.{max_columns, max_rows};
ghost use Rattle.settling.specs.Views.{vectors};
ghost use Rattle.engine.specs.BasisPlace.{Parted, basis_of};

use problem::Problem;
use rightside::leading_rows;
use settling::Basis;

// The basis where it lies in the form of a problem: the rows behind the leading ones, from column m on. One without vectors lies at the end.
pub(crate) fn basis_in(t: &[i64], p: Problem) -> Basis<'_>
    requires { (p.columns ≤ max_columns) × (p.rows ≤ max_rows) × Parted p t.now }
    ensures { (vectors result ≡ basis_of p t.now) × (result.columns ≡ p.columns) × (result.vectors ≤ p.columns) }
{
    let n = p.columns;
    let m = p.rows;
    let w = m + n;
    let h = leading_rows(t, n, w, m);
    let at = if h < n { h * w + m } else { n * w };
    Basis {
        numbers: &t[at..],
        columns: n,
        vectors: n - h,
        stride: w,
    }
}
