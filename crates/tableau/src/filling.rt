ghost use Rattle.std.specs.Prelude.{◌≡◌, ◌++◌, ◌+◌, ◌*◌, ◌<◌, length};
ghost use Rattle.lattice.specs.Rows.{unit, flat, chop};
ghost use Rattle.tableau.specs.Table.{column, tableau};
ghost use Rattle.tableau.specs.LentTable.{Formable, matrix_of};

use problem::Problem;

// Column j of a matrix whose rows have n coefficients.
fn fill_column(to: &mut [i64], coefficients: &[i64], n: usize, j: usize)
    requires { (length coefficients.now ≡ length to.old * n) × (j < n) }
    ensures { to.new ≡ column j (chop (length to.old) n coefficients.now) }
{
    // By the place of each number: what is written through a `zip` with the rows, no proof knows afterwards.
    for (i, x) in to.iter_mut().enumerate() {
        *x = coefficients[i * n + j];
    }
}

// The j-th unit list.
fn fill_unit(to: &mut [i64], j: usize)
    requires { j < length to.old }
    ensures { to.new ≡ unit (length to.old) j }
{
    to.fill(0);
    to[j] = 1;
}

// Table row j: column j of the matrix, then the j-th unit list.
fn fill_row(row: &mut [i64], p: Problem, coefficients: &[i64], j: usize)
    requires row_len { (length row.old ≡ p.rows + p.columns) × (j < p.columns) }
    requires coefficients_len { length coefficients.now ≡ p.rows * p.columns }
    ensures { row.new ≡ column j (matrix_of p coefficients.now) ++ unit p.columns j }
{
    let (column, unit) = row.split_at_mut(p.rows);
    fill_column(column, coefficients, p.columns, j);
    fill_unit(unit, j);
}

// The table of a problem before the first step.
pub(crate) fn fill(t: &mut [i64], p: Problem, coefficients: &[i64])
    requires { Formable p t.old coefficients.now }
    ensures { t.new ≡ flat (tableau p.columns (matrix_of p coefficients.now)) }
{
    let w = p.rows + p.columns;
    // By the place of each row: what is written through `chunks_exact_mut`, no proof knows afterwards.
    for j in 0..p.columns {
        let at = j * w;
        fill_row(&mut t[at..at + w], p, coefficients, j);
    }
}
