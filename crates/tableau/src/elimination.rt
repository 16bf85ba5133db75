ghost use Rattle.std.specs.Prelude.{◌≡◌, ◌*◌, ◌-◌, ◌<◌, ◌≤◌, length, drop};
ghost use Rattle.tableau.specs.Table.{max_width};
ghost use Rattle.tableau.specs.LentTable.{eliminated_of, rounds_in};
ghost use Rattle.tableau.specs.Choices.{Chooses};
ghost use Rattle.tableau.specs.ColumnPass.{Standing, below_of, passed_of, passed_rounds, rejoined};
ghost use Rattle.tableau.specs.RowSteps.{StopsRun};
ghost use Rattle.tableau.specs.Tails.{Picked, Counts};
ghost use Rattle.tableau.specs.Within.{Within};

use crate::Beyond;
use crate::gathering::{Choice, choose, gather};
use crate::rows::Way;
use crate::tables::each;

// Column c with k rows done and a choice z in those below them: gathers, then takes the pivot from the rows above.
fn pass(
    t: &mut [i64],
    rows: usize,
    pivot: &mut [i64],
    c: usize,
    k: usize,
    z: Choice,
) -> Result<u32, Beyond>
    requires standing { Standing rows (length pivot.old) c k t.old }
    requires c_in_bounds { c < length pivot.old }
    requires picked { Picked (rows - k) (length pivot.old) c (drop (k * length pivot.old) t.old) z.row }
    requires chooses { Chooses c (below_of rows (length pivot.old) k t.old) (Some z) }
    ensures stops_run { StopsRun (rejoined (passed_of rows (length pivot.old) c k t.old)) result t.new }
    ensures rounds_value { Counts (passed_rounds rows (length pivot.old) c k t.old) result }
{
    let (above, below) = t.split_at_mut(k * pivot.len());
    let count = gather(below, rows - k, pivot, c, z)?;
    each(above, k, pivot, c, Way::Above)?;
    Ok(count)
}

// All columns, from left to right, while a row is left. Stops at the first number beyond M.
pub(crate) fn pass_all(t: &mut [i64], rows: usize, pivot: &mut [i64]) -> Result<u32, Beyond>
    requires t_len { (length t.old ≡ rows * length pivot.old) × (length pivot.old ≤ max_width) }
    requires within { Within t.old }
    ensures stops_run { StopsRun (eliminated_of rows (length pivot.old) t.old) result t.new }
    ensures rounds_value { Counts (rounds_in rows (length pivot.old) t.old) result }
{
    let w = pivot.len();
    let mut count = 0;
    let mut k = 0;
    for c in 0..w {
        // A problem of few columns and many rows gives a table of few rows and many columns, most of which come after the last row.
        if k == rows {
            return Ok(count);
        }
        if let Some(z) = choose(&t[k * w..], rows - k, w, c) {
            count += pass(t, rows, pivot, c, k, z)?;
            k += 1;
        }
    }
    Ok(count)
}
