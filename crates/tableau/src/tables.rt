ghost use Rattle.std.specs.Prelude.{◌≡◌, ◌*◌, length};
ghost use Rattle.tableau.specs.RowSteps.{StopsRun, each_of, Pivot};
ghost use Rattle.tableau.specs.Within.{Within};

use crate::Beyond;
use crate::rows::{Way, step};

// Each row of the table by the pivot, top first. Stops at the first number beyond M.
pub(crate) fn each(
    t: &mut [i64],
    rows: usize,
    pivot: &[i64],
    c: usize,
    way: Way,
) -> Result<(), Beyond>
    requires t_len { length t.old ≡ rows * length pivot.now }
    requires pivot { Pivot (length pivot.now) c pivot.now }
    requires within { Within t.old }
    ensures { StopsRun (each_of way c pivot.now rows t.old) result t.new }
{
    let w = pivot.len();
    // By the place of each row: what is written through `chunks_exact_mut`, no proof knows afterwards. The place is carried along, so that a
    // row with 0 there costs no more than a load and a test.
    let mut at = 0;
    for _ in 0..rows {
        let next = at + w;
        step(&mut t[at..next], pivot, c, way)?;
        at = next;
    }
    Ok(())
}
