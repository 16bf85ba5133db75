// What Continue and the preview share: the checks, the test of the list, the form, and the packed columns.
ghost use Rattle.std.specs.Prelude.{◌≡◌};
ghost use Rattle.problem.specs.Checks.{posed};
ghost use Rattle.engine.specs.Ground.{grounded, laid_ground, Groundable, Packs};

use crate::standing::stands;
use problem::checks::first_cause;
use problem::{Lent, Lists, Problem, Refusal};
use settling::Column;
use settling::columns::pack;

// Looks for a refusal, 1 to 6, then 10 for the list, then 7. Where there is none, it tells the rounds that the form took, and leaves the form in the
// tableau and the columns in front of their table.
pub(crate) fn lay_ground(
    p: Problem,
    lists: Lists<'_>,
    list: &[i64],
    lent: Lent,
    tableau: &mut [i64],
    columns: &mut [Column],
) -> Result<u32, Refusal>
    requires { Groundable (posed p lists) list.now lent tableau.old columns.old }
    ensures { (grounded result tableau.new ≡ laid_ground (posed p lists.entry) list.now lent tableau.old)
        × Packs result (posed p lists.entry) columns.new }
{
    first_cause(p, lists, lent)?;
    if !stands(p, lists, list) {
        return Err(Refusal::Standing);
    }
    let rounds = tableau::form(tableau, p, lists.coefficients)?;
    pack(&mut columns[..p.columns], lists);
    Ok(rounds)
}
