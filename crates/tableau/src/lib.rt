#![tactic(auto)]

// The tableau: a problem's table and its elimination. The definitions are in specs/.
ghost use Rattle.std.specs.Prelude.{◌≡◌, ◌*◌, ◌≤◌, length};
ghost use Rattle.problem.specs.declared.Refusal.TheVariants.{Elimination};
ghost use Rattle.tableau.specs.Table.{max_width};
ghost use Rattle.tableau.specs.Elimination.{reduced};
ghost use Rattle.tableau.specs.RowSteps.{unless, Pivot, left_after};
ghost use Rattle.tableau.specs.Within.{Within};
ghost use Rattle.tableau.specs.LentTable.{Formable, form_of, form_after, form_answer, eliminated_of, rounds_in};

mod elimination;
mod filling;
mod gathering;
mod rows;
mod tables;

use elimination::pass_all;
use filling::fill;
use problem::groups::Group;
use problem::{Problem, Refusal};
use rows::{Way, step};

// A table is a slice of rows of w numbers, and the functions below hand it, its rows and the pivot on one by one: it is the buffer that C lends, and
// a struct would hold two `&mut` that each call had to take apart.

// The most numbers that a row of a table can have.
pub const MAX_WIDTH: usize = Group::MAX_ROWS + Group::MAX_COLUMNS;

// A number beyond M was left: the elimination limit is passed.
#[derive(Clone, Copy, Debug, PartialEq, Eq)]
pub struct Beyond;

impl From<Beyond> for Refusal {
    ghost from_gives = { λ _ why. why ≡ Elimination };

    fn from(_beyond: Beyond) -> Refusal {
        Refusal::Elimination
    }
}

// Takes the pivot, whose first number other than 0 is at c, from a row, so that its number there is reduced. Where a number beyond M is
// left, the row is all 0.
pub fn reduce(row: &mut [i64], pivot: &[i64], c: usize) -> Result<(), Beyond>
    requires pivot { Pivot (length row.old) c pivot.now }
    requires within { Within row.old }
    ensures value { result ≡ unless (reduced c pivot.now row.old).over tt }
    ensures row_after { row.new ≡ left_after (reduced c pivot.now row.old) row.old }
{
    let done = step(row, pivot, c, Way::Above);
    if done.is_err() {
        row.fill(0);
    }
    done
}

// The Hermite form of a table of rows of w numbers, and the rounds that it took. Where a number beyond M is left, the table is all 0.
pub fn eliminate(t: &mut [i64], rows: usize, w: usize) -> Result<u32, Beyond>
    requires t_len { (length t.old ≡ rows * w) × (w ≤ max_width) }
    requires within { Within t.old }
    ensures value { result ≡ unless (eliminated_of rows w t.old).over (rounds_in rows w t.old) }
    ensures t_after { t.new ≡ form_after (eliminated_of rows w t.old) t.old }
{
    let mut pivot = [0i64; MAX_WIDTH];
    let done = pass_all(t, rows, &mut pivot[..w]);
    if done.is_err() {
        t.fill(0);
    }
    done
}

// The form of a problem's tableau in t, and the rounds that it took. Where it is past the elimination limit, t is all 0.
pub fn form(t: &mut [i64], p: Problem, coefficients: &[i64]) -> Result<u32, Beyond>
    requires { Formable p t.old coefficients.now }
    ensures value { result ≡ form_answer p coefficients.now }
    ensures t_after { t.new ≡ form_after (form_of p coefficients.now) t.old }
{
    fill(t, p, coefficients);
    eliminate(t, p.columns, p.rows + p.columns)
}
