#![tactic(auto)]

// Whole assignments and Continue: document 01's calls on lent buffers. They have no `requires`: what a problem can break is an answer.
// Once there is a list to settle, the lists of bounds, goals and ideals are packed into a table of columns, which is all that is lent on of them:
// what is refused before then packs nothing.
ghost use Rattle.std.specs.Prelude.{◌≡◌};
ghost use Rattle.problem.specs.Checks.{posed};
ghost use Rattle.engine.specs.Assign as Assign;
ghost use Rattle.engine.specs.Assign.{lent_of};
ghost use Rattle.engine.specs.Replies.{held, left, done_by};

use ending::{finish, settle_on};
use ground::lay_ground;
use problem::checks::first_cause;
use problem::{Lent, Lists, Problem, Refusal, Verdict};
use settling::Column;
use settling::columns::pack;
use views::basis_in;

mod ending;
mod ground;
pub mod preview;
mod standing;
mod views;

// The buffers that a call fills: the tableau, the interval list and the strides.
#[derive(Drop)]
pub struct Buffers<'a> {
    pub tableau: &'a mut [i64],
    pub values: &'a mut [i64],
    pub strides: &'a mut [u64],
}

impl Buffers<'_> {
    fn lengths(&self) -> Lent
        ensures { result ≡ lent_of (held self.now) }
    {
        Lent {
            tableau: self.tableau.len(),
            values: self.values.len(),
            strides: self.strides.len(),
        }
    }
}

// What a call that is not turned back returns: the verdict, and the rounds that its tableau took.
#[derive(Clone, Copy, Debug, PartialEq, Eq)]
pub struct Assigned {
    pub verdict: Verdict,
    pub rounds: u32,
}

// A whole assignment: causes 1 to 6, the tableau and the right side (7 and 8), seating (9) and settling. The starting list has room of its own, since
// the interval list must stay as it is until the list is seated.
pub fn assign(p: Problem, lists: Lists<'_>, lent: Buffers<'_>) -> Result<Assigned, Refusal>
    ensures { done_by result (left lent.exit)
        ≡ Assign.assign (posed p lists.entry) (held lent.entry) }
{
    // Both stand before the first test: behind one they would be set to blank twice.
    let mut room = [0i64; Problem::MAX_COLUMNS];
    let mut table = [Column::BLANK; Problem::MAX_COLUMNS];
    first_cause(p, lists, lent.lengths())?;
    let Buffers {
        tableau,
        values,
        strides,
    } = lent;
    let start = &mut room[..p.columns];
    let rounds = rightside::solve(tableau, p, lists.coefficients, lists.rights, start)?;
    let columns = &mut table[..p.columns];
    pack(columns, lists);
    let basis = basis_in(tableau, p);
    let verdict = finish(p.limit, columns, basis, start, values, strides)?;
    Ok(Assigned { verdict, rounds })
}

// Document 01's Continue: settles the lent list, which has to satisfy the rows (10). It forms the tableau (7), but takes neither the right side nor
// seating.
pub fn continue_from(p: Problem, lists: Lists<'_>, lent: Buffers<'_>) -> Result<Assigned, Refusal>
    ensures { done_by result (left lent.exit)
        ≡ Assign.continue (posed p lists.entry) (held lent.entry) }
{
    let lengths = lent.lengths();
    let Buffers {
        tableau,
        values,
        strides,
    } = lent;
    let mut columns = [Column::BLANK; Problem::MAX_COLUMNS];
    let rounds = lay_ground(p, lists, values, lengths, tableau, &mut columns)?;
    let basis = basis_in(tableau, p);
    let verdict = settle_on(p.limit, &columns[..p.columns], basis, values, strides);
    Ok(Assigned { verdict, rounds })
}
