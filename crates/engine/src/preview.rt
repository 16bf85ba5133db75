// Document 02's preview: the next step of a standing list, shown before it is taken.
ghost use Rattle.std.specs.Prelude.{◌≡◌, length};
ghost use Rattle.problem.specs.Checks.{posed};
ghost use Rattle.settling.specs.Columns.{columns_in};
ghost use Rattle.settling.specs.Ready.{Ready};
ghost use Rattle.settling.specs.Views.{vectors};
ghost use Rattle.engine.specs.Preview as Preview;
ghost use Rattle.engine.specs.Preview.{list_length};
ghost use Rattle.engine.specs.Replies.{held, left, shown_by};
ghost use Rattle.engine.specs.Showing.{displayed, displayed_by};

use crate::Buffers;
use crate::ground::lay_ground;
use crate::views::basis_in;
use problem::{Lent, Lists, Problem, Refusal};
use settling::moves::take_move;
use settling::{Basis, Column, Move, Part};
use whole::buffers::copy;

// The next step: its part, the column that it improves, counted from 0, and its move. The search's `Step` is not told as it is: it has no part.
#[derive(Clone, Copy, Debug, PartialEq, Eq)]
pub struct Next {
    pub part: Part,
    pub column: usize,
    pub o: Move,
}

// What a preview returns: the next step, or that no move improves, and the rounds that its tableau took. One type for this and `Assigned` would lose
// the names `next` and `verdict`, which are what a caller reads.
#[derive(Clone, Copy, Debug, PartialEq, Eq)]
pub struct Sight {
    pub next: Option<Next>,
    pub rounds: u32,
}

// Shows the next step of a list over a basis, takes it on a copy of the list, and gives the basis' strides.
fn show_on(
    columns: &[Column],
    basis: Basis<'_>,
    standing: &[i64],
    after: &mut [i64],
    strides: &mut [u64],
) -> Option<Next>
    requires { Ready basis standing.now columns.now × (length after.old ≡ basis.columns) × (length strides.old ≡ basis.columns) }
    ensures { displayed result after.new strides.new
        ≡ displayed_by (columns_in basis.entry.columns columns.now) (vectors basis.entry) standing.now }
{
    settling::strides::strides(strides, basis);
    copy(after, standing);
    let turn = search::turn_at(standing, columns, basis);
    let step = turn.step?;
    take_move(after, basis, step.o);
    Some(Next {
        part: turn.part,
        column: step.column,
        o: step.o,
    })
}

// The length that stands for both lists.
fn list_length(n: usize, standing: usize, after: usize) -> usize
    ensures { result ≡ list_length n standing after }
{
    if standing == n { after } else { standing }
}

// The next step of the standing list. A limit held beside the problem plays no part: the checks are those of Continue with limit 1. The list after
// is written only once nothing can be refused.
pub fn preview(
    p: Problem,
    lists: Lists<'_>,
    standing: &[i64],
    lent: Buffers<'_>,
) -> Result<Sight, Refusal>
    ensures { shown_by result (left lent.exit)
        ≡ Preview.preview (posed p lists.entry) standing.now (held lent.entry) }
{
    let Buffers {
        tableau,
        values,
        strides,
    } = lent;
    let one = Problem { limit: 1, ..p };
    let room = Lent {
        tableau: tableau.len(),
        values: list_length(p.columns, standing.len(), values.len()),
        strides: strides.len(),
    };
    let mut columns = [Column::BLANK; Problem::MAX_COLUMNS];
    let rounds = lay_ground(one, lists, standing, room, tableau, &mut columns)?;
    let basis = basis_in(tableau, one);
    let next = show_on(&columns[..p.columns], basis, standing, values, strides);
    Ok(Sight { next, rounds })
}
