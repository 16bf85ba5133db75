// Settling under a limit: steps of the search, one after the other.
ghost use Rattle.std.specs.Prelude.{◌≡◌, ◌<◌};
ghost use Rattle.problem.specs.Answers.{no_steps};
ghost use Rattle.settling.specs.Columns.{columns_in};
ghost use Rattle.settling.specs.Ready.{Ready};
ghost use Rattle.settling.specs.Settle as Settle;
ghost use Rattle.settling.specs.Views.{vectors};

use crate::work::Workspace;
use problem::{Counts, Verdict};
use settling::moves::take_move;
use settling::{Basis, Column, Part};

// The verdict where no move improves.
fn at_rest(part: Part, counts: Counts) -> Verdict
    ensures { result ≡ Settle.at_rest part counts }
{
    match part {
        Part::Bounds => Verdict::Outside(counts),
        Part::Goals => Verdict::Fitted(counts),
    }
}

// The counts before the first step. Crate problem has the same numbers for a refusal, which is another sentence of the rules.
fn no_steps() -> Counts
    ensures { result ≡ no_steps }
{
    Counts {
        bounds: 0,
        goals: 0,
    }
}

// The counts with one more step of a part.
fn counted(part: Part, counts: Counts) -> Counts
    requires { (counts.bounds < 4294967295) × (counts.goals < 4294967295) }
    ensures { result ≡ Settle.counted part counts }
{
    match part {
        Part::Bounds => Counts {
            bounds: counts.bounds + 1,
            ..counts
        },
        Part::Goals => Counts {
            goals: counts.goals + 1,
            ..counts
        },
    }
}

// Takes steps while some move improves and the limit is not reached. Whether a move improves is looked at first: a list at rest is never spent.
pub fn settle(values: &mut [i64], columns: &[Column], basis: Basis, limit: u32) -> Verdict
    requires { Ready basis values.old columns.now }
    ensures { Settle.ended result values.new
        ≡ Settle.settle limit (columns_in basis.entry.columns columns.now) (vectors basis.entry) values.old }
{
    let mut work = Workspace::new();
    work.begin(basis);
    let mut counts = no_steps();
    let mut left = limit;
    // A `for` over the steps is no plainer: the turn behind the last step would have to be taken outside it.
    loop {
        let turn = work.turn(columns, values, basis);
        let Some(step) = turn.step else {
            return at_rest(turn.part, counts);
        };
        if left == 0 {
            return Verdict::Spent(counts);
        }
        take_move(values, basis, step.o);
        counts = counted(turn.part, counts);
        left -= 1;
    }
}
