// A part by itself: the causes 1 to 5.
ghost use Rattle.std.specs.Prelude.{◌≡◌, true};
ghost use Rattle.problem.specs.Limits.{max_columns, max_rows};
ghost use Rattle.problem.specs.Checks.{sizes_fit};
ghost use Rattle.pairing.specs.Parts.{lent_lists, part_of, sized, lists_fit, part_cause};

use crate::{Part, Sizes};
use problem::checks::{
    column_lengths_fit, first_cause, ideal_lengths_fit, row_lengths_fit, sizes_fit,
};
use problem::{Lent, Lists, Problem, Refusal};

// The sizes as a problem's numbers. The limit 0 is no cause.
impl From<Sizes> for Problem {
    ghost from_gives = { λ s p. p ≡ sized s.columns s.rows 0 };

    fn from(s: Sizes) -> Self {
        Problem {
            columns: s.columns,
            rows: s.rows,
            limit: 0,
        }
    }
}

// Cause 2 of eight lists. The sizes come first, so that the product fits.
pub fn lists_fit(p: Problem, lists: Lists<'_>) -> bool
    requires { sizes_fit max_columns max_rows p ≡ true }
    ensures { result ≡ lists_fit p (lent_lists lists.entry) }
{
    row_lengths_fit(p, lists.coefficients, lists.rights)
        && column_lengths_fit(p, lists.lower, lists.upper, lists.low, lists.high)
        && ideal_lengths_fit(p, lists.given, lists.ideals)
}

// The first cause of 1 to 5 that holds. A problem too large is turned back before its buffers' lengths are worked out.
#[tactic(auto, unfolding(crate::specs::Parts::part_cause, problem::specs::Checks::first_cause))]
pub fn part_cause(part: Part<'_>) -> Result<(), Refusal>
    ensures { result ≡ part_cause (part_of part.entry.sizes (lent_lists part.entry.lists)) }
{
    let p = Problem::from(part.sizes);
    if !sizes_fit(p, Problem::MAX_COLUMNS, Problem::MAX_ROWS) {
        return Err(Refusal::Size);
    }
    let n = p.columns;
    let room = Lent {
        tableau: n * (p.rows + n),
        values: n,
        strides: n,
    };
    first_cause(p, part.lists, room)
}
