#![tactic(auto)]

// Document 02, (ii): the ideals that the reader hands in for plain intervals, made from those of their neighbours.
mod sheet;

ghost use Rattle.std.specs.Prelude.{◌≡◌, ◌<◌, ◌≤◌, length};
ghost use Rattle.whole.specs.Lists.{entry};
ghost use Rattle.problem.specs.Limits.{max_columns};
ghost use Rattle.neighbours.specs.Sheets.{stated};
ghost use Rattle.neighbours.specs.Neighbours.{ideal_of, shares, neighbour_ideals, mean_by, mean, neighbour_wish, given_of, ideals_of};

use goals::{Wish, goal_ideal, into_bounds, wish_mark, wish_number};
pub use sheet::Sheet;
use whole::floor_quotient;

impl<'a> Sheet<'a> {
    // The coefficient of row i at column j.
    fn coefficient(self, i: usize, j: usize) -> i64
        requires { (i < self.rows) × (j < self.columns) }
        ensures { result ≡ (stated self.entry).coefficient i j }
    {
        self.coefficients[i * self.columns + j]
    }

    // Whether columns j and h have a nonzero coefficient in the same row.
    fn share_row(self, j: usize, h: usize) -> bool
        requires { (j < self.columns) × (h < self.columns) }
        ensures { result ≡ shares (stated self.entry) j h }
    {
        (0..self.rows).any(|i| self.coefficient(i, j) != 0 && self.coefficient(i, h) != 0)
    }

    // The ideal of interval h, where it has a goal.
    fn ideal(self, h: usize) -> i64
        requires { h < self.intervals }
        ensures { result ≡ ideal_of (stated self.entry) h }
    {
        let wanted = goal_ideal(self.low[h], self.high[h]);
        into_bounds(self.lower[h], self.upper[h], wanted)
    }

    // The mean of the ideals of the neighbours of column j, from the last one. Each column is looked at once, and so counted once.
    #[tactic(auto, using(crate::proofs::Laws::mean_loop))]
    fn mean_beside(self, j: usize) -> Wish
        requires { j < self.columns }
        ensures { result ≡ mean (neighbour_ideals (stated self.entry) j) }
    {
        let mut sum = 0;
        let mut count = 0;
        for h in (0..self.intervals).rev() {
            if self.low[h] != 0 && self.share_row(j, h) {
                sum += self.ideal(h);
                count += 1;
            }
        }
        mean_by(sum, count)
    }

    // What is handed in for column j: nothing for a slack, nor where there is a goal.
    #[tactic(auto, using(crate::proofs::Laws::wish_past, crate::proofs::Laws::wish_goal, crate::proofs::Laws::wish_plain))]
    fn neighbour_wish(self, j: usize) -> Wish
        ensures { result ≡ neighbour_wish (stated self.entry) j }
    {
        if self.intervals <= j || self.low[j] != 0 {
            return None;
        }
        self.mean_beside(j)
    }
}

// A sum over a count, rounded down; nothing where there is nothing to count.
fn mean_by(sum: i64, count: usize) -> Wish
    requires { count ≤ max_columns }
    ensures { result ≡ mean_by sum count }
{
    if count == 0 {
        return None;
    }
    Some(floor_quotient(sum, count as i64))
}

// Fills the two lists of ideals, whether one is set and the number, for as many columns as they have room for.
#[tactic(auto, using(crate::proofs::Laws::numbers_all))]
pub fn hand_in(sheet: Sheet<'_>, given: &mut [i64], ideals: &mut [i64])
    requires { length ideals.old ≡ length given.old }
    ensures { (given.new ≡ given_of (stated sheet.entry) (length given.old)) × (ideals.new ≡ ideals_of (stated sheet.entry) (length given.old)) }
{
    for j in 0..given.len() {
        let wish = sheet.neighbour_wish(j);
        given[j] = wish_mark(wish);
        ideals[j] = wish_number(wish);
    }
}
