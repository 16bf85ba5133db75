// From step to step: the part that is reached, and its ranking.
ghost use Rattle.std.specs.Prelude.{◌≡◌, ◌≤◌, length, take};
ghost use Rattle.problem.specs.Limits.{max_columns};
ghost use Rattle.settling.specs.Columns.{columns_in};
ghost use Rattle.settling.specs.Steps.{part_of};
ghost use Rattle.search.specs.Given.{Measurable};
ghost use Rattle.search.specs.Turning.{Turnable, Unranked, Arranged, Gathered, RankedIn};

use crate::ranking::sort;
use problem::Problem;
use settling::columns::cell_at;
use settling::measures::is_ranked;
use settling::{Column, Measure, Part};

// The part of the last ranking, with its columns. A length stands beside the buffer, since nothing here is on the heap.
#[derive(Drop)]
pub(crate) struct Ranking {
    pub part: Part,
    pub order: [usize; Problem::MAX_COLUMNS],
    pub len: usize,
}

impl Ranking {
    // What is kept before the first step: nothing of the goals part.
    pub(crate) fn new() -> Ranking
        ensures { Unranked result }
    {
        Ranking {
            part: Part::Bounds,
            order: [0; Problem::MAX_COLUMNS],
            len: 0,
        }
    }

    // The columns, in the order in which they are tried.
    pub(crate) fn columns(&self) -> &[usize]
        requires { self.now.len ≤ length self.now.order }
        ensures { result.now ≡ take self.now.len self.now.order }
    {
        &self.order[..self.len]
    }

    // The columns that are tried in a part, as they rise. Each is written where the next one comes to stand, and stays if it is tried.
    fn gather(&mut self, part: Part, columns: &[Column], values: &[i64])
        requires { Measurable part columns.now values.now × (length values.now ≤ max_columns) × (length self.old.order ≡ max_columns) }
        ensures { (self.new.part ≡ part) × Gathered columns.now values.now self.new }
    {
        let mut len = 0;
        for j in 0..values.len() {
            self.order[len] = j;
            if is_ranked(part, cell_at(columns, values, j)) {
                len += 1;
            }
        }
        self.part = part;
        self.len = len;
    }

    // The columns of the part that is reached. No step leaves the goals part, so that it still has those of the last ranking.
    fn gather_next(&mut self, columns: &[Column], values: &[i64])
        requires { Turnable columns.now values.now × (length values.now ≤ max_columns) × Arranged columns.now values.now self.old }
        ensures { (self.new.part ≡ part_of (columns_in (length values.now) columns.now) values.now)
            × Gathered columns.now values.now self.new }
    {
        if self.part == Part::Goals {
            return;
        }
        self.gather(Part::Bounds, columns, values);
        if self.len == 0 {
            self.gather(Part::Goals, columns, values);
        }
    }

    // Ranks the columns of the part that is reached.
    pub(crate) fn turn(&mut self, columns: &[Column], values: &[i64], sizes: &mut [Measure])
        requires { Turnable columns.now values.now × (length values.now ≤ length sizes.old) × (length values.now ≤ max_columns)
            × Arranged columns.now values.now self.old }
        ensures { RankedIn columns.now values.now self.new }
    {
        self.gather_next(columns, values);
        sort(
            self.part,
            columns,
            values,
            sizes,
            &mut self.order[..self.len],
        );
    }
}
