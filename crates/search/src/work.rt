// What is kept between the steps of settling.
ghost use Rattle.std.specs.Prelude.{◌≡◌, ◌≤◌};
ghost use Rattle.problem.specs.Limits.{max_columns};
ghost use Rattle.settling.specs.Columns.{columns_in};
ghost use Rattle.settling.specs.Ready.{Ready};
ghost use Rattle.settling.specs.Steps.{turn_of};
ghost use Rattle.settling.specs.Views.{vectors};
ghost use Rattle.search.specs.Working.{Empty, Fresh, Standing, Turned};

use crate::given::Search;
use crate::seen::Note;
use crate::sets::{Set, find_sets};
use crate::turns::Ranking;
use problem::Problem;
use settling::{Basis, Column, Measure, Turn};

// The sets of the basis, the ranking of the last step with the measures that it went by, and what is noted of the vectors.
#[derive(Drop)]
pub(crate) struct Workspace {
    pub supports: [Set; Problem::MAX_COLUMNS],
    pub holders: [Set; Problem::MAX_COLUMNS],
    pub ranking: Ranking,
    pub sizes: [Measure; Problem::MAX_COLUMNS],
    pub notes: [Note; Problem::MAX_COLUMNS],
}

impl Workspace {
    // An empty one. It is filled where it lies, so that it is not copied.
    pub(crate) fn new() -> Workspace
        ensures { Empty result }
    {
        Workspace {
            supports: [Set::EMPTY; Problem::MAX_COLUMNS],
            holders: [Set::EMPTY; Problem::MAX_COLUMNS],
            ranking: Ranking::new(),
            sizes: [Measure { top: 0, bottom: 0 }; Problem::MAX_COLUMNS],
            notes: [Note { plus: 0, minus: 0 }; Problem::MAX_COLUMNS],
        }
    }

    // Finds the sets of a basis, before the first step.
    pub(crate) fn begin(&mut self, basis: Basis)
        requires { Empty self.old × (basis.columns ≤ max_columns) × (basis.vectors ≤ max_columns) }
        ensures { Fresh basis.entry self.new }
    {
        find_sets(&mut self.supports, &mut self.holders, basis);
    }

    // The next step, and the part that it belongs to.
    pub(crate) fn turn(&mut self, columns: &[Column], values: &[i64], basis: Basis) -> Turn
        requires { Ready basis values.now columns.now × Standing basis columns.now values.now self.old }
        ensures { (result ≡ turn_of (columns_in basis.entry.columns columns.now) (vectors basis.entry) values.now)
            × Turned basis.entry columns.now values.now self.new }
    {
        self.ranking.turn(columns, values, &mut self.sizes);
        let search = Search {
            part: self.ranking.part,
            columns,
            values,
            basis,
            order: self.ranking.columns(),
            supports: &self.supports,
            holders: &self.holders,
        };
        let step = search.first_step(&mut self.notes);
        Turn {
            part: self.ranking.part,
            step,
        }
    }
}
