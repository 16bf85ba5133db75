// The tests of one move: whether the columns pass that it changes.
ghost use Rattle.std.specs.Prelude.{◌≡◌, ◌<◌};
ghost use Rattle.settling.specs.Moves.{changes};
ghost use Rattle.settling.specs.Sizes.{Crossable};
ghost use Rattle.settling.specs.Views.{OfBasis};
ghost use Rattle.search.specs.Probes.{Covered, Blocking};
ghost use Rattle.search.specs.Searches.{basis_of, passing};

use crate::given::Search;
use crate::sets::Set;
use settling::columns::cell_at;
use settling::measures::passes;
use settling::{Cell, Measure, Move};

impl Search<'_> {
    // Whether column j passes under a move, against a measure. A column that is not changed does.
    #[tactic(auto, using(crate::proofs::Testing::tests))]
    fn passes_by(&self, o: Move, q: Measure, j: usize) -> bool
        requires { OfBasis self.now.basis.vectors o × Crossable q × (j < self.now.basis.columns) }
        ensures { result ≡ passing self.now o q j }
    {
        let e = self.basis.change(o, j);
        if e == 0 {
            return true;
        }
        let c = cell_at(self.columns, self.values, j);
        let moved = Cell {
            value: c.value + e,
            ..c
        };
        passes(self.part, moved, e, q)
    }

    // A blocking column, which does not pass. Column i is tried first, then those of a set that has all that are changed.
    pub(crate) fn find_blocking(&self, o: Move, q: Measure, i: usize, members: Set) -> Option<usize>
        requires { OfBasis self.now.basis.vectors o × Crossable q × (i < self.now.basis.columns)
            × Covered self.now.basis.columns (changes (basis_of self.now) o) members }
        ensures { Blocking self.now.basis.columns (passing self.now o q) result }
    {
        let mut left = members;
        let mut j = i;
        // A `for` over the members, with the column i tried before it, took 1.2 to 1.4 times as long on whole decks.
        while self.passes_by(o, q, j) {
            j = left.next()?;
        }
        Some(j)
    }
}
