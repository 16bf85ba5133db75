ghost use Rattle.std.specs.Prelude.{◌≡◌, ℕ, ◌*◌, ◌<◌, ◌≤◌, nat_abs, length};
ghost use Rattle.whole.specs.Lists.{entry};
ghost use Rattle.lattice.specs.Rows.{plus};
ghost use Rattle.problem.specs.Limits.{M};
ghost use Rattle.settling.specs.Moves as Moves;
ghost use Rattle.settling.specs.Moves.{vector};
ghost use Rattle.settling.specs.Views.{vectors, OfBasis};

use crate::{Basis, Move};

impl<'a> Basis<'a> {
    // Vector s. A vector without columns may lie anywhere.
    #[tactic(auto, using(crate::proofs::Views::vectors_is, crate::proofs::Views::vector_long, crate::proofs::Views::vector_small))]
    pub fn vector(self, s: usize) -> &'a [i64]
        requires { (s < self.vectors) × (0 < self.columns) }
        ensures value { result.now ≡ vector (vectors self.entry) s }
        ensures long { length result.now ≡ self.entry.columns }
        ensures small { (j : ℕ) → nat_abs (entry j result.now) ≤ M }
    {
        let at = s * self.stride;
        &self.numbers[at..at + self.columns]
    }

    // Number j of vector s.
    #[tactic(auto, using(crate::proofs::Views::vectors_at))]
    pub fn number(self, s: usize, j: usize) -> i64
        requires { (s < self.vectors) × (j < self.columns) }
        ensures value { result ≡ entry j (vector (vectors self.entry) s) }
        ensures small { nat_abs result ≤ M }
    {
        self.numbers[s * self.stride + j]
    }

    // What a move adds to column j.
    #[tactic(auto, using(crate::proofs::Fitting::products, crate::proofs::Fitting::reads))]
    pub fn change(self, o: Move, j: usize) -> i64
        requires { OfBasis self.vectors o × (j < self.columns) }
        ensures value { result ≡ Moves.change (vectors self.entry) o j }
        ensures small { nat_abs result ≤ 2 * M }
    {
        o.a * self.number(o.s, j) + o.b * self.number(o.t, j)
    }

    // Whether a move changes column j.
    pub fn changes(self, o: Move, j: usize) -> bool
        requires { OfBasis self.vectors o × (j < self.columns) }
        ensures { result ≡ Moves.changes (vectors self.entry) o j }
    {
        self.change(o, j) != 0
    }
}

// Adds a times a row to the values. The one of seating stops beyond M; this one does not: after the first of two vectors a value may lie
// beyond, and the second brings it back.
#[tactic(auto, using(crate::proofs::Fitting::products, crate::proofs::Fitting::reads, crate::proofs::Adding::row_loop))]
fn add_row(values: &mut [i64], row: &[i64], a: i64)
    requires { (length row.now ≡ length values.old) × (nat_abs a ≤ 1)
        × ((j : ℕ) → nat_abs (entry j values.old) ≤ 2 * M) × ((j : ℕ) → nat_abs (entry j row.now) ≤ M) }
    ensures { values.new ≡ plus a row.now values.old }
{
    for (j, x) in row.iter().enumerate() {
        values[j] += a * x;
    }
}

// Takes a move once, vector by vector.
#[tactic(auto, using(crate::proofs::Fitting::products, crate::proofs::Views::moving), unfolding(crate::specs::Moves::moved))]
pub fn take_move(values: &mut [i64], basis: Basis, o: Move)
    requires viewed { OfBasis basis.vectors o × (length values.old ≡ basis.columns) }
    requires by_index { (j : ℕ) → nat_abs (entry j values.old) ≤ M }
    ensures { values.new ≡ Moves.moved (vectors basis.entry) o values.old }
{
    if basis.columns == 0 {
        return;
    }
    add_row(values, basis.vector(o.s), o.a);
    if o.b != 0 {
        add_row(values, basis.vector(o.t), o.b);
    }
}
