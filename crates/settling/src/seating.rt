ghost use Rattle.std.specs.Prelude.{◌≡◌, ◌+◌, ◌*◌, ◌<◌, ◌≤◌, nat_abs, length};
ghost use Rattle.lattice.specs.Rows.{plus, lead};
ghost use Rattle.problem.specs.Limits.{M, max_bound};
ghost use Rattle.settling.specs.Columns.{columns_in};
ghost use Rattle.settling.specs.Seating.{gap_at, seat_one, outcome, leaves};
ghost use Rattle.settling.specs.Seating as Seating;
ghost use Rattle.settling.specs.Seats.{within, Addable, Placeable, PositiveLead, Seatable};
ghost use Rattle.settling.specs.Views.{vectors};

use crate::{Basis, Column};
use goals::ideal;
use lattice::lead_from;
use problem::{Problem, Refusal};
use whole::nearest_quotient;

// Adds q times a row to the values, at its numbers other than 0, of which c is the first; an error as soon as a value comes to lie beyond ±M.
#[tactic(auto, using(crate::proofs::Fitting::products))]
fn add_row(values: &mut [i64], row: &[i64], q: i64, c: usize) -> Result<(), Refusal>
    requires { Addable values.old row.now × (nat_abs q ≤ M + max_bound + 1) × (c ≡ lead row.now) }
    ensures { outcome result values.new ≡ within (plus q row.now values.old) }
{
    let mut j = c;
    // A `for` over all numbers from the lead on takes nearly twice the instructions where most are 0.
    while j < row.len() {
        let y = values[j] + q * row[j];
        if Problem::MAX_NUMBER < y.unsigned_abs() {
            return Err(Refusal::Seating);
        }
        values[j] = y;
        j = lead_from(row, j + 1);
    }
    Ok(())
}

// The ideal of column c less the present value there.
fn gap_at(values: &[i64], columns: &[Column], c: usize) -> i64
    requires { Placeable values.now columns.now × (c < length values.now) }
    ensures value { result ≡ gap_at (columns_in (length values.now) columns.now) values.now c }
    ensures small { nat_abs result ≤ M + max_bound }
{
    let column = &columns[c];
    let x = values[c];
    ideal(column.lower, column.upper, column.wish, x) - x
}

// Adds a row so often that its lead column c comes nearest to its ideal; an error if a value comes to lie beyond ±M.
fn seat_one(values: &mut [i64], columns: &[Column], row: &[i64], c: usize) -> Result<(), Refusal>
    requires { Placeable values.old columns.now × Addable values.old row.now × PositiveLead row.now × (c ≡ lead row.now) }
    ensures { outcome result values.new ≡ within (seat_one (columns_in (length values.old) columns.now) row.now values.old) }
{
    let d = gap_at(values, columns, c);
    add_row(values, row, nearest_quotient(d, row[c]), c)
}

// Seats the values, vector by vector; an error as soon as one lies beyond ±M. Leads rise, so each is looked for behind the last.
fn seat_all(values: &mut [i64], columns: &[Column], basis: Basis) -> Result<(), Refusal>
    requires { Seatable basis values.old columns.now }
    ensures { outcome result values.new ≡ Seating.seat (columns_in basis.entry.columns columns.now) (vectors basis.entry) values.old }
{
    let mut from = 0;
    for s in 0..basis.vectors {
        let row = basis.vector(s);
        let c = lead_from(row, from);
        seat_one(values, columns, row, c)?;
        from = c + 1;
    }
    Ok(())
}

// Seats the values; an error, and the values as they were, where one comes to lie beyond ±M. They are seated in a copy.
pub fn seat(values: &mut [i64], columns: &[Column], basis: Basis) -> Result<(), Refusal>
    requires { Seatable basis values.old columns.now }
    ensures { (result, values.new) ≡ leaves (Seating.seat (columns_in basis.entry.columns columns.now) (vectors basis.entry) values.old) values.old }
{
    let mut held = [0; Problem::MAX_COLUMNS];
    let copy = &mut held[..basis.columns];
    copy.copy_from_slice(values);
    seat_all(copy, columns, basis)?;
    values.copy_from_slice(copy);
    Ok(())
}
