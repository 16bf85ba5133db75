// The rows of the joined problem: the first's, then the second's.
ghost use Rattle.std.specs.Prelude.{◌≡◌, ◌++◌, map, ◌≤◌, ◌+◌, ◌*◌, ◌-◌, List, ℤ, length};
ghost use Rattle.lattice.specs.Rows.{flat, chop};
ghost use Rattle.joined.specs.Joined.{padded, spread_from};
ghost use Rattle.joined.specs.Joined as Joined;
ghost use Rattle.joined.specs.Filling.{AllBelow, TakesRows, LaysRows};

use pairing::Part;
use whole::buffers::copy;

// A row of the first part over the joined columns.
fn pad_row(out: &mut [i64], row: &[i64])
    requires { length row.now ≤ length out.old }
    ensures { out.new ≡ padded (length out.old - length row.now) row.now }
{
    let n = row.len();
    copy(&mut out[..n], row);
    out[n..].fill(0);
}

// The coefficients of a row put in at their columns' places.
fn spread_into(out: &mut [i64], row: &[i64], places: &[usize])
    requires row_len { length row.now ≡ length places.now }
    requires all_below { AllBelow (length out.old) places.now }
    ensures { out.new ≡ spread_from out.old places.now row.now }
{
    for (p, x) in places.iter().zip(row) {
        out[*p] = *x;
    }
}

// A row of the second part over the joined columns.
fn spread_row(out: &mut [i64], row: &[i64], places: &[usize])
    requires row_len { length row.now ≡ length places.now }
    requires all_below { AllBelow (length out.old) places.now }
    ensures { out.new ≡ Joined.spread (length out.old) places.now row.now }
{
    out.fill(0);
    spread_into(out, row, places);
}

// The rows of a part, each laid into n numbers by `lay`. A part's columns, and n with them, may be none here, which `chunks_exact` does not take.
fn lay_rows<F: Fn(&mut [i64], &[i64])>(out: &mut [i64], n: usize, part: Part<'_>, lay: F)
    requires lengths { (length part.lists.coefficients.now ≡ part.sizes.rows * part.sizes.columns) × (length out.old ≡ part.sizes.rows * n) }
    requires callable { TakesRows n part.sizes.columns (F.pre lay) }
    ensures { (f : List ℤ → List ℤ) → LaysRows n part.entry.sizes.columns (F.post lay) f
        → out.new ≡ flat (map f (chop part.entry.sizes.rows part.entry.sizes.columns part.entry.lists.coefficients.now)) }
{
    let coefficients = part.lists.coefficients;
    let w = part.sizes.columns;
    for i in 0..part.sizes.rows {
        let a = i * w;
        let at = i * n;
        lay(&mut out[at..at + n], &coefficients[a..a + w]);
    }
}

// All rows over the joined columns: the first's, then the second's, whose columns come to the places. No partners are read, so that no `Seats` are
// asked for.
pub fn join_rows(
    out: &mut [i64],
    first: Part<'_>,
    second: Part<'_>,
    places: &[usize],
    columns: usize,
)
    requires coefficients_len { (length first.lists.coefficients.now ≡ first.sizes.rows * first.sizes.columns)
        × (length second.lists.coefficients.now ≡ second.sizes.rows * second.sizes.columns) × (length places.now ≡ second.sizes.columns) }
    requires out_len { (length out.old ≡ (first.sizes.rows + second.sizes.rows) * columns) × (first.sizes.columns ≤ columns)
        × AllBelow columns places.now }
    ensures { out.new ≡ flat (map (padded (columns - first.entry.sizes.columns))
        (chop first.entry.sizes.rows first.entry.sizes.columns first.entry.lists.coefficients.now)
        ++ map (Joined.spread columns places.now)
        (chop second.entry.sizes.rows second.entry.sizes.columns second.entry.lists.coefficients.now)) }
{
    let at = first.sizes.rows * columns;
    lay_rows(&mut out[..at], columns, first, pad_row);
    lay_rows(
        &mut out[at..],
        columns,
        second,
        |out, row| spread_row(out, row, places),
    );
}

// The right sides: the first's, then the second's.
pub fn join_rights(out: &mut [i64], rights: &[i64], rights2: &[i64])
    requires { length out.old ≡ length rights.now + length rights2.now }
    ensures { out.new ≡ rights.now ++ rights2.now }
{
    let m = rights.len();
    copy(&mut out[..m], rights);
    copy(&mut out[m..], rights2);
}
