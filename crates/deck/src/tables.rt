// From the reader's tables to lists: coefficients as narrow as the problem, and one number of each column.
ghost use Rattle.std.specs.Prelude.{◌≡◌, ◌≤◌, map, take, length};
ghost use Rattle.lattice.specs.Rows.{flat};
ghost use Rattle.text.specs.Overwriting.{overwritten};
ghost use Rattle.sections.specs.Sections.{deck_columns, deck_rows, coefficient_count};
ghost use Rattle.sections.specs.StatedColumns.{lower_of, upper_of, low_of, high_of};

use sections::{Interval, Sizes};

// The first n coefficients of each row, without gaps. Not in chunks: a problem without columns has none.
pub(crate) fn compact(rows: &[[i64; Sizes::COLUMNS]], n: usize, out: &mut [i64])
    requires { (n ≤ deck_columns) × (length rows.now ≤ deck_rows) × (length out.old ≡ coefficient_count) }
    ensures { out.new ≡ overwritten out.old 0 (flat (map (take n) rows.now)) }
{
    let mut to = 0;
    for row in rows {
        let end = to + n;
        out[to..end].copy_from_slice(&row[..n]);
        to = end;
    }
}

// The lists of the columns: their bounds and their goals, one by one as `fill` has them.
pub(crate) fn pick_columns(
    columns: &[Interval; Sizes::COLUMNS],
    lower: &mut [i64],
    upper: &mut [i64],
    low: &mut [i64],
    high: &mut [i64],
)
    requires { (length lower.old ≡ deck_columns) × (length upper.old ≡ deck_columns)
        × (length low.old ≡ deck_columns) × (length high.old ≡ deck_columns) }
    ensures { (lower.new ≡ map lower_of columns.now) × (upper.new ≡ map upper_of columns.now)
        × (low.new ≡ map low_of columns.now) × (high.new ≡ map high_of columns.now) }
{
    for (j, column) in columns.iter().enumerate() {
        lower[j] = column.lower;
        upper[j] = column.upper;
        low[j] = column.low;
        high[j] = column.high;
    }
}
