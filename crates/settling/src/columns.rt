// The table of a problem's columns, packed once from the lists that a caller lends.
ghost use Rattle.std.specs.Prelude.{◌≡◌, ◌<◌, length};
ghost use Rattle.whole.specs.Lists.{entry};
ghost use Rattle.settling.specs.Columns.{valued, column_at, listed, packed};
ghost use Rattle.settling.specs.Packing.{Packable};

use crate::{Cell, Column};
use goals::{column_wish, wish_of};
use problem::Lists;

// Column j with its value.
pub fn cell_at(columns: &[Column], values: &[i64], j: usize) -> Cell
    requires { (j < length columns.now) × (j < length values.now) }
    ensures { result ≡ valued (column_at columns.now j) (entry j values.now) }
{
    let c = &columns[j];
    Cell {
        lower: c.lower,
        upper: c.upper,
        low: c.low,
        high: c.high,
        value: values[j],
    }
}

// Packs the columns of a problem's lists into a table.
pub fn pack(columns: &mut [Column], lists: Lists)
    requires { Packable columns.old lists }
    ensures { columns.new
        ≡ packed (listed (length lists.entry.lower.now) lists.entry.lower.now lists.entry.upper.now
        lists.entry.low.now lists.entry.high.now lists.entry.given.now
        lists.entry.ideals.now) }
{
    for (j, column) in columns.iter_mut().enumerate() {
        let low = lists.low[j];
        let high = lists.high[j];
        *column = Column {
            lower: lists.lower[j],
            upper: lists.upper[j],
            low,
            high,
            wish: column_wish(low, high, wish_of(lists.given[j], lists.ideals[j])),
        };
    }
}
