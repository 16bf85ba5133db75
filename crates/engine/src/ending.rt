// From a list over the basis of a problem's form to its answer: seating, settling and strides. The columns lie in a table.
ghost use Rattle.std.specs.Prelude.{◌≡◌, length, Ok};
ghost use Rattle.settling.specs.Columns.{columns_in};
ghost use Rattle.settling.specs.Ready.{Ready};
ghost use Rattle.settling.specs.Views.{vectors};
ghost use Rattle.engine.specs.Finish.{finished_with, settled_by, finished, Finishable};

use problem::{Refusal, Verdict};
use settling::seating::seat;
use settling::{Basis, Column};

// Settles the values over a basis, and gives its strides.
pub(crate) fn settle_on(
    limit: u32,
    columns: &[Column],
    basis: Basis<'_>,
    values: &mut [i64],
    strides: &mut [u64],
) -> Verdict
    requires { Ready basis values.old columns.now × (length strides.old ≡ basis.columns) }
    ensures { finished_with (Ok result) values.new strides.new
        ≡ settled_by limit (columns_in basis.entry.columns columns.now) (vectors basis.entry) values.old }
{
    settling::strides::strides(strides, basis);
    search::settle::settle(values, columns, basis, limit)
}

// Seats the starting list and settles it. The interval list changes only once it is seated.
pub(crate) fn finish(
    limit: u32,
    columns: &[Column],
    basis: Basis<'_>,
    start: &mut [i64],
    values: &mut [i64],
    strides: &mut [u64],
) -> Result<Verdict, Refusal>
    requires { Finishable basis start.old columns.now values.old strides.old }
    ensures { finished_with result values.new strides.new
        ≡ finished limit (columns_in basis.entry.columns columns.now) (vectors basis.entry) start.old values.old strides.old }
{
    seat(start, columns, basis)?;
    values.copy_from_slice(start);
    Ok(settle_on(limit, columns, basis, values, strides))
}
