// What a search reads.
ghost use Rattle.settling.specs.Columns.{columns_in};
ghost use Rattle.settling.specs.Ready.{Ready};
ghost use Rattle.search.specs.Given.{Allowed, InOrder};
ghost use Rattle.search.specs.Sets.{Indexed};

use crate::sets::Set;
use settling::{Basis, Column, Part};

// The part, the columns with their values, the basis, and the ranking: the columns in the order in which they are tried. For each vector there is the
// set of the columns that it changes, and for each column the set of the vectors that change it.
#[derive(Clone, Copy)]
pub(crate) struct Search<'a> {
    pub part: Part,
    pub columns: &'a [Column],
    pub values: &'a [i64],
    pub basis: Basis<'a>,
    pub order: &'a [usize],
    pub supports: &'a [Set],
    pub holders: &'a [Set],
    ghost ready: { Ready basis values.now columns.now },
    ghost allowed: { Allowed part (columns_in basis.columns columns.now) values.now },
    ghost ranked: { InOrder part (columns_in basis.columns columns.now) values.now order.now },
    ghost indexed: { Indexed basis supports.now holders.now },
}
