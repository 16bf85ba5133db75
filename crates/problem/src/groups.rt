ghost use Rattle.std.specs.Prelude.{◌≡◌};
ghost use Rattle.problem.specs.Limits.{group_limits};

// A group's numbers: the columns and the rows that one elimination forms together. A problem is one group.
#[derive(Clone, Copy)]
pub struct Group {
    pub columns: usize,
    pub rows: usize,
}

// The limits of a group, apart from the problem's: they bound the tables that elimination works on.
impl Group {
    pub const MAX_COLUMNS: usize = 48;

    pub const MAX_ROWS: usize = 48;

    // The largest group, so that the definitions' numbers are held to these.
    pub fn limits() -> Self
        ensures { result ≡ group_limits }
    {
        Group {
            columns: Group::MAX_COLUMNS,
            rows: Group::MAX_ROWS,
        }
    }
}
