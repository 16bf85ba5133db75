#![tactic(auto)]

// The first two sections of a text. Each takes the cursor that the one before left, and hands one on; a refused one leaves its tables blank.
// Each has a `scan_` that may leave part of it and a `read_` that wipes that: what is wiped differs, so one generic function is no plainer.
pub mod intervals;
pub mod rows;
pub mod rules;

ghost use Rattle.std.specs.Prelude.{◌≡◌};
ghost use Rattle.sections.specs.Sections.{deck_sizes};
ghost use Rattle.sections.specs.StatedColumns.{blank_tables};

use problem::{Problem, Refusal};

// What was read of a text, with the place after it; or why the text is turned back.
pub type Outcome<T> = Result<(T, usize), Refusal>;

// The limits of a text: columns and rows are the problem's, and its bytes.
#[derive(Clone, Copy)]
pub struct Sizes {
    pub columns: usize,
    pub rows: usize,
    pub text: usize,
}

impl Sizes {
    pub const COLUMNS: usize = Problem::MAX_COLUMNS;

    pub const ROWS: usize = Problem::MAX_ROWS;

    pub const COEFFICIENTS: usize = Sizes::ROWS * Sizes::COLUMNS;

    pub const TEXT: usize = 32768;

    // All of them, so that the definitions' numbers are held to these.
    pub fn limits() -> Self
        ensures { result ≡ deck_sizes }
    {
        Sizes {
            columns: Sizes::COLUMNS,
            rows: Sizes::ROWS,
            text: Sizes::TEXT,
        }
    }
}

// An interval's line: its bounds and its goals.
#[derive(Clone, Copy)]
pub struct Interval {
    pub lower: i64,
    pub upper: i64,
    pub low: i64,
    pub high: i64,
}

impl Interval {
    pub const BLANK: Interval = Interval {
        lower: 0,
        upper: 0,
        low: 0,
        high: 0,
    };
}

// The coefficients of rows, as wide as the largest.
pub type Rows = [[i64; Sizes::COLUMNS]; Sizes::ROWS];

// The reader's tables: the columns, and the right side and the coefficients of each row. These leave for two lists, so each has an array of its own.
#[derive(Clone, Copy)]
pub struct Tables {
    pub columns: [Interval; Sizes::COLUMNS],
    pub rights: [i64; Sizes::ROWS],
    pub rows: Rows,
}

impl Tables {
    pub const BLANK: Tables = Tables {
        columns: [Interval::BLANK; Sizes::COLUMNS],
        rights: [0; Sizes::ROWS],
        rows: [[0; Sizes::COLUMNS]; Sizes::ROWS],
    };

    // Tables with nothing in them.
    #[tactic(auto, unfolding(crate::specs::StatedColumns::blank_tables))]
    pub fn blank() -> Self
        ensures { result ≡ blank_tables }
    {
        Tables::BLANK
    }
}

// A term of a row: the interval's index, from 1, and its coefficient.
#[derive(Clone, Copy)]
pub struct Term {
    pub index: usize,
    pub coefficient: i64,
}

// Where reading has come to: the place, the count of intervals, and the columns and rows so far.
// Its bounds stand in clauses and not in the type: `cursor` in specs/SectionsRead.antt makes one of any outcome, also of one past the limits.
#[derive(Clone, Copy)]
pub struct Cursor {
    pub at: usize,
    pub intervals: usize,
    pub columns: usize,
    pub rows: usize,
}
