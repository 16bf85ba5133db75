#![tactic(auto)]

ghost use Rattle.settling.specs.Laid.{Laid};

use goals::Wish;

pub mod columns;
pub mod measures;
pub mod moves;
pub mod seating;
pub mod strides;

// The two parts of settling.
#[derive(Clone, Copy, Debug, PartialEq, Eq)]
pub enum Part {
    Bounds,
    Goals,
}

// a times the vector s, and b times the vector t, counted from 0. A single vector has b = 0, as in the definitions: no vector is missing then, since
// the vector t is taken 0 times.
#[derive(Clone, Copy, Debug, PartialEq, Eq)]
pub struct Move {
    pub s: usize,
    pub a: i64,
    pub t: usize,
    pub b: i64,
}

// The vectors of a basis in a slice: each has a number for each column and starts `stride` after the last one.
#[derive(Clone, Copy)]
pub struct Basis<'a> {
    pub numbers: &'a [i64],
    pub columns: usize,
    pub vectors: usize,
    pub stride: usize,
    pub ghost laid: { Laid columns vectors stride numbers.now },
}

// What a problem says of one column: its bounds, its goals, both 0 for none as in the lists that C lends, and its wish.
#[derive(Clone, Copy, Debug, PartialEq, Eq)]
pub struct Column {
    pub lower: i64,
    pub upper: i64,
    pub low: i64,
    pub high: i64,
    pub wish: Wish,
}

impl Column {
    // A column with both bounds 0, no goal and no wish, with which tables are filled before they are packed.
    pub const BLANK: Column = Column {
        lower: 0,
        upper: 0,
        low: 0,
        high: 0,
        wish: None,
    };
}

// What settling knows of one column: its bounds, its goals and its value. The search's inner loop passes it by value, so that it has no wish, which
// would be copied with a whole `Column`.
#[derive(Clone, Copy, Debug, PartialEq, Eq)]
pub struct Cell {
    pub lower: i64,
    pub upper: i64,
    pub low: i64,
    pub high: i64,
    pub value: i64,
}

// A column's distance, over 1, or its ratio.
#[derive(Clone, Copy)]
pub struct Measure {
    pub top: u64,
    pub bottom: u64,
}

// A step: the column that it improves, counted from 0, and its move.
#[derive(Clone, Copy, Debug, PartialEq, Eq)]
pub struct Step {
    pub column: usize,
    pub o: Move,
}

// The next step, none where no move improves, and the part that it belongs to.
#[derive(Clone, Copy, Debug, PartialEq, Eq)]
pub struct Turn {
    pub part: Part,
    pub step: Option<Step>,
}
