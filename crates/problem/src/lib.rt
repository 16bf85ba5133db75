#![tactic(auto)]

ghost use Rattle.std.specs.Prelude.{◌≡◌};
ghost use Rattle.problem.specs.Limits.{limits};
ghost use Rattle.problem.specs.Kinds.{slack_count};
ghost use Rattle.problem.specs.Answers.{refusal_number, verdict_counts, answer_number, answer_counts};
ghost use Rattle.problem.specs.Checks.{empty_problem};

pub mod checks;
pub mod groups;

// A problem's numbers: n columns, m rows and the step limit. Its lists are lent beside it (`Lists`).
#[derive(Clone, Copy)]
pub struct Problem {
    pub columns: usize,
    pub rows: usize,
    pub limit: u32,
}

// The eight lists of a problem, as they are lent: the coefficients, n to a row, and the right sides; of the columns the bounds, the goals, 0 for
// none, and the ideals handed in, whether there is one and the number. They lie side by side, and a mark beside a number, because C lends them so.
#[derive(Clone, Copy)]
pub struct Lists<'a> {
    pub coefficients: &'a [i64],
    pub rights: &'a [i64],
    pub lower: &'a [i64],
    pub upper: &'a [i64],
    pub low: &'a [i64],
    pub high: &'a [i64],
    pub given: &'a [i64],
    pub ideals: &'a [i64],
}

// The same lists, lent to be filled.
#[derive(Drop)]
pub struct ListsMut<'a> {
    pub coefficients: &'a mut [i64],
    pub rights: &'a mut [i64],
    pub lower: &'a mut [i64],
    pub upper: &'a mut [i64],
    pub low: &'a mut [i64],
    pub high: &'a mut [i64],
    pub given: &'a mut [i64],
    pub ideals: &'a mut [i64],
}

// The limits of document 01, "The problem", named once.
impl Problem {
    pub const MAX_COLUMNS: usize = 48;

    pub const MAX_ROWS: usize = 48;

    pub const MAX_COEFFICIENT: u64 = 1000;

    pub const MAX_RIGHT: u64 = 1000000;

    pub const MAX_BOUND: u64 = 1000000;

    pub const MAX_GOAL: u64 = 1000000000;

    pub const MAX_STEPS: u32 = 65535;

    // M, which no number of the elimination, the seating or the bounds part may pass.
    pub const MAX_NUMBER: u64 = 2147483647;

    // All of them, so that the definitions' numbers are held to these.
    pub fn limits() -> Limits
        ensures { result ≡ limits }
    {
        Limits {
            columns: Problem::MAX_COLUMNS,
            rows: Problem::MAX_ROWS,
            coefficient: Problem::MAX_COEFFICIENT,
            right: Problem::MAX_RIGHT,
            bound: Problem::MAX_BOUND,
            goal: Problem::MAX_GOAL,
            steps: Problem::MAX_STEPS,
            number: Problem::MAX_NUMBER,
        }
    }

    // A problem with no columns and no rows, and no steps.
    pub fn empty() -> Self
        ensures { result ≡ empty_problem }
    {
        Problem {
            columns: 0,
            rows: 0,
            limit: 0,
        }
    }
}

// The limits as one value.
#[derive(Clone, Copy)]
pub struct Limits {
    pub columns: usize,
    pub rows: usize,
    pub coefficient: u64,
    pub right: u64,
    pub bound: u64,
    pub goal: u64,
    pub steps: u32,
    pub number: u64,
}

// What a row asks of its sum. An even row carries its least half.
#[derive(Clone, Copy, Debug, PartialEq, Eq)]
pub enum Kind {
    Equal,
    AtLeast,
    AtMost,
    Even(u32),
}

// A row's kind and its right side, which is 0 for an even row.
#[derive(Clone, Copy)]
pub struct Row {
    pub kind: Kind,
    pub right: i64,
}

// Why a call is turned back: document 01's table with what document 02 adds, by number.
#[derive(Clone, Copy, Debug, PartialEq, Eq)]
pub enum Refusal {
    Size,
    Length,
    Coefficient,
    Bound,
    Goal,
    Limit,
    Elimination,
    NoWholeNumbers,
    Seating,
    Standing,
    Layout,
    Term,
    Volume,
    Pair,
    PairBounds,
}

// The steps of the bounds part and of the goals part.
#[derive(Clone, Copy, Debug, PartialEq, Eq)]
pub struct Counts {
    pub bounds: u32,
    pub goals: u32,
}

// How settling ended, with the steps of its parts.
#[derive(Clone, Copy, Debug, PartialEq, Eq)]
pub enum Verdict {
    Fitted(Counts),
    Outside(Counts),
    Spent(Counts),
}

// What a whole assignment or a Continue answers.
pub type Answer = Result<Verdict, Refusal>;

// The lengths of the buffers that a call fills.
#[derive(Clone, Copy)]
pub struct Lent {
    pub tableau: usize,
    pub values: usize,
    pub strides: usize,
}

impl Kind {
    // How many columns a row of this kind adds.
    pub fn slacks(self) -> usize
        ensures { result ≡ slack_count self }
    {
        match self {
            Kind::Equal => 0,
            Kind::AtLeast => 1,
            Kind::AtMost => 1,
            Kind::Even(_) => 1,
        }
    }
}

// The refusal's number in document 01's table.
impl From<Refusal> for u32 {
    ghost from_gives = { λ why n. n ≡ refusal_number why };

    fn from(why: Refusal) -> u32 {
        match why {
            Refusal::Size => 1,
            Refusal::Length => 2,
            Refusal::Coefficient => 3,
            Refusal::Bound => 4,
            Refusal::Goal => 5,
            Refusal::Limit => 6,
            Refusal::Elimination => 7,
            Refusal::NoWholeNumbers => 8,
            Refusal::Seating => 9,
            Refusal::Standing => 10,
            Refusal::Layout => 11,
            Refusal::Term => 12,
            Refusal::Volume => 13,
            Refusal::Pair => 14,
            Refusal::PairBounds => 15,
        }
    }
}

impl Verdict {
    // The steps of the two parts.
    pub fn counts(self) -> Counts
        ensures { result ≡ verdict_counts self }
    {
        match self {
            Verdict::Fitted(c) => c,
            Verdict::Outside(c) => c,
            Verdict::Spent(c) => c,
        }
    }
}

// The refusal's number, 0 for a verdict.
pub fn answer_number(answer: Answer) -> u32
    ensures { result ≡ answer_number answer }
{
    match answer {
        Ok(_) => 0,
        Err(why) => u32::from(why),
    }
}

// The counts that are returned: 0 and 0 with a refusal.
pub fn answer_counts(answer: Answer) -> Counts
    ensures { result ≡ answer_counts answer }
{
    match answer {
        Ok(verdict) => verdict.counts(),
        Err(_) => Counts {
            bounds: 0,
            goals: 0,
        },
    }
}
