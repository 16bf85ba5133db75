// Where a search stands.
ghost use Rattle.std.specs.Prelude.{◌≡◌};
ghost use Rattle.search.specs.Searches.{Here};

use crate::given::Search;
use settling::{Measure, Move};

// A place of the ranking that is searched, its column, and the measure that a move has to come below there.
#[derive(Clone, Copy)]
pub(crate) struct Place<'a> {
    pub search: &'a Search<'a>,
    pub at: usize,
    pub column: usize,
    pub q: Measure,
    ghost here: { Here search.now at column q },
}

// Whether a vector is added or taken away.
#[derive(Clone, Copy)]
pub(crate) enum Sign {
    Plus,
    Minus,
}

impl Sign {
    ghost use Rattle.search.specs.Progress as Progress;

    fn value(self) -> i64
        ensures { result ≡ Progress.value self }
    {
        match self {
            Sign::Plus => 1,
            Sign::Minus => -1,
        }
    }
}

// A vector, with its sign.
#[derive(Clone, Copy)]
pub(crate) struct Lead {
    pub s: usize,
    pub sign: Sign,
}

impl Lead {
    ghost use Rattle.search.specs.Progress as Progress;

    // The vector alone.
    pub(crate) fn alone(self) -> Move
        ensures { result ≡ Progress.alone self.s self.sign }
    {
        Move {
            s: self.s,
            a: self.sign.value(),
            t: self.s,
            b: 0,
        }
    }

    // The vector with another one, the lower one first.
    pub(crate) fn with(self, other: Lead) -> Move
        ensures { result ≡ Progress.both self.s self.sign other.s other.sign }
    {
        let (low, high) = if self.s < other.s {
            (self, other)
        } else {
            (other, self)
        };
        Move {
            s: low.s,
            a: low.sign.value(),
            t: high.s,
            b: high.sign.value(),
        }
    }
}

// What is noted of a vector: for either sign a column at which it failed alone. It is tried first when the vector is tried again.
#[derive(Clone, Copy)]
pub(crate) struct Note {
    pub plus: usize,
    pub minus: usize,
}

impl Note {
    ghost use Rattle.search.specs.Notes.{noted};

    // The column noted for a sign.
    pub(crate) fn of(self, sign: Sign) -> usize
        ensures { result ≡ noted self sign }
    {
        match sign {
            Sign::Plus => self.plus,
            Sign::Minus => self.minus,
        }
    }
}
