ghost use Rattle.neighbours.specs.Beside.{LongEnough, SmallColumns};

// What a text states: how many columns and rows, how many of its columns are intervals, the coefficients, n to a row, and of each column the bounds
// and the goals.
#[derive(Clone, Copy)]
pub struct Sheet<'a> {
    pub columns: usize,
    pub rows: usize,
    pub intervals: usize,
    pub coefficients: &'a [i64],
    pub lower: &'a [i64],
    pub upper: &'a [i64],
    pub low: &'a [i64],
    pub high: &'a [i64],
    pub ghost long: { LongEnough columns rows intervals coefficients.now lower.now upper.now low.now high.now },
    pub ghost small: { SmallColumns intervals lower.now upper.now low.now high.now },
}
