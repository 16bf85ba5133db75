// The section of intervals.
ghost use Rattle.std.specs.Prelude.{◌≡◌, ◌≤◌, IfOk};
ghost use Rattle.sections.specs.Sections.{deck_columns, top_goal, top_high, interval as interval·rule, interval_section};
ghost use Rattle.sections.specs.StatedColumns.{blank_tables};
ghost use Rattle.sections.specs.SectionsRead.{LeftOpen, intervals_left};

use crate::rules::{spanning, within};
use crate::{Cursor, Interval, Outcome, Sizes};
use problem::{Problem, Refusal};

// The highest goal of a column with this lower bound.
fn top_goal(lower: i64) -> i64
    ensures { result ≡ top_goal lower }
{
    if 1 <= lower {
        Problem::MAX_GOAL as i64
    } else {
        0
    }
}

// The highest high goal of a column with this low one: with no low goal there is no high one.
fn top_high(low: i64) -> i64
    ensures { result ≡ top_high low }
{
    if low == 0 {
        0
    } else {
        Problem::MAX_GOAL as i64
    }
}

// An interval's lower, upper, low and high.
fn read_interval(s: &[u8], at: usize) -> Outcome<Interval>
    ensures { result ≡ interval·rule s.now at }
{
    let (lower, at) = spanning(s, at, Problem::MAX_BOUND, Refusal::Bound)?;
    let (upper, at) = within(s, at, lower, Problem::MAX_BOUND as i64, Refusal::Bound)?;
    let (low, at) = within(s, at, 0, top_goal(lower), Refusal::Goal)?;
    let (high, at) = within(s, at, low, top_high(low), Refusal::Goal)?;
    let interval = Interval {
        lower,
        upper,
        low,
        high,
    };
    Ok((interval, at))
}

// The count of intervals and then each of them. A refused section leaves some of them.
fn scan_intervals(
    s: &[u8],
    at: usize,
    columns: &mut [Interval; Sizes::COLUMNS],
) -> Result<Cursor, Refusal>
    requires { columns.old ≡ blank_tables.columns }
    ensures read { LeftOpen intervals_left (interval_section s.now at) result columns.new }
    ensures cursor { IfOk result (λ c. (c.intervals ≤ deck_columns) × (c.columns ≡ c.intervals) × (c.rows ≡ 0)) }
{
    let (count, mut at) = within(s, at, 1, Sizes::COLUMNS as i64, Refusal::Size)?;
    let n = count as usize;
    // By index: of what is written through `iter_mut` a proof learns nothing.
    for i in 0..n {
        let (interval, next) = read_interval(s, at)?;
        columns[i] = interval;
        at = next;
    }
    Ok(Cursor {
        at,
        intervals: n,
        columns: n,
        rows: 0,
    })
}

// The section of intervals, into a blank table of columns.
pub fn read_intervals(
    s: &[u8],
    at: usize,
    columns: &mut [Interval; Sizes::COLUMNS],
) -> Result<Cursor, Refusal>
    requires { columns.old ≡ blank_tables.columns }
    ensures read { intervals_left (interval_section s.now at) ≡ (result, columns.new) }
    ensures cursor { IfOk result (λ c. (c.intervals ≤ deck_columns) × (c.columns ≡ c.intervals) × (c.rows ≡ 0)) }
{
    let read = scan_intervals(s, at, columns);
    if read.is_err() {
        *columns = [Interval::BLANK; Sizes::COLUMNS];
    }
    read
}
