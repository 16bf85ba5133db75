// The section of rows. A row is read into a line of its own, and then stored.
ghost use Rattle.std.specs.Prelude.{◌≡◌, [], ◌+◌, ◌<◌, ◌≤◌, nat_abs, length, IfOk};
ghost use Rattle.problem.specs.Limits.{max_right};
ghost use Rattle.problem.specs.Kinds.{slack_of, slack_count};
ghost use Rattle.sections.specs.Sections.{deck_columns, deck_rows, kind_of, row_of, kind as kind·rule, least_number};
ghost use Rattle.sections.specs.Sections.{row as row·rule, coefficient as coefficient·rule, term as term·rule, terms, line as line·rule};
ghost use Rattle.sections.specs.Sections.{row_section};
ghost use Rattle.sections.specs.StatedColumns.{blank_line, blank_tables};
ghost use Rattle.sections.specs.SectionsRead.{slack_is, TermsRead, LineRead, with_row, OneRead, LeftOpen, rows_left};

use crate::rules::{spanning, within};
use crate::{Cursor, Interval, Outcome, Sizes, Tables, Term};
use problem::{Kind, Problem, Refusal, Row};

// The y of a row: its coefficient and its lower bound.
#[derive(Clone, Copy)]
struct Slack {
    coefficient: i64,
    least: u32,
}

// The kind of a number in a text. An even row's least half is the number behind it, and 0 until that is read.
fn kind_of(k: usize) -> Kind
    ensures { result ≡ kind_of k }
{
    match k {
        0 => Kind::Equal,
        1 => Kind::AtLeast,
        2 => Kind::AtMost,
        _ => Kind::Even(0),
    }
}

// The row of a kind with a number of its own.
fn row_of(kind: Kind, b: i64) -> Row
    requires { nat_abs b ≤ max_right }
    ensures { result ≡ row_of kind b }
{
    match kind {
        Kind::Even(_) => Row {
            kind: Kind::Even(b.unsigned_abs() as u32),
            right: 0,
        },
        _ => Row { kind, right: b },
    }
}

// A row's kind, unless it makes a column too many.
fn read_kind(s: &[u8], at: usize, columns: usize) -> Outcome<Kind>
    requires { columns ≤ deck_columns }
    ensures read { result ≡ kind·rule s.now columns at }
    ensures room { IfOk result (λ x. columns + slack_count x.0 ≤ deck_columns) }
{
    let (k, at) = within(s, at, 0, 3, Refusal::Term)?;
    let kind = kind_of(k as usize);
    if Sizes::COLUMNS < columns + kind.slacks() {
        Err(Refusal::Term)
    } else {
        Ok((kind, at))
    }
}

// The least number that a row of this kind may have.
fn least_number(kind: Kind) -> i64
    ensures { result ≡ least_number kind }
{
    match kind {
        Kind::Even(_) => 0,
        _ => -(Problem::MAX_RIGHT as i64),
    }
}

// A row's kind and number.
fn read_row(s: &[u8], at: usize, columns: usize) -> Outcome<Row>
    requires { columns ≤ deck_columns }
    ensures read { result ≡ row·rule s.now columns at }
    ensures room { IfOk result (λ x. columns + slack_count x.0.kind ≤ deck_columns) }
{
    let (kind, at) = read_kind(s, at, columns)?;
    let (b, at) = within(
        s,
        at,
        least_number(kind),
        Problem::MAX_RIGHT as i64,
        Refusal::Coefficient,
    )?;
    Ok((row_of(kind, b), at))
}

// A coefficient, which is not 0.
fn read_coefficient(s: &[u8], at: usize) -> Outcome<i64>
    ensures { result ≡ coefficient·rule s.now at }
{
    let (v, at) = spanning(s, at, Problem::MAX_COEFFICIENT, Refusal::Coefficient)?;
    if v == 0 {
        Err(Refusal::Term)
    } else {
        Ok((v, at))
    }
}

// A term: an index above the last, and a coefficient.
fn read_term(s: &[u8], at: usize, last: usize, count: usize) -> Outcome<Term>
    requires { (last ≤ deck_columns) × (count ≤ deck_columns) }
    ensures read { result ≡ term·rule s.now last count at }
    ensures range { IfOk result (λ x. (last < x.0.index) × (x.0.index ≤ count)) }
{
    let (index, at) = within(s, at, (last + 1) as i64, count as i64, Refusal::Term)?;
    let (coefficient, at) = read_coefficient(s, at)?;
    let term = Term {
        index: index as usize,
        coefficient,
    };
    Ok((term, at))
}

// A row's k terms, into its line.
fn read_terms(
    s: &[u8],
    at: usize,
    k: usize,
    count: usize,
    line: &mut [i64; Sizes::COLUMNS],
) -> Result<usize, Refusal>
    requires { count ≤ deck_columns }
    ensures { TermsRead (terms s.now k 0 count [] at) result line.old line.new }
{
    let mut at = at;
    let mut last = 0;
    for _ in 0..k {
        let (term, next) = read_term(s, at, last, count)?;
        line[term.index - 1] = term.coefficient;
        last = term.index;
        at = next;
    }
    Ok(at)
}

// A row with its terms, into a blank line.
fn read_line(s: &[u8], c: Cursor, line: &mut [i64; Sizes::COLUMNS]) -> Outcome<Row>
    requires intervals { (c.intervals ≤ deck_columns) × (c.columns ≤ deck_columns) }
    requires blank { line.old ≡ blank_line }
    ensures read { LineRead (line·rule s.now c.intervals c.columns c.at) result line.new }
    ensures room { IfOk result (λ x. c.columns + slack_count x.0.kind ≤ deck_columns) }
{
    let (row, at) = read_row(s, c.at, c.columns)?;
    let (k, at) = within(s, at, 0, c.intervals as i64, Refusal::Term)?;
    let at = read_terms(s, at, k as usize, c.intervals, line)?;
    Ok((row, at))
}

// What a kind adds to the columns.
fn slack_of(kind: Kind) -> Option<Slack>
    ensures { slack_is result ≡ slack_of kind }
{
    let (coefficient, least) = match kind {
        Kind::Equal => return None,
        Kind::AtLeast => (-1, 0),
        Kind::AtMost => (1, 0),
        Kind::Even(least) => (-2, least),
    };
    Some(Slack { coefficient, least })
}

// Stores a row whose terms are in its line. Its y goes up to the largest bound and has no goal.
fn store_row(row: Row, c: Cursor, line: &mut [i64; Sizes::COLUMNS], tables: &mut Tables)
    requires { (c.columns + slack_count row.kind ≤ deck_columns) × (c.rows < deck_rows) }
    ensures { tables.new ≡ with_row row c line.old tables.old }
{
    if let Some(y) = slack_of(row.kind) {
        line[c.columns] = y.coefficient;
        tables.columns[c.columns] = Interval {
            lower: i64::from(y.least),
            upper: Problem::MAX_BOUND as i64,
            ..Interval::BLANK
        };
    }
    tables.rights[c.rows] = row.right;
    tables.rows[c.rows] = *line;
}

// The next row, read and stored.
#[tactic(auto, unfolding(crate::specs::StatedColumns::blank))]
fn next_row(s: &[u8], c: Cursor, tables: &mut Tables) -> Result<Cursor, Refusal>
    requires { (c.intervals ≤ deck_columns) × (c.columns ≤ deck_columns) × (c.rows < deck_rows) }
    ensures { OneRead (line·rule s.now c.intervals c.columns c.at) c result tables.old tables.new }
{
    let mut line = [0; Sizes::COLUMNS];
    let (row, at) = read_line(s, c, &mut line)?;
    store_row(row, c, &mut line, tables);
    Ok(Cursor {
        at,
        columns: c.columns + row.kind.slacks(),
        rows: c.rows + 1,
        ..c
    })
}

// The count of rows and then each of them. A refused section leaves some of them.
fn scan_rows(s: &[u8], start: Cursor, tables: &mut Tables) -> Result<Cursor, Refusal>
    requires start { (start.intervals ≤ deck_columns) × (start.columns ≡ start.intervals) × (start.rows ≡ 0) }
    requires tables { (length tables.old.columns ≡ deck_columns) × (tables.old.rights ≡ blank_tables.rights) × (tables.old.rows ≡ blank_tables.rows) }
    ensures cursor { IfOk result (λ c. (c.intervals ≤ deck_columns) × (c.columns ≤ deck_columns) × (c.rows ≤ deck_rows)) }
    ensures read { LeftOpen (rows_left start.intervals tables.old) (row_section s.now start.intervals start.at) result tables.new }
{
    let (m, at) = within(s, start.at, 0, Sizes::ROWS as i64, Refusal::Size)?;
    let mut c = Cursor { at, ..start };
    for _ in 0..m as usize {
        c = next_row(s, c, tables)?;
    }
    Ok(c)
}

// The section of rows, their y's behind the intervals in the table of columns, the rest into blank tables.
pub fn read_rows(s: &[u8], start: Cursor, tables: &mut Tables) -> Result<Cursor, Refusal>
    requires start { (start.intervals ≤ deck_columns) × (start.columns ≡ start.intervals) × (start.rows ≡ 0) }
    requires tables { (length tables.old.columns ≡ deck_columns) × (tables.old.rights ≡ blank_tables.rights) × (tables.old.rows ≡ blank_tables.rows) }
    ensures cursor { IfOk result (λ c. (c.intervals ≤ deck_columns) × (c.columns ≤ deck_columns) × (c.rows ≤ deck_rows)) }
    ensures read { rows_left start.intervals tables.old (row_section s.now start.intervals start.at) ≡ (result, tables.new) }
{
    let read = scan_rows(s, start, tables);
    if read.is_err() {
        *tables = Tables::blank();
    }
    read
}
