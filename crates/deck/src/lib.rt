#![tactic(auto)]

// The text reader: its sections, one after the other, and then the lent lists.
mod tables;

ghost use Rattle.std.specs.Prelude.{◌≡◌, true, ◌≤◌, map};
ghost use Rattle.problem.specs.References.{SameReferences};
ghost use Rattle.neighbours.specs.Beside.{SmallColumns};
ghost use Rattle.sections.specs.Sections.{deck_columns, deck_rows};
ghost use Rattle.sections.specs.StatedColumns.{blank_tables, lower_of, upper_of, low_of, high_of};
ghost use Rattle.deck.specs.Posing.{Deck, deck as deck·rule, posed};
ghost use Rattle.deck.specs.Reader.{deck_buffers, held, read_done, lengths_fit as lengths·rule, shape_of, filled, read};
ghost use Rattle.deck.specs.ReaderTables.{tables_of, DeckRead};

use neighbours::{Sheet, hand_in};
use problem::{ListsMut, Refusal};
use sections::intervals::read_intervals;
use sections::rows::read_rows;
use sections::{Cursor, Sizes, Tables};
use tables::{compact, pick_columns};
use text::scanner::next_token;
use volumes::read_volumes;

// What a text that is read tells of its problem: n, m, and how many of the n columns are intervals.
#[derive(Clone, Copy, Debug, PartialEq, Eq)]
pub struct Shape {
    pub columns: usize,
    pub rows: usize,
    pub intervals: usize,
}

// Whether the lent lists are as long as those of the largest problem.
fn lengths_fit(lists: &ListsMut<'_>) -> bool
    ensures { result ≡ lengths·rule (held lists.now) }
{
    lists.coefficients.len() == Sizes::COEFFICIENTS
        && lists.rights.len() == Sizes::ROWS
        && lists.lower.len() == Sizes::COLUMNS
        && lists.upper.len() == Sizes::COLUMNS
        && lists.low.len() == Sizes::COLUMNS
        && lists.high.len() == Sizes::COLUMNS
        && lists.given.len() == Sizes::COLUMNS
        && lists.ideals.len() == Sizes::COLUMNS
}

// The whole text, into blank tables.
fn scan(s: &[u8], tables: &mut Tables) -> Result<Cursor, Refusal>
    requires { tables.old ≡ blank_tables }
    ensures { DeckRead (deck·rule s.now) result tables.new }
{
    let c = read_intervals(s, 0, &mut tables.columns)?;
    let c = read_rows(s, c, tables)?;
    let c = read_volumes(s, c, &mut tables.rows)?;
    match next_token(s, c.at) {
        Some(_) => Err(Refusal::Layout),
        None => Ok(c),
    }
}

// Fills the lists of a text that was read. They come one by one: of one struct's fields some can't be lent to be read while others are to be written.
fn fill(
    tables: &Tables,
    shape: Shape,
    coefficients: &mut [i64],
    rights: &mut [i64],
    lower: &mut [i64],
    upper: &mut [i64],
    low: &mut [i64],
    high: &mut [i64],
    given: &mut [i64],
    ideals: &mut [i64],
)
    requires lists { lengths·rule (deck_buffers coefficients.old rights.old lower.old upper.old low.old high.old given.old ideals.old) ≡ true }
    requires shape { (shape.columns ≤ deck_columns) × (shape.rows ≤ deck_rows) × (shape.intervals ≤ shape.columns) }
    requires small { SmallColumns shape.intervals (map lower_of tables.now.columns) (map upper_of tables.now.columns)
        (map low_of tables.now.columns) (map high_of tables.now.columns) }
    ensures { (d : Deck) → tables.now ≡ tables_of d → shape ≡ shape_of d
        → deck_buffers coefficients.new rights.new lower.new upper.new low.new high.new given.new ideals.new ≡ filled (posed 0 d) }
{
    pick_columns(&tables.columns, lower, upper, low, high);
    rights.copy_from_slice(&tables.rights);
    coefficients.fill(0);
    compact(&tables.rows[..shape.rows], shape.columns, coefficients);
    let sheet = Sheet {
        columns: shape.columns,
        rows: shape.rows,
        intervals: shape.intervals,
        coefficients,
        lower,
        upper,
        low,
        high,
    };
    hand_in(sheet, given, ideals);
}

// Reads a text into lists of the largest size, and tells the shape of its problem. A refusal leaves every list as it was.
pub fn read_deck(text: &[u8], lists: &mut ListsMut<'_>) -> Result<Shape, Refusal>
    ensures done { read_done result (held lists.new) ≡ read text.now (held lists.old) }
    ensures same_references { SameReferences lists.old lists.new }
{
    if !lengths_fit(lists) {
        return Err(Refusal::Length);
    }
    if Sizes::TEXT < text.len() {
        return Err(Refusal::Layout);
    }
    let mut tables = Tables::blank();
    let c = scan(text, &mut tables)?;
    let shape = Shape {
        columns: c.columns,
        rows: c.rows,
        intervals: c.intervals,
    };
    fill(
        &tables,
        shape,
        lists.coefficients,
        lists.rights,
        lists.lower,
        lists.upper,
        lists.low,
        lists.high,
        lists.given,
        lists.ideals,
    );
    Ok(shape)
}
