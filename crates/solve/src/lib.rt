#![tactic(auto)]

// From a text to the listing's bytes. Each function has the arrays that it lends.
ghost use Rattle.std.specs.Prelude.{◌≡◌, ◌≤◌, true, length};
ghost use Rattle.problem.specs.Checks.{posed};
ghost use Rattle.sections.specs.Sections.{deck_columns, deck_rows};
ghost use Rattle.report.specs.Listing.{listing_done, placed_in};
ghost use Rattle.engine.specs.Assign.{assign, buffers};
ghost use Rattle.deck.specs.Reader.{lengths_fit};
ghost use Rattle.solve.specs.Program.{listed, print_into, list_into, lent_by, parts_of};

use deck::read_deck;
use engine::{Buffers, assign};
use problem::{Lists, ListsMut, Problem};
use report::{WriteError, write_listing};
use sections::Sizes;

// The step limit of the listing program.
const LIMIT: u32 = 10000;

// The numbers of the largest tableau: 4,608.
const TABLEAU: usize = Sizes::COLUMNS * (Sizes::ROWS + Sizes::COLUMNS);

// Assigns a problem in lent buffers and lists the answer. They are parameters of their own: of what is lent within a struct a proof knows what the
// call left only where whole parameters stand in it, and not parts of arrays.
fn list_in(
    p: Problem,
    lists: Lists<'_>,
    tableau: &mut [i64],
    values: &mut [i64],
    strides: &mut [u64],
    out: &mut [u8],
) -> Result<usize, WriteError>
    requires { length values.old ≡ length strides.old }
    ensures { listing_done result out.new ≡ placed_in out.old (listed (assign (posed p lists.entry) (buffers tableau.old values.old strides.old))) }
{
    let lent = Buffers {
        tableau,
        values: &mut *values,
        strides: &mut *strides,
    };
    let answer = assign(p, lists, lent).map(|x| x.verdict);
    write_listing(out, answer, values, strides)
}

// Assigns a problem in buffers of its own, which hold 0, and lists the answer.
fn list_assigned(p: Problem, lists: Lists<'_>, out: &mut [u8]) -> Result<usize, WriteError>
    requires { (p.columns ≤ deck_columns) × (p.rows ≤ deck_rows) }
    ensures { listing_done result out.new ≡ list_into out.old (posed p lists.entry) }
{
    let mut tableau = [0i64; TABLEAU];
    let mut values = [0i64; Sizes::COLUMNS];
    let mut strides = [0u64; Sizes::COLUMNS];
    let n = p.columns;
    let room = n * (p.rows + n);
    list_in(
        p,
        lists,
        &mut tableau[..room],
        &mut values[..n],
        &mut strides[..n],
        out,
    )
}

// Of the reader's lists the parts that a problem of these sizes has.
fn parts(p: Problem, lists: Lists<'_>) -> Lists<'_>
    requires sizes { (p.columns ≤ deck_columns) × (p.rows ≤ deck_rows) }
    requires long { lengths_fit (lent_by lists) ≡ true }
    ensures { posed p result ≡ parts_of p (lent_by lists.entry) }
{
    Lists {
        coefficients: &lists.coefficients[..p.rows * p.columns],
        rights: &lists.rights[..p.rows],
        lower: &lists.lower[..p.columns],
        upper: &lists.upper[..p.columns],
        low: &lists.low[..p.columns],
        high: &lists.high[..p.columns],
        given: &lists.given[..p.columns],
        ideals: &lists.ideals[..p.columns],
    }
}

// Puts the listing of a text at the front of a buffer.
pub fn list_text(text: &[u8], out: &mut [u8]) -> Result<usize, WriteError>
    ensures { listing_done result out.new ≡ print_into out.old text.now }
{
    let mut coefficients = [0i64; Sizes::COEFFICIENTS];
    let mut rights = [0i64; Sizes::ROWS];
    let mut lower = [0i64; Sizes::COLUMNS];
    let mut upper = [0i64; Sizes::COLUMNS];
    let mut low = [0i64; Sizes::COLUMNS];
    let mut high = [0i64; Sizes::COLUMNS];
    let mut given = [0i64; Sizes::COLUMNS];
    let mut ideals = [0i64; Sizes::COLUMNS];
    let lent = &mut ListsMut {
        coefficients: &mut coefficients,
        rights: &mut rights,
        lower: &mut lower,
        upper: &mut upper,
        low: &mut low,
        high: &mut high,
        given: &mut given,
        ideals: &mut ideals,
    };
    let shape = match read_deck(text, lent) {
        Ok(shape) => shape,
        Err(why) => return write_listing(out, Err(why), &[], &[]),
    };
    let p = Problem {
        columns: shape.columns,
        rows: shape.rows,
        limit: LIMIT,
    };
    let lists = Lists {
        coefficients: &coefficients,
        rights: &rights,
        lower: &lower,
        upper: &upper,
        low: &low,
        high: &high,
        given: &given,
        ideals: &ideals,
    };
    list_assigned(p, parts(p, lists), out)
}
