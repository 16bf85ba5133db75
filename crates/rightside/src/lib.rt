#![tactic(auto)]

// The right side of a formed tableau, and the solution of a problem. The definitions are in specs/ and in crate tableau.
ghost use Rattle.std.specs.Prelude.{◌≡◌, ◌++◌, ◌*◌, ◌≤◌, length, drop};
ghost use Rattle.lattice.specs.Rows.{neg, chop};
ghost use Rattle.lattice.specs.Span.{All};
ghost use Rattle.lattice.specs.Hermite.{Rising};
ghost use Rattle.rightside.specs.Sweeps.{swept_of, Sweepable, Findable, found_of};
ghost use Rattle.rightside.specs.Solutions.{Solvable, solved_of, solution_of, tableau_after, start_after, righted_of};
ghost use Rattle.tableau.specs.LentTable.{matrix_of};
ghost use Rattle.tableau.specs.RightSide.{leading};
ghost use Rattle.tableau.specs.RoundCount.{form_rounds};
ghost use Rattle.tableau.specs.RowSteps.{unless, Leads, left_after};
ghost use Rattle.tableau.specs.Within.{Within};

use lattice::lead_from;
use problem::{Problem, Refusal};
use tableau::{Beyond, MAX_WIDTH, form, reduce};

// How many of the rows of w numbers lead in the first m columns. The leads rise, so these rows are the first ones, and each row's lead lies behind
// the one above it.
pub fn leading_rows(t: &[i64], rows: usize, w: usize, m: usize) -> usize
    requires { (length t.now ≡ rows * w) × Rising 0 (chop rows w t.now) }
    ensures { result ≡ length (leading m (chop rows w t.now)) }
{
    let mut c = 0;
    // By the place of each row: `chunks_exact` asks for a w above 0, which a caller need not have.
    for i in 0..rows {
        let at = i * w;
        let lead = lead_from(&t[at..at + w], c);
        if m <= lead {
            return i;
        }
        c = lead + 1;
    }
    rows
}

// Takes each row from v at its lead, top first, until a number beyond M is left: then v is all 0.
fn sweep(v: &mut [i64], t: &[i64], rows: usize) -> Result<(), Beyond>
    requires { Sweepable (length v.old) rows t.now × Within v.old }
    ensures value { result ≡ unless (swept_of rows t.now v.old).over tt }
    ensures v_after { v.new ≡ left_after (swept_of rows t.now v.old) v.old }
{
    let w = v.len();
    let mut c = 0;
    // By the place of each row, as above.
    for i in 0..rows {
        let at = i * w;
        let row = &t[at..at + w];
        let lead = lead_from(row, c);
        reduce(v, row, lead)?;
        c = lead + 1;
    }
    Ok(())
}

// The right side v by the rows of a form. Past the elimination limit v is all 0; where there are no whole numbers, v is what the leading rows
// leave; and otherwise v's numbers from m on are the starting list.
pub fn right_side(v: &mut [i64], t: &[i64], rows: usize, m: usize) -> Result<(), Refusal>
    requires t_len { (length t.now ≡ rows * length v.old) × All Leads (chop rows (length v.old) t.now) }
    requires rising { Rising 0 (chop rows (length v.old) t.now) }
    requires within { Within t.now × Within v.old }
    requires m_in_bounds { m ≤ length v.old }
    ensures { record { answer = result; list = v.new } ≡ righted_of m rows t.now v.old }
{
    let w = v.len();
    let h = leading_rows(t, rows, w, m);
    let (leading, remaining) = t.split_at(h * w);
    sweep(v, leading, h)?;
    let whole = v[..m].iter().all(|x| *x == 0);
    if !whole {
        return Err(Refusal::NoWholeNumbers);
    }
    sweep(v, remaining, rows - h)?;
    Ok(())
}

// Puts −b into the first numbers of v.
pub fn turn_over(v: &mut [i64], rights: &[i64])
    requires { (length rights.now ≤ length v.old) × Within rights.now }
    ensures { v.new ≡ neg rights.now ++ drop (length rights.now) v.old }
{
    for (i, b) in rights.iter().enumerate() {
        v[i] = -*b;
    }
}

// Solves a formed table for the right sides b, in the list v of zeros; a starting list goes to start.
fn find(
    v: &mut [i64],
    t: &[i64],
    p: Problem,
    rights: &[i64],
    start: &mut [i64],
) -> Result<(), Refusal>
    requires { Findable p v.old t.now rights.now start.old }
    ensures value { result ≡ solution_of (found_of p t.now rights.now) tt }
    ensures start_after { start.new ≡ start_after (found_of p t.now rights.now) start.old }
{
    turn_over(v, rights);
    right_side(v, t, p.columns, p.rows)?;
    start.copy_from_slice(&v[p.rows..]);
    Ok(())
}

// The form of a problem's tableau in t, the starting list of its right side in start, and the rounds that the form took. Past the elimination limit
// t is all 0; start changes only where a list is found.
pub fn solve(
    t: &mut [i64],
    p: Problem,
    coefficients: &[i64],
    rights: &[i64],
    start: &mut [i64],
) -> Result<u32, Refusal>
    requires { Solvable p t.old coefficients.now rights.now start.old }
    ensures value { result ≡ solution_of (solved_of p coefficients.now rights.now)
        (form_rounds p.columns (matrix_of p coefficients.now)) }
    ensures t_after { t.new ≡ tableau_after (solved_of p coefficients.now rights.now) t.old }
    ensures start_after { start.new ≡ start_after (solved_of p coefficients.now rights.now) start.old }
{
    let rounds = form(t, p, coefficients)?;
    let mut v = [0i64; MAX_WIDTH];
    let w = p.rows + p.columns;
    if let Err(why) = find(&mut v[..w], t, p, rights, start) {
        if let Refusal::Elimination = why {
            t.fill(0);
        }
        return Err(why);
    }
    Ok(rounds)
}
