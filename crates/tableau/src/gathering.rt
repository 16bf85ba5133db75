ghost use Rattle.std.specs.Prelude.{◌≡◌, ◌+◌, ◌*◌, ◌-◌, ◌<◌, ◌≤◌, length, take, drop};
ghost use Rattle.whole.specs.Lists.{entry};
ghost use Rattle.lattice.specs.Rows.{ZeroTo, chop};
ghost use Rattle.tableau.specs.Elimination as Elimination;
ghost use Rattle.tableau.specs.Choices.{choice_of, count_of, below, counted, Chooses};
ghost use Rattle.tableau.specs.Tails.{Tail, Picked, brought, Lifted, Gathers, Counts, round_of, gathering_of, gathering_rounds_of};
ghost use Rattle.tableau.specs.Within.{Within};

use crate::Beyond;
use crate::rows::{Way, negate};
use crate::tables::each;
use whole::bit_length;

// The row that gathering chooses, counted from the first, the magnitude of its entry, and how many entries are other than 0.
#[derive(Clone, Copy)]
pub(crate) struct Choice {
    pub row: usize,
    pub size: u64,
    pub count: usize,
}

// The choice with a row i of the given size put below the rows that z was chosen from. The upper row wins a tie.
fn later(z: Option<Choice>, i: usize, size: u64) -> Option<Choice>
    requires { count_of z < usize.MAX }
    ensures result_value { choice_of result ≡ below (choice_of z) i size }
    ensures count_value { count_of result ≡ count_of z + counted size }
{
    if size == 0 {
        return z;
    }
    match z {
        None => Some(Choice {
            row: i,
            size,
            count: 1,
        }),
        Some(z) if size < z.size => Some(Choice {
            row: i,
            size,
            count: z.count + 1,
        }),
        Some(z) => Some(Choice {
            count: z.count + 1,
            ..z
        }),
    }
}

// The smallest magnitude other than 0 in column c; none where all are 0.
pub(crate) fn choose(t: &[i64], rows: usize, w: usize, c: usize) -> Option<Choice>
    requires { (length t.now ≡ rows * w) × (c < w) }
    ensures { Chooses c (chop rows w t.now) result }
{
    // By the place of each row, carried along, and not over `chunks_exact`, which divides to count them: so a row with 0 there costs no more
    // than a load and a test.
    let mut z = None;
    let mut at = c;
    for i in 0..rows {
        z = later(z, i, t[at].unsigned_abs());
        at += w;
    }
    z
}

// Swaps the first row of w numbers with row j, from column c on: before it both have only 0.
fn bring(t: &mut [i64], w: usize, c: usize, j: usize)
    requires c_le_w { (c ≤ w) × (j * w + w ≤ length t.old) }
    requires zero_to { ZeroTo c (take w t.old) × ZeroTo c (take w (drop (j * w) t.old)) }
    ensures { t.new ≡ brought w j t.old }
{
    if j == 0 {
        return;
    }
    let (top, low) = t.split_at_mut(j * w);
    top[c..w].swap_with_slice(&mut low[c..w]);
}

// Turns the row's sign if its entry at c is negative.
fn raise(row: &mut [i64], c: usize)
    requires { (c < length row.old) × Within row.old }
    ensures { row.new ≡ Elimination.signed (entry c row.old) row.old }
{
    if row[c] < 0 {
        negate(row);
    }
}

// Brings row j to the top, its sign turned if its entry at c is negative, and copies it into the pivot; the first row takes its place.
fn lift(t: &mut [i64], pivot: &mut [i64], c: usize, j: usize)
    requires c_in_bounds { (c < length pivot.old) × (j * length pivot.old + length pivot.old ≤ length t.old) }
    requires zero_to { ZeroTo c (take (length pivot.old) t.old) × ZeroTo c (take (length pivot.old) (drop (j * length pivot.old) t.old)) }
    requires within { Within t.old }
    ensures { Lifted c j (length pivot.old) t.old pivot.new t.new }
{
    let w = pivot.len();
    bring(t, w, c, j);
    raise(&mut t[..w], c);
    pivot.copy_from_slice(&t[..w]);
}

// One round: the chosen row j comes to the top as the pivot, and is taken from the rows below.
fn round(t: &mut [i64], rows: usize, pivot: &mut [i64], c: usize, j: usize) -> Result<(), Beyond>
    requires tail { Tail rows (length pivot.old) c t.old }
    requires picked { Picked rows (length pivot.old) c t.old j }
    ensures { Gathers (round_of rows (length pivot.old) c t.old) result t.new pivot.new }
{
    let w = pivot.len();
    lift(t, pivot, c, j);
    each(&mut t[w..], rows - 1, pivot, c, Way::Below)
}

// The rounds of one column, from the choice z on, until the rows below the first have only 0 there. Each at least halves the magnitude chosen, so
// that there are no more of them than the first one has binary digits: after so many nothing is left to look for.
fn rounds(t: &mut [i64], rows: usize, pivot: &mut [i64], c: usize, z: Choice) -> Result<u32, Beyond>
    requires tail { Tail rows (length pivot.old) c t.old }
    requires picked { Picked rows (length pivot.old) c t.old z.row }
    requires chooses { Chooses c (chop rows (length pivot.old) t.old) (Some z) }
    ensures gathers { Gathers (gathering_of rows (length pivot.old) c t.old) result t.new pivot.new }
    ensures rounds_value { Counts (gathering_rounds_of rows (length pivot.old) c t.old) result }
{
    let w = pivot.len();
    let most = bit_length(z.size);
    let mut j = z.row;
    let mut count = 0;
    // No `for`: behind the last of `most` rounds it would need an answer of its own.
    loop {
        round(t, rows, pivot, c, j)?;
        count += 1;
        if count == most {
            return Ok(count);
        }
        let Some(next) = choose(&t[w..], rows - 1, w, c) else {
            return Ok(count);
        };
        j = next.row + 1;
    }
}

// Gathers one column, from the choice z on. A lone entry leaves nothing to take away. The first row is then in the pivot too.
pub(crate) fn gather(
    t: &mut [i64],
    rows: usize,
    pivot: &mut [i64],
    c: usize,
    z: Choice,
) -> Result<u32, Beyond>
    requires tail { Tail rows (length pivot.old) c t.old }
    requires picked { Picked rows (length pivot.old) c t.old z.row }
    requires chooses { Chooses c (chop rows (length pivot.old) t.old) (Some z) }
    ensures gathers { Gathers (gathering_of rows (length pivot.old) c t.old) result t.new pivot.new }
    ensures rounds_value { Counts (gathering_rounds_of rows (length pivot.old) c t.old) result }
{
    if z.count == 1 {
        lift(t, pivot, c, z.row);
        return Ok(1);
    }
    rounds(t, rows, pivot, c, z)
}
