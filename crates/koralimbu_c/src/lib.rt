#![tactic(auto)]

// The static library of include/koralimbu.h: each export is a call of crate koralimbu under the same clauses.
ghost use Rattle.std.specs.Prelude.{◌≡◌};
ghost use Rattle.deck.specs.Reader.{deck_buffers};
ghost use Rattle.engine.specs.Assign.{assign, buffers, continue, posed_by};
ghost use Rattle.koralimbu.specs.Calls.{called, problem_of, returned};
ghost use Rattle.koralimbu.specs.Joins.{join_called, join_returned, part_sizes};
ghost use Rattle.koralimbu.specs.Previews.{preview_called};
ghost use Rattle.koralimbu.specs.Reads.{read_called, read_returned};
ghost use Rattle.koralimbu.specs.Version.{version as version·number};
ghost use Rattle.pairing.specs.Parts.{lists, part_of};

// A whole assignment.
#[unsafe(no_mangle)]
pub extern "C" fn koralimbu_assign(
    n: usize,
    m: usize,
    limit: u32,
    coefficients: &[i64],
    rights: &[i64],
    lower: &[i64],
    upper: &[i64],
    low: &[i64],
    high: &[i64],
    given: &[i64],
    ideals: &[i64],
    tableau: &mut [i64],
    values: &mut [i64],
    strides: &mut [u64],
    report: &mut [u32],
) -> u32
    ensures { returned result (buffers tableau.new values.new strides.new) report.new
        ≡ called assign
        (posed_by (problem_of n m limit) coefficients.now rights.now
        lower.now upper.now low.now high.now given.now ideals.now)
        (buffers tableau.old values.old strides.old) report.old }
{
    koralimbu::koralimbu_assign(
        n,
        m,
        limit,
        coefficients,
        rights,
        lower,
        upper,
        low,
        high,
        given,
        ideals,
        tableau,
        values,
        strides,
        report,
    )
}

// Continue, from the lent values.
#[unsafe(no_mangle)]
pub extern "C" fn koralimbu_continue(
    n: usize,
    m: usize,
    limit: u32,
    coefficients: &[i64],
    rights: &[i64],
    lower: &[i64],
    upper: &[i64],
    low: &[i64],
    high: &[i64],
    given: &[i64],
    ideals: &[i64],
    tableau: &mut [i64],
    values: &mut [i64],
    strides: &mut [u64],
    report: &mut [u32],
) -> u32
    ensures { returned result (buffers tableau.new values.new strides.new) report.new
        ≡ called continue
        (posed_by (problem_of n m limit) coefficients.now rights.now
        lower.now upper.now low.now high.now given.now ideals.now)
        (buffers tableau.old values.old strides.old) report.old }
{
    koralimbu::koralimbu_continue(
        n,
        m,
        limit,
        coefficients,
        rights,
        lower,
        upper,
        low,
        high,
        given,
        ideals,
        tableau,
        values,
        strides,
        report,
    )
}

// The next step of the standing list. There is no limit: it is that of one step.
#[unsafe(no_mangle)]
pub extern "C" fn koralimbu_preview(
    n: usize,
    m: usize,
    coefficients: &[i64],
    rights: &[i64],
    lower: &[i64],
    upper: &[i64],
    low: &[i64],
    high: &[i64],
    given: &[i64],
    ideals: &[i64],
    standing: &[i64],
    tableau: &mut [i64],
    after: &mut [i64],
    strides: &mut [u64],
    report: &mut [u32],
) -> u32
    ensures { returned result (buffers tableau.new after.new strides.new) report.new
        ≡ preview_called
        (posed_by (problem_of n m 1) coefficients.now rights.now
        lower.now upper.now low.now high.now given.now ideals.now)
        standing.now (buffers tableau.old after.old strides.old) report.old }
{
    koralimbu::previewing::koralimbu_preview(
        n,
        m,
        coefficients,
        rights,
        lower,
        upper,
        low,
        high,
        given,
        ideals,
        standing,
        tableau,
        after,
        strides,
        report,
    )
}

// Reads a text into buffers of the largest size.
#[unsafe(no_mangle)]
pub extern "C" fn koralimbu_read(
    text: &[u8],
    coefficients: &mut [i64],
    rights: &mut [i64],
    lower: &mut [i64],
    upper: &mut [i64],
    low: &mut [i64],
    high: &mut [i64],
    given: &mut [i64],
    ideals: &mut [i64],
    sizes: &mut [usize],
) -> u32
    ensures { read_returned result
        (deck_buffers coefficients.new rights.new lower.new upper.new low.new
        high.new given.new ideals.new)
        sizes.new
        ≡ read_called text.now
        (deck_buffers coefficients.old rights.old lower.old upper.old low.old
        high.old given.old ideals.old)
        sizes.old }
{
    koralimbu::reading::koralimbu_read(
        text,
        coefficients,
        rights,
        lower,
        upper,
        low,
        high,
        given,
        ideals,
        sizes,
    )
}

// One problem of two parts of n1 and n2 columns and m1 and m2 rows.
#[unsafe(no_mangle)]
pub extern "C" fn koralimbu_join(
    n1: usize,
    m1: usize,
    a1: &[i64],
    b1: &[i64],
    lo1: &[i64],
    hi1: &[i64],
    low1: &[i64],
    high1: &[i64],
    given1: &[i64],
    ideals1: &[i64],
    n2: usize,
    m2: usize,
    a2: &[i64],
    b2: &[i64],
    lo2: &[i64],
    hi2: &[i64],
    low2: &[i64],
    high2: &[i64],
    given2: &[i64],
    ideals2: &[i64],
    pairs: &[usize],
    a: &mut [i64],
    b: &mut [i64],
    lo: &mut [i64],
    hi: &mut [i64],
    low: &mut [i64],
    high: &mut [i64],
    given: &mut [i64],
    ideals: &mut [i64],
    sizes: &mut [usize],
) -> u32
    ensures { join_returned result
        (lists a.new b.new lo.new hi.new low.new high.new given.new
        ideals.new)
        sizes.new
        ≡ join_called
        (part_of (part_sizes n1 m1) (lists a1.now b1.now lo1.now hi1.now
        low1.now high1.now given1.now ideals1.now))
        (part_of (part_sizes n2 m2) (lists a2.now b2.now lo2.now hi2.now
        low2.now high2.now given2.now ideals2.now))
        pairs.now
        (lists a.old b.old lo.old hi.old low.old high.old given.old
        ideals.old)
        sizes.old }
{
    koralimbu::joins::koralimbu_join(
        n1, m1, a1, b1, lo1, hi1, low1, high1, given1, ideals1, n2, m2, a2, b2, lo2, hi2, low2,
        high2, given2, ideals2, pairs, a, b, lo, hi, low, high, given, ideals, sizes,
    )
}

// The version as one number.
#[unsafe(no_mangle)]
pub extern "C" fn koralimbu_version() -> u32
    ensures { result ≡ version·number }
{
    koralimbu::version::koralimbu_version()
}
