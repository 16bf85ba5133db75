// The preview's call for C, which has no `requires` either.
ghost use Rattle.std.specs.Prelude.{◌≡◌, suc, ◌<◌, length};
ghost use Rattle.problem.specs.Limits.{max_columns};
ghost use Rattle.engine.specs.Assign.{Buffers as Held, posed_by, buffers};
ghost use Rattle.engine.specs.Replies.{shown_by};
ghost use Rattle.koralimbu.specs.Calls.{problem_of, returned};
ghost use Rattle.koralimbu.specs.Previews.{part_number, sign_number, vector_number, preview_length, preview_told, preview_called, SmallStep};

use engine::Buffers;
use engine::preview::{Sight, preview};
use problem::{Lists, Problem, Refusal};
use settling::Part;
use std::cmp::Ordering;

// How many numbers tell of a step: the part, the column, two vectors with their signs, and the rounds.
const STEP: usize = 7;

fn part_number(part: Part) -> u32
    ensures { result ≡ part_number part }
{
    match part {
        Part::Bounds => 1,
        Part::Goals => 2,
    }
}

fn sign_number(x: i64) -> u32
    ensures { result ≡ sign_number x }
{
    match x.cmp(&0) {
        Ordering::Less => 2,
        Ordering::Equal => 0,
        Ordering::Greater => 1,
    }
}

// A column or a vector, counted from 1.
fn from_one(i: usize) -> u32
    requires { i < max_columns }
    ensures { result ≡ suc i }
{
    i as u32 + 1
}

fn vector_number(s: usize, x: i64) -> u32
    requires { s < max_columns }
    ensures { result ≡ vector_number s x }
{
    if x == 0 { 0 } else { from_one(s) }
}

// Writes the numbers of what a preview has returned, and returns the refusal's number, 0 where there is none.
fn tell_step(reply: Result<Sight, Refusal>, report: &mut [u32]) -> u32
    requires { (length report.old ≡ preview_length) × SmallStep reply }
    ensures { (B : Held) → returned result B report.new ≡ preview_told (shown_by reply B) }
{
    let Sight { next, rounds } = match reply {
        Ok(sight) => sight,
        Err(why) => {
            report.fill(0);
            return u32::from(why);
        }
    };
    match next {
        None => report.copy_from_slice(&[0, 0, 0, 0, 0, 0, rounds]),
        Some(step) => {
            let o = step.o;
            report.copy_from_slice(&[
                part_number(step.part),
                from_one(step.column),
                vector_number(o.s, o.a),
                sign_number(o.a),
                vector_number(o.t, o.b),
                sign_number(o.b),
                rounds,
            ]);
        }
    }
    0
}

// The next step of the standing list. There is no limit: it is that of one step.
#[tactic(auto, using(crate::proofs::PreviewLaws::small_step, crate::proofs::PreviewLaws::is_unseen))]
pub fn koralimbu_preview(
    n: usize,
    m: usize,
    coefficients: &[i64],
    rights: &[i64],
    lower: &[i64],
    upper: &[i64],
    low: &[i64],
    high: &[i64],
    given: &[i64],
    ideals: &[i64],
    standing: &[i64],
    tableau: &mut [i64],
    after: &mut [i64],
    strides: &mut [u64],
    report: &mut [u32],
) -> u32
    ensures { returned result (buffers tableau.new after.new strides.new) report.new
        ≡ preview_called
        (posed_by (problem_of n m 1) coefficients.now rights.now
        lower.now upper.now low.now high.now given.now ideals.now)
        standing.now (buffers tableau.old after.old strides.old) report.old }
{
    if report.len() != STEP {
        return u32::from(Refusal::Length);
    }
    let p = Problem {
        columns: n,
        rows: m,
        limit: 1,
    };
    let lists = Lists {
        coefficients,
        rights,
        lower,
        upper,
        low,
        high,
        given,
        ideals,
    };
    let lent = Buffers {
        tableau,
        values: after,
        strides,
    };
    tell_step(preview(p, lists, standing, lent), report)
}
