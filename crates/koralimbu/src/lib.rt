#![tactic(auto)]

// The engine's calls over numbers and lists alone, as C makes them: crate koralimbu_c exports them for include/koralimbu.h. The preview's stands in
// previewing.rt, the reader's in reading.rt, the join's in joins.rt, the version in version.rt.
// They have no `requires`: what a caller can break is an answer.
pub mod joins;
pub mod previewing;
pub mod reading;
pub mod version;

ghost use Rattle.std.specs.Prelude.{◌≡◌, length};
ghost use Rattle.problem.specs.Answers.{answer_number};
ghost use Rattle.engine.specs.Assign.{Buffers as Held, posed_by, buffers, assign, continue};
ghost use Rattle.engine.specs.Replies.{done_by};
ghost use Rattle.koralimbu.specs.Calls.{problem_of, verdict_number, report_length, report_of, told, returned, called};

use engine::{Assigned, Buffers};
use problem::{Answer, Lists, Problem, Refusal, Verdict, answer_counts, answer_number};

// How many numbers a report has: the verdict's, the steps of the two parts, and the rounds.
const REPORT: usize = 4;

// `From` can't stand here, since an answer is a `Result`; nor in crate problem, which knows nothing of C's numbers.
fn verdict_number(answer: Answer) -> u32
    ensures { result ≡ verdict_number answer }
{
    match answer {
        Ok(Verdict::Fitted(_)) => 1,
        Ok(Verdict::Outside(_)) => 2,
        Ok(Verdict::Spent(_)) => 3,
        Err(_) => 0,
    }
}

// Writes the report of an answer with its rounds, and returns the refusal's number, 0 for a verdict.
fn tell_answer(answer: Answer, rounds: u32, report: &mut [u32]) -> u32
    requires { length report.old ≡ report_length }
    ensures { (result ≡ answer_number answer) × (report.new ≡ report_of answer rounds) }
{
    let counts = answer_counts(answer);
    report.copy_from_slice(&[verdict_number(answer), counts.bounds, counts.goals, rounds]);
    answer_number(answer)
}

// Writes the report of what a call has returned, and returns the refusal's number, 0 for a verdict. `tell_step`, `tell_sizes` and `tell_joined`
// are of the same shape. One for all would need the numbers of each as an array first, and so four functions beside it, two of them over `usize`.
fn tell(reply: Result<Assigned, Refusal>, report: &mut [u32]) -> u32
    requires { length report.old ≡ report_length }
    ensures { (B : Held) → returned result B report.new ≡ told (done_by reply B) }
{
    match reply {
        Ok(Assigned { verdict, rounds }) => tell_answer(Ok(verdict), rounds, report),
        Err(why) => tell_answer(Err(why), 0, report),
    }
}

// A whole assignment.
#[tactic(auto, using(crate::proofs::CallLaws::is_untold))]
pub fn koralimbu_assign(
    n: usize,
    m: usize,
    limit: u32,
    coefficients: &[i64],
    rights: &[i64],
    lower: &[i64],
    upper: &[i64],
    low: &[i64],
    high: &[i64],
    given: &[i64],
    ideals: &[i64],
    tableau: &mut [i64],
    values: &mut [i64],
    strides: &mut [u64],
    report: &mut [u32],
) -> u32
    ensures { returned result (buffers tableau.new values.new strides.new) report.new
        ≡ called assign
        (posed_by (problem_of n m limit) coefficients.now rights.now
        lower.now upper.now low.now high.now given.now ideals.now)
        (buffers tableau.old values.old strides.old) report.old }
{
    if report.len() != REPORT {
        return u32::from(Refusal::Length);
    }
    let p = Problem {
        columns: n,
        rows: m,
        limit,
    };
    let lists = Lists {
        coefficients,
        rights,
        lower,
        upper,
        low,
        high,
        given,
        ideals,
    };
    let lent = Buffers {
        tableau,
        values,
        strides,
    };
    tell(engine::assign(p, lists, lent), report)
}

// Continue, from the lent values. It differs from a whole assignment in the engine's call alone: what both can share is `tell`, and one function that
// takes the call would be longer than the two lines that it saves, since the parameters are C's.
#[tactic(auto, using(crate::proofs::CallLaws::is_untold))]
pub fn koralimbu_continue(
    n: usize,
    m: usize,
    limit: u32,
    coefficients: &[i64],
    rights: &[i64],
    lower: &[i64],
    upper: &[i64],
    low: &[i64],
    high: &[i64],
    given: &[i64],
    ideals: &[i64],
    tableau: &mut [i64],
    values: &mut [i64],
    strides: &mut [u64],
    report: &mut [u32],
) -> u32
    ensures { returned result (buffers tableau.new values.new strides.new) report.new
        ≡ called continue
        (posed_by (problem_of n m limit) coefficients.now rights.now
        lower.now upper.now low.now high.now given.now ideals.now)
        (buffers tableau.old values.old strides.old) report.old }
{
    if report.len() != REPORT {
        return u32::from(Refusal::Length);
    }
    let p = Problem {
        columns: n,
        rows: m,
        limit,
    };
    let lists = Lists {
        coefficients,
        rights,
        lower,
        upper,
        low,
        high,
        given,
        ideals,
    };
    let lent = Buffers {
        tableau,
        values,
        strides,
    };
    tell(engine::continue_from(p, lists, lent), report)
}
