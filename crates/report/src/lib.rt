#![tactic(auto)]

// The listing: its length is found first, so that a buffer that is too short stays as it was. There is no heap, so no `String` that it could be
// formatted into: each piece is written into the lent bytes from a place on.
ghost use Rattle.std.specs.Prelude.{◌≡◌, List, ℕ, ◌+◌, ◌≤◌, leb, length};
ghost use Rattle.text.specs.Overwriting.{Wrote};
ghost use Rattle.text.specs.Decimals.{natural, integer};
ghost use Rattle.problem.specs.Answers.{refusal_number};
ghost use Rattle.report.specs.Listing.{field, verdict, refusal, line, lines_from, headline, lines_of, listing_done, write_listing};

use problem::{Answer, Counts, Refusal, Verdict};
use text::decimals::{put, put_integer, put_natural};

// Why nothing is written: the lists are not of one length, or the buffer is too short.
#[derive(Clone, Copy, Debug, PartialEq, Eq)]
pub enum WriteError {
    Uneven,
    NoRoom,
}

// The bytes of a line, of which none has more.
const LINE: usize = 64;

// A number in base ten.
trait Number {
    ghost digits: { Self → List ℕ };

    fn put(self, out: &mut [u8], at: usize) -> usize
        requires { at + length (digits self) ≤ length out.old }
        ensures { Wrote out.old at (digits self) result out.new };
}

impl Number for u64 {
    ghost digits = { natural };

    fn put(self, out: &mut [u8], at: usize) -> usize {
        put_natural(out, at, self)
    }
}

impl Number for i64 {
    ghost digits = { integer };

    fn put(self, out: &mut [u8], at: usize) -> usize {
        put_integer(out, at, self)
    }
}

// A number after one space.
fn put_field<N: Number>(out: &mut [u8], at: usize, n: N) -> usize
    requires { at + length (field (N.digits n)) ≤ length out.old }
    ensures { Wrote out.old at (field (N.digits n)) result out.new }
{
    let e = put(out, at, b" ");
    n.put(out, e)
}

// A verdict's word with its two counts.
fn put_verdict(out: &mut [u8], word: &[u8], counts: Counts) -> usize
    requires { length (verdict word.now counts) ≤ length out.old }
    ensures { Wrote out.old 0 (verdict word.now counts) result out.new }
{
    let a = put(out, 0, word);
    let b = put_field(out, a, u64::from(counts.bounds));
    let c = put_field(out, b, u64::from(counts.goals));
    put(out, c, b"\n")
}

// The line of a refusal: NONE, or REFUSED with its number.
fn put_refusal(out: &mut [u8], why: Refusal) -> usize
    requires { length (refusal (refusal_number why)) ≤ length out.old }
    ensures { Wrote out.old 0 (refusal (refusal_number why)) result out.new }
{
    match why {
        Refusal::NoWholeNumbers => put(out, 0, b"NONE\n"),
        _ => {
            let a = put(out, 0, b"REFUSED");
            let b = put_field(out, a, u64::from(u32::from(why)));
            put(out, b, b"\n")
        }
    }
}

// The first line, in a buffer of its own.
fn headline(line: &mut [u8; LINE], answer: Answer) -> usize
    ensures { Wrote line.old 0 (headline answer) result line.new }
{
    match answer {
        Ok(Verdict::Fitted(k)) => put_verdict(line, b"FITTED", k),
        Ok(Verdict::Outside(k)) => put_verdict(line, b"OUTSIDE", k),
        Ok(Verdict::Spent(k)) => put_verdict(line, b"SPENT", k),
        Err(why) => put_refusal(line, why),
    }
}

// A column's line.
fn put_line(out: &mut [u8], at: usize, column: u64, value: i64, stride: u64) -> usize
    requires { at + length (line column value stride) ≤ length out.old }
    ensures { Wrote out.old at (line column value stride) result out.new }
{
    let a = put_natural(out, at, column);
    let b = put_field(out, a, value);
    let c = put_field(out, b, stride);
    put(out, c, b"\n")
}

// A line for each column. With the strides zipped to them, the values' range is lost to the proof.
fn put_lines(out: &mut [u8], at: usize, values: &[i64], strides: &[u64]) -> usize
    requires values_len { length values.now ≡ length strides.now }
    requires strides_in_bounds { at + length (lines_from 0 values.now strides.now) ≤ length out.old }
    ensures { Wrote out.old at (lines_from 0 values.now strides.now) result out.new }
{
    let mut p = at;
    for (i, value) in values.iter().enumerate() {
        p = put_line(out, p, i as u64 + 1, *value, strides[i]);
    }
    p
}

// Whether the columns' lines need no more than room bytes: each is written for its length alone. The strides are not zipped here either.
fn lines_fit(room: usize, values: &[i64], strides: &[u64]) -> bool
    requires { length values.now ≡ length strides.now }
    ensures { result ≡ leb (length (lines_from 0 values.now strides.now)) room }
{
    let mut left = room;
    for (i, value) in values.iter().enumerate() {
        let k = put_line(&mut [0u8; LINE], 0, i as u64 + 1, *value, strides[i]);
        if left < k {
            return false;
        }
        left -= k;
    }
    true
}

// Of n columns, how many are listed: with a refusal none.
fn lines_of(answer: Answer, n: usize) -> usize
    ensures { result ≡ lines_of answer n }
{
    if answer.is_ok() { n } else { 0 }
}

// Writes the listing of an answer at the front of a buffer and answers how many bytes. The values and the strides are listed with a verdict only.
pub fn write_listing(
    out: &mut [u8],
    answer: Answer,
    values: &[i64],
    strides: &[u64],
) -> Result<usize, WriteError>
    ensures { listing_done result out.new ≡ write_listing out.old answer values.now strides.now }
{
    let n = lines_of(answer, values.len());
    if lines_of(answer, strides.len()) != n {
        return Err(WriteError::Uneven);
    }
    let mut line = [0u8; LINE];
    let first = headline(&mut line, answer);
    if out.len() < first || !lines_fit(out.len() - first, &values[..n], &strides[..n]) {
        return Err(WriteError::NoRoom);
    }
    let e = put(out, 0, &line[..first]);
    Ok(put_lines(out, e, &values[..n], &strides[..n]))
}
