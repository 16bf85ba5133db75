// The lists of the joined columns, filled number by number.
ghost use Rattle.std.specs.Prelude.{◌≡◌, ◌++◌, ◌≤◌, ◌+◌, ℤ, length, drop};
ghost use Rattle.pairing.specs.Pairs.{larger, smaller};
ghost use Rattle.joined.specs.Columns.{goal_by, goal_of, set_first, places_from};
ghost use Rattle.joined.specs.Columns as Columns;
ghost use Rattle.joined.specs.Filling.{absorb_into, absorb_ideals, AllBelow, Gives};

use whole::buffers::copy;

// Where the columns of the second part come: of each its partner, if it has one, and its place among the joined columns, of which there
// are `columns`.
#[derive(Clone, Copy)]
pub struct Seats<'a> {
    pub partners: &'a [Option<usize>],
    pub places: &'a [usize],
    pub columns: usize,
    ghost as_many: { length places.now ≡ length partners.now },
    ghost all_below: { AllBelow columns places.now },
}

// How many columns of the second part have no partner.
pub fn unshared(partners: &[Option<usize>]) -> usize
    ensures { result ≡ Columns.unshared partners.now }
{
    partners.iter().filter(|p| p.is_none()).count()
}

// The place of each column of the second part, where the first has as many columns as `first` says. The bound is far above what two parts have, so
// that no place overflows.
pub fn fill_places(places: &mut [usize], partners: &[Option<usize>], first: usize)
    requires places_len { length places.old ≡ length partners.now }
    requires partners_bound { first + length partners.now ≤ 1000 }
    ensures { places.new ≡ places_from first partners.now }
{
    let mut next = first;
    for (j, partner) in partners.iter().enumerate() {
        match partner {
            Some(i) => places[j] = *i,
            None => {
                places[j] = next;
                next += 1;
            }
        }
    }
}

// A goal of two, and `both` is what is made of two that are set. 0 is none: so `koralimbu_join` takes goals, and marks of ideals, from C.
fn goal_by(a: i64, b: i64, both: i64) -> i64
    ensures { result ≡ goal_by a b both }
{
    match (a, b) {
        (0, _) => b,
        (_, 0) => a,
        _ => both,
    }
}

// The low goal of a shared column.
pub fn low_goal(a: i64, b: i64) -> i64
    ensures { result ≡ goal_of smaller a b }
{
    goal_by(a, b, a.min(b))
}

// The high goal of a shared column.
pub fn high_goal(a: i64, b: i64) -> i64
    ensures { result ≡ goal_of larger a b }
{
    goal_by(a, b, a.max(b))
}

// What a shared column takes of its two numbers in one list. It is a trait, since a function handed over asks each caller to prove that it may be
// called and what it gives.
pub trait Rule {
    ghost of_two: { ℤ → ℤ → ℤ };

    fn combine(a: i64, b: i64) -> i64
        ensures { result ≡ of_two a b };
}

// The lower bounds: the larger one.
#[derive(Clone, Copy, Debug, PartialEq, Eq)]
pub struct Lower;

impl Rule for Lower {
    ghost of_two = { larger };

    fn combine(a: i64, b: i64) -> i64 {
        a.max(b)
    }
}

// The upper bounds: the smaller one.
#[derive(Clone, Copy, Debug, PartialEq, Eq)]
pub struct Upper;

impl Rule for Upper {
    ghost of_two = { smaller };

    fn combine(a: i64, b: i64) -> i64 {
        a.min(b)
    }
}

// The low goals.
#[derive(Clone, Copy, Debug, PartialEq, Eq)]
pub struct Low;

impl Rule for Low {
    ghost of_two = { goal_of smaller };

    fn combine(a: i64, b: i64) -> i64 {
        low_goal(a, b)
    }
}

// The high goals.
#[derive(Clone, Copy, Debug, PartialEq, Eq)]
pub struct High;

impl Rule for High {
    ghost of_two = { goal_of larger };

    fn combine(a: i64, b: i64) -> i64 {
        high_goal(a, b)
    }
}

// The marks of ideals: the first one that is set.
#[derive(Clone, Copy, Debug, PartialEq, Eq)]
pub struct Given;

impl Rule for Given {
    ghost of_two = { set_first };

    fn combine(a: i64, b: i64) -> i64 {
        if a == 0 { b } else { a }
    }
}

// The second's numbers of one list, taken at their columns' places by a rule.
fn absorb_by_rule<R: Rule>(out: &mut [i64], list: &[i64], seats: Seats<'_>)
    requires partners_len { length seats.partners.now ≡ length list.now }
    requires columns_in_bounds { seats.columns ≤ length out.old }
    ensures { out.new ≡ absorb_into R.of_two out.old seats.entry.partners.now seats.entry.places.now list.now }
{
    for (j, x) in list.iter().enumerate() {
        let p = seats.places[j];
        out[p] = if seats.partners[j].is_some() {
            R::combine(out[p], *x)
        } else {
            *x
        };
    }
}

// One list of the joined columns: the first's numbers, then the second's taken at their columns' places. A shared column takes what the rule makes
// of its two numbers.
pub fn join_by_rule<R: Rule>(out: &mut [i64], first: &[i64], second: &[i64], seats: Seats<'_>)
    requires first_in_bounds { length first.now ≤ length out.old }
    requires partners_len { length seats.partners.now ≡ length second.now }
    requires columns_in_bounds { seats.columns ≤ length out.old }
    ensures { out.new ≡ absorb_into R.of_two (first.now ++ drop (length first.now) out.old)
        seats.entry.partners.now seats.entry.places.now second.now }
{
    copy(&mut out[..first.len()], first);
    absorb_by_rule::<R>(out, second, seats);
}

// The second's numbers of one list, taken at their columns' places by a function.
fn absorb_list<F: Fn(i64, i64) -> i64>(combine: F, out: &mut [i64], list: &[i64], seats: Seats<'_>)
    requires callable { F.IsAlwaysCallable combine }
    requires partners_len { length seats.partners.now ≡ length list.now }
    requires columns_in_bounds { seats.columns ≤ length out.old }
    ensures { (g : ℤ → ℤ → ℤ) → Gives (F.post combine) g → out.new ≡ absorb_into g out.old seats.entry.partners.now seats.entry.places.now list.now }
{
    for (j, x) in list.iter().enumerate() {
        let p = seats.places[j];
        out[p] = if seats.partners[j].is_some() {
            combine(out[p], *x)
        } else {
            *x
        };
    }
}

// One list as `join_by_rule` joins it, where a shared column takes what a function of the caller's makes of its two numbers. It is for rules that are
// no type, as one that goes by a number which its caller holds; who has a type joins by that, and proves nothing of it. No call for C comes here, so
// that the library copies.
pub fn join_list<F: Fn(i64, i64) -> i64>(
    combine: F,
    out: &mut [i64],
    first: &[i64],
    second: &[i64],
    seats: Seats<'_>,
)
    requires callable { F.IsAlwaysCallable combine }
    requires first_in_bounds { length first.now ≤ length out.old }
    requires partners_len { length seats.partners.now ≡ length second.now }
    requires columns_in_bounds { seats.columns ≤ length out.old }
    ensures { (g : ℤ → ℤ → ℤ) → Gives (F.post combine) g
        → out.new ≡ absorb_into g (first.now ++ drop (length first.now) out.old) seats.entry.partners.now seats.entry.places.now second.now }
{
    out[..first.len()].copy_from_slice(first);
    absorb_list(combine, out, second, seats);
}

// The second's ideals and their marks, taken at their columns' places.
fn absorb_ideals(
    given: &mut [i64],
    ideals: &mut [i64],
    given2: &[i64],
    ideals2: &[i64],
    seats: Seats<'_>,
)
    requires partners_len { (length seats.partners.now ≡ length ideals2.now) × (length given2.now ≡ length ideals2.now) }
    requires columns_in_bounds { (seats.columns ≤ length given.old) × (seats.columns ≤ length ideals.old) }
    ensures given_after { given.new ≡ absorb_into set_first given.old seats.entry.partners.now seats.entry.places.now given2.now }
    ensures ideals_after { ideals.new ≡ absorb_ideals given.old ideals.old seats.entry.partners.now seats.entry.places.now
        given2.now ideals2.now }
{
    for (j, x) in ideals2.iter().enumerate() {
        let p = seats.places[j];
        // The first's ideal stands where it is set.
        if seats.partners[j].is_some() && given[p] != 0 {
            continue;
        }
        given[p] = given2[j];
        ideals[p] = *x;
    }
}

// The ideals of the joined columns and their marks, which are lists of their own: so `koralimbu_join` lends them. They come one by one, since what is
// read and what is written are parts of different structs.
pub fn join_ideals(
    given: &mut [i64],
    ideals: &mut [i64],
    given1: &[i64],
    ideals1: &[i64],
    given2: &[i64],
    ideals2: &[i64],
    seats: Seats<'_>,
)
    requires given1_in_bounds { (length given1.now ≤ length given.old) × (length ideals1.now ≤ length ideals.old) }
    requires partners_len { (length seats.partners.now ≡ length ideals2.now) × (length given2.now ≡ length ideals2.now) }
    requires columns_in_bounds { (seats.columns ≤ length given.old) × (seats.columns ≤ length ideals.old) }
    ensures given_after { given.new ≡ absorb_into set_first (given1.now ++ drop (length given1.now) given.old)
        seats.entry.partners.now seats.entry.places.now given2.now }
    ensures ideals_after { ideals.new ≡ absorb_ideals (given1.now ++ drop (length given1.now) given.old)
        (ideals1.now ++ drop (length ideals1.now) ideals.old)
        seats.entry.partners.now seats.entry.places.now given2.now ideals2.now }
{
    copy(&mut given[..given1.len()], given1);
    copy(&mut ideals[..ideals1.len()], ideals1);
    absorb_ideals(given, ideals, given2, ideals2, seats);
}

#[cfg(test)]
mod tests {
    use super::*;

    // A rule that goes by a number which is held here: where the first has that number, the second's is taken.
    #[test]
    fn joins_by_a_function(rt: HostRuntime) {
        let seats = Seats {
            partners: &[Some(0), None, Some(2)],
            places: &[0, 3, 2],
            columns: 4,
        };
        for (unset, want) in [(7, [40, 2, 3, 50]), (3, [7, 2, 60, 50])] {
            let mut out = [9; 4];
            let first = [7, 2, 3];
            let second = [40, 50, 60];
            join_list(
                |a, b| if a == unset { b } else { a },
                &mut out,
                &first,
                &second,
                seats,
            );
            assert_eq!(rt; out, want, "at {unset}");
        }
    }
}
