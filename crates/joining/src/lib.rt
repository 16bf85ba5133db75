#![tactic(auto)]

// Joining two problems over a list of pairs: document 02, (vi).
ghost use Rattle.std.specs.Prelude.{◌≡◌, ◌≤◌, ◌+◌, length};
ghost use Rattle.problem.specs.References.{SameReferences};
ghost use Rattle.pairing.specs.Parts.{lent_lists, mut_lists, part_of, sized};
ghost use Rattle.problem.specs.Limits.{max_columns, max_rows};
ghost use Rattle.joined.specs.Columns.{unshared, places_from};
ghost use Rattle.joined.specs.Filling.{AllBelow};
ghost use Rattle.joining.specs.Filled.{Long, filling, left_paired};
ghost use Rattle.joining.specs.Join.{left};
ghost use Rattle.joining.specs.Join as Join;

use joined::columns::{
    High, Low, Lower, Seats, Upper, fill_places, join_by_rule, join_ideals, unshared,
};
use joined::rows::{join_rights, join_rows};
use pairing::pairs::pair_up;
use pairing::parts::{lists_fit, part_cause};
use pairing::{Part, Sizes};
use problem::checks::sizes_fit;
use problem::{Lists, ListsMut, Problem, Refusal};

// The lists lent to be filled, to be read.
fn read_lists<'a>(out: &'a ListsMut<'_>) -> Lists<'a>
    ensures { lent_lists result ≡ mut_lists out.now }
{
    Lists {
        coefficients: out.coefficients,
        rights: out.rights,
        lower: out.lower,
        upper: out.upper,
        low: out.low,
        high: out.high,
        given: out.given,
        ideals: out.ideals,
    }
}

// 1 and 2 of the joined problem, of these sizes, and the lent lists.
fn room_cause(s: Sizes, out: &ListsMut<'_>) -> Result<(), Refusal>
    ensures { result ≡ Join.room_cause (sized s.columns s.rows 0) (mut_lists out.now) }
{
    let p = Problem::from(s);
    if !sizes_fit(p, Problem::MAX_COLUMNS, Problem::MAX_ROWS) {
        return Err(Refusal::Size);
    }
    if !lists_fit(p, read_lists(out)) {
        return Err(Refusal::Length);
    }
    Ok(())
}

// The eight lists of the joined columns, where the second's come to the places.
fn fill(first: Part<'_>, second: Part<'_>, seats: Seats<'_>, out: &mut ListsMut<'_>)
    requires first_long { Long first.sizes.columns first.sizes.rows (lent_lists first.lists) }
    requires second_long { Long second.sizes.columns second.sizes.rows (lent_lists second.lists) }
    requires out_long { Long seats.columns (first.sizes.rows + second.sizes.rows) (mut_lists out.old) }
    requires partners_len { length seats.partners.now ≡ second.sizes.columns }
    requires first_in { first.sizes.columns ≤ seats.columns }
    ensures same_references { SameReferences out.old out.new }
    ensures filled { mut_lists out.new ≡ filling (part_of first.entry.sizes (lent_lists first.entry.lists))
        (part_of second.entry.sizes (lent_lists second.entry.lists)) (mut_lists out.old)
        seats.entry.columns seats.entry.partners.now seats.entry.places.now }
{
    let a = first.lists;
    let b = second.lists;
    join_rows(out.coefficients, first, second, seats.places, seats.columns);
    join_rights(out.rights, a.rights, b.rights);
    join_by_rule::<Lower>(out.lower, a.lower, b.lower, seats);
    join_by_rule::<Upper>(out.upper, a.upper, b.upper, seats);
    join_by_rule::<Low>(out.low, a.low, b.low, seats);
    join_by_rule::<High>(out.high, a.high, b.high, seats);
    join_ideals(
        out.given, out.ideals, a.given, a.ideals, b.given, b.ideals, seats,
    );
}

// The joined problem of parts that pass, with the partners that their pairs leave: its own causes, 1 and 2, come before the first number is written.
fn join_paired(
    first: Part<'_>,
    second: Part<'_>,
    partners: &[Option<usize>],
    out: &mut ListsMut<'_>,
) -> Result<Sizes, Refusal>
    requires first_long { Long first.sizes.columns first.sizes.rows (lent_lists first.lists) }
    requires second_long { Long second.sizes.columns second.sizes.rows (lent_lists second.lists) }
    requires few { (first.sizes.columns ≤ max_columns) × (second.sizes.columns ≤ max_columns)
        × (first.sizes.rows ≤ max_rows) × (second.sizes.rows ≤ max_rows) }
    requires partners_len { length partners.now ≡ second.sizes.columns }
    requires all_below { AllBelow (first.sizes.columns + unshared partners.now) (places_from first.sizes.columns partners.now) }
    ensures same_references { SameReferences out.old out.new }
    ensures left { left result (mut_lists out.new) ≡ left_paired (part_of first.entry.sizes (lent_lists first.entry.lists))
        (part_of second.entry.sizes (lent_lists second.entry.lists)) partners.now (mut_lists out.old) }
{
    let s = Sizes {
        columns: first.sizes.columns + unshared(partners),
        rows: first.sizes.rows + second.sizes.rows,
    };
    room_cause(s, out)?;
    let mut places = [0; Problem::MAX_COLUMNS];
    let places = &mut places[..partners.len()];
    fill_places(places, partners, first.sizes.columns);
    let seats = Seats {
        partners,
        places,
        columns: s.columns,
    };
    fill(first, second, seats, out);
    Ok(s)
}

// One problem of two parts and the pairs of their columns, in the lent lists. Every test comes before the first number is written.
pub fn join(
    first: Part<'_>,
    second: Part<'_>,
    pairs: &[usize],
    out: &mut ListsMut<'_>,
) -> Result<Sizes, Refusal>
    ensures same_references { SameReferences out.old out.new }
    ensures left { left result (mut_lists out.new) ≡ Join.join (part_of first.entry.sizes (lent_lists first.entry.lists))
        (part_of second.entry.sizes (lent_lists second.entry.lists)) pairs.now (mut_lists out.old) }
{
    part_cause(first)?;
    part_cause(second)?;
    if pairs.len() % 2 != 0 {
        return Err(Refusal::Length);
    }
    let mut partners = [None; Problem::MAX_COLUMNS];
    let partners = &mut partners[..second.sizes.columns];
    pair_up(first.lists, second.lists, pairs, partners)?;
    join_paired(first, second, partners, out)
}
