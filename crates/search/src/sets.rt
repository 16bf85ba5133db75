// Sets of columns or of vectors, of fewer than 64: a word for each.
ghost use Rattle.std.specs.Prelude.{◌≡◌, true, not, ◌&&◌, ◌||◌, ℕ, ◌<◌, ◌≤◌, eqb, ltb, length};
ghost use Rattle.whole.specs.Lists.{entry};
ghost use Rattle.whole.specs.Tests.{is_zero};
ghost use Rattle.problem.specs.Limits.{max_columns};
ghost use Rattle.settling.specs.Views.{vectors};
ghost use Rattle.search.specs.Sets.{has, touches, Indexed, Held, Blank};

use settling::Basis;
use std::marker::Model;

#[derive(Clone, Copy, Drop)]
pub(crate) struct Set(u64);

impl Model for Set {
    ghost use Rattle.std.specs.Prelude.{ℕ};

    ghost Value = { ℕ };

    ghost view = { λ s. s.0 };

    ghost inverse = { λ w. record { 0 = w } };
}

impl Set {
    pub(crate) const EMPTY: Set = Set(0);

    // The places below n.
    pub(crate) fn below(n: usize) -> Set
        requires { n < 64 }
        ensures { (s : ℕ) → has result s ≡ ltb s n }
    {
        Set((1u64 << n) - 1)
    }

    // The least place.
    #[tactic(auto, using(crate::proofs::Setting::firsts))]
    pub(crate) fn first(self) -> usize
        requires { 0 < self }
        ensures { (has self result ≡ true) × ((s : ℕ) → has self s ≡ true → result ≤ s) }
    {
        self.0.trailing_zeros() as usize
    }

    #[tactic(auto, using(crate::proofs::Setting::union_has, crate::proofs::Setting::only_has, crate::proofs::Finding::shifted))]
    pub(crate) fn insert(&mut self, n: usize)
        requires { n < 64 }
        ensures { (s : ℕ) → has self.new s ≡ has self.old s || eqb s n }
    {
        self.0 |= 1u64 << n;
    }

    // The places of both.
    #[tactic(auto, using(crate::proofs::Setting::meet_has))]
    pub(crate) fn meet(self, other: Set) -> Set
        ensures { (s : ℕ) → has result s ≡ has self s && has other s }
    {
        Set(self.0 & other.0)
    }

    // The places of either.
    #[tactic(auto, using(crate::proofs::Setting::union_has))]
    pub(crate) fn union(self, other: Set) -> Set
        ensures { (s : ℕ) → has result s ≡ has self s || has other s }
    {
        Set(self.0 | other.0)
    }

    // The places that are not in the other, all of whose places are in this set.
    #[tactic(auto, using(crate::proofs::Setting::subset_le, crate::proofs::Setting::minus_has))]
    pub(crate) fn without(self, other: Set) -> Set
        requires { (s : ℕ) → has other s ≡ true → has self s ≡ true }
        ensures { (s : ℕ) → has result s ≡ has self s && not (has other s) }
    {
        Set(self.0 - other.0)
    }

    // A place alone.
    pub(crate) fn only(n: usize) -> Set
        requires { n < 64 }
        ensures { (s : ℕ) → has result s ≡ eqb s n }
    {
        Set(1u64 << n)
    }
}

// The places as they rise.
impl Iterator for Set {
    ghost use Rattle.std.specs.Iterator.{at_most};
    ghost use Rattle.search.specs.Sets.{Steps};

    type Item = usize;

    ghost next_gives = { Steps };

    ghost remaining = { λ w. at_most w };

    #[tactic(auto, using(crate::proofs::Setting::rest_word, crate::proofs::Setting::firsts))]
    fn next(&mut self) -> Option<usize> {
        if self.0 == 0 {
            return None;
        }
        let s = self.0.trailing_zeros();
        self.0 &= self.0 - 1;
        Some(s as usize)
    }
}

// The places at which a row is not 0. A shift for each number, from the last on, is faster than an insertion; the index is what the bits count.
#[tactic(auto, using(crate::proofs::Finding::supports))]
fn support_of(row: &[i64]) -> Set
    requires { length row.now ≤ max_columns }
    ensures { (j : ℕ) → has result j ≡ not (is_zero (entry j row.now)) }
{
    let mut set = 0u64;
    for j in (0..row.len()).rev() {
        set *= 2;
        if row[j] != 0 {
            set += 1;
        }
    }
    Set(set)
}

// The columns that vector s changes. A vector without columns may lie anywhere.
fn support_at(basis: Basis, s: usize) -> Set
    requires { (s < basis.vectors) × (basis.columns ≤ max_columns) }
    ensures { (j : ℕ) → has result j ≡ touches (vectors basis.entry) s j }
{
    if basis.columns == 0 {
        return Set::EMPTY;
    }
    support_of(basis.vector(s))
}

// Adds vector s at the places of a set.
fn hold(holders: &mut [Set], support: Set, s: usize)
    requires { (s < 64) × ((j : ℕ) → has support j ≡ true → j < length holders.old) }
    ensures { Held support s holders.old holders.new }
{
    for j in support {
        holders[j].insert(s);
    }
}

// For each vector the set of the columns that it changes, and for each column the set of the vectors that change it.
pub(crate) fn find_sets(supports: &mut [Set], holders: &mut [Set], basis: Basis)
    requires { (basis.columns ≤ max_columns) × (basis.vectors ≤ max_columns)
        × (length supports.old ≡ max_columns) × Blank holders.old }
    ensures { Indexed basis.entry supports.new holders.new }
{
    for s in 0..basis.vectors {
        let support = support_at(basis, s);
        supports[s] = support;
        hold(holders, support, s);
    }
}
