// The search by places of the ranking, for the best candidate: a move at a place whose column it improves. A move has to be tried only at the first
// place whose column it changes, so that a vector is seen once: there it is tried alone, and with the vectors that are left. The incumbent z is the
// number of the best candidate so far, and better is smaller (numbers).
ghost use Rattle.std.specs.Prelude.{◌≡◌, true, false, ℕ, ◌+◌, ◌-◌, ◌*◌, ◌<◌, ◌≤◌, length, get_or};
ghost use Rattle.whole.specs.Tests.{every};
ghost use Rattle.settling.specs.Moves.{changes};
ghost use Rattle.settling.specs.Views.{OfBasis};
ghost use Rattle.search.specs.Notes.{Noted};
ghost use Rattle.search.specs.Numbers.{span};
ghost use Rattle.search.specs.Probes.{Blocking};
ghost use Rattle.search.specs.Progress as Progress;
ghost use Rattle.search.specs.Progress.{Dominated, PairIncumbent, NoWorse, FirstChanged, Unseen, Before, Searched};
ghost use Rattle.search.specs.Progress.{ZeroBefore, Fresh, Tried, Singled, Led, Others, Paired};
ghost use Rattle.search.specs.Searches.{basis_of, measure_of, passing, step_along};
ghost use Rattle.search.specs.Sets.{has, touches};

use crate::given::Search;
use crate::numbers::{FIRST_PAIR, SPAN, number_at, step_in};
use crate::seen::{Lead, Note, Place, Sign};
use crate::sets::Set;
use problem::Problem;
use settling::columns::cell_at;
use settling::{Measure, Move, Step};

impl Search<'_> {
    // The measure of column i.
    fn measure(&self, i: usize) -> Measure
        requires { i < self.now.basis.columns }
        ensures { result ≡ measure_of self.now i }
    {
        settling::measures::measure(self.part, cell_at(self.columns, self.values, i))
    }

    // The first place whose column a move changes. It changes none before `from`.
    fn first_changed(&self, o: Move, from: usize) -> Option<usize>
        requires { OfBasis self.now.basis.vectors o
            × ((x : ℕ) → x < from → x < length self.now.order.now → changes (basis_of self.now) o (get_or self.now.order.now x 0) ≡ false) }
        ensures { FirstChanged self.now o result }
    {
        for k in from..self.order.len() {
            if self.basis.changes(o, self.order[k]) {
                return Some(k);
            }
        }
        None
    }

    // Whether all columns pass under a pair, against the measure of column i. Column f is tried first.
    fn pair_fits(&self, o: Move, i: usize, f: usize) -> bool
        requires { OfBasis self.now.basis.vectors o × (i < self.now.basis.columns) × (f < self.now.basis.columns) }
        ensures { result ≡ every self.now.basis.columns (passing self.now o (measure_of self.now i)) }
    {
        let changed = self.supports[o.s].union(self.supports[o.t]);
        self.find_blocking(o, self.measure(i), f, changed).is_none()
    }
}

impl Place<'_> {
    // The least of z and a pair that improves the first place that it changes. It changes none before this one. Column f is tried first.
    fn try_pair(&self, o: Move, f: usize, z: usize) -> usize
        requires { Paired self.now o × (f < self.now.search.now.basis.columns) × PairIncumbent self.now.search.now z }
        ensures { NoWorse self.now.search.now z result × Dominated self.now.search.now result o }
    {
        if z <= number_at(self.at, o) {
            return z;
        }
        let Some(k) = self.search.first_changed(o, self.at) else {
            return z;
        };
        let number = number_at(k, o);
        if z <= number {
            return z;
        }
        if self.search.pair_fits(o, self.search.order[k], f) {
            return number;
        }
        z
    }

    // The least of z and the pairs of a vector with one sign and of the vectors of a set. Column f is tried first. The two signs stand one after the
    // other here, in `pairs` and in `singles`: a loop over them would be a second one in each function.
    fn pairs_with(&self, lead: Lead, f: usize, partners: Set, z: usize) -> usize
        requires { (lead.s < self.now.search.now.basis.vectors) × (f < self.now.search.now.basis.columns)
            × ZeroBefore self.now.search.now lead.s self.now.at × Others self.now lead.s partners × PairIncumbent self.now.search.now z }
        ensures { NoWorse self.now.search.now z result
            × ((t : ℕ) → has partners t ≡ true → (y : Sign) → Dominated self.now.search.now result (Progress.both lead.s lead.sign t y)) }
    {
        let mut best = z;
        for t in partners {
            let plus = Lead {
                s: t,
                sign: Sign::Plus,
            };
            best = self.try_pair(lead.with(plus), f, best);
            let minus = Lead {
                s: t,
                sign: Sign::Minus,
            };
            best = self.try_pair(lead.with(minus), f, best);
        }
        best
    }

    // The least of z and the pairs of a vector that is seen here with one sign. Only a vector that changes the column noted can help it.
    fn pairs_of(&self, notes: &[Note], lead: Lead, left: Set, z: usize) -> usize
        requires { Led self.now notes.now lead × Others self.now lead.s left × PairIncumbent self.now.search.now z }
        ensures { NoWorse self.now.search.now z result
            × ((t : ℕ) → has left t ≡ true → (y : Sign) → Dominated self.now.search.now result (Progress.both lead.s lead.sign t y)) }
    {
        let f = notes[lead.s].of(lead.sign);
        let partners = self.search.holders[f].meet(left);
        self.pairs_with(lead, f, partners, z)
    }

    // The least of z and the pairs of the vectors that are seen here, each with those that are left. No pair of the vectors that are left has a lower
    // number than the first of them allows: where the incumbent is below that, it is the best.
    fn pairs(&self, notes: &[Note], fresh: Set, unseen: Set, z: usize) -> usize
        requires { Before self.now.search.now unseen self.now.at z × Fresh self.now unseen fresh × Tried self.now fresh notes.now }
        ensures { Searched self.now.search.now (unseen - fresh) (self.now.at + 1) result }
    {
        let mut best = z;
        let mut left = unseen;
        for s in fresh {
            if best <= self.at * SPAN + (FIRST_PAIR + 4 * (Problem::MAX_COLUMNS * left.first())) {
                return best;
            }
            left = left.without(Set::only(s));
            let plus = Lead {
                s,
                sign: Sign::Plus,
            };
            best = self.pairs_of(notes, plus, left, best);
            let minus = Lead {
                s,
                sign: Sign::Minus,
            };
            best = self.pairs_of(notes, minus, left, best);
        }
        best
    }

    // A blocking column of a vector alone. The guess is tried first.
    fn blocking_column(&self, lead: Lead, guess: usize) -> Option<usize>
        requires { (lead.s < self.now.search.now.basis.vectors) × (guess < self.now.search.now.basis.columns) }
        ensures { Blocking self.now.search.now.basis.columns (passing self.now.search.now (Progress.alone lead.s lead.sign) self.now.q) result }
    {
        self.search
            .find_blocking(lead.alone(), self.q, guess, self.search.supports[lead.s])
    }

    // The first vector of a set that improves this place alone, as a number. Where one does not, its blocking columns are noted.
    fn singles(&self, notes: &mut [Note], fresh: Set) -> Option<usize>
        requires { Noted self.now.search.now.basis.columns notes.old × Unseen self.now.search.now fresh self.now.at
            × ((s : ℕ) → has fresh s ≡ true → touches (basis_of self.now.search.now) s self.now.column ≡ true) }
        ensures { Singled self.now fresh notes.new result }
    {
        for s in fresh {
            let plus = Lead {
                s,
                sign: Sign::Plus,
            };
            let Some(f) = self.blocking_column(plus, notes[s].plus) else {
                return Some(number_at(self.at, plus.alone()));
            };
            notes[s].plus = f;
            let minus = Lead {
                s,
                sign: Sign::Minus,
            };
            let Some(g) = self.blocking_column(minus, notes[s].minus) else {
                return Some(number_at(self.at, minus.alone()));
            };
            notes[s].minus = g;
        }
        None
    }

    // The least of z and the moves of the vectors that are seen at this place. A single comes before every pair.
    fn search_place(&self, notes: &mut [Note], fresh: Set, unseen: Set, z: usize) -> usize
        requires { Noted self.now.search.now.basis.columns notes.old × Before self.now.search.now unseen self.now.at z × Fresh self.now unseen fresh
            × (self.now.at * span ≤ z) }
        ensures { Searched self.now.search.now (unseen - fresh) (self.now.at + 1) result × Noted self.now.search.now.basis.columns notes.new }
    {
        match self.singles(notes, fresh) {
            Some(y) => y,
            None => self.pairs(notes, fresh, unseen, z),
        }
    }
}

impl Search<'_> {
    // The first improving move of the first column of the order that has one.
    pub(crate) fn first_step(&self, notes: &mut [Note]) -> Option<Step>
        requires { Noted self.now.basis.columns notes.old }
        ensures { (result ≡ step_along self.now) × Noted self.now.basis.columns notes.new }
    {
        let mut unseen = Set::below(self.basis.vectors);
        let mut z = self.order.len() * SPAN;
        for k in 0..self.order.len() {
            if z < k * SPAN {
                return step_in(self.order, z);
            }
            let i = self.order[k];
            let fresh = self.holders[i].meet(unseen);
            let here = Place {
                search: &*self,
                at: k,
                column: i,
                q: self.measure(i),
            };
            z = here.search_place(notes, fresh, unseen, z);
            unseen = unseen.without(fresh);
        }
        step_in(self.order, z)
    }
}
