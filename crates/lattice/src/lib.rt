#![tactic(auto)]

ghost use Rattle.std.specs.Prelude.{◌≡◌, ◌+◌, drop};
ghost use Rattle.lattice.specs.Rows as Rows;

// The column of the first number other than 0 at `from` or behind; the row's length if there is none, and `from` if that lies behind its end. No
// Option: `lead` is the length there too, in document 01's form and in each test of a lead against a column.
pub fn lead_from(row: &[i64], from: usize) -> usize
    ensures { result ≡ from + Rows.lead (drop from row.now) }
{
    for i in from..row.len() {
        if row[i] != 0 {
            return i;
        }
    }
    from.max(row.len())
}
