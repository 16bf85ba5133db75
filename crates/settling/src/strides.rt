ghost use Rattle.std.specs.Prelude.{◌≡◌, ◌<◌, length};
ghost use Rattle.settling.specs.Strides as Strides;
ghost use Rattle.settling.specs.Views.{vectors};

use crate::Basis;
use whole::divisor;

// The stride of column j: from the last vector up, the divisor of a number and those behind it. A 0 needs no division, and 1 stays 1.
#[tactic(auto, using(crate::proofs::StrideLaws::stride_loop))]
fn stride(basis: Basis, j: usize) -> u64
    requires { j < basis.columns }
    ensures { result ≡ Strides.stride (vectors basis.entry) j }
{
    let mut d = 0;
    for s in (0..basis.vectors).rev() {
        let x = basis.number(s, j).unsigned_abs();
        if x != 0 {
            d = divisor(x, d);
            if d == 1 {
                return 1;
            }
        }
    }
    d
}

// Writes the strides of all columns.
#[tactic(auto, using(crate::proofs::StrideLaws::strides_all))]
pub fn strides(out: &mut [u64], basis: Basis)
    requires { length out.old ≡ basis.columns }
    ensures { out.new ≡ Strides.strides basis.entry.columns (vectors basis.entry) }
{
    for (j, d) in out.iter_mut().enumerate() {
        *d = stride(basis, j);
    }
}
