// Lists of numbers, copied. The library's `copy_from_slice` is a call of `memmove` where both lists are C's, as they are in a join and in a preview,
// and the archive for C asks for `memcpy` and `memset` alone.
ghost use Rattle.std.specs.Prelude.{◌≡◌, length};

// Copies a row onto one of the same length.
pub fn copy(to: &mut [i64], from: &[i64])
    requires { length to.old ≡ length from.now }
    ensures { to.new ≡ from.now }
{
    for (i, x) in from.iter().enumerate() {
        to[i] = *x;
    }
}
