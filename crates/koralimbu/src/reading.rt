// The reader's call for C, which has no `requires` either.
ghost use Rattle.std.specs.Prelude.{◌≡◌, length};
ghost use Rattle.deck.specs.Reader.{DeckBuffers, deck_buffers, read_done};
ghost use Rattle.koralimbu.specs.Reads.{sizes_length, read_returned, read_told, read_called};

use deck::{Shape, read_deck};
use problem::{ListsMut, Refusal};

// How many numbers tell the sizes of a text's problem: n, m, and how many of the n columns are intervals.
const SIZES: usize = 3;

// Writes the sizes of what was read, and returns the refusal's number, 0 for a text that is read.
fn tell_sizes(reading: Result<Shape, Refusal>, sizes: &mut [usize]) -> u32
    requires { length sizes.old ≡ sizes_length }
    ensures { (B : DeckBuffers) → read_returned result B sizes.new ≡ read_told (read_done reading B) }
{
    match reading {
        Ok(shape) => {
            sizes.copy_from_slice(&[shape.columns, shape.rows, shape.intervals]);
            0
        }
        Err(why) => {
            sizes.fill(0);
            u32::from(why)
        }
    }
}

// Reads a text into buffers of the largest size.
#[tactic(auto, using(crate::proofs::ReadLaws::is_unread))]
pub fn koralimbu_read(
    text: &[u8],
    coefficients: &mut [i64],
    rights: &mut [i64],
    lower: &mut [i64],
    upper: &mut [i64],
    low: &mut [i64],
    high: &mut [i64],
    given: &mut [i64],
    ideals: &mut [i64],
    sizes: &mut [usize],
) -> u32
    ensures { read_returned result
        (deck_buffers coefficients.new rights.new lower.new upper.new low.new
        high.new given.new ideals.new)
        sizes.new
        ≡ read_called text.now
        (deck_buffers coefficients.old rights.old lower.old upper.old low.old
        high.old given.old ideals.old)
        sizes.old }
{
    if sizes.len() != SIZES {
        return u32::from(Refusal::Length);
    }
    let lists = &mut ListsMut {
        coefficients,
        rights,
        lower,
        upper,
        low,
        high,
        given,
        ideals,
    };
    tell_sizes(read_deck(text, lists), sizes)
}
