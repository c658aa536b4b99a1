// The image, or why there is none.
// Stays: the C interface lends the sequences and the seconds as two arrays (skut_encode, skut_encode_strict).
ghost use Rattle.encoder.specs.Encode.{encode_rule, strict_rule, Encodes};
ghost use Rattle.encoder.specs.Inner.{Measured, EncodesInRoom};

use crate::Refusal;
use crate::len::most_bytes;
use image_writer::inner::write_image;
use lengths::inner::image_bytes;
use strict::inner::first_wide;

// The image, or refusal 21 before a byte is written. A buffer of `most` bytes holds any image of so many pairs, so that its
// length need not be counted first.
fn write_if_room(seqs: &[u64], secs: &[i64], out: &mut [u8], most: usize) -> Result<usize, Refusal>
    requires { Measured seqs.now secs.now most }
    ensures { EncodesInRoom seqs.now secs.now out.old result out.new }
{
    if most > out.len() {
        let bytes = image_bytes(seqs, secs);
        if out.len() < bytes {
            return Err(Refusal::Room(bytes));
        }
    }
    Ok(write_image(seqs, secs, out))
}

// The Rust's bytes: differences wrap, and one that 32 bits do not hold is cut to them.
pub fn encode(seqs: &[u64], secs: &[i64], out: &mut [u8]) -> Result<usize, Refusal>
    ensures { Encodes encode_rule seqs.now secs.now out.old result out.new }
{
    let most = most_bytes(seqs, secs)?;
    write_if_room(seqs, secs, out, most)
}

// The same where 32 bits hold every difference of deltas, so that the image reads back as the arrays.
pub fn encode_strict(seqs: &[u64], secs: &[i64], out: &mut [u8]) -> Result<usize, Refusal>
    ensures { Encodes strict_rule seqs.now secs.now out.old result out.new }
{
    let most = most_bytes(seqs, secs)?;
    if let Some((array, i)) = first_wide(seqs, secs) {
        return Err(Refusal::Wide(array, i));
    }
    write_if_room(seqs, secs, out, most)
}
