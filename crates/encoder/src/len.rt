// The length of an image, or why it has none; and a bound of it that needs no count.
ghost use Rattle.std.specs.Prelude.{◌≡◌, ◌+◌, ◌*◌, length};
ghost use Rattle.told.specs.Told.{gave};
ghost use Rattle.encoder.specs.Encode.{told_len, arrays_rule, len_rule};

use crate::Refusal;
use lengths::inner::image_bytes;

// The values that an array to encode may have.
const MOST: usize = 65536;

// A length that no image of so many pairs exceeds, at 36 bits a code; or 18, 19.
#[tactic(auto, unfolding(crate::specs::Encode::arrays_rule))]
pub fn most_bytes(seqs: &[u64], secs: &[i64]) -> Result<usize, Refusal>
    ensures { told_len result ≡ arrays_rule seqs.now secs.now (gave (length seqs.now * 9 + 21)) }
{
    if seqs.len() != secs.len() {
        return Err(Refusal::LengthsDiffer);
    }
    if seqs.len() > MOST {
        return Err(Refusal::TooMany);
    }
    Ok(seqs.len() * 9 + 21)
}

pub fn encoded_len(seqs: &[u64], secs: &[i64]) -> Result<usize, Refusal>
    ensures { told_len result ≡ len_rule seqs.now secs.now }
{
    most_bytes(seqs, secs)?;
    Ok(image_bytes(seqs, secs))
}
