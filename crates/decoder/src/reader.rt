// The public calls. Each looks an image over before it stores or answers anything.
ghost use Rattle.std.specs.Prelude.{◌≡◌};
ghost use Rattle.decoder.specs.Decode.{Decodes, told_image_len, image_len_rule, rest_rule, rest_from, onwards};

use array_filler::inner::fill;
use code_reader::Refusal;
use image_reader::inner::scan_image;

// The greatest count that 32 bits hold.
const MOST: usize = 4294967295;

// The pairs of an image, into two lent arrays: the list reader. It answers how many there are; places from the count on keep
// what they held.
pub fn decode(bytes: &[u8], seqs: &mut [u64], secs: &mut [i64]) -> Result<usize, Refusal>
    ensures { Decodes bytes.now seqs.old secs.old result seqs.new secs.new }
{
    let max = seqs.len().min(secs.len());
    let p = scan_image(bytes, max)?;
    fill(bytes, p.seqs, seqs);
    fill(bytes, p.secs, secs);
    Ok(p.secs.count)
}

// An image's length. No array is lent, so no count is too great.
pub fn image_len(bytes: &[u8]) -> Result<usize, Refusal>
    ensures { told_image_len result ≡ image_len_rule bytes.now }
{
    let p = scan_image(bytes, MOST)?;
    Ok(p.secs.end)
}

// The part of the caller's bytes that follows the image; refused, an empty part at their end.
pub fn rest<'a>(bytes: &'a [u8]) -> &'a [u8]
    ensures rest { result.now ≡ rest_rule bytes.now }
    ensures part { result.ref_ptr ≡ onwards bytes.entry.ref_ptr (rest_from bytes.now) }
{
    let start = image_len(bytes).unwrap_or(bytes.len());
    &bytes[start..]
}
