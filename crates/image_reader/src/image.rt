// The header and both arrays of an image, looked over with no value kept.
ghost use Rattle.std.specs.Prelude.{◌≤◌, length};
ghost use Rattle.image_reader.specs.Inner.{HeaderCount, ReadsArrays, ReadsImage};

use array_reader::inner::{Stretch, scan_array};
use code_reader::Refusal;
use gorilla::Array;

// An image that can be filled in: both arrays, of as many values each; the image ends where the seconds do.
#[derive(Clone, Copy)]
pub struct Parts {
    pub seqs: Stretch,
    pub secs: Stretch,
}

// The header's pair count, the least significant byte first.
fn header_count(s: &[u8]) -> usize
    requires { 5 ≤ length s.now }
    ensures { HeaderCount s.now result }
{
    u32::from_le_bytes([s[1], s[2], s[3], s[4]]) as usize
}

// Both arrays, of at most max values, each of the count n that the header says.
fn scan_arrays(s: &[u8], max: usize, n: usize) -> Result<Parts, Refusal>
    ensures { ReadsArrays s.now max n result }
{
    let seqs = scan_array(s, 5, max, Array::Sequences)?;
    if seqs.count != n {
        return Err(Refusal::CountDiffers(Array::Sequences));
    }
    let secs = scan_array(s, seqs.end, max, Array::Seconds)?;
    if secs.count != n {
        return Err(Refusal::CountDiffers(Array::Seconds));
    }
    Ok(Parts { seqs, secs })
}

// The parts of an image of at most max pairs.
pub fn scan_image(s: &[u8], max: usize) -> Result<Parts, Refusal>
    ensures { ReadsImage s.now max result }
{
    if s.is_empty() {
        return Err(Refusal::Empty);
    }
    let v = s[0];
    if v != 1 {
        return Err(Refusal::Version(v));
    }
    if s.len() < 5 {
        return Err(Refusal::Header);
    }
    scan_arrays(s, max, header_count(s))
}
