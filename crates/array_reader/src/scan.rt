// The codes of an array, looked over with no value kept: where they end, or which one is cut off.
ghost use Rattle.std.specs.Prelude.{◌≤◌, length};
ghost use Rattle.array_reader.specs.Inner.{Scans};

use bits::Place;
use bits::inner::place_left;
use code_reader::Refusal;
use code_reader::inner::{read_code, refusal_of, window_at, zeros};
use gorilla::Array;

// The codes of the indices from 1 to count - 1: the place after them.
pub fn scan(s: &[u8], at: Place, count: usize, array: Array) -> Result<Place, Refusal>
    requires { 8 ≤ length s.now }
    ensures { Scans s.now at count array result }
{
    let mut p = at;
    let mut i: usize = 1;
    // Stays: no plainer as a `for`: a turn goes on by one code, or by all zero codes of a window.
    while i < count {
        let w = window_at(s, p);
        let z = zeros(w, count - i);
        if 0 < z {
            p = bits::inner::after(p, z);
            i += z as usize;
            continue;
        }
        match read_code(w) {
            Ok(code) => {
                p = bits::inner::after(p, code.bits);
            }
            Err(cut) => {
                let begins = place_left(s.len(), cut.left);
                return Err(refusal_of(cut.missing, array, i, begins));
            }
        }
        i += 1;
    }
    Ok(p)
}
