// One code: its prefix, and the difference of deltas after it.
ghost use Rattle.code_reader.specs.Inner.{ReadsCode};

use crate::missing::{Cut, Missing};
use crate::prefix::{leading, used_of};
use crate::window::Window;

// A difference of deltas, and the bits that its code has.
#[derive(Clone, Copy)]
pub struct Code {
    pub diff: i64,
    pub bits: u8,
}

// The code that a window starts with.
pub fn read_code(w: Window) -> Result<Code, Cut>
    ensures { ReadsCode w result }
{
    let n = leading(w)?;
    let width = gorilla::inner::width_of(n);
    let prefix = used_of(n);
    let rest = w.have - prefix;
    if rest < width {
        // the code begins with its prefix
        return Err(Cut {
            missing: Missing::Diff(width),
            left: w.have,
        });
    }
    let bits = prefix + width;
    let v = bits::inner::field(w.bits, 64 - bits, width);
    Ok(Code {
        diff: gorilla::inner::diff_of(v, width),
        bits,
    })
}
