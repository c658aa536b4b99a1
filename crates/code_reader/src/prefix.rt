// A code's prefix: ones up to the first zero or the fourth one.
ghost use Rattle.std.specs.Prelude.{◌≡◌, ◌+◌, ◌≤◌, min};
ghost use Rattle.code_reader.specs.Inner.{ReadsPrefix};

use crate::missing::{Cut, Missing};
use crate::window::Window;

// The ones of the code that a window starts with; or all of the code is missing, or some of its prefix.
pub fn leading(w: Window) -> Result<usize, Cut>
    ensures { ReadsPrefix w result }
{
    let mut n: usize = 0;
    // Stays: a rule of the project: document 01, "How to write each place", has a loop that breaks with the number of ones.
    let ones = loop {
        if n == 4 {
            break n;
        }
        if w.have as usize <= n {
            if n == 0 {
                return Err(Cut {
                    missing: Missing::Code,
                    left: 0,
                });
            }
            return Err(Cut {
                missing: Missing::Prefix,
                left: w.have,
            });
        }
        if (w.bits >> (63 - n)) % 2 == 0 {
            break n;
        }
        n += 1;
    };
    Ok(ones)
}

// The bits of a prefix of so many ones.
pub fn used_of(ones: usize) -> u8
    requires { ones ≤ 4 }
    ensures { result ≡ min (ones + 1) 4 }
{
    (ones as u8 + 1).min(4)
}
