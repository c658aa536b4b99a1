// The bits at a place: eight bytes from the place's byte on, or what is left of the input.
ghost use Rattle.std.specs.Prelude.{◌≡◌, ◌≤◌, min, length};
ghost use Rattle.bits.specs.Place.{pos_of};
ghost use Rattle.code_reader.specs.Inner.{Holds, Zeros};

use bits::Place;

// The bits from a place on are the highest of a number; so many of them are there.
#[derive(Clone, Copy)]
pub struct Window {
    pub bits: u64,
    pub have: u8,
}

// The window at a place. Near the end it is made of the last eight bytes, less those before the place.
pub fn window_at(s: &[u8], at: Place) -> Window
    requires { 8 ≤ length s.now }
    ensures { Holds s.now (pos_of (length s.now) at) result }
{
    let Place { byte, bit } = at;
    if byte < s.len() && bit < 8 {
        let from = byte.min(s.len() - 8);
        let skip = ((byte - from) * 8) as u8 + bit;
        Window {
            bits: bits::inner::word_at(s, from) << skip,
            have: 64 - skip,
        }
    } else {
        Window { bits: 0, have: 0 }
    }
}

// Codes of one zero bit each that a window is made of, at most max: none where it has a one.
pub fn zeros(w: Window, max: usize) -> u8
    ensures { Zeros w max result }
{
    if w.bits == 0 {
        max.min(usize::from(w.have)) as u8
    } else {
        0
    }
}
