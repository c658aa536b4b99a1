// The values of an array that was looked over, stored into a lent array.
ghost use Rattle.std.specs.Prelude.{◌≡◌, List, map, ℕ, ◌≤◌, ◌<◌, length};
ghost use Rattle.told.specs.Over.{over};
ghost use Rattle.array_reader.specs.Inner.{passed_at, values_of};
ghost use Rattle.array_filler.specs.Inner.{Stepped, CanStep};

use array_reader::inner::Stretch;
use bits::Place;
use code_reader::inner::{read_code, window_at, zeros};
use gorilla::inner::follow;
use gorilla::{Stored, Track};

// A value, the delta that led to it, and the codes after it: so many of one zero bit that were found already, and
// then those at a place.
#[derive(Clone, Copy)]
pub struct Cursor {
    pub zeros: usize,
    pub at: Place,
    pub track: Track,
}

impl Cursor {
    // One value on, by a code of one zero bit that was found already.
    fn coast(self) -> Cursor
        requires { 0 < self.zeros }
        ensures { (xs : List ℕ) (a i : ℕ) → Stepped xs a i self result }
    {
        Cursor {
            zeros: self.zeros - 1,
            at: self.at,
            track: follow(self.track, 0),
        }
    }

    // One value on, by a code that is there, where no zeros are left. Codes of one zero bit are the common ones: it finds
    // as many as one window has.
    fn step(self, s: &[u8]) -> Cursor
        requires { (self.zeros ≡ 0) × CanStep s.now self }
        ensures { (a i : ℕ) → Stepped s.now a i self result }
    {
        let w = window_at(s, self.at);
        let z = zeros(w, 64);
        if 0 < z {
            return Cursor {
                zeros: z as usize - 1,
                at: bits::inner::after(self.at, z),
                track: follow(self.track, 0),
            };
        }
        match read_code(w) {
            Ok(code) => Cursor {
                zeros: 0,
                at: bits::inner::after(self.at, code.bits),
                track: follow(self.track, code.diff),
            },
            // never met: the codes were looked over
            Err(_) => self,
        }
    }
}

// The values of an array into the first places of a lent one; the places after them keep what they held.
pub fn fill<T: Stored>(s: &[u8], part: Stretch, out: &mut [T])
    requires { (part.count ≤ length out.old) × ((a : ℕ) × passed_at s.now a part.count part.at) }
    ensures { (a : ℕ) → passed_at s.now a part.count part.at → out.new ≡ over (map T.of_z (values_of s.now a part)) out.old }
{
    if part.count == 0 {
        return;
    }
    out[0] = T::from_signed(part.first);
    let mut c = Cursor {
        zeros: 0,
        at: part.at,
        track: Track {
            prev: part.first,
            delta: 0,
        },
    };
    for i in 1..part.count {
        // Stays: as one method that answers the next cursor this misses the bar "decode, regular" of docs/SPEED.md: 387,000
        // instructions, and 215,000 where each branch sets the cursor.
        if 0 < c.zeros {
            c = c.coast();
        } else {
            c = c.step(s);
        }
        out[i] = T::from_signed(c.track.prev);
    }
}
