// The kinds of records, and the bodies that compare/FORMAT.md allows each. For the program `vectors`.
#![tactic(auto)]

ghost use Rattle.std.specs.Prelude.{◌<◌};

pub mod kind; // kind.rt: the letters of the kinds

use crate::kind::Kind;
use vector_bodies::lists::{LISTED, MOST};
use vector_bytes::{Body, Number};

// The most bytes of a body.
const LONGEST: usize = 4096;

// The number at a place of a body.
fn at<T: Number>(b: &[u8], place: usize) -> T {
    let left = b.get(place..).unwrap_or(&[]);
    Body { left }.read()
}

fn are_reads(b: &[u8]) -> bool {
    let size = usize::from(at::<u8>(b, 0));
    b.len() == 2 + size + 10 * usize::from(at::<u8>(b, 1 + size))
}

// A list and its image.
fn is_encoding(b: &[u8]) -> bool {
    let n = usize::from(at::<u8>(b, 0));
    (n <= LISTED) & (b.len() >= 2 + 16 * n)
}

// An image that is refused, and eight bytes that say where it stops; or its length and its values or two digests.
fn is_image(b: &[u8]) -> bool {
    let size = usize::from(at::<u16>(b, 3));
    if at::<u8>(b, 0) != 0 {
        return b.len() == 13 + size;
    }
    let n = usize::from(at::<u16>(b, 7 + size));
    if n > LISTED {
        b.len() == 25 + size
    } else {
        b.len() == 9 + size + 16 * n
    }
}

// A body that lists n pairs and has so many bytes beside them.
fn is_listed(b: &[u8], n: usize, beside: usize) -> bool
    requires { (n < 65536) × (beside < 256) }
{
    (n <= LISTED) & (b.len() == beside + 16 * n)
}

// Whether a body has the bytes that its own counts say.
fn is_counted(kind: Kind, b: &[u8]) -> bool {
    match kind {
        Kind::Writes => b.len() >= 1 + 9 * usize::from(at::<u8>(b, 0)),
        Kind::Reads => are_reads(b),
        Kind::Extension => b.len() == 9,
        Kind::List => is_encoding(b),
        Kind::RuledList => (at::<u32>(b, 0) <= 8192) & (b.len() == 89),
        Kind::Image => is_image(b),
        Kind::Made | Kind::Saved => b.len() == 12,
        Kind::Offer => b.len() == 17,
        Kind::Run => (at::<u32>(b, 0) as usize <= MOST) & (b.len() == 73),
        Kind::Shown => is_listed(b, usize::from(at::<u16>(b, 0)), 11),
        Kind::LongShown => b.len() == 27,
        Kind::Second | Kind::Seq => b.len() == 10 + 8 * usize::from(at::<u8>(b, 9)),
        Kind::Extended => is_listed(b, usize::from(at::<u8>(b, 12)), 20),
        Kind::Restored => b.len() >= 22,
    }
}

// Whether a record is as compare/FORMAT.md has it: its letter names a kind, and its body is one of that kind.
pub fn is_whole(letter: u8, b: &[u8]) -> bool {
    match Kind::try_from(letter) {
        Ok(kind) => (b.len() <= LONGEST) & is_counted(kind, b),
        Err(_) => false,
    }
}
