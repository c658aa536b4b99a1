// Answers of the reader as compare/FORMAT.md writes them: the number of docs/RULES.md and the byte that it also tells; and for 4 to 8 where
// the bytes stop. For the program `vectors`.
#![tactic(auto)]

ghost use Rattle.std.specs.Prelude.{◌≡◌, drop};
ghost use Rattle.vector_outcomes.specs.Told.{told_at};

use bits::Place;
use decoder::Refusal;
use gorilla::Array;
use vector_bodies::digest::pairs_so;
use vector_bodies::lists::values_so;
use vector_bytes::Body;
use vector_lists::first;

// A refusal's number and the byte that it also tells; both are 0 where there is none.
#[derive(Clone, Copy, PartialEq, Eq, Debug)]
pub struct Told {
    pub number: u64,
    pub tells: u8,
}

impl Told {
    // The refusal that a body goes on with, if any.
    pub fn read(body: &mut Body<'_>) -> Option<Told>
        ensures value { result ≡ told_at body.old.left.now }
        ensures left { body.new.left.now ≡ drop 2 body.old.left.now }
    {
        let number: u8 = body.read();
        let tells: u8 = body.read();
        if (number == 0) & (tells == 0) {
            None
        } else {
            Some(Told {
                number: number.into(),
                tells,
            })
        }
    }

    fn of(why: Refusal) -> Told {
        let tells = match why {
            Refusal::Version(byte) => byte,
            Refusal::TooMany(array) | Refusal::CountDiffers(array) => number_of(array),
            Refusal::DiffCut(_, _, width, _) => width,
            Refusal::Empty
            | Refusal::Header
            | Refusal::CountCut(..)
            | Refusal::FirstCut(..)
            | Refusal::CodeEnd(..)
            | Refusal::PrefixCut(..) => 0,
        };
        Told {
            number: why.number(),
            tells,
        }
    }
}

// Stays: no plainer. It is `array_no` of the crate answers, which no crate of `vectors` uses, and gorilla would have it for these two callers.
fn number_of(array: Array) -> u8 {
    match array {
        Array::Sequences => 0,
        Array::Seconds => 1,
    }
}

// Where bytes stop: the array, the index and the place.
#[derive(Clone, Copy, PartialEq, Eq)]
struct Stop {
    array: u8,
    index: usize,
    byte: usize,
    bit: u8,
}

impl Stop {
    fn read(mut body: Body<'_>) -> Stop {
        let array: u8 = body.read();
        let index: u32 = body.read();
        let byte: u16 = body.read();
        Stop {
            array,
            index: index as usize,
            byte: byte.into(),
            bit: body.read(),
        }
    }

    // Whether it is the one that a body goes on with. Stays out of line: most refusals have no place, and need no room for one.
    #[inline(never)]
    fn is_so(self, body: Body<'_>) -> bool {
        self == Stop::read(body)
    }

    fn at(array: Array, index: usize, place: Place) -> Option<Stop> {
        Some(Stop {
            array: number_of(array),
            index,
            byte: place.byte,
            bit: place.bit,
        })
    }

    // Refusals that have no place have none.
    fn of(why: Refusal) -> Option<Stop> {
        match why {
            Refusal::CountCut(array, place) | Refusal::FirstCut(array, place) => {
                Stop::at(array, 0, place)
            }
            Refusal::CodeEnd(array, index, place)
            | Refusal::PrefixCut(array, index, place)
            | Refusal::DiffCut(array, index, _, place) => Stop::at(array, index, place),
            _ => None,
        }
    }
}

// Whether a refusal is the one that was told and, if it has a place, the bytes stop where a body goes on to say. Stays out of
// line: within unread_so it made that a call of its own, which lays its arrays anew for each record.
#[inline(never)]
pub fn refused_so(why: Refusal, told: Option<Told>, body: Body<'_>) -> bool {
    let told_so = told == Some(Told::of(why));
    told_so
        && match Stop::of(why) {
            Some(stop) => stop.is_so(body),
            None => true,
        }
}

// Whether an image has the length that a body goes on with, and the bytes after it follow; or is refused as told, and none do.
pub fn measured_so(bytes: &[u8], told: Option<Told>, mut body: Body<'_>) -> bool {
    let left = decoder::rest(bytes).len();
    match decoder::image_len(bytes) {
        Ok(n) => {
            let taken = usize::from(body.read::<u16>());
            told.is_none() & (n == taken) & (left.wrapping_add(taken) == bytes.len())
        }
        Err(why) => (left == 0) & refused_so(why, told, body),
    }
}

// Whether the list reader refuses so.
// Stays: there is no heap, so the lists are read into arrays of the most that they may have.
pub fn unread_so(bytes: &[u8], told: Option<Told>, body: Body<'_>) -> bool {
    let mut seqs = [0u64; 8192];
    let mut secs = [0i64; 8192];
    match decoder::decode(bytes, &mut seqs, &mut secs) {
        Ok(_) => false,
        Err(why) => refused_so(why, told, body),
    }
}

// Whether it gives n pairs, and they are so.
fn given_so<F: FnOnce(&[u64], &[i64]) -> bool>(bytes: &[u8], n: usize, pairs_so: F) -> bool
    requires { F.IsAlwaysCallable pairs_so }
{
    let mut seqs = [0u64; 8192];
    let mut secs = [0i64; 8192];
    let read = decoder::decode(bytes, &mut seqs, &mut secs);
    let agreed = pairs_so(first(&seqs, n), first(&secs, n));
    agreed & read.is_ok_and(|count| count == n)
}

// Whether it gives the n pairs that a body goes on with, by their values.
pub fn read_so(bytes: &[u8], n: usize, body: Body<'_>) -> bool {
    given_so(bytes, n, |seqs, secs| values_so(body, seqs, secs))
}

// The same by their digests.
pub fn brief_so(bytes: &[u8], n: usize, body: Body<'_>) -> bool {
    given_so(bytes, n, |seqs, secs| pairs_so(body, seqs, secs))
}
