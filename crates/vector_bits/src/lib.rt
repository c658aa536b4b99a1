// Stored records of bits, replayed: W, B and N. For the program `vectors`.
#![tactic(auto)]

use bits::{Place, ReadRefusal, WriteRefusal};
use vector_bytes::Body;
use vector_tally::{Question, Tally};

const START: Place = Place { byte: 0, bit: 0 };

// n writes of a body, one after the other from the start, and the place after them.
fn write_each(body: &mut Body<'_>, n: u8, buf: &mut [u8]) -> Result<Place, WriteRefusal> {
    let mut at = START;
    for _ in 0..n {
        let value: u64 = body.read();
        at = bits::write_bits(buf, at, value, body.read())?;
    }
    Ok(at)
}

// The bytes that a place has begun.
fn begun(at: Place) -> usize {
    at.byte.saturating_add(usize::from(at.bit != 0))
}

// Whether what is left of a body is what was written up to a place.
fn written_so(buf: &[u8], at: Place, body: Body<'_>) -> bool {
    let end = begun(at);
    let want = body.left;
    // the buffer was dirty, and the byte after the written ones may not have changed
    let kept = buf.get(end) == Some(&255);
    kept & (buf.get(..end) == Some(want))
}

pub fn writes(mut body: Body<'_>, tally: &mut Tally) {
    let n: u8 = body.read();
    // Stays: there is no heap, so the buffer is an array of the most that a body has.
    let mut buf = [255u8; 4096];
    let written = write_each(&mut body, n, &mut buf);
    let agreed = match written {
        Ok(at) => written_so(&buf, at, body),
        Err(_) => false,
    };
    tally.note(Question::Writes, agreed);
}

// Whether a read gives a value, which has the number 0, or a refusal of that number: for 24 the value is the bits left.
fn read_so(read: Result<(u64, Place), ReadRefusal>, number: u8, value: u64) -> bool {
    match (number, read) {
        (0, Ok((got, _))) => got == value,
        (23, Err(ReadRefusal::Width)) => true,
        (24, Err(ReadRefusal::Short(left))) => u64::from(left) == value,
        _ => false,
    }
}

// Each read through a reader and without one.
pub fn reads(mut body: Body<'_>, tally: &mut Tally) {
    let size = usize::from(body.read::<u8>());
    let bytes = body.part(size);
    let n: u8 = body.read();
    let mut at = START;
    for _ in 0..n {
        let width: u8 = body.read();
        let number: u8 = body.read();
        let value: u64 = body.read();
        let read = bits::read_bits(bytes, at, width);
        let held = bit_reader::read_from(bytes, at, width);
        tally.note(
            Question::Reads,
            read_so(read, number, value) & read_so(held, number, value),
        );
        if let Ok((_, after)) = read {
            at = after;
        }
    }
}

pub fn extension(mut body: Body<'_>, tally: &mut Tally) {
    let got = signed::sign_extend(body.read(), body.read());
    let low: u32 = body.read();
    tally.note(
        Question::Extensions,
        got == Ok(i64::from(low.cast_signed())),
    );
}
