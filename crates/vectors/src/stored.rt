// The input: its head, and one record after the other.
use crate::records::replay;
use std::fmt;
use vector_bytes::Body;
use vector_sizes::is_whole;
use vector_sizes::kind::{Kind, UnknownKind};
use vector_tally::Tally;

// One byte more than the input may have, so that too long an input is seen.
pub const ROOM: usize = 1048576;

// The bytes before the first record.
const HEAD: usize = 8;

// How the input is not as FORMAT.md has it.
#[derive(Clone, Copy)]
pub enum Damage {
    // longer than there is room for
    TooLong,
    // it does not begin as it should
    Headless,
    // it ends before the end of a record
    Cut,
    // a record's kind or body is none of FORMAT.md's
    Unknown,
    // bytes follow the last record
    Followed,
}

impl From<UnknownKind> for Damage {
    fn from(_letter: UnknownKind) -> Damage {
        Damage::Unknown
    }
}

impl fmt::Display for Damage {
    fn fmt<W: fmt::Write>(&self, f: &mut fmt::Formatter<W>) -> fmt::Result {
        f.write_str(match self {
            Damage::TooLong => "it has more than 1048575 bytes",
            Damage::Headless => "it does not begin with SKV3 and their number",
            Damage::Cut => "it ends before the end of the next one",
            Damage::Unknown => "the next one is not as compare/FORMAT.md says",
            Damage::Followed => "bytes follow the last one",
        })
    }
}

// A damaged input, and how many of its records were replayed: those before the damage.
#[derive(Clone, Copy)]
pub struct Damaged {
    records: u32,
    damage: Damage,
}

impl fmt::Display for Damaged {
    fn fmt<W: fmt::Write>(&self, f: &mut fmt::Formatter<W>) -> fmt::Result {
        let Damaged { records, damage } = self;
        write!(f, "the input is damaged after {records} records: {damage}")
    }
}

// The next record: its kind and its body.
fn next_record<'a>(input: &mut Body<'a>) -> Result<(Kind, Body<'a>), Damage> {
    if input.left.len() < 3 {
        return Err(Damage::Cut);
    }
    let letter: u8 = input.read();
    let length: u16 = input.read();
    let length = usize::from(length);
    if input.left.len() < length {
        return Err(Damage::Cut);
    }
    let left = input.part(length);
    if !is_whole(letter, left) {
        return Err(Damage::Unknown);
    }
    let kind = Kind::try_from(letter)?;
    Ok((kind, Body { left }))
}

// Replays n records, after which the input ends.
fn replay_each(
    mut input: Body<'_>,
    n: u32,
    seqs: &mut [u64],
    secs: &mut [i64],
    tally: &mut Tally,
) -> Result<(), Damaged> {
    let mut table = fresh::new();
    for records in 0..n {
        match next_record(&mut input) {
            Ok((kind, body)) => table = replay(kind, body, table, seqs, secs, tally),
            Err(damage) => return Err(Damaged { records, damage }),
        }
    }
    if input.left.is_empty() {
        Ok(())
    } else {
        Err(Damaged {
            records: n,
            damage: Damage::Followed,
        })
    }
}

// Replays the input, up to its end or to what is damaged.
pub fn replay_all(
    bytes: &[u8],
    seqs: &mut [u64],
    secs: &mut [i64],
    tally: &mut Tally,
) -> Result<(), Damaged> {
    if bytes.len() >= ROOM {
        return Err(Damaged {
            records: 0,
            damage: Damage::TooLong,
        });
    }
    if (bytes.len() < HEAD) | !bytes.starts_with(b"SKV3") {
        return Err(Damaged {
            records: 0,
            damage: Damage::Headless,
        });
    }
    let mut input = Body { left: bytes };
    input.part(4);
    let n: u32 = input.read();
    replay_each(input, n, seqs, secs, tally)
}
