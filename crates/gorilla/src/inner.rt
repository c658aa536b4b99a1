// What the encoder and the decoder share, for our own crates.
ghost use Rattle.std.specs.Prelude.{◌≡◌, ◌≤◌, ◌<◌, ◌^◌, get_or};
ghost use Rattle.gorilla.specs.Rows.{widths, row_of, decoded, strict};
ghost use Rattle.gorilla.specs.Inner.{advanced, followed};

use crate::{Coded, Row, Track};

// Indicates how many bits to read given the Gorilla prefix.
pub const GORILLA_PREFIX_BYTES: [u8; 5] = [0, 7, 9, 12, 32];

// The width after a prefix of so many ones.
pub fn width_of(ones: usize) -> u8
    requires { ones ≤ 4 }
    ensures { result ≡ get_or widths ones 0 }
{
    GORILLA_PREFIX_BYTES[ones]
}

// The row of a difference of deltas: the first that matches.
#[tactic(auto, using(std::proofs::lemmas::Int::ints), unfolding(crate::specs::Rows::row_of))]
pub fn row_of(dod: i64) -> Row
    ensures { result ≡ row_of dod }
{
    match dod {
        0 => Row {
            prefix: 0b0,
            prefix_bits: 1,
            width: 0,
        },
        -63..=63 => Row {
            prefix: 0b10,
            prefix_bits: 2,
            width: 7,
        },
        -255..=255 => Row {
            prefix: 0b110,
            prefix_bits: 3,
            width: 9,
        },
        -2047..=2047 => Row {
            prefix: 0b1110,
            prefix_bits: 4,
            width: 12,
        },
        _ => Row {
            prefix: 0b1111,
            prefix_bits: 4,
            width: 32,
        },
    }
}

// Whether 32 bits hold a difference of deltas.
#[tactic(auto, using(std::proofs::lemmas::Int::ints), unfolding(crate::specs::Rows::strict))]
pub fn is_strict(dod: i64) -> bool
    ensures { result ≡ strict dod }
{
    i32::try_from(dod).is_ok()
}

// One value on, for the encoder: its difference of deltas.
pub fn advance(t: Track, val: i64) -> Coded
    ensures { result ≡ advanced t val }
{
    let delta = signed::wrapping_sub(val, t.prev);
    let dod = signed::wrapping_sub(delta, t.delta);
    Coded {
        dod,
        next: Track { prev: val, delta },
    }
}

// One difference of deltas on, for the decoder: the value that it leads to.
pub fn follow(t: Track, dod: i64) -> Track
    ensures { result ≡ followed t dod }
{
    let delta = signed::wrapping_add(t.delta, dod);
    Track {
        prev: signed::wrapping_add(t.prev, delta),
        delta,
    }
}

// The difference that `width` bits `raw` stand for: no bits stand for 0.
pub fn diff_of(raw: u64, width: u8) -> i64
    requires { (raw < 2 ^ 32) × (width ≤ 32) }
    ensures { result ≡ decoded width raw }
{
    signed::sign_extend(raw as u32, width).unwrap_or(0)
}
