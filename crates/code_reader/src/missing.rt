// What of a code is missing, and the refusal that tells so of an index.
ghost use Rattle.std.specs.Prelude.{◌≡◌};
ghost use Rattle.gorilla.specs.Array.{array_no};
ghost use Rattle.gorilla.specs.Parser.{with};
ghost use Rattle.code_reader.specs.Inner.{missed};
ghost use Rattle.code_reader.specs.Refusal.{told};

use crate::Refusal;
use bits::Place;
use gorilla::Array;

// Refusals 6 to 8, without array, index and place: small, since the answer to each code has room for one.
#[derive(Clone, Copy)]
pub enum Missing {
    // 6: all of it
    Code,
    // 7: some of its prefix
    Prefix,
    // 8: some of its difference, of so many bits
    Diff(u8),
}

// What of a code is missing, and the bits left where the code begins.
#[derive(Clone, Copy)]
pub struct Cut {
    pub missing: Missing,
    pub left: u8,
}

// The refusal at an index whose code begins at a place.
pub fn refusal_of(missing: Missing, array: Array, index: usize, at: Place) -> Refusal
    ensures { told result ≡ with (missed (array_no array) index missing) at }
{
    match missing {
        Missing::Code => Refusal::CodeEnd(array, index, at),
        Missing::Prefix => Refusal::PrefixCut(array, index, at),
        Missing::Diff(width) => Refusal::DiffCut(array, index, width, at),
    }
}
