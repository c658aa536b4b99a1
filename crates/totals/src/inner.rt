// The totals before the first offer, with one more, and the two tests of their sum.
ghost use Rattle.std.specs.Prelude.{◌≡◌, ◌+◌, ◌≤◌, ◌<◌};
ghost use Rattle.totals.specs.Totals.{no_totals, sum_of, most, too_many, full, one_more};

use crate::{Fate, Totals};

// 2^64-1, the most that they may come to together.
const MOST: u64 = 18446744073709551615;

// Before the first offer.
pub fn no_totals() -> Totals
    ensures { result ≡ no_totals }
{
    Totals {
        recorded: 0,
        went_back: 0,
        too_soon: 0,
        refused: 0,
    }
}

// Whether they do not add up within 64 bits. Any four numbers may come in, so each is held to what the others leave, and no sum is made.
pub fn too_many(totals: Totals) -> bool
    ensures { result ≡ too_many totals }
{
    let after_recorded = MOST - totals.recorded;
    if totals.went_back > after_recorded {
        return true;
    }
    let after_back = after_recorded - totals.went_back;
    if totals.too_soon > after_back {
        return true;
    }
    totals.refused > after_back - totals.too_soon
}

// Whether one more offer would pass 2^64-1.
pub fn full(totals: Totals) -> bool
    requires { sum_of totals ≤ most }
    ensures { result ≡ full totals }
{
    totals.recorded + totals.went_back + totals.too_soon + totals.refused == MOST
}

// With one more offer, by what became of it.
pub fn one_more(totals: Totals, fate: Fate) -> Totals
    requires { sum_of totals < most }
    ensures { result ≡ one_more fate totals }
{
    let recorded = totals.recorded;
    let went_back = totals.went_back;
    let too_soon = totals.too_soon;
    let refused = totals.refused;
    match fate {
        Fate::Recorded => Totals {
            recorded: recorded + 1,
            went_back: went_back,
            too_soon: too_soon,
            refused: refused,
        },
        Fate::WentBack => Totals {
            recorded: recorded,
            went_back: went_back + 1,
            too_soon: too_soon,
            refused: refused,
        },
        Fate::TooSoon => Totals {
            recorded: recorded,
            went_back: went_back,
            too_soon: too_soon + 1,
            refused: refused,
        },
        Fate::Refused => Totals {
            recorded: recorded,
            went_back: went_back,
            too_soon: too_soon,
            refused: refused + 1,
        },
    }
}
