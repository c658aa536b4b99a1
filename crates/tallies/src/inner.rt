// A tally before the first record, with one more, of one offer alone, and all that it counts.
ghost use Rattle.std.specs.Prelude.{◌≡◌, ◌+◌, ◌<◌, ◌^◌};
ghost use Rattle.offers.specs.Offer.{told_offer};
ghost use Rattle.tallies.specs.Tally.{none_yet, counted, total};
ghost use Rattle.tallies.specs.Inner.{CountedAs};

use crate::Tally;
use offers::Offered;
use offers::inner::Came;
use tracker::Refusal;

// Before the first record.
pub fn none_yet() -> Tally
    ensures { result ≡ none_yet }
{
    Tally {
        recorded: 0,
        went_back: 0,
        too_soon: 0,
    }
}

// One more, by what came of its offer. A refused record is not counted.
pub fn counted(tally: Tally, came: Came) -> Tally
    requires { total tally + 1 < 2 ^ 64 }
    ensures { CountedAs came tally result }
{
    match came {
        Came::Recorded(_) => Tally {
            recorded: tally.recorded + 1,
            ..tally
        },
        Came::WentBack => Tally {
            went_back: tally.went_back + 1,
            ..tally
        },
        Came::TooSoon => Tally {
            too_soon: tally.too_soon + 1,
            ..tally
        },
        Came::PairRefused(_) => tally,
    }
}

// Of one offer alone, by what it answered.
pub fn of_one(offered: Result<Offered, Refusal>) -> Tally
    ensures { result ≡ counted (told_offer offered) none_yet }
{
    let none = none_yet();
    match offered {
        Ok(Offered::Recorded(_)) => Tally {
            recorded: 1,
            ..none
        },
        Ok(Offered::WentBack(_)) => Tally {
            went_back: 1,
            ..none
        },
        Ok(Offered::TooSoon(_)) => Tally {
            too_soon: 1,
            ..none
        },
        Ok(Offered::PairRefused { .. }) | Err(_) => none,
    }
}

// How many records it counts.
pub fn total(tally: Tally) -> usize
    requires { total tally < 2 ^ 64 }
    ensures { result ≡ total tally }
{
    tally.recorded + tally.went_back + tally.too_soon
}
