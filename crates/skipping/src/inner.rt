// The tests by which an offer is skipped.
ghost use Rattle.std.specs.Prelude.{◌≡◌, false, ◌<◌};
ghost use Rattle.limits.specs.Domain.{outside};
ghost use Rattle.tracker.specs.Inner.{last_outside};
ghost use Rattle.skipping.specs.Reasons.{skips, goes_back};

use tracker::Second;

// The one test that decides whether an offer is skipped. In the domain the difference cannot overflow.
pub fn skips(last: Option<Second>, interval_secs: u64, s: i64) -> bool
    requires { (last_outside last ≡ false) × (outside s ≡ false) × (interval_secs < 9223372036854775808) }
    ensures { result ≡ skips last interval_secs s }
{
    match last {
        None => false,
        Some(Second(before)) => s - before < interval_secs.cast_signed(),
    }
}

// And which of the two reasons it is: s is below the last recorded second, or it is not.
pub fn went_back(last: Option<Second>, s: i64) -> bool
    ensures { result ≡ goes_back last s }
{
    match last {
        None => false,
        Some(Second(before)) => s < before,
    }
}
