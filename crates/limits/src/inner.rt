// The limits that the rules set (docs/RULES.md): the domain of seconds, the settings and the room that they need.
ghost use Rattle.std.specs.Prelude.{◌≡◌};
ghost use Rattle.limits.specs.Domain.{outside};
ghost use Rattle.limits.specs.Settings.{bad_settings, room_of};

const MAX_CAPACITY: u32 = 8192;

const MAX_INTERVAL_SECS: u64 = 9223372036854775807;

const FIRST_SECOND: i64 = -62135596800;

const LAST_SECOND: i64 = 253402300799;

// Whether a second is outside the years 0001 to 9999.
pub fn out_of_domain(s: i64) -> bool
    ensures { result ≡ outside s }
{
    if s < FIRST_SECOND {
        return true;
    }
    LAST_SECOND < s
}

pub fn bad_settings(capacity: u32, interval_secs: u64) -> bool
    ensures { result ≡ bad_settings capacity interval_secs }
{
    if capacity > MAX_CAPACITY {
        return true;
    }
    interval_secs > MAX_INTERVAL_SECS
}

// The room that the arrays of a table need: a capacity of 0 keeps one pair.
pub fn room(capacity: u32) -> usize
    ensures { result ≡ room_of capacity }
{
    if capacity == 0 { 1 } else { capacity as usize }
}
