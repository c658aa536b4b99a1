// A table restored from an image, at the default capacity, and at the default interval or at one that is named: an image has neither.
#![tactic(auto)]

ghost use Rattle.std.specs.Prelude.{◌≡◌};
ghost use Rattle.restoring.specs.Restore.{too_short, Restores, RestoresAt};
ghost use Rattle.restoring.specs.declared.Refusal.TheVariants.{Table, Decoder};

use decoder::decode;
use settling::inner::settle;
use tracker::SequenceTracker;

// Why a restore refuses: the table's refusal, of the interval, the lent arrays or the pairs; or the list reader's.
#[derive(Clone, Copy)]
pub enum Refusal {
    Table(tracker::Refusal),
    Decoder(code_reader::Refusal),
}

impl From<tracker::Refusal> for Refusal {
    ghost from_gives = { λ why r. r ≡ Table why };

    fn from(why: tracker::Refusal) -> Refusal {
        Refusal::Table(why)
    }
}

impl From<code_reader::Refusal> for Refusal {
    ghost from_gives = { λ why r. r ≡ Decoder why };

    fn from(why: code_reader::Refusal) -> Refusal {
        Refusal::Decoder(why)
    }
}

// Whether one of two lent arrays has fewer places than the default capacity.
fn too_short(seqs: usize, secs: usize) -> bool
    ensures { result ≡ too_short seqs secs }
{
    if seqs < 8192 {
        return true;
    }
    secs < 8192
}

// At the default interval, where the Rust's `from_bytes` gives a table 60.
pub fn restore(bytes: &[u8], seqs: &mut [u64], secs: &mut [i64]) -> Result<SequenceTracker, Refusal>
    ensures { Restores bytes.now seqs.old secs.old result seqs.new secs.new }
{
    restore_with_interval(bytes, seqs, secs, fresh::DEFAULT_INTERVAL_SECS)
}

// Rules 11 to 13 are judged before a lent place changes, so the pairs are read into arrays of the call's own: 128 KB of
// stack, and a copy, which cost less than a second pass over the codes.
pub fn restore_with_interval(
    bytes: &[u8],
    seqs: &mut [u64],
    secs: &mut [i64],
    interval_secs: u64,
) -> Result<SequenceTracker, Refusal>
    ensures { RestoresAt interval_secs bytes.now seqs.old secs.old result seqs.new secs.new }
{
    let bad_interval = limits::inner::bad_settings(fresh::DEFAULT_CAPACITY, interval_secs);
    let short = too_short(seqs.len(), secs.len());
    if bad_interval {
        return Err(Refusal::Table(tracker::Refusal::Settings));
    }
    if short {
        return Err(Refusal::Table(tracker::Refusal::Disagrees));
    }
    let mut own_seqs = [0u64; 8192];
    let mut own_secs = [0i64; 8192];
    let n = decode(bytes, &mut own_seqs, &mut own_secs)?;
    let table = settle(seqs, secs, &own_seqs[..n], &own_secs[..n], interval_secs)?;
    Ok(table)
}
