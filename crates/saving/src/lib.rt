// A table saved as an image: of the pairs that it keeps.
//
// slatedb's `to_bytes` cuts a difference of deltas to 32 bits in silence. `save` writes the same bytes; `save_strict` refuses
// the tables of which other pairs would be read back.
#![tactic(auto)]

ghost use Rattle.std.specs.Prelude.{◌≡◌};
ghost use Rattle.saving.specs.Save.{save_of, save_strict_of, Saves};
ghost use Rattle.saving.specs.declared.Refusal.TheVariants.{Table, Encoder};

use encoder::{encode, encode_strict};
use tracker::{SequenceTracker, check};

// Why a save refuses: the table's refusal, or the encoder's.
#[derive(Clone, Copy)]
pub enum Refusal {
    Table(tracker::Refusal),
    Encoder(encoder::Refusal),
}

impl From<tracker::Refusal> for Refusal {
    ghost from_gives = { λ why r. r ≡ Table why };

    fn from(why: tracker::Refusal) -> Refusal {
        Refusal::Table(why)
    }
}

impl From<encoder::Refusal> for Refusal {
    ghost from_gives = { λ why r. r ≡ Encoder why };

    fn from(why: encoder::Refusal) -> Refusal {
        Refusal::Encoder(why)
    }
}

// Stays: two calls of one shape, no plainer as one over the encoder, which would ask for the encoder's contract as a clause to share three lines.
// The bytes that the Rust writes. Gives how many they are.
#[tactic(auto, using(crate::proofs::Passing::passes))]
pub fn save(
    table: SequenceTracker,
    seqs: &[u64],
    secs: &[i64],
    out: &mut [u8],
) -> Result<usize, Refusal>
    ensures { Saves save_of table seqs.now secs.now out.old result out.new }
{
    check(table, seqs, secs)?;
    let n = table.count;
    let bytes = encode(&seqs[..n], &secs[..n], out)?;
    Ok(bytes)
}

// The same bytes, or 20 where other pairs would be read back.
#[tactic(auto, using(crate::proofs::Passing::passes))]
pub fn save_strict(
    table: SequenceTracker,
    seqs: &[u64],
    secs: &[i64],
    out: &mut [u8],
) -> Result<usize, Refusal>
    ensures { Saves save_strict_of table seqs.now secs.now out.old result out.new }
{
    check(table, seqs, secs)?;
    let n = table.count;
    let bytes = encode_strict(&seqs[..n], &secs[..n], out)?;
    Ok(bytes)
}
