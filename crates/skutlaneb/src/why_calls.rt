// Why a lookup answers as it does. A `round` of 0 rounds up, any other down.
ghost use Rattle.std.specs.Prelude.{◌≡◌};
ghost use Rattle.explaining.specs.Why.{why_ts, why_seq};
ghost use Rattle.states.specs.State.{table_of, round_of};
ghost use Rattle.why_answers.specs.Why.{of_why_ts, of_why_seq};

use states::State;
use tracker::{Second, Seq};
use why_answers::WhyAnswer;

// The second for a sequence, as `skut_find_ts` gives it, and the reason.
#[unsafe(no_mangle)]
pub extern "C" fn skut_why_ts(
    state: State,
    seqs: &[u64],
    secs: &[i64],
    seq: u64,
    round: u32,
) -> WhyAnswer
    ensures { result ≡ of_why_ts (why_ts (table_of state) seqs.now secs.now (record { 0 = seq }) (round_of round)) }
{
    let table = states::inner::table_of(state);
    let opt = states::inner::round_of(round);
    WhyAnswer::from(explaining::why_ts(table, seqs, secs, Seq(seq), opt))
}

// The sequence for a second, as `skut_find_seq` gives it, and the reason.
#[unsafe(no_mangle)]
pub extern "C" fn skut_why_seq(
    state: State,
    seqs: &[u64],
    secs: &[i64],
    sec: i64,
    round: u32,
) -> WhyAnswer
    ensures { result ≡ of_why_seq (why_seq (table_of state) seqs.now secs.now (record { 0 = sec }) (round_of round)) }
{
    let table = states::inner::table_of(state);
    let opt = states::inner::round_of(round);
    WhyAnswer::from(explaining::why_seq(table, seqs, secs, Second(sec), opt))
}
