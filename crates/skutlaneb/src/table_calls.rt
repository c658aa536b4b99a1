// A table: settings, the check, offers, lookups. A second is a signed number, a sequence an unsigned one.
ghost use Rattle.std.specs.Prelude.{◌≡◌};
ghost use Rattle.told.specs.Told.{gave};
ghost use Rattle.fresh.specs.Fresh.{new_table, config_of};
ghost use Rattle.tracker.specs.Table.{check_of};
ghost use Rattle.lookup.specs.Find.{find_ts, find_seq};
ghost use Rattle.answers.specs.Answer.{of_check, of_ts, of_seq};
ghost use Rattle.states.specs.State.{table_of, round_of};
ghost use Rattle.table_answers.specs.Table.{of_table};
ghost use Rattle.skutlaneb.specs.Calls.{SkutOffers, SkutOffersPairs, SkutExtends};

use answers::Answer;
use states::State;
use table_answers::TableAnswer;
use tracker::{Second, Seq};

// An empty table with the default settings.
#[unsafe(no_mangle)]
pub extern "C" fn skut_new() -> TableAnswer
    ensures { result ≡ of_table (gave new_table) }
{
    TableAnswer::from(fresh::new())
}

// An empty table with the settings named.
#[unsafe(no_mangle)]
pub extern "C" fn skut_with_config(capacity: u32, interval_secs: u64) -> TableAnswer
    ensures { result ≡ of_table (config_of capacity interval_secs) }
{
    TableAnswer::from(fresh::with_config(capacity, interval_secs))
}

// What every call on a table checks first. Gives nothing: the number is 0 where the table is good.
#[unsafe(no_mangle)]
pub extern "C" fn skut_check(state: State, seqs: &[u64], secs: &[i64]) -> Answer
    ensures { result ≡ of_check (check_of (table_of state) seqs.now secs.now) }
{
    let table = states::inner::table_of(state);
    Answer::from(tracker::check(table, seqs, secs))
}

// Where it is not refused, one of the three numbers of the tally is 1. Skipped, for either reason, or refused with 16 or 17, nothing of the
// state but a total is another.
#[unsafe(no_mangle)]
pub extern "C" fn skut_offer(
    state: State,
    seqs: &mut [u64],
    secs: &mut [i64],
    seq: u64,
    sec: i64,
) -> TableAnswer
    ensures { SkutOffers state seqs.old secs.old seq sec result seqs.new secs.new }
{
    let table = states::inner::table_of(state);
    let offered = offers::offer(table, seqs, secs, Seq(seq), Second(sec));
    TableAnswer::from(offered)
}

// A list of offers: two lists of one length. Stopped at a record, the answer tells its position.
#[unsafe(no_mangle)]
pub extern "C" fn skut_offer_pairs(
    state: State,
    seqs: &mut [u64],
    secs: &mut [i64],
    from_seqs: &[u64],
    from_secs: &[i64],
) -> TableAnswer
    ensures { SkutOffersPairs state seqs.old secs.old from_seqs.now from_secs.now
        result seqs.new secs.new }
{
    let table = states::inner::table_of(state);
    TableAnswer::from(log_pairs::offer_pairs(table, seqs, secs, from_seqs, from_secs))
}

// The pairs that another table keeps, offered. A bad table's refusal also tells, last, which it was: 0 the own, 1 the other.
#[unsafe(no_mangle)]
pub extern "C" fn skut_extend_from(
    state: State,
    seqs: &mut [u64],
    secs: &mut [i64],
    other: State,
    other_seqs: &[u64],
    other_secs: &[i64],
) -> TableAnswer
    ensures { SkutExtends state seqs.old secs.old other other_seqs.now other_secs.now
        result seqs.new secs.new }
{
    let table = states::inner::table_of(state);
    let from = states::inner::table_of(other);
    let logged = log_pairs::extend_from(table, seqs, secs, from, other_seqs, other_secs);
    TableAnswer::from(logged)
}

// Gives 1 and the second for a sequence, by its 64 bits, or 0. A `round` of 0 rounds up, any other down.
#[unsafe(no_mangle)]
pub extern "C" fn skut_find_ts(
    state: State,
    seqs: &[u64],
    secs: &[i64],
    seq: u64,
    round: u32,
) -> Answer
    ensures { result ≡ of_ts (find_ts (table_of state) seqs.now secs.now (record { 0 = seq }) (round_of round)) }
{
    let table = states::inner::table_of(state);
    let opt = states::inner::round_of(round);
    Answer::from(lookup::find_ts(table, seqs, secs, Seq(seq), opt))
}

// Gives 1 and the sequence for a second, or 0.
#[unsafe(no_mangle)]
pub extern "C" fn skut_find_seq(
    state: State,
    seqs: &[u64],
    secs: &[i64],
    sec: i64,
    round: u32,
) -> Answer
    ensures { result ≡ of_seq (find_seq (table_of state) seqs.now secs.now (record { 0 = sec }) (round_of round)) }
{
    let table = states::inner::table_of(state);
    let opt = states::inner::round_of(round);
    Answer::from(lookup::find_seq(table, seqs, secs, Second(sec), opt))
}
