// A table saved as an image, and restored from one.
ghost use Rattle.saving.specs.Save.{save_of, save_strict_of};
ghost use Rattle.restoring.specs.Restore.{restore_of, restore_at};
ghost use Rattle.skutlaneb.specs.Calls.{SkutSaves, SkutRestores};

use answers::Answer;
use states::State;
use table_answers::TableAnswer;

// Gives the bytes written.
#[unsafe(no_mangle)]
pub extern "C" fn skut_save(state: State, seqs: &[u64], secs: &[i64], out: &mut [u8]) -> Answer
    ensures { SkutSaves save_of state seqs.now secs.now out.old result out.new }
{
    let table = states::inner::table_of(state);
    Answer::from(saving::save(table, seqs, secs, out))
}

// Gives the bytes written.
#[unsafe(no_mangle)]
pub extern "C" fn skut_save_strict(
    state: State,
    seqs: &[u64],
    secs: &[i64],
    out: &mut [u8],
) -> Answer
    ensures { SkutSaves save_strict_of state seqs.now secs.now out.old result out.new }
{
    let table = states::inner::table_of(state);
    Answer::from(saving::save_strict(table, seqs, secs, out))
}

// The table has the default settings. Needs 130 KB of stack: two arrays of 8,192 are its own.
#[unsafe(no_mangle)]
pub extern "C" fn skut_restore(bytes: &[u8], seqs: &mut [u64], secs: &mut [i64]) -> TableAnswer
    ensures { SkutRestores restore_of bytes.now seqs.old secs.old result seqs.new secs.new }
{
    TableAnswer::from(restoring::restore(bytes, seqs, secs))
}

// The same with the interval that is named. Needs as much stack.
#[unsafe(no_mangle)]
pub extern "C" fn skut_restore_with_interval(
    bytes: &[u8],
    seqs: &mut [u64],
    secs: &mut [i64],
    interval_secs: u64,
) -> TableAnswer
    ensures { SkutRestores (restore_at interval_secs) bytes.now seqs.old secs.old result seqs.new secs.new }
{
    TableAnswer::from(restoring::restore_with_interval(bytes, seqs, secs, interval_secs))
}
