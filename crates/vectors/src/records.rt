// One record of any kind, replayed.
use tracker::SequenceTracker;
use vector_bits as bit_records;
use vector_bytes::Body;
use vector_codec::{image_records, list_records};
use vector_sizes::kind::Kind;
use vector_tables::table_records::Changed;
use vector_tables::{table_records, view_records};
use vector_tally::{Question, Tally};

// The table after a record that changes it, whose answer is counted.
fn noted(tally: &mut Tally, question: Question, changed: Changed) -> SequenceTracker {
    tally.note(question, changed.agreed);
    changed.table
}

// Counts the answers of a record of any kind, and gives the table after it.
pub fn replay(
    kind: Kind,
    body: Body<'_>,
    table: SequenceTracker,
    seqs: &mut [u64],
    secs: &mut [i64],
    tally: &mut Tally,
) -> SequenceTracker {
    match kind {
        Kind::Writes => bit_records::writes(body, tally),
        Kind::Reads => bit_records::reads(body, tally),
        Kind::Extension => bit_records::extension(body, tally),
        Kind::List => list_records::listed(body, tally),
        Kind::RuledList => list_records::ruled(body, tally),
        Kind::Image => image_records::image(body, tally),
        Kind::Shown | Kind::LongShown => {
            let agreed = view_records::shown_so(body, table, seqs, secs);
            tally.note(Question::Tables, agreed);
        }
        Kind::Saved => {
            let agreed = view_records::saved_so(body, table, seqs, secs);
            tally.note(Question::Saves, agreed);
        }
        Kind::Second => {
            let agreed = view_records::second_so(body, table, seqs, secs);
            tally.note(Question::Lookups, agreed);
        }
        Kind::Seq => {
            let agreed = view_records::seq_so(body, table, seqs, secs);
            tally.note(Question::Lookups, agreed);
        }
        Kind::Made => {
            return noted(tally, Question::Tables, table_records::made(body, table));
        }
        Kind::Offer => {
            let changed = table_records::offered(body, table, seqs, secs);
            return noted(tally, Question::Offers, changed);
        }
        Kind::Run => {
            let changed = table_records::run(body, table, seqs, secs);
            return noted(tally, Question::Runs, changed);
        }
        Kind::Extended => {
            let changed = table_records::extended(body, table, seqs, secs);
            return noted(tally, Question::Extends, changed);
        }
        Kind::Restored => {
            let changed = table_records::restored(body, table, seqs, secs);
            return noted(tally, Question::Restores, changed);
        }
    }
    table
}
