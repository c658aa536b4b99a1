// Records that change the standing table: T, O, G, X and R.
use offer_log::{Logged, Refusal};
use offers::Offered;
use tallies::Tally;
use totals::Totals;
use tracker::{Second, Seq, SequenceTracker};
use vector_bodies::lists::{MOST, make, rule_of};
use vector_bytes::Body;
use vector_lists::{first, read_pairs};
use vector_outcomes::{Told, refused_so};

// The table after a record, and whether the record's answer was met.
// Stays: the table goes on after an answer that differs, too, so it is no answer that the flag says to be there.
#[derive(Clone, Copy)]
pub struct Changed {
    pub table: SequenceTracker,
    pub agreed: bool,
}

// The interval of every table that slatedb restores. Ours is another by default, so it is named.
const SLATEDB_INTERVAL_SECS: u64 = 60;

// What became of offers: how many were recorded, went back and came too soon, and the number of the refusal of the one after them, if any.
#[derive(Clone, Copy, PartialEq, Eq)]
struct Outcome {
    recorded: usize,
    went_back: usize,
    too_soon: usize,
    refused: Option<u64>,
}

impl Outcome {
    fn of(tally: Tally, refused: Option<u64>) -> Outcome {
        Outcome {
            recorded: tally.recorded,
            went_back: tally.went_back,
            too_soon: tally.too_soon,
            refused,
        }
    }

    // That of one offer, by the number that a record O has: 0 recorded, 1 went back, 2 too soon, else a refusal.
    fn of_one(number: u64) -> Outcome {
        Outcome {
            recorded: usize::from(number == 0),
            went_back: usize::from(number == 1),
            too_soon: usize::from(number == 2),
            refused: if number > 2 { Some(number) } else { None },
        }
    }

    // Whether the totals grew by these counts, and that of refused offers by one where one was refused: slatedb has no totals, so they are
    // held to what it answered.
    fn grew_so(self, before: Totals, now: Totals) -> bool {
        let refused = usize::from(self.refused.is_some());
        (now.recorded == before.recorded.wrapping_add(self.recorded as u64))
            & (now.went_back == before.went_back.wrapping_add(self.went_back as u64))
            & (now.too_soon == before.too_soon.wrapping_add(self.too_soon as u64))
            & (now.refused == before.refused.wrapping_add(refused as u64))
    }
}

// The table after offers, of which a record tells an outcome; before them it had these totals.
fn compared(before: Totals, table: SequenceTracker, told: Outcome, came: Outcome) -> Changed {
    Changed {
        table,
        agreed: (came == told) & told.grew_so(before, table.totals),
    }
}

pub fn made(mut body: Body<'_>, table: SequenceTracker) -> Changed {
    match fresh::with_config(body.read(), body.read()) {
        Ok(table) => Changed {
            table,
            agreed: true,
        },
        Err(_) => Changed {
            table,
            agreed: false,
        },
    }
}

pub fn offered(
    mut body: Body<'_>,
    table: SequenceTracker,
    seqs: &mut [u64],
    secs: &mut [i64],
) -> Changed {
    let before = table.totals;
    let (table, number) = match offers::offer(
        table,
        seqs,
        secs,
        Seq(body.read()),
        Second(body.read()),
    ) {
        Ok(Offered::Recorded(next)) => (next, 0),
        Ok(Offered::WentBack(next)) => (next, 1),
        Ok(Offered::TooSoon(next)) => (next, 2),
        Ok(Offered::PairRefused { why, table }) => (table, why.number()),
        Err(_) => {
            return Changed {
                table,
                agreed: false,
            };
        }
    };
    let told: u8 = body.read();
    compared(
        before,
        table,
        Outcome::of_one(told.into()),
        Outcome::of_one(number),
    )
}

// A list's outcome against what a record tells; a refusal has to be that of the offer after those that were counted.
fn ran_so(table: SequenceTracker, logged: Result<Logged, Refusal>, told: Outcome) -> Changed {
    let before = table.totals;
    match logged {
        Ok(Logged::Done { table, tally }) => {
            compared(before, table, told, Outcome::of(tally, None))
        }
        Ok(
            Logged::Stopped {
                at,
                why,
                table,
                tally,
            },
        ) => {
            let came = Outcome::of(tally, Some(why.number()));
            let counted = tally
                .recorded
                .wrapping_add(tally.went_back)
                .wrapping_add(tally.too_soon);
            let done = compared(before, table, told, came);
            Changed {
                table,
                agreed: done.agreed & (at == counted),
            }
        }
        Err(_) => Changed {
            table,
            agreed: false,
        },
    }
}

// The number of a refusal, if any: 0 is none.
fn refused_by(number: u8) -> Option<u64> {
    if number == 0 {
        None
    } else {
        Some(number.into())
    }
}

// Stays: there is no heap, so the pairs stand in arrays of the most that there may be, here and below.
pub fn run(
    mut body: Body<'_>,
    table: SequenceTracker,
    seqs: &mut [u64],
    secs: &mut [i64],
) -> Changed {
    let mut from_seqs = [0u64; MOST];
    let mut from_secs = [0i64; MOST];
    let rule = rule_of(&mut body);
    make(rule, &mut from_seqs, &mut from_secs);
    let logged = log_pairs::offer_pairs(
        table,
        seqs,
        secs,
        first(&from_seqs, rule.count),
        first(&from_secs, rule.count),
    );
    let recorded: u32 = body.read();
    let went_back: u32 = body.read();
    let too_soon: u32 = body.read();
    let told = Outcome {
        recorded: recorded as usize,
        went_back: went_back as usize,
        too_soon: too_soon as usize,
        refused: refused_by(body.read()),
    };
    ran_so(table, logged, told)
}

pub fn extended(
    mut body: Body<'_>,
    table: SequenceTracker,
    seqs: &mut [u64],
    secs: &mut [i64],
) -> Changed {
    let mut from_seqs = [0u64; 8192];
    let mut from_secs = [0i64; 8192];
    let capacity: u32 = body.read();
    let interval_secs: u64 = body.read();
    let count = usize::from(body.read::<u8>());
    read_pairs(&mut body, count, &mut from_seqs, &mut from_secs);
    let other = SequenceTracker {
        count,
        capacity,
        interval_secs,
        last_recorded_ts: first(&from_secs, count).last().map(|s| Second(*s)),
        totals: totals::inner::no_totals(),
    };
    let logged = log_pairs::extend_from(table, seqs, secs, other, &from_seqs, &from_secs);
    let recorded: u16 = body.read();
    let went_back: u16 = body.read();
    let too_soon: u16 = body.read();
    let told = Outcome {
        recorded: recorded.into(),
        went_back: went_back.into(),
        too_soon: too_soon.into(),
        refused: refused_by(body.read()),
    };
    ran_so(table, logged, told)
}

// Whether no offer is counted yet.
fn none_counted(totals: Totals) -> bool {
    (totals.recorded == 0)
        & (totals.went_back == 0)
        & (totals.too_soon == 0)
        & (totals.refused == 0)
}

pub fn restored(
    mut body: Body<'_>,
    table: SequenceTracker,
    seqs: &mut [u64],
    secs: &mut [i64],
) -> Changed {
    let told = Told::read(&mut body);
    let capacity: u32 = body.read();
    let interval_secs: u64 = body.read();
    let stop = body;
    body.part(8);
    let restored = restoring::restore_with_interval(body.left, seqs, secs, SLATEDB_INTERVAL_SECS);
    let (table, answered) = match restored {
        Ok(next) => (next, told.is_none() & none_counted(next.totals)),
        Err(restoring::Refusal::Table(why)) => {
            let answered = told
                == Some(Told {
                    number: why.number(),
                    tells: 0,
                });
            (table, answered)
        }
        Err(restoring::Refusal::Decoder(why)) => (table, refused_so(why, told, stop)),
    };
    let settings = (table.capacity == capacity) & (table.interval_secs == interval_secs);
    Changed {
        table,
        agreed: settings & answered,
    }
}
