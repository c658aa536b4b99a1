// A refusal as an answer: its number, and what it also tells.
ghost use Rattle.std.specs.Prelude.{◌≡◌, [], ◌∷◌, ◌++◌};
ghost use Rattle.gorilla.specs.Array.{array_no};
ghost use Rattle.bits.specs.Read.{read_refused};
ghost use Rattle.bits.specs.Write.{write_refused};
ghost use Rattle.code_reader.specs.Refusal as reader;
ghost use Rattle.encoder.specs.Encode as encoding;
ghost use Rattle.tracker.specs.Refusal as table;
ghost use Rattle.dates.specs.Refusal as dating;
ghost use Rattle.questions.specs.Asked as questions;
ghost use Rattle.offer_log.specs.Log as log;
ghost use Rattle.saving.specs.Save as saves;
ghost use Rattle.restoring.specs.Restore as restores;
ghost use Rattle.answers.specs.Answer.{answer_of};

use crate::Answer;
use bits::{Place, ReadRefusal, WriteRefusal};
use gorilla::Array;
use signed::WidthOutside;

impl Answer {
    // The one function that makes an answer: 0 and what is given, or a number and what it also tells, with a place.
    fn at(number: u32, a: u64, b: u64, c: u64, at: Place) -> Answer
        ensures { result ≡ record { number = number; a = a; b = b; c = c; byte = at.byte; bit = at.bit } }
    {
        Answer {
            number,
            a,
            b,
            c,
            byte: at.byte as u64,
            bit: u64::from(at.bit),
        }
    }

    // One with no place.
    pub fn telling(number: u32, a: u64, b: u64, c: u64) -> Answer
        ensures { result ≡ record { number = number; a = a; b = b; c = c; byte = 0; bit = 0 } }
    {
        Answer::at(number, a, b, c, Place { byte: 0, bit: 0 })
    }
}

// Stays: no `From`, since an impl for u64 of another crate's type may not stand here, and gorilla would have it for this one caller.
fn array_no(array: Array) -> u64
    ensures { result ≡ array_no array }
{
    match array {
        Array::Sequences => 0,
        Array::Seconds => 1,
    }
}

// Of the readers.
impl From<decoder::Refusal> for Answer {
    ghost from_gives = { λ why answer. answer ≡ answer_of (reader.told why) };

    fn from(why: decoder::Refusal) -> Answer {
        let number = why.number() as u32;
        match why {
            decoder::Refusal::Empty | decoder::Refusal::Header => Answer::telling(number, 0, 0, 0),
            decoder::Refusal::Version(byte) => Answer::telling(number, u64::from(byte), 0, 0),
            decoder::Refusal::CountDiffers(array) | decoder::Refusal::TooMany(array) => {
                Answer::telling(number, array_no(array), 0, 0)
            }
            decoder::Refusal::CountCut(array, at) | decoder::Refusal::FirstCut(array, at) => {
                Answer::at(number, array_no(array), 0, 0, at)
            }
            decoder::Refusal::CodeEnd(array, i, at) | decoder::Refusal::PrefixCut(array, i, at) => {
                Answer::at(number, array_no(array), i as u64, 0, at)
            }
            decoder::Refusal::DiffCut(array, i, width, at) => {
                Answer::at(number, array_no(array), i as u64, u64::from(width), at)
            }
        }
    }
}

// Of the encoders.
impl From<encoder::Refusal> for Answer {
    ghost from_gives = { λ why answer. answer ≡ answer_of (encoding.told why) };

    fn from(why: encoder::Refusal) -> Answer {
        match why {
            encoder::Refusal::LengthsDiffer => Answer::telling(18, 0, 0, 0),
            encoder::Refusal::TooMany => Answer::telling(19, 0, 0, 0),
            encoder::Refusal::Wide(array, i) => Answer::telling(20, array_no(array), i as u64, 0),
            encoder::Refusal::Room(bytes) => Answer::telling(21, bytes as u64, 0, 0),
        }
    }
}

// Of a table's calls.
impl From<tracker::Refusal> for Answer {
    ghost from_gives = { λ why answer. answer ≡ answer_of (table.told why) };

    fn from(why: tracker::Refusal) -> Answer {
        of_table_and(why, 0)
    }
}

// With what is told after the refusal: a position, or which table it was.
pub fn of_table_and(why: tracker::Refusal, last: u64) -> Answer
    ensures { result ≡ answer_of (table.told why ++ (last ∷ [])) }
{
    let number = why.number() as u32;
    match why {
        tracker::Refusal::SequenceDrops(i)
        | tracker::Refusal::SecondDrops(i)
        | tracker::Refusal::SecondOutside(i) => Answer::telling(number, i as u64, last, 0),
        tracker::Refusal::Disagrees
        | tracker::Refusal::Settings
        | tracker::Refusal::OfferedOutside
        | tracker::Refusal::OfferedDrops
        | tracker::Refusal::TotalsFull => Answer::telling(number, last, 0, 0),
    }
}

// Of sign extension.
impl From<WidthOutside> for Answer {
    ghost from_gives = { λ _ answer. answer ≡ answer_of (23 ∷ []) };

    fn from(_: WidthOutside) -> Answer {
        Answer::telling(23, 0, 0, 0)
    }
}

// Of dates.
impl From<dates::Refusal> for Answer {
    ghost from_gives = { λ why answer. answer ≡ answer_of (dating.told why) };

    fn from(why: dates::Refusal) -> Answer {
        match why {
            dates::Refusal::NotTheGrammar => Answer::telling(25, 0, 0, 0),
            dates::Refusal::NoSuchTime => Answer::telling(26, 0, 0, 0),
            dates::Refusal::Outside => Answer::telling(27, 0, 0, 0),
            dates::Refusal::Room(bytes) => Answer::telling(21, bytes as u64, 0, 0),
        }
    }
}

// Of bits that are read: 24 also tells the bits that are left.
impl From<ReadRefusal> for Answer {
    ghost from_gives = { λ why answer. answer ≡ answer_of (read_refused why) };

    fn from(why: ReadRefusal) -> Answer {
        match why {
            ReadRefusal::Width => Answer::telling(23, 0, 0, 0),
            ReadRefusal::Short(left) => Answer::telling(24, u64::from(left), 0, 0),
        }
    }
}

// Of bits that are written.
impl From<WriteRefusal> for Answer {
    ghost from_gives = { λ why answer. answer ≡ answer_of (write_refused why) };

    fn from(why: WriteRefusal) -> Answer {
        match why {
            WriteRefusal::Width => Answer::telling(23, 0, 0, 0),
            WriteRefusal::Short(bytes) => Answer::telling(21, bytes as u64, 0, 0),
        }
    }
}

// Of many questions.
impl From<questions::Refusal> for Answer {
    ghost from_gives = { λ why answer. answer ≡ answer_of (questions.told why) };

    fn from(why: questions::Refusal) -> Answer {
        match why {
            questions::Refusal::TooMany => Answer::telling(35, 0, 0, 0),
            questions::Refusal::LengthsDiffer => Answer::telling(18, 0, 0, 0),
            questions::Refusal::Table(why) => why.into(),
        }
    }
}

// Of a list of offers.
impl From<offer_log::Refusal> for Answer {
    ghost from_gives = { λ why answer. answer ≡ answer_of (log.told_refusal why) };

    fn from(why: offer_log::Refusal) -> Answer {
        match why {
            offer_log::Refusal::Table(why) => why.into(),
            offer_log::Refusal::Own(why) => of_table_and(why, 0),
            offer_log::Refusal::Other(why) => of_table_and(why, 1),
            offer_log::Refusal::LengthsDiffer => Answer::telling(18, 0, 0, 0),
        }
    }
}

// Of saving.
impl From<saving::Refusal> for Answer {
    ghost from_gives = { λ why answer. answer ≡ answer_of (saves.told_refusal why) };

    fn from(why: saving::Refusal) -> Answer {
        match why {
            saving::Refusal::Table(why) => why.into(),
            saving::Refusal::Encoder(why) => why.into(),
        }
    }
}

// Of restoring.
impl From<restoring::Refusal> for Answer {
    ghost from_gives = { λ why answer. answer ≡ answer_of (restores.told_refusal why) };

    fn from(why: restoring::Refusal) -> Answer {
        match why {
            restoring::Refusal::Table(why) => why.into(),
            restoring::Refusal::Decoder(why) => why.into(),
        }
    }
}
