// How many answers of the Rust were met and how many were not, by what was asked. For the program `vectors` and the crates beside it.
#![tactic(auto)]

ghost use Rattle.std.specs.Prelude.{◌≡◌};
ghost use Rattle.vector_tally.specs.Tally.{nothing, counted, noted};

use std::{fmt, io};

// What a record asks.
#[derive(Clone, Copy)]
pub enum Question {
    Writes,
    Reads,
    Extensions,
    Encodings,
    Readbacks,
    Decodings,
    Lengths,
    Offers,
    Tables,
    Lookups,
    Saves,
    Runs,
    Extends,
    Restores,
}

// All of them, as they are printed.
const QUESTIONS: [Question; 14] = [
    Question::Writes,
    Question::Reads,
    Question::Extensions,
    Question::Encodings,
    Question::Readbacks,
    Question::Decodings,
    Question::Lengths,
    Question::Offers,
    Question::Tables,
    Question::Lookups,
    Question::Saves,
    Question::Runs,
    Question::Extends,
    Question::Restores,
];

impl fmt::Display for Question {
    fn fmt<W: fmt::Write>(&self, f: &mut fmt::Formatter<W>) -> fmt::Result {
        f.write_str(match self {
            Question::Writes => "writes",
            Question::Reads => "reads",
            Question::Extensions => "extensions",
            Question::Encodings => "encodings",
            Question::Readbacks => "readbacks",
            Question::Decodings => "decodings",
            Question::Lengths => "lengths",
            Question::Offers => "offers",
            Question::Tables => "tables",
            Question::Lookups => "lookups",
            Question::Saves => "saves",
            Question::Runs => "runs",
            Question::Extends => "extends",
            Question::Restores => "restores",
        })
    }
}

// How many answers agreed and how many differed.
#[derive(Clone, Copy)]
pub struct Count {
    pub agreed: u64,
    pub differed: u64,
}

impl Count {
    fn note(&mut self, agreed: bool)
        ensures { self.new ≡ counted self.old agreed }
    {
        if agreed {
            self.agreed = self.agreed.wrapping_add(1);
        } else {
            self.differed = self.differed.wrapping_add(1);
        }
    }
}

impl fmt::Display for Count {
    fn fmt<W: fmt::Write>(&self, f: &mut fmt::Formatter<W>) -> fmt::Result {
        write!(f, "agreed {} differed {}", self.agreed, self.differed)
    }
}

// The counts of each question, and their sums.
#[derive(Clone, Copy)]
pub struct Tally {
    pub questions: [Count; 14],
    pub all: Count,
}

impl Tally {
    pub fn new() -> Tally
        ensures { result ≡ nothing }
    {
        let none = Count {
            agreed: 0,
            differed: 0,
        };
        Tally {
            questions: [none; 14],
            all: none,
        }
    }

    // One more answer compared.
    pub fn note(&mut self, question: Question, agreed: bool)
        ensures { self.new ≡ noted self.old question agreed }
    {
        self.questions[question as usize].note(agreed);
        self.all.note(agreed);
    }
}

// First a line that says that some answers differ, if some do.
impl fmt::Display for Tally {
    fn fmt<W: fmt::Write>(&self, f: &mut fmt::Formatter<W>) -> fmt::Result {
        let Count { agreed, differed } = self.all;
        if differed != 0 {
            let all = agreed.wrapping_add(differed);
            writeln!(f, "failed: {differed} of {all} answers differ")?;
        }
        for (question, count) in QUESTIONS.iter().zip(&self.questions) {
            writeln!(f, "{question} {count}")?;
        }
        writeln!(f, "answers {}", self.all)
    }
}

// Ends at the first write that fails.
pub fn print(rt: &impl Print, tally: &Tally) -> io::Result<()> {
    print!(rt; "{tally}")
}
