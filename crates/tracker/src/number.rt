// The number of a refusal, docs/RULES.md, "Refusals".
ghost use Rattle.std.specs.Prelude.{◌≡◌, get_or};
ghost use Rattle.tracker.specs.Refusal.{told};

use crate::Refusal;

impl Refusal {
    pub fn number(self) -> u64
        ensures { result ≡ get_or (told self) 0 0 }
    {
        match self {
            Refusal::SequenceDrops(_) => 11,
            Refusal::SecondDrops(_) => 12,
            Refusal::SecondOutside(_) => 13,
            Refusal::Disagrees => 14,
            Refusal::Settings => 15,
            Refusal::OfferedOutside => 16,
            Refusal::OfferedDrops => 17,
            Refusal::TotalsFull => 31,
        }
    }
}
