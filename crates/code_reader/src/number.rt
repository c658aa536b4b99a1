// The number of a refusal, docs/RULES.md, "Refusals".
ghost use Rattle.std.specs.Prelude.{◌≡◌, get_or};
ghost use Rattle.code_reader.specs.Refusal.{told};

use crate::Refusal;

impl Refusal {
    pub fn number(self) -> u64
        ensures { result ≡ get_or (told self) 0 0 }
    {
        match self {
            Refusal::Empty => 1,
            Refusal::Version(_) => 2,
            Refusal::Header => 3,
            Refusal::CountCut(_, _) => 4,
            Refusal::FirstCut(_, _) => 5,
            Refusal::CodeEnd(_, _, _) => 6,
            Refusal::PrefixCut(_, _, _) => 7,
            Refusal::DiffCut(_, _, _, _) => 8,
            Refusal::CountDiffers(_) => 9,
            Refusal::TooMany(_) => 10,
        }
    }
}
