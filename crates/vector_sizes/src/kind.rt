// The kinds of records.
ghost use Rattle.vector_sizes.specs.Kind.{IsNamed};

// In the order of compare/FORMAT.md.
#[derive(Clone, Copy, PartialEq, Eq, Debug)]
pub enum Kind {
    Writes,
    Reads,
    Extension,
    List,
    RuledList,
    Image,
    Made,
    Offer,
    Run,
    Shown,
    LongShown,
    Saved,
    Second,
    Seq,
    Extended,
    Restored,
}

// A letter that names no kind.
#[derive(Clone, Copy, PartialEq, Eq, Debug)]
pub struct UnknownKind(pub u8);

impl TryFrom<u8> for Kind {
    type Error = UnknownKind;

    ghost try_from_gives = { IsNamed };

    fn try_from(letter: u8) -> Result<Kind, UnknownKind> {
        Ok(match letter {
            b'W' => Kind::Writes,
            b'B' => Kind::Reads,
            b'N' => Kind::Extension,
            b'E' => Kind::List,
            b'Y' => Kind::RuledList,
            b'D' => Kind::Image,
            b'T' => Kind::Made,
            b'O' => Kind::Offer,
            b'G' => Kind::Run,
            b'S' => Kind::Shown,
            b'H' => Kind::LongShown,
            b'V' => Kind::Saved,
            b'F' => Kind::Second,
            b'K' => Kind::Seq,
            b'X' => Kind::Extended,
            b'R' => Kind::Restored,
            _ => return Err(UnknownKind(letter)),
        })
    }
}
