ghost use Rattle.std.specs.Prelude.{◌≡◌};
ghost use Rattle.formats.specs.Refusals.{number, line};

use crate::refusal::Refusal;

impl Refusal {
    // The number that users know the reason by: FAIL lines and C programs have it, so it is written out here and follows
    // no order of variants.
    pub fn number(&self) -> u32
        ensures { result ≡ number self.now }
    {
        match self {
            Refusal::BadLine(_) => 1,
            Refusal::WrongKind(_) => 2,
            Refusal::BadNumber(_) => 3,
            Refusal::OutOfRange(_) => 4,
            Refusal::WrongLetter(_) => 5,
            Refusal::SameEnds(_) => 6,
            Refusal::TrailingBytes(_) => 7,
            Refusal::NoSuchPipe => 8,
            Refusal::FewPlaces | Refusal::LittleSpace => 9,
            Refusal::AlreadyOpen => 11,
            Refusal::AlreadyClosed => 12,
        }
    }

    // The line that is concerned, or 0 if none is: a FAIL line has a number there in either case.
    pub fn line(&self) -> usize
        ensures { result ≡ line self.now }
    {
        match self {
            Refusal::BadLine(line)
            | Refusal::WrongKind(line)
            | Refusal::BadNumber(line)
            | Refusal::OutOfRange(line)
            | Refusal::WrongLetter(line)
            | Refusal::SameEnds(line)
            | Refusal::TrailingBytes(line) => *line,
            Refusal::NoSuchPipe
            | Refusal::FewPlaces
            | Refusal::LittleSpace
            | Refusal::AlreadyOpen
            | Refusal::AlreadyClosed => 0,
        }
    }
}
