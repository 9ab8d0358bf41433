// Why a sheet is refused.
ghost use Rattle.std.specs.Prelude.{◌≡◌};
ghost use Rattle.words.specs.Faults.{sheet_refusal};

use refusal::Refusal;

// Each case but the first holds the place of a byte, counted from 0.
#[derive(Clone, Copy, PartialEq, Eq, Debug)]
pub enum SheetFault {
    TooLong,
    BadByte(usize),
    NoWord(usize),
    WrongSection(usize),
    NoNumber(usize),
    OutOfRange(usize),
    BadLink(usize),
    BadTurn(usize),
    Overfull(usize),
    RepeatedPlace(usize),
}

// The question that was answered no, and its place.
impl From<SheetFault> for Refusal {
    ghost from_gives = { λ e r. r ≡ sheet_refusal e };

    fn from(fault: SheetFault) -> Refusal {
        let (number, a) = match fault {
            SheetFault::TooLong => (1, 0),
            SheetFault::BadByte(place) => (2, place),
            SheetFault::NoWord(place) => (3, place),
            SheetFault::WrongSection(place) => (4, place),
            SheetFault::NoNumber(place) => (5, place),
            SheetFault::OutOfRange(place) => (6, place),
            SheetFault::BadLink(place) => (7, place),
            SheetFault::BadTurn(place) => (8, place),
            SheetFault::Overfull(place) => (9, place),
            SheetFault::RepeatedPlace(place) => (10, place),
        };
        Refusal { number, a, b: 0 }
    }
}
