// What a record says of itself.
ghost use Rattle.std.specs.Prelude.{◌≡◌};
ghost use Rattle.records.specs.Heads.{head_of};

use crate::record::{Kind, Record};

// The kind of a record, and its card's number, if it names one.
#[derive(Clone, Copy, PartialEq, Eq, Debug)]
pub struct Head {
    pub kind: Kind,
    pub card: Option<u8>,
}

impl Record {
    // What this record says of itself.
    pub fn head(self) -> Head
        ensures { result ≡ head_of self }
    {
        let (kind, card) = match self {
            Record::Engine { .. } => (Kind::Engine, None),
            Record::Card { number, .. } => (Kind::Card, Some(number)),
            Record::Mode { .. } => (Kind::Mode, None),
            Record::Band { .. } => (Kind::Band, None),
            Record::Timed { number, .. } => (Kind::Timed, Some(number)),
            Record::Recost { number, .. } => (Kind::Recost, Some(number)),
            Record::Cut { number, .. } => (Kind::Cut, Some(number)),
            Record::Drop { number } => (Kind::Drop, Some(number)),
            Record::Judge { .. } => (Kind::Judge, None),
        };
        Head { kind, card }
    }
}
