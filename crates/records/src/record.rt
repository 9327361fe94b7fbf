// The records of a plan file.
ghost use Rattle.std.specs.Prelude.{Some};
ghost use Rattle.records.specs.Texts.{unknown_text};

use std::error::Error;
use std::fmt;

// The kind of a record, told by its first byte.
#[derive(Clone, Copy, PartialEq, Eq, Debug)]
pub enum Kind {
    Engine,
    Card,
    Mode,
    Band,
    Timed,
    Recost,
    Cut,
    Drop,
    Judge,
}

// A byte that stands for no kind.
#[derive(Clone, Copy, PartialEq, Eq, Debug)]
pub struct UnknownKind(pub u8);

impl fmt::Display for UnknownKind {
    ghost output = { λ e. Some (unknown_text e) };

    fn fmt<W: fmt::Write>(&self, f: &mut fmt::Formatter<W>) -> fmt::Result {
        write!(f, "no kind of record has the byte {}", self.0)
    }
}

impl Error for UnknownKind {}

// A record with its numbers.
#[derive(Clone, Copy, PartialEq, Eq, Debug)]
pub enum Record {
    Engine {
        least: u32,
        greatest: u32,
        rise: u16,
        fall: u16,
        entry: u16,
    },
    Card {
        number: u8,
        angle: u32,
        share: u16,
        modes: u8,
        bands: u8,
    },
    Mode {
        lower: u32,
        cost: u32,
    },
    Band {
        lower: u32,
    },
    Timed {
        number: u8,
        period: u32,
        deadline: u32,
        cost: u32,
    },
    Recost {
        number: u8,
        index: u8,
        cost: u32,
    },
    Cut {
        number: u8,
        speed: u32,
    },
    Drop {
        number: u8,
    },
    Judge {
        horizon: u32,
    },
}
