#![tactic(auto)]
// The refusals of every call, one number each.
ghost use Rattle.std.specs.Prelude.{◌≡◌, Some, decimal};
ghost use Rattle.refusal.specs.Numbers.{number as numbered};

use std::error::Error;
use std::fmt;

// Why a call, or the reading of a plan file, was refused, with the number by which users know it.
#[derive(Clone, Copy, PartialEq, Eq, Debug)]
pub enum Refusal {
    // an engine outside its limits
    EngineLimits = 1,
    // a card number that is 0 or in use
    NumberTaken = 2,
    // no place for this sort of card
    NoPlace = 3,
    // an angle outside its limits
    AngleLimits = 4,
    // a mode list that is wrong, or an index without a mode
    ModeList = 5,
    // a band list that is wrong, or a cut that cannot be made
    BandList = 6,
    // a share, a period, a deadline or a cost outside its limits
    ValueLimits = 7,
    // no card of this number
    NoSuchCard = 8,
    // a horizon outside its limits
    HorizonLimits = 9,
    // lent memory that is too short, or an input that is too long
    ShortMemory = 10,
    // a record kind that is unknown
    UnknownKind = 11,
    // a record or a card that is cut short
    CutShort = 12,
    // a record out of turn, or an engine where cards are present
    OutOfTurn = 13,
}

impl Refusal {
    // The number by which users know this refusal.
    pub fn number(self) -> u8
        ensures { result ≡ numbered self }
    {
        self as u8
    }
}

impl From<Refusal> for u8 {
    ghost from_gives = { λ refusal n. n ≡ numbered refusal };

    fn from(refusal: Refusal) -> u8 {
        refusal.number()
    }
}

// A refusal is written as its number.
impl fmt::Display for Refusal {
    ghost output = { λ refusal. Some (decimal (numbered refusal)) };

    fn fmt<W: fmt::Write>(&self, f: &mut fmt::Formatter<W>) -> fmt::Result {
        write!(f, "{}", self.number())
    }
}

impl Error for Refusal {}
