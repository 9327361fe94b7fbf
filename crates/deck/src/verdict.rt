// What a judging answers.
ghost use Rattle.std.specs.Prelude.{Some};
ghost use Rattle.deck.specs.Texts.{verdict_text};

use std::fmt;

#[derive(Clone, Copy, PartialEq, Eq, Debug)]
pub enum Verdict {
    // no window up to the horizon demands more than its length
    Fits { horizon: u32 },
    // the least window length that is demanded too much, and that demand
    Over { at: u32, total: u64 },
}

impl fmt::Display for Verdict {
    ghost output = { λ v. Some (verdict_text v) };

    fn fmt<W: fmt::Write>(&self, f: &mut fmt::Formatter<W>) -> fmt::Result {
        match self {
            Verdict::Fits { horizon } => write!(f, "fits {horizon}"),
            Verdict::Over { at, total } => write!(f, "over {at} {total}"),
        }
    }
}
