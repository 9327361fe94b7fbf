// The lines that weigh prints.
ghost use Rattle.std.specs.Prelude.{◌≡◌, Some};
ghost use Rattle.weighing.specs.declared.line.Line.TheVariants as lines;
ghost use Rattle.weighing.specs.Lines.{line_text, verdict_line};
ghost use Rattle.weighing.specs.Turns.{fault_line};

use deck::verdict::Verdict;
use planfile::faults::FileFault;
use refusal::Refusal;
use std::fmt;

// Flat: a Verdict inside would bring a tag of its own, and each line would take half as much again.
#[derive(Clone, Copy, PartialEq, Eq, Debug)]
pub enum Line {
    // a change was made
    Done,
    // the plan fits to the horizon
    Fits { horizon: u32 },
    // the least window length that is demanded too much, and that demand
    Over { at: u32, total: u64 },
    // a refusal, and the byte place of the record
    No { refusal: Refusal, at: usize },
}

impl fmt::Display for Line {
    ghost output = { λ l. Some (line_text l) };

    fn fmt<W: fmt::Write>(&self, f: &mut fmt::Formatter<W>) -> fmt::Result {
        match self {
            Line::Done => write!(f, "ok"),
            Line::Fits { horizon } => write!(f, "fits {horizon}"),
            Line::Over { at, total } => write!(f, "over {at} {total}"),
            Line::No { refusal, at } => write!(f, "no {refusal} at {at}"),
        }
    }
}

// The line of a change that was made.
impl From<()> for Line {
    ghost from_gives = { λ _ line. line ≡ lines.Done };

    fn from(_made: ()) -> Line {
        Line::Done
    }
}

// The line of a verdict.
impl From<Verdict> for Line {
    ghost from_gives = { λ verdict line. line ≡ verdict_line verdict };

    fn from(verdict: Verdict) -> Line {
        match verdict {
            Verdict::Fits { horizon } => Line::Fits { horizon },
            Verdict::Over { at, total } => Line::Over { at, total },
        }
    }
}

// The line of a fault.
impl From<FileFault> for Line {
    ghost from_gives = { λ fault line. line ≡ fault_line fault };

    fn from(fault: FileFault) -> Line {
        Line::No {
            refusal: fault.refusal,
            at: fault.at,
        }
    }
}
