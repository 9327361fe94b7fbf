// Faults, which gather what a refusal was about on their way out: the record, then its place.
ghost use Rattle.std.specs.Prelude.{◌≡◌};
ghost use Rattle.planfile.specs.Faults.{placed, record_fault, file_fault, kind_fault};

use records::head::Head;
use records::record::{Kind, UnknownKind};
use refusal::Refusal;

// A refusal of a record. No In<Head, Refusal>: callers read a kind and a card, and no context.
#[derive(Clone, Copy, PartialEq, Eq, Debug)]
pub struct RecordFault {
    pub kind: Kind,
    pub card: Option<u8>,
    pub refusal: Refusal,
}

// A refusal of a file, with the place of the kind byte; no kind where that byte stands for none.
#[derive(Clone, Copy, PartialEq, Eq, Debug)]
pub struct FileFault {
    pub at: usize,
    pub kind: Option<Kind>,
    pub card: Option<u8>,
    pub refusal: Refusal,
}

// A fault and what it came up in.
#[derive(Clone, Copy, PartialEq, Eq, Debug)]
pub struct In<C, F> {
    pub context: C,
    pub fault: F,
}

// An answer whose fault also says what it came up in.
pub fn within<C: Drop, T, F>(context: C, answer: Result<T, F>) -> Result<T, In<C, F>>
    ensures { result ≡ placed context answer }
{
    answer.map_err(|fault| In { context, fault })
}

impl From<In<Head, Refusal>> for RecordFault {
    ghost from_gives = { λ i r. r ≡ record_fault i };

    fn from(i: In<Head, Refusal>) -> RecordFault {
        RecordFault {
            kind: i.context.kind,
            card: i.context.card,
            refusal: i.fault,
        }
    }
}

impl From<In<usize, RecordFault>> for FileFault {
    ghost from_gives = { λ i r. r ≡ file_fault i };

    fn from(i: In<usize, RecordFault>) -> FileFault {
        FileFault {
            at: i.context,
            kind: Some(i.fault.kind),
            card: i.fault.card,
            refusal: i.fault.refusal,
        }
    }
}

impl From<In<usize, UnknownKind>> for FileFault {
    ghost from_gives = { λ i r. r ≡ kind_fault i };

    fn from(i: In<usize, UnknownKind>) -> FileFault {
        FileFault {
            at: i.context,
            kind: None,
            card: None,
            refusal: Refusal::UnknownKind,
        }
    }
}
