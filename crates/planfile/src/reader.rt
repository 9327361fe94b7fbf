// The reader: hands out a file's records one after another, from bytes that the caller keeps.
ghost use Rattle.std.specs.Prelude.{◌≡◌, ◌≤◌, length};
ghost use Rattle.planfile.specs.Reading.{known};
ghost use Rattle.planfile.specs.Faults.{one, in_record};
ghost use Rattle.planfile.specs.Places.{read_at, at_after, state_after};
ghost use Rattle.planfile.specs.declared.turns.Open.TheVariants as opens;

use crate::faults::{FileFault, RecordFault, within};
use crate::turns::Open;
use records::head::Head;
use records::record::{Kind, Record};
use refusal::Refusal;

// A place in a file's bytes, and what stands open there.
#[derive(Drop)]
pub struct Reader<'a> {
    bytes: &'a [u8],
    at: usize,
    state: Open,
    ghost ok: { at ≤ length bytes.now },
}

impl<'a> Reader<'a> {
    // A reader at the start of these bytes.
    pub fn new(bytes: &'a [u8]) -> Reader<'a>
        ensures bytes { result.bytes.now ≡ bytes.now }
        ensures place { (result.at ≡ 0) × (result.state ≡ opens.Start) }
    {
        Reader {
            bytes,
            at: 0,
            state: Open::Start,
        }
    }

    // The place of the next record's kind byte.
    pub fn at(&self) -> usize
        ensures { result ≡ self.now.at }
    {
        self.at
    }

    // What stands open at this place.
    pub fn state(&self) -> Open
        ensures { result ≡ self.now.state }
    {
        self.state
    }

    // The next record, or nothing at the end of the bytes; at a fault the reader stays where it is.
    pub fn next(&mut self) -> Result<Option<Record>, FileFault>
        ensures what { result ≡ read_at self.old.state self.old.at self.old.bytes.now }
        ensures place { self.new.at ≡ at_after self.old.at result }
        ensures state { self.new.state ≡ state_after self.old.state result }
        ensures bytes { self.new.bytes.now ≡ self.old.bytes.now }
    {
        match &self.bytes[self.at..] {
            [] => Ok(None),
            [byte, body @ ..] => {
                let kind = within(self.at, Kind::try_from(*byte))?;
                let record = within(self.at, self.state.read(kind, body))?;
                self.at += 1 + kind.body_length();
                self.state = self.state.after(record);
                Ok(Some(record))
            }
        }
    }
}

impl Open {
    // The record of a known kind at the front of the bytes, with a refusal as that record's fault.
    fn read(self, kind: Kind, body: &[u8]) -> Result<Record, RecordFault>
        ensures { one result ≡ in_record kind (known self kind body.now) }
    {
        Ok(within(Head { kind, card: None }, self.whole_in_turn(kind, body))?)
    }

    // The record of a known kind at the front of the bytes, if it is whole and in turn.
    fn whole_in_turn(self, kind: Kind, body: &[u8]) -> Result<Record, Refusal>
        ensures { one result ≡ known self kind body.now }
    {
        let record = kind.decode(body).ok_or(Refusal::CutShort)?;
        if self.in_turn(kind) {
            Ok(record)
        } else {
            Err(Refusal::OutOfTurn)
        }
    }
}
