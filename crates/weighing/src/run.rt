// The run of a file against a new plan.
ghost use Rattle.std.specs.Prelude.{◌≡◌, ◌++◌, IfOk, OnOk};
ghost use Rattle.std.specs.Option.{option_to_list};
ghost use Rattle.plan.specs.Standing.{new_plan, stands};
ghost use Rattle.planfile.specs.declared.turns.Open.TheVariants as opens;
ghost use Rattle.weighing.specs.Pending.{pending_of, no_card};
ghost use Rattle.weighing.specs.Running.{fault_place, ends as ends_reading, Prints, Weighed};
ghost use Rattle.weighing.specs.Played.{LinesHold};
ghost use Rattle.weighing.specs.Turns.{state_of, Turned, Took, Carried, last_line};

use crate::line::Line;
use crate::open_card::{Found, OpenCard};
use crate::scales::Scales;
use crate::state::Run;
use planfile::faults::{FileFault, within};
use planfile::reader::Reader;
use planfile::turns::Open;
use records::record::Record;
use refusal::Refusal;
use std::alloc::{AllocError, Global};
use std::ops::ControlFlow::{self, Break, Continue};

// The greatest input, in bytes.
pub const MOST_BYTES: usize = 2048;

impl Found {
    // Whether the reading ends where this record is refused so.
    fn ends(self, refusal: Refusal) -> bool
        ensures { result ≡ ends_reading self.record refusal }
    {
        matches!(self.record, Record::Card { .. })
            || matches!(
                refusal,
                Refusal::EngineLimits
                    | Refusal::UnknownKind
                    | Refusal::CutShort
                    | Refusal::OutOfTurn
            )
    }
}

impl OpenCard {
    // The byte place of a fault of a record: a card's last band is refused at the card's record.
    fn fault_place(&self, found: Found) -> usize
        ensures { result ≡ fault_place (pending_of self.now) found.at found.record }
    {
        match found.record {
            Record::Band { .. } => self.at,
            _ => found.at,
        }
    }
}

impl<'a> Run<'a> {
    // The line at the end of the bytes: a card that is still open is cut short.
    fn last_line(&self) -> Option<Line>
        ensures { result ≡ last_line self.now.reader.state (pending_of self.now.card) }
    {
        match self.reader.state() {
            Open::Start | Open::Between => None,
            Open::Modes { .. } | Open::Bands { .. } => Some(Line::No {
                refusal: Refusal::CutShort,
                at: self.card.at,
            }),
        }
    }

    // Carries out the record that was read at a byte place; its fault becomes the file's.
    fn carry(&mut self, found: Found) -> Result<Option<Line>, FileFault>
        ensures carried { Carried (state_of self.old) found.at found.record (stands self.new.scales.plan) result }
        ensures card { pending_of self.new.card ≡ pending_of self.old.card }
        ensures reader { self.new.reader ≡ self.old.reader }
    {
        let place = self.card.fault_place(found);
        let state = self.reader.state();
        let answer = self.scales.carry_out(&self.card, state, found.record);
        Ok(within(place, answer)?)
    }

    // A record that was read: the reading goes on after it, unless it is refused in a way that
    // ends it.
    fn taken(&mut self, found: Found) -> ControlFlow<Option<Line>, Option<Line>>
        ensures turn { Took (state_of self.old) found.at found.record (stands self.new.scales.plan) result }
        ensures card { pending_of self.new.card ≡ pending_of self.old.card }
        ensures reader { self.new.reader ≡ self.old.reader }
    {
        match self.carry(found) {
            Ok(line) => Continue(line),
            Err(fault) => {
                let line = Some(Line::from(fault));
                if found.ends(fault.refusal) {
                    Break(line)
                } else {
                    Continue(line)
                }
            }
        }
    }

    // One turn: reads a record and carries it out.
    fn turn(&mut self) -> Result<ControlFlow<Option<Line>, Option<Line>>, AllocError>
        ensures turned { IfOk result (λ t. Turned self.old.reader.bytes.now (state_of self.old) (state_of self.new) t) }
        ensures bytes { self.new.reader.bytes.now ≡ self.old.reader.bytes.now }
    {
        let at = self.reader.at();
        match self.reader.next() {
            Ok(Some(record)) => {
                let found = Found { at, record };
                self.card.note(found)?;
                Ok(self.taken(found))
            }
            Ok(None) => Ok(Break(self.last_line())),
            Err(fault) => Ok(Break(Some(Line::from(fault)))),
        }
    }
}

// Adds a turn's line, where it has one.
fn append(lines: &mut Vec<Line>, line: Option<Line>) -> Result<(), AllocError>
    ensures { OnOk result (lines.new.items ≡ lines.old.items ++ option_to_list line) }
{
    if let Some(line) = line {
        lines.push(line)?;
    }
    Ok(())
}

// Runs a file, turn by turn.
fn run_file(heap: Global, bytes: &[u8]) -> Result<Vec<Line>, AllocError>
    ensures { IfOk result (λ v. Prints bytes.now new_plan no_card opens.Start 0 v.items) }
{
    let mut lines = Vec::new(heap);
    let mut run = Run {
        reader: Reader::new(bytes),
        scales: Scales::new(),
        card: OpenCard::new(heap),
    };
    loop {
        match run.turn()? {
            Continue(line) => append(&mut lines, line)?,
            Break(line) => {
                append(&mut lines, line)?;
                return Ok(lines);
            }
        }
    }
}

// The lines that weigh prints for a plan file.
pub fn weigh(heap: Global, bytes: &[u8]) -> Result<Vec<Line>, AllocError>
    ensures printed { IfOk result (λ v. Weighed bytes.now v.items) }
    ensures history { IfOk result (λ v. LinesHold bytes.now v.items) }
{
    if bytes.len() > MOST_BYTES {
        let refused = Line::No {
            refusal: Refusal::ShortMemory,
            at: MOST_BYTES,
        };
        return Ok(vec![in heap; refused]?);
    }
    run_file(heap, bytes)
}
