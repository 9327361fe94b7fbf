// How the records of an engine card are gathered.
ghost use Rattle.std.specs.Prelude.{◌≡◌, OnOk};
ghost use Rattle.weighing.specs.Pending.{pending_of, no_card, noted};

use crate::open_card::{Found, OpenCard};
use engine::card::Mode;
use records::record::Record;
use std::alloc::{AllocError, Global};

impl OpenCard {
    // Before any card. No Option, as no record asks for the card then: its own record comes first.
    pub fn new(heap: Global) -> OpenCard
        ensures { pending_of result ≡ no_card }
    {
        OpenCard {
            at: 0,
            number: 0,
            angle: 0,
            share: 0,
            modes: Vec::new(heap),
            bands: Vec::new(heap),
        }
    }

    // Gathers what a record that was read says of the card; other records leave it as it is.
    pub fn note(&mut self, found: Found) -> Result<(), AllocError>
        ensures { OnOk result (pending_of self.new ≡ noted (pending_of self.old) found.at found.record) }
    {
        match found.record {
            Record::Card {
                number,
                angle,
                share,
                ..
            } => {
                self.at = found.at;
                self.number = number;
                self.angle = angle;
                self.share = share;
                // What was gathered before is let go.
                self.modes.clear();
                self.bands.clear();
            }
            Record::Mode { lower, cost } => self.modes.push(Mode { lower, cost })?,
            Record::Band { lower } => self.bands.push(lower)?,
            _ => {}
        }
        Ok(())
    }
}
