// Which records may come next, and what stands open after one.
ghost use Rattle.std.specs.Prelude.{◌≡◌};
ghost use Rattle.planfile.specs.Reading.{in_turn, open_after, opened_by};

use records::record::{Kind, Record};

// What stands open in a file, which decides what may come next.
#[derive(Clone, Copy, PartialEq, Eq, Debug)]
pub enum Open {
    // before the engine
    Start,
    // between cards
    Between,
    // a card of which these counts are still to come
    Modes { modes: u8, bands: u8 },
    // a card with all its modes, of which so many bands are still to come
    Bands { bands: u8 },
}

impl Open {
    // Whether a record of this kind may come now.
    pub(crate) fn in_turn(self, kind: Kind) -> bool
        ensures { result ≡ in_turn self kind }
    {
        matches!(
            (self, kind),
            (Open::Start, Kind::Engine)
                | (
                    Open::Between,
                    Kind::Card | Kind::Timed | Kind::Recost | Kind::Cut | Kind::Drop | Kind::Judge
                )
                | (Open::Modes { .. }, Kind::Mode)
                | (Open::Bands { .. }, Kind::Band)
        )
    }

    // What stands open after a record that came in turn.
    pub(crate) fn after(self, record: Record) -> Open
        ensures { result ≡ open_after self «record» }
    {
        match (self, record) {
            (_, Record::Card { modes, bands, .. }) => open_card(modes, bands),
            (Open::Modes { modes, bands }, Record::Mode { .. }) => {
                open_card(modes.saturating_sub(1), bands)
            }
            (Open::Bands { bands }, Record::Band { .. }) => open_card(0, bands.saturating_sub(1)),
            _ => Open::Between,
        }
    }
}

// A card of which so many modes and bands are still to come.
fn open_card(modes: u8, bands: u8) -> Open
    ensures { result ≡ opened_by modes bands }
{
    match (modes, bands) {
        (0, 0) => Open::Between,
        (0, _) => Open::Bands { bands },
        _ => Open::Modes { modes, bands },
    }
}
