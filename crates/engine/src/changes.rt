// How an engine card is made, and how one of its modes or bands is changed.
ghost use Rattle.std.specs.Prelude.{◌≡◌, IfOk, MatchResult};
ghost use Rattle.refusal.specs.Numbers.{refusal_in};
ghost use Rattle.engine.specs.Views.{numbers_of, bands_of, parts_of, parts_given};
ghost use Rattle.engine.specs.Changes.{card_refusal, cut_refusal, cut_wrong, cut, recost_refusal, recost, holds_number};

use crate::card::{Card, CardParts, Mode};
use crate::checks::{angle_right, bands_right, cost_right, modes_right};
use crate::engine::Engine;
use refusal::Refusal;
use table::few::Few;

// What fills the cells of a mode table that are not in use.
const NO_MODE: Mode = Mode { lower: 0, cost: 0 };

impl Card {
    // A card of no parts, which is right for no engine.
    pub const BLANK: Card = Card {
        angle: 0,
        modes: Few {
            table: [NO_MODE; 8],
            used: 0,
        },
        bands: Few {
            table: [0; 24],
            used: 0,
        },
    };

    // A card of these parts, or the first refusal where one is wrong for the engine.
    pub fn new(engine: &Engine, parts: CardParts<'_>) -> Result<Card, Refusal>
        ensures refusal { refusal_in result ≡ card_refusal (numbers_of engine.now) (parts_given parts.entry) }
        ensures made { IfOk result (λ c. parts_of c ≡ parts_given parts.entry) }
    {
        if !angle_right(engine, parts.angle) {
            return Err(Refusal::AngleLimits);
        }
        if !modes_right(engine, parts.modes) {
            return Err(Refusal::ModeList);
        }
        if !bands_right(engine, parts.bands) {
            return Err(Refusal::BandList);
        }
        Ok(Card {
            angle: parts.angle,
            modes: Few::from_slice(NO_MODE, parts.modes),
            bands: Few::from_slice(0, parts.bands),
        })
    }

    // Whether a band begins at this speed.
    fn has_band_at(&self, speed: u32) -> bool
        ensures { result ≡ holds_number speed (bands_of self.now) }
    {
        self.bands.as_slice().contains(&speed)
    }

    // Whether no cut can be made at this speed.
    fn is_wrong_cut(&self, engine: &Engine, speed: u32) -> bool
        ensures { result ≡ cut_wrong (numbers_of engine.now) (parts_of self.now) speed }
    {
        let inside = engine.least < speed && speed < engine.greatest;
        !inside || self.has_band_at(speed) || self.bands.is_full()
    }

    // Splits at a speed the band that holds it.
    pub fn cut(&mut self, engine: &Engine, speed: u32) -> Result<(), Refusal>
        ensures refusal { refusal_in result ≡ cut_refusal (numbers_of engine.now) (parts_of self.old) speed }
        ensures done { MatchResult result (λ _. parts_of self.new ≡ cut (parts_of self.old) speed) (λ _. self.new ≡ self.old) }
    {
        if self.is_wrong_cut(engine, speed) {
            return Err(Refusal::BandList);
        }
        self.bands.insert(speed);
        Ok(())
    }

    // Changes the cost of one mode in its place.
    pub fn recost(&mut self, index: usize, cost: u32) -> Result<(), Refusal>
        ensures refusal { refusal_in result ≡ recost_refusal (parts_of self.old) index cost }
        ensures done { MatchResult result (λ _. parts_of self.new ≡ recost (parts_of self.old) index cost) (λ _. self.new ≡ self.old) }
    {
        if index >= self.modes.len() {
            return Err(Refusal::ModeList);
        }
        if !cost_right(cost) {
            return Err(Refusal::ValueLimits);
        }
        self.modes.table[index].cost = cost;
        Ok(())
    }
}
