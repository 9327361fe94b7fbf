// The kind of task that an engine card is: one place for each band.
ghost use Rattle.std.specs.Prelude.{◌≡◌, ◌<◌, true, ◌&&◌, length, IfOk};
ghost use Rattle.task.specs.Graph.{Place};
ghost use Rattle.engine.specs.Limits.{angle_ok, bands_ok};
ghost use Rattle.refusal.specs.Numbers.{refusal_in};
ghost use Rattle.engine.specs.Changes.{card_refusal};
ghost use Rattle.engine.specs.Views.{numbers_of, parts_of, parts_given, modes_ok, modes_of, bands_of};
ghost use Rattle.bands.specs.Gaps.{GapByRules};
ghost use Rattle.bands.specs.Views.{band_at, IsTurn};
ghost use Rattle.bands.specs.Graphs.{pair_at, band_gap, cost_between, band_cost, GreatestCost, band_deadline, LeastGap, bands_graph};

use crate::gaps::{Band, Turn};
use engine::card::{Card, CardParts, Mode};
use engine::engine::Engine;
use refusal::Refusal;

// A card that is right for its engine.
#[derive(Clone, Copy)]
pub struct Bands {
    pub engine: Engine,
    pub card: Card,
    ghost angled: { angle_ok engine.greatest card.angle ≡ true },
    ghost moded: { modes_ok engine.least engine.greatest (modes_of card) ≡ true },
    ghost banded: { bands_ok engine.least engine.greatest (bands_of card) ≡ true },
}

impl Bands {
    // An engine card's bands from its parts, or the first refusal where one is wrong for the engine.
    pub fn new(engine: Engine, parts: CardParts<'_>) -> Result<Bands, Refusal>
        ensures refusal { refusal_in result ≡ card_refusal (numbers_of engine) (parts_given parts.entry) }
        ensures made { IfOk result (λ b. (numbers_of b.engine ≡ numbers_of engine) × (parts_of b.card ≡ parts_given parts.entry)) }
    {
        let card = Card::new(&engine, parts)?;
        Ok(Bands { engine, card })
    }

    // A band by its number; none where there is no band of that number.
    fn band(&self, place: usize) -> Option<Band>
        ensures { result ≡ band_at (numbers_of self.now.engine) (parts_of self.now.card) place }
    {
        let lows = self.card.bands.as_slice();
        let low = lows.get(place.checked_sub(1)?).copied()?;
        let high = lows.get(place).copied().unwrap_or(self.engine.greatest);
        Some(Band {
            number: place,
            low: u64::from(low),
            high: u64::from(high),
        })
    }

    // The turn from one band to another; none where either is lacking.
    fn turn(&self, from: usize, to: usize) -> Option<Turn>
        ensures { IsTurn (numbers_of self.now.engine) (parts_of self.now.card) from to result }
    {
        let from = self.band(from)?;
        let to = self.band(to)?;
        Some(Turn {
            rise: u64::from(self.engine.rise),
            fall: u64::from(self.engine.fall),
            angle: u64::from(self.card.angle),
            top: u64::from(self.engine.greatest),
            from,
            to,
        })
    }

    // The gap from one band to another, by the rules; none where either is lacking.
    pub fn gap_between(&self, from: usize, to: usize) -> Option<u32>
        ensures value { result ≡ band_gap (numbers_of self.now.engine) (parts_of self.now.card) from to }
        ensures rules { Place (bands_graph (numbers_of self.now.engine) (parts_of self.now.card)) from → Place (bands_graph (numbers_of self.now.engine) (parts_of self.now.card)) to → GapByRules (pair_at (numbers_of self.now.engine) (parts_of self.now.card) from to) result }
    {
        self.turn(from, to)?.gap()
    }

    // The greatest cost of the modes that share a speed with a band, or 0 where the band is lacking.
    pub fn band_cost(&self, place: usize) -> u32
        ensures value { result ≡ band_cost (numbers_of self.now.engine) (parts_of self.now.card) place }
        ensures greatest { Place (bands_graph (numbers_of self.now.engine) (parts_of self.now.card)) place → GreatestCost (numbers_of self.now.engine) (parts_of self.now.card) place result }
    {
        match self.band(place) {
            Some(band) => greatest_cost(
                u64::from(self.engine.greatest),
                band,
                self.card.modes.as_slice(),
            ),
            None => 0,
        }
    }

    // The least gap that leaves a band, or 0 where the band is lacking.
    pub fn band_deadline(&self, place: usize) -> u32
        ensures value { result ≡ band_deadline (numbers_of self.now.engine) (parts_of self.now.card) place }
        ensures least { Place (bands_graph (numbers_of self.now.engine) (parts_of self.now.card)) place → LeastGap (numbers_of self.now.engine) (parts_of self.now.card) place result }
    {
        (1..=self.card.bands.len())
            .filter_map(|to| self.gap_between(place, to))
            .min()
            .unwrap_or(0)
    }
}

// The greatest cost of the modes that share a speed with a band, below a greatest speed.
fn greatest_cost(top: u64, band: Band, modes: &[Mode]) -> u32
    ensures { result ≡ cost_between top band.low band.high modes.now }
{
    let mut cost = 0;
    let mut rest = modes;
    while let [mode, later @ ..] = rest {
        let lower = u64::from(mode.lower);
        let upper = later.first().map_or(top, |next| u64::from(next.lower));
        if band.low.max(lower) < band.high.min(upper) {
            cost = cost.max(mode.cost);
        }
        rest = later;
    }
    cost
}
