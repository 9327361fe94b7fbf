// The checks of an engine card's parts.
ghost use Rattle.std.specs.Prelude.{◌≡◌};
ghost use Rattle.engine.specs.Limits.{speeds_ok, every, cost_ok, angle_ok, bands_ok};
ghost use Rattle.engine.specs.Views.{modes_ok};

use crate::card::Mode;
use crate::engine::Engine;
use table::Keyed;
pub use task::checked::cost_right;

// Whether lower speeds begin at the least speed, rise, and stay below the greatest.
fn speeds_right<T: Keyed>(items: &[T], least: u32, greatest: u32) -> bool
    ensures { result ≡ speeds_ok T.Keyed.key least greatest items.now }
{
    let (Some(first), Some(last)) = (items.first(), items.last()) else {
        return false;
    };
    if first.key() != least || last.key() >= greatest {
        return false;
    }
    items.is_sorted_by(|before, next| before.key() < next.key())
}

fn costs_right(modes: &[Mode]) -> bool
    ensures { result ≡ every (λ m. cost_ok m.cost) modes.now }
{
    modes.iter().all(|mode| cost_right(mode.cost))
}

// Whether an angle is right for an engine.
pub fn angle_right(engine: &Engine, angle: u32) -> bool
    ensures { result ≡ angle_ok engine.now.greatest angle }
{
    (engine.greatest..=24_000_000).contains(&angle)
}

// Whether a mode list is right for an engine.
pub fn modes_right(engine: &Engine, modes: &[Mode]) -> bool
    ensures { result ≡ modes_ok engine.now.least engine.now.greatest modes.now }
{
    modes.len() <= 8 && speeds_right(modes, engine.least, engine.greatest) && costs_right(modes)
}

// Whether a band list is right for an engine.
pub fn bands_right(engine: &Engine, bands: &[u32]) -> bool
    ensures { result ≡ bands_ok engine.now.least engine.now.greatest bands.now }
{
    bands.len() <= 24 && speeds_right(bands, engine.least, engine.greatest)
}
