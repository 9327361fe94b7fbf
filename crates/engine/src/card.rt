// Engine cards: what is injected at which crank speed.
use table::Keyed;
use table::few::Few;

// From a lower speed up to the next mode's, a job costs this many ticks.
#[derive(Clone, Copy)]
pub struct Mode {
    pub lower: u32,
    pub cost: u32,
}

// A mode is known by its lower speed.
impl Keyed for Mode {
    ghost key = { λ m. m.lower };

    fn key(&self) -> u32 {
        self.lower
    }
}

// An engine card without its number and its share: an angle of the crank, modes and bands.
#[derive(Clone, Copy)]
pub struct Card {
    pub angle: u32,
    pub modes: Few<Mode, 8>,
    // the lower speeds of the bands
    pub bands: Few<u32, 24>,
}

// The parts of an engine card as a caller gives them, before they are checked.
#[derive(Clone, Copy)]
pub struct CardParts<'a> {
    // the angle of the crank, in steps
    pub angle: u32,
    // the modes, by rising lower speed
    pub modes: &'a [Mode],
    // the lower speeds of the bands, rising
    pub bands: &'a [u32],
}
