// An engine: how fast its crank turns, how fast that changes, and what a release costs.
ghost use Rattle.std.specs.Prelude.{◌<◌, ◌≤◌};

use task::checked::EntryCost;

// Speeds in steps per tick, a tick being a tenth of a millisecond and a revolution 6,000,000 steps.
#[derive(Clone, Copy)]
pub struct Engine {
    // the least speed, m
    pub least: u32,
    // the greatest speed, M
    pub greatest: u32,
    // the acceleration A, in steps per tick per tick
    pub rise: u16,
    // the slowing D, in steps per tick per tick
    pub fall: u16,
    // the entry cost E
    pub entry: EntryCost,
    ghost turns: { 1 ≤ least },
    ghost varies: { least < greatest },
    ghost bounded: { greatest ≤ 150000 },
    ghost rises: { 1 ≤ rise },
    ghost sharpest: { rise ≤ 500 },
    ghost falls: { 1 ≤ fall },
    ghost hardest: { fall ≤ 500 },
}
