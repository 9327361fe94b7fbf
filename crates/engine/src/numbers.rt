// An engine's five numbers, before they are checked.

#[derive(Clone, Copy, PartialEq, Eq, Debug)]
pub struct Numbers {
    // the least speed, in steps per tick
    pub least: u32,
    // the greatest speed, in steps per tick
    pub greatest: u32,
    // the acceleration, in steps per tick per tick
    pub rise: u16,
    // the slowing, in steps per tick per tick
    pub fall: u16,
    // the entry cost, in ticks
    pub entry: u16,
}
