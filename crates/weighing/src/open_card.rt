// The engine card that is being read.
use engine::card::Mode;
use records::record::Record;

// A record that was read, and the byte place of its kind byte.
#[derive(Clone, Copy)]
pub struct Found {
    pub at: usize,
    pub record: Record,
}

// What its records have said so far, from its own record at a byte place on.
#[derive(Drop)]
pub struct OpenCard {
    pub at: usize,
    pub number: u8,
    pub angle: u32,
    pub share: u16,
    pub modes: Vec<Mode>,
    pub bands: Vec<u32>,
}
