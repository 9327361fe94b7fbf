// Where the run of a file stands.
use crate::open_card::OpenCard;
use crate::scales::Scales;
use planfile::reader::Reader;

// The reader, the plan as it stands, and the engine card that is being read.
#[derive(Drop)]
pub(crate) struct Run<'a> {
    pub(crate) reader: Reader<'a>,
    pub(crate) scales: Scales,
    pub(crate) card: OpenCard,
}
