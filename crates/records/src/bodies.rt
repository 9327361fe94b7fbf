// The bytes of a record: its kind byte, and the body of each kind, high byte first.
ghost use Rattle.std.specs.Prelude.{◌≡◌};
ghost use Rattle.records.specs.Format.{kind_of, body_length};
ghost use Rattle.records.specs.Bodies.{read_kind, read_body, front_number};
ghost use Rattle.records.specs.declared.record.Kind.TheVariants as kinds;

use crate::record::{Kind, Record, UnknownKind};

impl TryFrom<u8> for Kind {
    type Error = UnknownKind;

    ghost try_from_gives = { λ byte read. read ≡ read_kind byte };

    fn try_from(byte: u8) -> Result<Kind, UnknownKind> {
        match byte {
            1 => Ok(Kind::Engine),
            2 => Ok(Kind::Card),
            3 => Ok(Kind::Mode),
            4 => Ok(Kind::Band),
            5 => Ok(Kind::Timed),
            6 => Ok(Kind::Recost),
            7 => Ok(Kind::Cut),
            8 => Ok(Kind::Drop),
            9 => Ok(Kind::Judge),
            _ => Err(UnknownKind(byte)),
        }
    }
}

impl Kind {
    // The kind that a byte stands for, if any: `try_from` for callers who need no error.
    pub fn of(byte: u8) -> Option<Kind>
        ensures { result ≡ kind_of byte }
    {
        Kind::try_from(byte).ok()
    }

    // How many bytes follow the kind byte.
    pub fn body_length(self) -> usize
        ensures { result ≡ body_length self }
    {
        match self {
            Kind::Engine => 14,
            Kind::Card => 9,
            Kind::Mode => 8,
            Kind::Band | Kind::Judge => 4,
            Kind::Timed => 13,
            Kind::Recost => 6,
            Kind::Cut => 5,
            Kind::Drop => 1,
        }
    }

    // The record of this kind at the front of the bytes, or nothing where they are cut short.
    pub fn decode(self, bytes: &[u8]) -> Option<Record>
        ensures { result ≡ read_body self bytes.now }
    {
        // A match: each kind has fields of its own, and a table of functions would be no plainer.
        match self {
            Kind::Engine => engine(bytes),
            Kind::Card => card(bytes),
            Kind::Mode => mode(bytes),
            Kind::Band => number(bytes).map(|lower| Record::Band { lower }),
            Kind::Timed => timed(bytes),
            Kind::Recost => recost(bytes),
            Kind::Cut => cut(bytes),
            Kind::Drop => dropped(bytes),
            Kind::Judge => number(bytes).map(|horizon| Record::Judge { horizon }),
        }
    }
}

// The number of four bytes at the front of the bytes, which is all that a band or a judge says.
fn number(bytes: &[u8]) -> Option<u32>
    ensures { result ≡ front_number bytes.now }
{
    let [b3, b2, b1, b0, ..] = *bytes else {
        return None;
    };
    Some(u32::from_be_bytes([b3, b2, b1, b0]))
}

fn engine(bytes: &[u8]) -> Option<Record>
    ensures { result ≡ read_body kinds.Engine bytes.now }
{
    let [l3, l2, l1, l0, g3, g2, g1, g0, r1, r0, f1, f0, e1, e0, ..] = *bytes else {
        return None;
    };
    Some(Record::Engine {
        least: u32::from_be_bytes([l3, l2, l1, l0]),
        greatest: u32::from_be_bytes([g3, g2, g1, g0]),
        rise: u16::from_be_bytes([r1, r0]),
        fall: u16::from_be_bytes([f1, f0]),
        entry: u16::from_be_bytes([e1, e0]),
    })
}

fn card(bytes: &[u8]) -> Option<Record>
    ensures { result ≡ read_body kinds.Card bytes.now }
{
    let [number, a3, a2, a1, a0, s1, s0, modes, bands, ..] = *bytes else {
        return None;
    };
    Some(Record::Card {
        number,
        angle: u32::from_be_bytes([a3, a2, a1, a0]),
        share: u16::from_be_bytes([s1, s0]),
        modes,
        bands,
    })
}

fn mode(bytes: &[u8]) -> Option<Record>
    ensures { result ≡ read_body kinds.Mode bytes.now }
{
    let [l3, l2, l1, l0, c3, c2, c1, c0, ..] = *bytes else {
        return None;
    };
    Some(Record::Mode {
        lower: u32::from_be_bytes([l3, l2, l1, l0]),
        cost: u32::from_be_bytes([c3, c2, c1, c0]),
    })
}

fn timed(bytes: &[u8]) -> Option<Record>
    ensures { result ≡ read_body kinds.Timed bytes.now }
{
    let [number, p3, p2, p1, p0, d3, d2, d1, d0, c3, c2, c1, c0, ..] = *bytes else {
        return None;
    };
    Some(Record::Timed {
        number,
        period: u32::from_be_bytes([p3, p2, p1, p0]),
        deadline: u32::from_be_bytes([d3, d2, d1, d0]),
        cost: u32::from_be_bytes([c3, c2, c1, c0]),
    })
}

fn recost(bytes: &[u8]) -> Option<Record>
    ensures { result ≡ read_body kinds.Recost bytes.now }
{
    let [number, index, c3, c2, c1, c0, ..] = *bytes else {
        return None;
    };
    Some(Record::Recost {
        number,
        index,
        cost: u32::from_be_bytes([c3, c2, c1, c0]),
    })
}

fn cut(bytes: &[u8]) -> Option<Record>
    ensures { result ≡ read_body kinds.Cut bytes.now }
{
    let [number, s3, s2, s1, s0, ..] = *bytes else {
        return None;
    };
    Some(Record::Cut {
        number,
        speed: u32::from_be_bytes([s3, s2, s1, s0]),
    })
}

fn dropped(bytes: &[u8]) -> Option<Record>
    ensures { result ≡ read_body kinds.Drop bytes.now }
{
    let [number, ..] = *bytes else {
        return None;
    };
    Some(Record::Drop { number })
}
