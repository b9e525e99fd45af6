// The refusals of documents 01 and 02, each with its number and its place: the error of every call. What a call gives else stands in a
// Result, and the buffer that it goes to beside it. [7.3]
#![tactic(auto)]

ghost use Rattle.std.specs.Prelude.{◌≡◌};
ghost use Rattle.refusals.specs.Table.{number_of, place_of};

// Why a call is refused, in the order of document 01's table, then of document 02's requests as they came. A variant holds the place
// where that varies: a bit of the line, the number of a word, an offset in a trace. [8.1, 8.2]
#[derive(Clone, Copy, PartialEq, Eq, Debug)]
pub enum Refusal {
    PayloadTooLong,
    RoomShort,
    FieldLength(usize),
    BreakBit,
    Escape(usize),
    NoWord(usize),
    Padding,
    Identifier,
    LineByte(usize),
    StuffBit(usize),
    LineLength(usize),
    Crc(usize),
    FixedBit(usize),
    Record(usize),
    NotAcknowledged(usize),
}

// Two numbers of a refusal, each under its name: From and Into would say neither.
impl Refusal {
    pub fn number(self) -> u8
        ensures { result ≡ number_of self }
    {
        match self {
            Refusal::PayloadTooLong => 1,
            Refusal::RoomShort => 2,
            Refusal::FieldLength(_) => 3,
            Refusal::BreakBit => 4,
            Refusal::Escape(_) => 5,
            Refusal::NoWord(_) => 6,
            Refusal::Padding => 7,
            Refusal::Identifier => 8,
            Refusal::LineByte(_) => 9,
            Refusal::StuffBit(_) => 10,
            Refusal::LineLength(_) => 11,
            Refusal::Crc(_) => 12,
            Refusal::FixedBit(_) => 13,
            Refusal::Record(_) => 14,
            Refusal::NotAcknowledged(_) => 20,
        }
    }

    pub fn place(self) -> usize
        ensures { result ≡ place_of self }
    {
        match self {
            Refusal::PayloadTooLong
            | Refusal::RoomShort
            | Refusal::BreakBit
            | Refusal::Padding
            | Refusal::Identifier => 0,
            Refusal::FieldLength(place)
            | Refusal::Escape(place)
            | Refusal::NoWord(place)
            | Refusal::LineByte(place)
            | Refusal::StuffBit(place)
            | Refusal::LineLength(place)
            | Refusal::Crc(place)
            | Refusal::FixedBit(place)
            | Refusal::Record(place)
            | Refusal::NotAcknowledged(place) => place,
        }
    }
}
