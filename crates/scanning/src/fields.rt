// The fields of a frame in the order they are sent; neighbours that are judged alike, with nothing told between them, are one field.
ghost use Rattle.std.specs.Prelude.{false, ◌≡◌};
ghost use Rattle.reading.specs.Scan.{slot_most};
ghost use Rattle.scanning.specs.Rows.{fields_of};

use reading::{AckSlot, Reading};

// How a bit of a field is read.
#[derive(Clone, Copy)]
pub(crate) enum Rule {
    // Up to the CRC: a stuff bit may come before it.
    Stuffed,
    // The CRC delimiter, before which one may come too.
    Delimiter,
    Slot,
    // The other bits behind the CRC: each must be 1.
    One,
}

// What a field tells once its last bit is read.
#[derive(Clone, Copy)]
pub(crate) enum Last {
    Nothing,
    // IDE tells the form.
    Form,
    // The DLC, the data and the CRC are each the last of a part.
    Header,
    Data,
    Check,
}

#[derive(Clone, Copy)]
pub(crate) struct Field {
    // How many bits it has.
    pub width: u8,
    // The greatest bit that may stand in it.
    pub most: u8,
    pub rule: Rule,
    pub last: Last,
}

// Places in `FIELDS`: of the fields whose width is told in the frame, and of the one whose greatest bit the reading says. A wrong one is
// refused by the contracts of `form`, `header` and `of`.
pub(crate) const LOW_BITS: usize = 2;

pub(crate) const FIXED_BITS: usize = 3;

pub(crate) const DATA: usize = 5;

const ACK_SLOT: usize = 8;

// Those of the base form, and of no data: until IDE and DLC are read.
const FIELDS: [Field; 10] = [
    // Start of frame.
    Field {
        width: 1,
        most: 0,
        rule: Rule::Stuffed,
        last: Last::Nothing,
    },
    // Eleven bits of the identifier, RTR or SRR, IDE.
    Field {
        width: 13,
        most: 1,
        rule: Rule::Stuffed,
        last: Last::Form,
    },
    // The low bits of a long identifier.
    Field {
        width: 0,
        most: 1,
        rule: Rule::Stuffed,
        last: Last::Nothing,
    },
    // Reserved bit; in the long form RTR and two reserved bits.
    Field {
        width: 1,
        most: 0,
        rule: Rule::Stuffed,
        last: Last::Nothing,
    },
    // DLC.
    Field {
        width: 4,
        most: 1,
        rule: Rule::Stuffed,
        last: Last::Header,
    },
    // Data.
    Field {
        width: 0,
        most: 1,
        rule: Rule::Stuffed,
        last: Last::Data,
    },
    // CRC.
    Field {
        width: 15,
        most: 1,
        rule: Rule::Stuffed,
        last: Last::Check,
    },
    // CRC delimiter.
    Field {
        width: 1,
        most: 1,
        rule: Rule::Delimiter,
        last: Last::Nothing, // the CRC was judged before the stuff bit
    },
    // ACK slot, whose greatest bit the reading fills in.
    Field {
        width: 1,
        most: 1,
        rule: Rule::Slot,
        last: Last::Nothing,
    },
    // ACK delimiter, end bits.
    Field {
        width: 8,
        most: 1,
        rule: Rule::One,
        last: Last::Nothing,
    },
];

// The fields as this reading has them: it says what may stand in the ACK slot.
#[tactic(auto, unfolding(crate::specs::Rows::fields_of))]
pub(crate) fn of(reading: Reading) -> [Field; 10]
    ensures { result ≡ fields_of reading false 0 }
{
    let mut fields = FIELDS;
    fields[ACK_SLOT].most = slot_most(reading.slot);
    fields
}

// Not by a cast: the numbers of AckSlot's variants would then say which bit may stand there.
fn slot_most(slot: AckSlot) -> u8
    ensures { result ≡ slot_most slot }
{
    match slot {
        AckSlot::Acknowledged => 0,
        AckSlot::Either => 1,
    }
}
