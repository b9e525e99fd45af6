// The kinds of a record.
ghost use Rattle.std.specs.Prelude.{◌≡◌};
ghost use Rattle.records.specs.Records.{kind_of};

use crate::Record;

// The record that a kind byte begins, with the length of its body. [14.2]
#[tactic(auto, using(std::proofs::lemmas::Bool::Decides::nat_tests), unfolding(crate::specs::Records::kind_of))]
pub(crate) fn of(byte: u8) -> Option<Record>
    ensures { result ≡ kind_of byte }
{
    match byte {
        0x10..=0x18 => Some(Record::Payload((byte - 0x10) as usize)),
        0x20..=0x29 => Some(Record::Field((byte - 0x20) as usize)),
        _ => None,
    }
}
