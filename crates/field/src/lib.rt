// The data field of a payload of 0 to 7 bytes.
//
// On success only the bytes of the result are written; after a refusal the lent buffer holds its old bytes.
#![tactic(auto)]

ghost use Rattle.std.specs.Prelude.{◌≡◌, length};
ghost use Rattle.refusals.specs.Table.{answer_numbers};
ghost use Rattle.refusals.specs.After.{after};
ghost use Rattle.field.specs.Field.{field_of};
ghost use Rattle.field.specs.Encode.{encode_answer};

pub mod encoding;
pub mod padding;
mod storing;
pub mod table;

use refusals::Refusal;

// Codes a payload: the length of its field, which stands at the start of `field`. Refused with 1 or 2.
pub fn encode(payload: &[u8], field: &mut [u8]) -> Result<usize, Refusal>
    ensures answer { result ≡ encode_answer payload.now (length field.old) }
    ensures memory { field.new ≡ after (answer_numbers result) (field_of payload.now) field.old }
{
    match payload.len() {
        0 => storing::sized::<0>(payload, field),
        1 => storing::sized::<1>(payload, field),
        2 => storing::sized::<2>(payload, field),
        3 => storing::sized::<3>(payload, field),
        4 => storing::sized::<4>(payload, field),
        5 => storing::sized::<5>(payload, field),
        6 => storing::sized::<6>(payload, field),
        7 => storing::sized::<7>(payload, field),
        _ => Err(Refusal::PayloadTooLong),
    }
}
