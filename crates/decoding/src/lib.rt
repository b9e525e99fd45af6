// The payload of a data field: decoded from bytes, or from one number.
//
// On success only the bytes of the result are written; after a refusal the lent buffer holds its old bytes.
#![tactic(auto)]

ghost use Rattle.std.specs.Prelude.{◌≡◌, length};
ghost use Rattle.refusals.specs.Table.{answer_numbers};
ghost use Rattle.refusals.specs.After.{after};
ghost use Rattle.field.specs.Coded.{field_from};
ghost use Rattle.decoding.specs.Decode.{decode_answer, payload_of};
ghost use Rattle.decoding.specs.Number.{number_answer};

mod by_size;
mod reading;

use bits::bytes;
use field::encoding::Coded;
use refusals::Refusal;

// Decodes a field: the length of its payload, which stands at the start of `payload`. Refused with 2 to 7.
pub fn decode(field: &[u8], payload: &mut [u8]) -> Result<usize, Refusal>
    ensures answer { result ≡ decode_answer field.now (length payload.old) }
    ensures memory { payload.new ≡ after (answer_numbers result) (payload_of field.now) payload.old }
{
    let n = field.len();
    // Of more than 8 bytes the number is 0: their length is refused.
    let number = bytes::load(field, n);
    decode_number(Coded { n, number }, payload)
}

// Decodes the field that is one number: the length of its payload, which stands at the start of `payload`. Refused with 2 to 7, with 3
// also where the number has bits above those of the field's bytes. Inlined into `decode` and the line reader, whose bars ask for it.
#[inline(always)]
pub fn decode_number(field: Coded, payload: &mut [u8]) -> Result<usize, Refusal>
    ensures answer { result ≡ number_answer field.n field.number (length payload.old) }
    ensures memory { payload.new ≡ after (answer_numbers result) (payload_of (field_from field.n field.number)) payload.old }
{
    let Coded { n, number } = field;
    match n {
        0 if number == 0 => Ok(0),
        2 => by_size::sized::<1>(number, payload),
        3 => by_size::sized::<2>(number, payload),
        4 => by_size::sized::<3>(number, payload),
        5 => by_size::sized::<4>(number, payload),
        6 => by_size::sized::<5>(number, payload),
        7 => by_size::sized::<6>(number, payload),
        8 => by_size::sized::<7>(number, payload),
        _ => Err(Refusal::FieldLength(0)),
    }
}
