// Coding a payload into a lent buffer.
ghost use Rattle.std.specs.Prelude.{◌≡◌, ◌<◌, length};
ghost use Rattle.refusals.specs.Table.{answer_numbers};
ghost use Rattle.refusals.specs.After.{after};
ghost use Rattle.field.specs.Field.{field_of};
ghost use Rattle.field.specs.Encode.{encode_answer};

use crate::encoding;
use bits::bytes;
use refusals::Refusal;

// Codes a payload whose size the compiler knows, and with it the count of the bytes that are stored. No type bounds a const parameter: a
// clause does.
pub(crate) fn sized<const SIZE: usize>(payload: &[u8], field: &mut [u8]) -> Result<usize, Refusal>
    requires { (length payload.now ≡ SIZE) × (SIZE < 8) }
    ensures answer { result ≡ encode_answer payload.now (length field.old) }
    ensures memory { field.new ≡ after (answer_numbers result) (field_of payload.now) field.old }
{
    let coded = encoding::sized::<SIZE>(payload);
    if field.len() < coded.n {
        return Err(Refusal::RoomShort);
    }
    bytes::store(coded.number, coded.n, field);
    Ok(coded.n)
}
