// Decoding by size: in each case the size is a number that the compiler knows. A field is read, which writes nothing, and then its
// payload is stored.
ghost use Rattle.std.specs.Prelude.{◌≡◌, ◌+◌, ◌<◌, length};
ghost use Rattle.refusals.specs.Table.{answer_numbers};
ghost use Rattle.refusals.specs.After.{after};
ghost use Rattle.field.specs.Coded.{field_from};
ghost use Rattle.decoding.specs.Decode.{payload_of};
ghost use Rattle.decoding.specs.Number.{number_answer};

use crate::reading;
use bits::bytes;
use refusals::Refusal;

// Decodes the field of a payload of SIZE bytes, if there are no bits above the field's. No type bounds a const parameter: a clause does.
pub(crate) fn sized<const SIZE: usize>(number: u64, payload: &mut [u8]) -> Result<usize, Refusal>
    requires { (0 < SIZE) × (SIZE < 8) }
    ensures answer { result ≡ number_answer (SIZE + 1) number (length payload.old) }
    ensures memory { payload.new ≡ after (answer_numbers result) (payload_of (field_from (SIZE + 1) number)) payload.old }
{
    if 255 < number >> (8 * SIZE) {
        return Err(Refusal::FieldLength(0));
    }
    match reading::read(SIZE, number, payload.len()) {
        Ok(bytes) => {
            bytes::store(bytes, SIZE, payload);
            Ok(SIZE)
        }
        // `?` calls std, whose code `Linked` cannot show.
        Err(refusal) => Err(refusal),
    }
}
