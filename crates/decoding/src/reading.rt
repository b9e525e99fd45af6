// Reading a field that is one number, which writes nothing.
ghost use Rattle.std.specs.Prelude.{◌≡◌, ◌+◌, ◌*◌, ◌/◌, ◌%◌, ◌^◌, ◌≤◌, ◌<◌};
ghost use Rattle.words.specs.Symbols.{symbol_of};
ghost use Rattle.field.specs.Coded.{field_from};
ghost use Rattle.decoding.specs.Decode.{decode_answer, payload_of};
ghost use Rattle.decoding.specs.Reading.{body_answer, body_bytes, no_byte, Says};

use field::{padding, table};
use refusals::Refusal;

// The payload as one number, or why the field is refused. `room` is the length of the buffer that the payload would go to.
pub(crate) fn read(size: usize, number: u64, room: usize) -> Result<u64, Refusal>
    requires { (0 < size) × (size < 8) }
    ensures { Says result (decode_answer (field_from (size + 1) number) room) (payload_of (field_from (size + 1) number)) }
{
    if room < size {
        return Err(Refusal::RoomShort);
    }
    let row = table::row_of(size);
    // Above words and padding stands the break bit.
    if lowest(number >> (9 * size + row.padding), 1) != row.break_bit {
        return Err(Refusal::BreakBit);
    }
    body(number, size, row.padding)
}

// Reads the words of a field, and then its `count` bits of padding.
fn body(number: u64, size: usize, count: usize) -> Result<u64, Refusal>
    requires { (size < 8) × (count ≤ 8) × (9 * size + count < 64) }
    ensures { Says result (body_answer size count number) (body_bytes size count number) }
{
    let mut payload: u64 = 0;
    for i in 0..size {
        let nine = nine_at(number, 9 * (size - 1 - i) + count);
        let Some(byte) = words::carried(nine) else {
            return Err(no_byte(nine, i));
        };
        payload = payload * 256 + byte as u64;
    }
    if lowest(number, count) != padding::number_of(0, count) {
        return Err(Refusal::Padding);
    }
    Ok(payload)
}

// Why nine bits are refused that carry no byte, in the place of word i.
fn no_byte(nine: u16, i: usize) -> Refusal
    ensures { result ≡ no_byte i (symbol_of nine) }
{
    if words::is_escape(nine) {
        Refusal::Escape(i)
    } else {
        Refusal::NoWord(i)
    }
}

// The nine bits of a number above its `at` lowest.
fn nine_at(number: u64, at: usize) -> u16
    requires { at < 64 }
    ensures { result ≡ number / 2 ^ at % 512 }
{
    ((number >> at) % 512) as u16
}

// The `count` lowest bits of a number.
fn lowest(number: u64, count: usize) -> u64
    requires { count < 64 }
    ensures { result ≡ number % 2 ^ count }
{
    number % (1 << count)
}
