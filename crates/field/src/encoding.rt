// A payload's field as one number: what encoding stores, and what a frame sends.
ghost use Rattle.std.specs.Prelude.{◌≡◌, ◌<◌, Ok, length};
ghost use Rattle.bits.specs.Rows.{number};
ghost use Rattle.field.specs.Coded.{coded};
ghost use Rattle.field.specs.Field.{word_bits};

use crate::{padding, table};
use refusals::Refusal;

// A data field as one number: how many bytes it has, and the number of its bits. [9.3]
#[derive(Clone, Copy, PartialEq, Eq, Debug)]
pub struct Coded {
    pub n: usize,
    pub number: u64,
}

// Codes a payload, and stores nothing. Refused with 1. Of a value no const parameter is made but by a match; `encode` and `decode_number`
// have matches of their own. Not inlined: a frame's line and its length share it.
#[inline(never)]
pub fn code(payload: &[u8]) -> Result<Coded, Refusal>
    ensures { result ≡ coded payload.now }
{
    match payload.len() {
        0 => Ok(sized::<0>(payload)),
        1 => Ok(sized::<1>(payload)),
        2 => Ok(sized::<2>(payload)),
        3 => Ok(sized::<3>(payload)),
        4 => Ok(sized::<4>(payload)),
        5 => Ok(sized::<5>(payload)),
        6 => Ok(sized::<6>(payload)),
        7 => Ok(sized::<7>(payload)),
        _ => Err(Refusal::PayloadTooLong),
    }
}

// Codes a payload whose size the compiler knows. No type bounds a const parameter: a clause does.
pub(crate) fn sized<const SIZE: usize>(payload: &[u8]) -> Coded
    requires { (length payload.now ≡ SIZE) × (SIZE < 8) }
    ensures { Ok result ≡ coded payload.now }
{
    let row = table::row_of(SIZE);
    let number = with_words::<SIZE>(row.break_bit, payload);
    Coded {
        n: row.bytes,
        number: (number << row.padding) + padding::number_of(0, row.padding),
    }
}

// The number of a first bit and, behind it, the words of a payload. The loop counts to SIZE and is unrolled; over the slice it is not, and
// encoding misses its bars.
fn with_words<const SIZE: usize>(first: u64, payload: &[u8]) -> u64
    requires { (first < 2) × (length payload.now ≡ SIZE) × (SIZE < 8) }
    ensures { result ≡ number first (word_bits payload.now) }
{
    let mut number = first;
    for i in 0..SIZE {
        number = number * 512 + words::word(payload[i]) as u64;
    }
    number
}
