// Padding as a number.
ghost use Rattle.std.specs.Prelude.{◌≡◌};
ghost use Rattle.field.specs.Coded.{padding_number};

// The number of `count` bits that alternate from the first: cut from 01010101, or from 10101010. Of more than eight bits, or from
// what is no bit, it is 0, as `padding_number` (PROMISES) says: no Option.
pub fn number_of(first: u64, count: usize) -> u64
    ensures { result ≡ padding_number first count }
{
    if 1 < first {
        return 0;
    }
    if 8 < count {
        return 0;
    }
    (0b01010101 << first) >> (8 - count)
}
