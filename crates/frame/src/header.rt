// The header of a data frame, of either form.
ghost use Rattle.std.specs.Prelude.{◌≡◌, ◌+◌, ◌*◌, ◌/◌, ◌%◌, ◌^◌, ◌≤◌, ◌<◌};

use wire::Identifier;

// Its bits are the lowest of a number: three, and four for each of `fours`, so 19 or 39. The first is 0.
#[derive(Clone, Copy)]
pub(crate) struct Header {
    pub number: u64,
    pub fours: usize,
    pub ghost first: { number < 2 ^ (2 + 4 * fours) },
    pub ghost few: { fours ≤ 9 },
}

impl Header {
    ghost use Rattle.wire.specs.Identifier.{Allowed};
    ghost use Rattle.frame.specs.Header.{IsHeader};

    // Of the base form's bits only those of identifier and DLC are not 0; the long form has SRR and IDE 1 between the identifier's high
    // bits and its low ones.
    pub(crate) fn of(identifier: Identifier, n: usize) -> Header
        requires { Allowed identifier × (n < 16) }
        ensures { IsHeader result identifier n }
    {
        match identifier {
            Identifier::Base(number) => Header {
                number: (number as u64) * 128 + n as u64,
                fours: 4,
            },
            Identifier::Long(number) => Header {
                number: long(number as u64) * 128 + n as u64,
                fours: 9,
            },
        }
    }
}

// The long form's bits up to the identifier's last.
fn long(number: u64) -> u64
    requires { number < 2 ^ 29 }
    ensures { result ≡ number / 2 ^ 18 * 2 ^ 20 + 3 * 2 ^ 18 + number % 2 ^ 18 }
{
    number / 0x40000 * 0x100000 + 0xC0000 + number % 0x40000
}
