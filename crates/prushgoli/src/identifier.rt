// An identifier as C has it, in one number: bit 31 is set for the long form, the other bits are its number. Not by From, which belongs to
// the crate of a type, and could not ask that bit 31 is free.
ghost use Rattle.std.specs.Prelude.{◌≡◌, ◌^◌, ◌<◌};
ghost use Rattle.wire.specs.Identifier.{number_for_c, identifier_of};

use wire::Identifier;

const LONG: u32 = 0x80000000;

pub(crate) fn of(number: u32) -> Identifier
    ensures { result ≡ identifier_of number }
{
    if number < LONG {
        return Identifier::Base(number);
    }
    Identifier::Long(number - LONG)
}

pub(crate) fn number(identifier: Identifier) -> u32
    requires { number_for_c identifier < 2 ^ 32 }
    ensures { result ≡ number_for_c identifier }
{
    match identifier {
        Identifier::Base(number) => number,
        Identifier::Long(number) => LONG + number,
    }
}
