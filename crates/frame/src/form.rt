// What the form of an identifier decides.
ghost use Rattle.std.specs.Prelude.{◌≡◌, ltb};
ghost use Rattle.wire.specs.Identifier.{number_in, greatest, room_for};

use wire::Identifier;

// Whether its number is above the greatest of its form.
pub(crate) fn is_refused(identifier: Identifier) -> bool
    ensures { result ≡ ltb (greatest identifier) (number_in identifier) }
{
    match identifier {
        Identifier::Base(number) => 2047 < number,
        Identifier::Long(number) => 536870911 < number,
    }
}

// The room that making a frame asks for.
pub(crate) fn room(identifier: Identifier) -> usize
    ensures { result ≡ room_for identifier }
{
    match identifier {
        Identifier::Base(_) => 116,
        Identifier::Long(_) => 141,
    }
}
