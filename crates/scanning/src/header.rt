// What the bits of a header tell, which are the lowest of a number. Not by From: it would say of every number that it is an identifier.
ghost use Rattle.std.specs.Prelude.{◌≡◌};
ghost use Rattle.scanning.specs.Steps.{identifier_told};

use wire::Identifier;

// The base form has 19 bits; a number with more bits is the long form's, whose SRR and IDE are 1. Behind the identifier stand seven bits,
// and in the long form two stand between its high bits and its low ones.
#[tactic(auto, using(std::proofs::lemmas::Bool::Decides::nat_tests), unfolding(crate::specs::Steps::long_told, crate::specs::Steps::identifier_told))]
pub(crate) fn identifier(header: u64) -> Identifier
    ensures { result ≡ identifier_told header }
{
    let low = header / 0x80;
    if header < 0x80000 {
        return Identifier::Base((low % 0x800) as u32);
    }
    let high = header / 0x8000000 % 0x800;
    Identifier::Long((high * 0x40000 + low % 0x40000) as u32)
}
