// One bit of a field.
ghost use Rattle.std.specs.Prelude.{◌≡◌, ◌≤◌};
ghost use Rattle.scanning.specs.Steps.{above, field_bit, slot_bit, one_bit, delimiter_bit, stuffed_bit, line_bit};

use crate::fields::Rule;
use crate::reader::Reader;
use crate::seen::Seen;
use refusals::Refusal;

impl<'a> Reader<'a> {
    // Reads the next bit of a field with this rule, in which `most` is the greatest bit that may stand; and the stuff bit before it where
    // one is due. `most` is asked for as a number, here and below: as a type of its own it would be made, and taken apart, at every call.
    pub(crate) fn next(self, rule: Rule, most: u8) -> Result<Seen, Refusal>
        requires { most ≤ 1 }
        ensures { result ≡ line_bit rule most self.entry.line.now self.entry.seen }
    {
        match rule {
            Rule::Stuffed => self.stuffed(most),
            Rule::Delimiter => self.delimiter(),
            Rule::Slot => self.slot(most),
            Rule::One => self.one(),
        }
    }

    // A bit up to the CRC, and the stuff bit before it.
    fn stuffed(self, most: u8) -> Result<Seen, Refusal>
        requires { most ≤ 1 }
        ensures { result ≡ stuffed_bit most self.entry.line.now self.entry.seen }
    {
        // The raw bits behind a stuff bit: it and, before it, a bit of the other value.
        let raw = 1 + self.seen.raw % 2;
        match self.pass(raw) {
            Ok(next) => next.field_bit(most),
            // `?` calls std, whose code `Linked` cannot show.
            Err(refusal) => Err(refusal),
        }
    }

    // The CRC delimiter, before which a stuff bit may stand; behind it nothing asks for the raw bits any more. One function for this and
    // `stuffed` would be handed the raw bits and how the bit is read, and little would be left of either.
    fn delimiter(self) -> Result<Seen, Refusal>
        ensures { result ≡ delimiter_bit self.entry.line.now self.entry.seen }
    {
        let raw = self.seen.raw;
        match self.pass(raw) {
            Ok(next) => next.one(),
            // `?` calls std, whose code `Linked` cannot show.
            Err(refusal) => Err(refusal),
        }
    }

    // A bit up to the CRC; a 1 where only a 0 may stand is a fixed bit that is wrong.
    #[tactic(auto, using(std::proofs::lemmas::Bool::Decides::nat_tests), unfolding(crate::specs::Steps::bit_at_most))]
    fn field_bit(self, most: u8) -> Result<Seen, Refusal>
        requires { most ≤ 1 }
        ensures { result ≡ field_bit most self.entry.line.now self.entry.seen }
    {
        let place = self.seen.place;
        let bit = self.line[place];
        if most < bit {
            return above(bit, Refusal::FixedBit(place), place);
        }
        Ok(self.behind(bit as u64))
    }

    // The ACK slot; a 1 where only a 0 may stand: nobody heard the frame. Its refusal and what is seen behind it are others than those of
    // `field_bit`: in one function both would have to be handed in.
    #[tactic(auto, using(std::proofs::lemmas::Bool::Decides::nat_tests), unfolding(crate::specs::Steps::bit_at_most))]
    fn slot(self, most: u8) -> Result<Seen, Refusal>
        ensures { result ≡ slot_bit most self.entry.line.now self.entry.seen }
    {
        let place = self.seen.place;
        let ack = self.line[place];
        if most < ack {
            return above(ack, Refusal::NotAcknowledged(place), place);
        }
        Ok(self.further())
    }

    // A delimiter or an end bit.
    #[tactic(auto, using(std::proofs::lemmas::Bool::Decides::nat_tests), unfolding(crate::specs::Steps::one_bit))]
    fn one(self) -> Result<Seen, Refusal>
        ensures { result ≡ one_bit self.entry.line.now self.entry.seen }
    {
        let place = self.seen.place;
        match self.line[place] {
            0 => Err(Refusal::FixedBit(place)),
            1 => Ok(self.further()),
            _ => Err(Refusal::LineByte(place)),
        }
    }
}

// A byte that is more than may stand at its place: a 1 is refused so, a greater one is no bit.
#[tactic(auto, using(std::proofs::lemmas::Bool::Decides::nat_tests), unfolding(crate::specs::Steps::above))]
fn above(byte: u8, refusal: Refusal, place: usize) -> Result<Seen, Refusal>
    ensures { result ≡ above byte refusal place }
{
    if byte == 1 {
        return Err(refusal);
    }
    Err(Refusal::LineByte(place))
}
