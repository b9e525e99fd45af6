// Stuff bits in a line: where one is due, and which bit it must be.
ghost use Rattle.std.specs.Prelude.{◌≡◌};
ghost use Rattle.scanning.specs.Steps.{due_in, stuff_bit, passed, Gives};

use crate::places;
use crate::reader::Reader;
use crate::seen::Seen;
use refusals::Refusal;

impl<'a> Reader<'a> {
    // Passes the stuff bit that is due before the next bit, the raw bits then being `raw`; where none is due, nothing.
    #[tactic(auto, using(std::proofs::lemmas::Bool::Decides::nat_tests), unfolding(crate::specs::Steps::passed))]
    pub(crate) fn pass(self, raw: u64) -> Result<Reader<'a>, Refusal>
        ensures { Gives result self.entry.line.now (passed raw self.entry.line.now self.entry.seen) }
    {
        if is_due(self.seen.raw) {
            return self.stuff_bit(raw);
        }
        Ok(self)
    }

    // A bit where a stuff bit is due: it must not be the sixth of six equal bits, and a bit of the field must follow.
    #[tactic(auto, using(std::proofs::lemmas::Bool::Decides::nat_tests), unfolding(crate::specs::Steps::stuff_bit))]
    fn stuff_bit(self, raw: u64) -> Result<Reader<'a>, Refusal>
        ensures { Gives result self.entry.line.now (stuff_bit raw self.entry.line.now self.entry.seen) }
    {
        let line = self.line;
        let seen = self.seen;
        let place = seen.place;
        let bit = line[place] as u64;
        // Right is the other value alone: one test, and which refusal it is behind it.
        if bit + seen.raw % 2 != 1 {
            if 1 < bit {
                return Err(Refusal::LineByte(place));
            }
            return Err(Refusal::StuffBit(place));
        }
        if line.len() <= place + 1 {
            return Err(Refusal::LineLength(place + 1));
        }
        let end = seen.end + 1;
        let seen = Seen {
            stop: places::least(end, line.len()),
            end,
            place: place + 1,
            raw,
            ..seen
        };
        Ok(Reader { line, seen })
    }
}

// Whether the last five bits are equal. `twice` of `field_end` asks it of two: each is one line, under a name of its own.
#[tactic(auto, unfolding(crate::specs::Steps::due_in))]
fn is_due(raw: u64) -> bool
    ensures { result ≡ due_in raw }
{
    // 00000 and 11111 alone give 1 and 0.
    (raw % 32 + 1) % 32 < 2
}
