// One number for each answer: bits 0 to 15 a length or a place, bits 16 to 31 the refusal's number, from bit 32 on what else there is.
ghost use Rattle.std.specs.Prelude.{◌≡◌, refl, ◌+◌, ◌*◌, ◌^◌, ◌<◌};
ghost use Rattle.refusals.specs.Table.{Numbers, given, numbers};
ghost use Rattle.wire.specs.Identifier.{number_for_c};
ghost use Rattle.prushgoli.specs.Packing.{pack};

use crate::identifier;
use line::Frame;
use refusals::Refusal;
use wire::Bounds;

// What a call gives that does not refuse: a length, or what stands in its place, and what else there is.
pub(crate) trait Given {
    ghost told: { Self → Numbers };

    ghost accepted: { (x : Self) → (told x).refusal ≡ 0 };

    fn low(&self) -> usize
        ensures { result ≡ (told self.now).low };

    fn high(&self) -> u32
        requires { (told self.now).high < 2 ^ 32 }
        ensures { result ≡ (told self.now).high };
}

impl Given for usize {
    ghost told = { λ n. given n 0 };

    ghost accepted = { λ n. refl };

    fn low(&self) -> usize {
        *self
    }

    fn high(&self) -> u32 {
        0
    }
}

impl Given for Bounds {
    ghost told = { λ b. given b.least b.most };

    ghost accepted = { λ b. refl };

    fn low(&self) -> usize {
        self.least
    }

    fn high(&self) -> u32 {
        self.most as u32
    }
}

impl Given for Frame {
    ghost told = { λ f. given f.length (number_for_c f.identifier) };

    ghost accepted = { λ f. refl };

    fn low(&self) -> usize {
        self.length
    }

    fn high(&self) -> u32 {
        identifier::number(self.identifier)
    }
}

// Packs what a call answers.
pub(crate) fn answer<T: Given>(answer: &Result<T, Refusal>) -> u64
    requires low { (numbers T.told answer.now).low < 2 ^ 16 }
    requires high { (numbers T.told answer.now).high < 2 ^ 32 }
    ensures { result ≡ pack (numbers T.told answer.now) }
{
    match answer {
        Ok(given) => pack(given.low(), 0, given.high()),
        Err(refusal) => pack(refusal.place(), refusal.number(), 0),
    }
}

// Puts the three numbers of an answer into one.
fn pack(low: usize, refusal: u8, high: u32) -> u64
    requires { low < 2 ^ 16 }
    ensures { result ≡ low + refusal * 2 ^ 16 + high * 2 ^ 32 }
{
    low as u64 + ((refusal as u64) << 16) + ((high as u64) << 32)
}
