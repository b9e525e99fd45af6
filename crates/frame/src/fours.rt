// A number four bits at a time, the highest first.
ghost use Rattle.std.specs.Prelude.{◌≡◌, ◌<◌};
ghost use Rattle.bits.specs.Fours.{four_at};

// Four bits, as a number.
#[derive(Clone, Copy)]
pub(crate) struct Four {
    pub bits: u64,
    pub ghost low: { bits < 16 },
}

impl Four {
    // Those of a number behind which `left` times four are left.
    pub(crate) fn at(number: u64, left: usize) -> Four
        requires { left < 16 }
        ensures { result.bits ≡ four_at number left }
    {
        Four {
            bits: (number >> (4 * left)) % 16,
        }
    }
}
