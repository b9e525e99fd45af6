// A line that is read bit by bit.
ghost use Rattle.std.specs.Prelude.{◌≡◌, ◌+◌, ◌≤◌, ◌<◌, ◌^◌, length};

use crate::seen::Seen;

// A line, and what is seen of it before a bit that is there.
#[derive(Clone, Copy)]
pub(crate) struct Reader<'a> {
    pub line: &'a [u8],
    pub seen: Seen,
    ghost inside: { seen.place < length line.now },
    ghost near: { seen.end ≤ seen.place + 255 },
    ghost room: { seen.number < 2 ^ 63 },
}

impl<'a> Reader<'a> {
    ghost use Rattle.scanning.specs.Steps.{behind_bit, behind_ending};

    // What is seen one place further on.
    pub(crate) fn further(self) -> Seen
        ensures { result ≡ behind_ending self.entry.seen }
    {
        let seen = self.seen;
        Seen {
            place: seen.place + 1,
            ..seen
        }
    }

    // What is seen behind a bit that is right, up to the CRC.
    pub(crate) fn behind(self, bit: u64) -> Seen
        requires { bit ≤ 1 }
        ensures { result ≡ behind_bit bit self.entry.seen }
    {
        let seen = self.seen;
        Seen {
            place: seen.place + 1,
            raw: (seen.raw << 1) + bit,
            number: seen.number * 2 + bit,
            ..seen
        }
    }
}
