// Stuffing, four bits at a time: the four bits sent last tell the run that ends them, which is of at most four.
ghost use Rattle.std.specs.Prelude.{◌≡◌, ◌+◌, ◌*◌, ◌/◌, ◌^◌, ◌≤◌, ◌<◌, length};
ghost use Rattle.bits.specs.Rows.{bits};
ghost use Rattle.bits.specs.Stuffing.{nothing_sent, stuff_count, run_after_row};
ghost use Rattle.frame.specs.Header.{bits_of};
ghost use Rattle.frame.specs.Fours.{run_of, quiet_check};
ghost use Rattle.frame.specs.Sent.{first_bits, IsSent, Counts};

use crate::fours::Four;
use crate::header::Header;
use crate::sent_list;
use field::encoding::Coded;

// Four bits as they go out: the last four, and the bit before these where a stuff bit is among them.
#[derive(Clone, Copy)]
pub(crate) struct Sent {
    pub first: Option<u8>,
    pub last: Four,
}

impl Sent {
    // Four bits behind those sent last.
    pub(crate) fn behind(last: Four, four: Four) -> Sent
        ensures { IsSent last.bits four.bits result }
    {
        let sent = sent_list::list()[(last.bits * 16 + four.bits) as usize];
        Sent {
            first: if sent < 32 { None } else { Some(sent / 16 % 2) },
            last: Four {
                bits: (sent % 16) as u64,
            },
        }
    }

    // How many stuff bits are among them. Not by `is_some`, which calls std: `Linked` cannot show its code.
    fn drawn(self) -> usize
        ensures { result ≡ length (first_bits self.first) }
    {
        matches!(self.first, Some(_)) as usize
    }
}

// The four bits sent last, and how many stuff bits were among what was sent.
#[derive(Clone, Copy)]
pub(crate) struct Counted {
    pub last: Four,
    pub drawn: usize,
}

// Counts the stuff bits that follow the lowest `count` times four bits of a number. A struct of the two would be made anew at each call:
// they come from a header, a data field or a CRC.
pub(crate) fn count(last: Four, number: u64, count: usize) -> Counted
    requires { count ≤ 9 }
    ensures { Counts (run_of last.bits) (bits (4 * count) number) result }
{
    let mut counted = Counted { last, drawn: 0 };
    for left in (0..count).rev() {
        let sent = Sent::behind(counted.last, Four::at(number, left));
        counted.last = sent.last;
        counted.drawn += sent.drawn();
    }
    counted
}

// Counts the stuff bits that follow the bits of a header.
pub(crate) fn of_header(header: Header) -> Counted
    ensures { Counts nothing_sent (bits_of header) result }
{
    count(start(header), header.number, header.fours)
}

// The four bits that stand before the fourth of a header, whose first three draw no stuff bit; before them, as if a 1 had been sent.
pub(crate) fn start(header: Header) -> Four
    ensures { result.bits ≡ 8 + header.number / 2 ^ (4 * header.fours) }
{
    Four {
        bits: 8 + (header.number >> (4 * header.fours)),
    }
}

// The four bits sent last behind a data field that draws no stuff bit, `last` being those before it.
pub(crate) fn behind(last: Four, field: Coded) -> Four
    requires { stuff_count (run_of last.bits) (bits (8 * field.n) field.number) ≡ 0 }
    ensures { run_of result.bits ≡ run_after_row (run_of last.bits) (bits (8 * field.n) field.number) }
{
    if field.n == 0 {
        last
    } else {
        Four::at(field.number, 0)
    }
}

// The 15 CRC bits, and behind them one that draws no stuff bit: the last of them negated.
pub(crate) fn check(crc: u64) -> u64
    requires { crc < 2 ^ 15 }
    ensures { result ≡ quiet_check crc }
{
    crc * 2 + 1 - crc % 2
}
