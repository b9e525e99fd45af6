// The length of a frame on the wire. No line is built, and no stuff bit looked for in the data: the last four data bits tell the run
// behind them.
ghost use Rattle.std.specs.Prelude.{◌≡◌, ◌+◌, ◌*◌, ◌≤◌, length};
ghost use Rattle.frame.specs.Parts.{line_in};

use crate::parts::Parts;
use crate::stuffing;

// How many bits the line of a frame has.
pub(crate) fn of(parts: Parts) -> usize
    ensures { result ≡ length (line_in parts) }
{
    let head = parts.header;
    let crc = crc::of_frame(head.number, parts.field.number);
    let header = stuffing::of_header(head);
    let last = stuffing::behind(header.last, parts.field);
    let check = stuffing::count(last, stuffing::check(crc), 4);
    total(head.fours, parts.field.n, header.drawn, check.drawn)
}

// The header's bits and 25 more beside the data, eight for each of n data bytes, and the stuff bits that follow header and CRC bits.
pub(crate) fn total(fours: usize, n: usize, header: usize, check: usize) -> usize
    requires { (fours ≤ 9) × (n ≤ 8) × (header ≤ 64) × (check ≤ 64) }
    ensures { result ≡ 28 + 4 * fours + 8 * n + (header + check) }
{
    28 + 4 * fours + 8 * n + header + check
}
