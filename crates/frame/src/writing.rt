// Writing the bits of a frame into a line, one byte for each bit.
ghost use Rattle.std.specs.Prelude.{◌≡◌, ◌++◌, ◌+◌, ◌*◌, ◌^◌, ◌≤◌, ◌<◌, length, drop};
ghost use Rattle.frame.specs.Parts.{line_in};

use crate::fours::Four;
use crate::header::Header;
use crate::parts::Parts;
use crate::stuffing::Sent;
use crate::{byte_list, stuffing};
use field::encoding::Coded;

// Writes the line of a frame; its length.
pub(crate) fn whole(parts: Parts, line: &mut [u8]) -> usize
    requires { length (line_in parts) ≤ length line.old }
    ensures length { result ≡ length (line_in parts) }
    ensures memory { line.new ≡ line_in parts ++ drop (length (line_in parts)) line.old }
{
    let crc = crc::of_frame(parts.header.number, parts.field.number);
    let mut writer = Writer::behind(parts.header, line);
    writer.field(parts.field);
    writer.tail(crc);
    writer.at
}

// A line, where its next bit goes, and the four bits that were sent before it. How much room it needs is asked for at each call, and is
// no invariant: it depends on what is yet to be written.
#[derive(Drop)]
struct Writer<'a> {
    line: &'a mut [u8],
    at: usize,
    last: Four,
}

impl<'a> Writer<'a> {
    ghost use Rattle.bits.specs.Rows.{bits};
    ghost use Rattle.bits.specs.Stuffing.{nothing_sent, stuffed, stuff_count};
    ghost use Rattle.frame.specs.Header.{bits_of};
    ghost use Rattle.frame.specs.Fours.{run_of};
    ghost use Rattle.frame.specs.Writing.{Room, Placed, Written, tail_row};

    // Writes a header at the start of a line. Its first three bits draw no stuff bit.
    fn behind(header: Header, line: &'a mut [u8]) -> Writer<'a>
        requires { length (stuffed nothing_sent (bits_of header)) ≤ length line.old }
        ensures { Written nothing_sent 0 (bits_of header) line.entry result }
    {
        let mut writer = Writer {
            line,
            at: 0,
            last: stuffing::start(header),
        };
        writer.plain(header.number >> (4 * header.fours), 3);
        writer.stuffed(header.number, header.fours);
        writer
    }

    // Writes a data field, which draws no stuff bit.
    fn field(&mut self, field: Coded)
        requires { (field.n ≤ 8) × (stuff_count (run_of self.old.last.bits) (bits (8 * field.n) field.number) ≡ 0) × Room (8 * field.n) self.old }
        ensures { Written (run_of self.old.last.bits) self.old.at (bits (8 * field.n) field.number) self.old.line self.new }
    {
        self.last = stuffing::behind(self.last, field);
        self.plain_fours(field.number, 2 * field.n);
    }

    // Writes what follows the data field, the CRC and the ten bits 1 that are never stuffed. The first of these is written over the bit
    // that `stuffing::check` adds to the CRC.
    fn tail(&mut self, crc: u64)
        requires { (crc < 2 ^ 15) × Room (length (tail_row (run_of self.old.last.bits) crc)) self.old }
        ensures { Placed self.old.at (tail_row (run_of self.old.last.bits) crc) self.old.line self.new }
    {
        self.stuffed(stuffing::check(crc), 4);
        self.at -= 1;
        self.plain(1023, 10);
    }

    // Writes the lowest `count` times four bits of a number, with their stuff bits. `plain_fours` is the same loop around another step: as
    // one function over the step it would need both contracts of the steps as clauses.
    fn stuffed(&mut self, number: u64, count: usize)
        requires { (count ≤ 9) × Room (length (stuffed (run_of self.old.last.bits) (bits (4 * count) number))) self.old }
        ensures { Written (run_of self.old.last.bits) self.old.at (bits (4 * count) number) self.old.line self.new }
    {
        for left in (0..count).rev() {
            self.four(Four::at(number, left));
        }
    }

    // Writes four bits, and the stuff bit if one of them draws it.
    fn four(&mut self, four: Four)
        requires { Room (length (stuffed (run_of self.old.last.bits) (bits 4 four.bits))) self.old }
        ensures { Written (run_of self.old.last.bits) self.old.at (bits 4 four.bits) self.old.line self.new }
    {
        let sent = Sent::behind(self.last, four);
        if let Some(bit) = sent.first {
            self.line[self.at] = bit;
            self.at += 1;
        }
        self.plain_four(sent.last);
        self.last = sent.last;
    }

    // Writes the lowest `count` times four bits of a number as they are.
    fn plain_fours(&mut self, number: u64, count: usize)
        requires { (count ≤ 16) × Room (4 * count) self.old }
        ensures row { Placed self.old.at (bits (4 * count) number) self.old.line self.new }
        ensures last { self.new.last.bits ≡ self.old.last.bits }
    {
        for left in (0..count).rev() {
            self.plain_four(Four::at(number, left));
        }
    }

    // Writes four bits as they are, at once. Not by `copy_from_slice`, which calls std: `Linked` cannot show its code.
    fn plain_four(&mut self, four: Four)
        requires { Room 4 self.old }
        ensures row { Placed self.old.at (bits 4 four.bits) self.old.line self.new }
        ensures last { self.new.last.bits ≡ self.old.last.bits }
    {
        let [first, second, third, last] = byte_list::list()[four.bits as usize];
        self.line[self.at] = first;
        self.line[self.at + 1] = second;
        self.line[self.at + 2] = third;
        self.line[self.at + 3] = last;
        self.at += 4;
    }

    // Writes the lowest `count` bits of a number as they are.
    fn plain(&mut self, number: u64, count: usize)
        requires { (count ≤ 64) × Room count self.old }
        ensures row { Placed self.old.at (bits count number) self.old.line self.new }
        ensures last { self.new.last.bits ≡ self.old.last.bits }
    {
        for left in (0..count).rev() {
            self.line[self.at] = ((number >> left) % 2) as u8;
            self.at += 1;
        }
    }
}
