// The frame of an identifier and a payload: a CAN data frame on the wire, of either form, its length and its bounds.
//
// On success only the bytes of the result are written; after a refusal the lent buffer holds its old bytes.
#![tactic(auto)]

ghost use Rattle.std.specs.Prelude.{◌≡◌, length};
ghost use Rattle.refusals.specs.Table.{answer_numbers};
ghost use Rattle.refusals.specs.After.{after};
ghost use Rattle.wire.specs.Answers.{payload_line, make_answer, length_answer, bounds_answer};

mod byte_list;
mod form;
mod fours;
mod header;
mod length;
mod parts;
mod sent_list;
mod stuffing;
mod writing;

use field::table;
use header::Header;
use parts::Parts;
use refusals::Refusal;
use wire::{Bounds, Identifier};

// Makes the frame of an identifier and a payload: the length of its line, which stands at the start of `line`, a byte 0 or 1 for each
// bit. Refused with 8, 1 or 2; room for 116 bits is asked for, or for 141 in the long form, whatever the payload.
pub fn make_frame(identifier: Identifier, payload: &[u8], line: &mut [u8]) -> Result<usize, Refusal>
    ensures answer { result ≡ make_answer identifier payload.now (length line.old) }
    ensures memory { line.new ≡ after (answer_numbers result) (payload_line identifier payload.now) line.old }
{
    let parts = match Parts::of(identifier, payload) {
        Ok(parts) => parts,
        // `?` calls std, whose code `Linked` cannot show.
        Err(refusal) => return Err(refusal),
    };
    if line.len() < form::room(identifier) {
        return Err(Refusal::RoomShort);
    }
    Ok(writing::whole(parts, line))
}

// The length of that line; none is built. Refused with 8 or 1.
pub fn frame_length(identifier: Identifier, payload: &[u8]) -> Result<usize, Refusal>
    ensures { result ≡ length_answer identifier payload.now }
{
    match Parts::of(identifier, payload) {
        Ok(parts) => Ok(length::of(parts)),
        // `?` calls std, whose code `Linked` cannot show.
        Err(refusal) => Err(refusal),
    }
}

// Bounds between which the length of every frame of a size lies; they need not be reached. Refused with 8 or 1.
pub fn frame_bounds(identifier: Identifier, size: usize) -> Result<Bounds, Refusal>
    ensures { result ≡ bounds_answer identifier size }
{
    if form::is_refused(identifier) {
        return Err(Refusal::Identifier);
    }
    if 7 < size {
        return Err(Refusal::PayloadTooLong);
    }
    let row = table::row_of(size);
    let n = row.bytes;
    let header = Header::of(identifier, n);
    let head = stuffing::of_header(header);
    let least = length::total(header.fours, n, head.drawn, 0);
    Ok(Bounds {
        least,
        most: least + 4,
    })
}
