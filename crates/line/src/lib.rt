// Reading a line: the identifier and the payload of the frame that it holds.
//
// On success only the bytes of the payload are written; after a refusal the lent buffer holds its old bytes.
#![tactic(auto)]

ghost use Rattle.std.specs.Prelude.{◌≡◌, length};
ghost use Rattle.refusals.specs.After.{after};
ghost use Rattle.line.specs.Read.{acknowledged, own, read_answer, payload_in, line_numbers};

use reading::Reading;
use refusals::Refusal;
use wire::Identifier;

// What a line holds: an identifier and a payload, of which this is the length. [7.5]
#[derive(Clone, Copy, PartialEq, Eq, Debug)]
pub struct Frame {
    pub length: usize,
    pub identifier: Identifier,
}

// The two readings have calls of their own, which the documents name (`read-line-runs`, `read-own-line-runs`); the reader is `read`.
//
// Reads a line from a live bus, a byte 0 or 1 for each bit, from its first bit on; the payload stands at the start of `payload`.
// Refused with 3, 9 to 13 and 20, at the first problem met; then with 2 and 4 to 7.
pub fn read_line(line: &[u8], payload: &mut [u8]) -> Result<Frame, Refusal>
    ensures answer { result ≡ read_answer acknowledged line.now (length payload.old) }
    ensures memory { payload.new ≡ after (line_numbers result) (payload_in acknowledged line.now) payload.old }
{
    read(line, payload, reading::ACKNOWLEDGED)
}

// Reads a line of our own maker, which leaves a 1 in the ACK slot: as `read_line`, but 20 is never given.
pub fn read_own_line(line: &[u8], payload: &mut [u8]) -> Result<Frame, Refusal>
    ensures answer { result ≡ read_answer own line.now (length payload.old) }
    ensures memory { payload.new ≡ after (line_numbers result) (payload_in own line.now) payload.old }
{
    read(line, payload, reading::OWN)
}

// Reads a line as the reading asks: its bits decide, and then its data field.
pub fn read(line: &[u8], payload: &mut [u8], reading: Reading) -> Result<Frame, Refusal>
    ensures answer { result ≡ read_answer reading line.now (length payload.old) }
    ensures memory { payload.new ≡ after (line_numbers result) (payload_in reading line.now) payload.old }
{
    // `?` calls std, whose code `Linked` cannot show.
    let held = match scanning::scan(line, reading) {
        Ok(held) => held,
        Err(refusal) => return Err(refusal),
    };
    match decoding::decode_number(held.field, payload) {
        Ok(length) => Ok(Frame {
            length,
            identifier: held.identifier,
        }),
        Err(refusal) => Err(refusal),
    }
}
