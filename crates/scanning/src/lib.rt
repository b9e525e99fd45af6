// The bits of a line from the left: the first problem met, or what the frame holds that they make.
#![tactic(auto)]

ghost use Rattle.std.specs.Prelude.{◌≡◌};
ghost use Rattle.reading.specs.Scan.{scanned};
ghost use Rattle.scanning.specs.Held.{held_in};

mod bit;
mod field_end;
mod fields;
mod header;
mod places;
mod reader;
mod seen;
mod stuffing;
mod walk;

use field::encoding::Coded;
use reading::Reading;
use refusals::Refusal;
use wire::Identifier;

// What the frame of a line holds: an identifier, and a data field as one number. [12.1, 12.15]
// Derives that call std would have the calls of this crate linked one by one: three must-fail edits then fall at `Linked`, not at a fact.
#[derive(Clone, Copy)]
pub struct Held {
    pub identifier: Identifier,
    pub field: Coded,
}

// Scans a line, a byte 0 or 1 for each bit, from its first bit on. Refused with 3, 9 to 13 and, where the reading asks for a 0 in the
// ACK slot, 20, at the first problem met.
pub fn scan(line: &[u8], reading: Reading) -> Result<Held, Refusal>
    ensures { result ≡ held_in (scanned reading line.now) }
{
    match walk::along(line, reading) {
        Ok(seen) => Ok(Held {
            identifier: header::identifier(seen.header),
            field: Coded {
                n: (seen.header % 16) as usize,
                number: seen.field,
            },
        }),
        // `?` calls std, whose code `Linked` cannot show.
        Err(refusal) => Err(refusal),
    }
}
