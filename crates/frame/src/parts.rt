// A frame before it is stuffed: what its CRC and its line follow from.
ghost use Rattle.std.specs.Prelude.{◌≡◌, ◌*◌, ◌%◌, ◌≤◌};
ghost use Rattle.bits.specs.Rows.{bits};
ghost use Rattle.bits.specs.Stuffing.{nothing_sent, stuff_count, run_after_row};
ghost use Rattle.frame.specs.Header.{bits_of};

use crate::form;
use crate::header::Header;
use field::encoding;
use field::encoding::Coded;
use refusals::Refusal;
use wire::Identifier;

// The data field has the bytes that the header's DLC says, and draws no stuff bit.
#[derive(Clone, Copy)]
pub(crate) struct Parts {
    pub header: Header,
    pub field: Coded,
    pub ghost dlc: { header.number % 16 ≡ field.n },
    pub ghost few: { field.n ≤ 8 },
    pub ghost quiet: { stuff_count (run_after_row nothing_sent (bits_of header)) (bits (8 * field.n) field.number) ≡ 0 },
}

impl Parts {
    ghost use Rattle.frame.specs.Framing.{Gives};

    // Codes the payload and sets the header before it. Refused with 8 or 1.
    pub(crate) fn of(identifier: Identifier, payload: &[u8]) -> Result<Parts, Refusal>
        ensures { Gives result identifier payload.now }
    {
        if form::is_refused(identifier) {
            return Err(Refusal::Identifier);
        }
        match encoding::code(payload) {
            Ok(field) => Ok(Parts {
                header: Header::of(identifier, field.n),
                field,
            }),
            // `?` calls std, whose code `Linked` cannot show.
            Err(refusal) => Err(refusal),
        }
    }
}
