// The lines of a report.
ghost use Rattle.std.specs.Prelude.{◌≤◌, length, IfOk};
ghost use Rattle.report.specs.Report.{outcome_text, coded_text};
ghost use Rattle.report.specs.Writing.{Wrote, HasRoom, Holds, held_in};

use crate::text::Text;
use records::Record;
use refusals::Refusal;

// The line of a record: what its body codes to, or decodes to.
pub(crate) fn coded(number: usize, found: Record, body: &[u8], text: &mut Text)
    requires { HasRoom 96 text.old }
    ensures { Wrote (coded_text found number body.now) text.old text.new }
{
    let mut bytes = [0u8; 8];
    let (letter, answer) = match found {
        Record::Payload(_) => (b'E', field::encode(body, &mut bytes)),
        Record::Field(_) => (b'D', decoding::decode(body, &mut bytes)),
    };
    line(number, letter, answer, &bytes, text);
}

// The line of an answer, whose result stands at the start of these bytes. Inlined, so that where the text ends is kept in a register.
#[inline(always)]
pub(crate) fn line(
    number: usize,
    letter: u8,
    answer: Result<usize, Refusal>,
    bytes: &[u8],
    text: &mut Text,
)
    requires { Holds answer bytes.now × HasRoom 96 text.old }
    ensures { Wrote (outcome_text number letter answer (held_in answer bytes.now)) text.old text.new }
{
    let (refusal, place, count) = match answer {
        Ok(length) => (0, 0, length),
        Err(refusal) => (refusal.number(), refusal.place(), 0),
    };
    text.spaced(number);
    text.byte(letter);
    text.byte(b' ');
    text.spaced(refusal as usize);
    text.spaced(place);
    text.bytes(&bytes[..count]);
    text.byte(b'\n');
}
