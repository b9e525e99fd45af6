// The report over a trace: a line of text, in ASCII, for each record.
//
// No call here is one of std, as map and unwrap_or are: demands/Linked, `line-at-linked`, needs the code of each, and std gives none out.
#![tactic(auto)]

ghost use Rattle.std.specs.Prelude.{◌≡◌, length};
ghost use Rattle.refusals.specs.After.{after};
ghost use Rattle.report.specs.Report.{reported_at, line_at, reported_numbers};

mod text;
mod writing;

use records::Record;
use refusals::Refusal;
use text::Text;

// The room that every line is lent: more than any takes.
pub const LINE_ROOM: usize = 96;

// A line: its length, and where the next record stands, which behind refusal 14 is the trace's end. [15.9]
#[derive(Clone, Copy, PartialEq, Eq, Debug)]
pub struct Line {
    pub length: usize,
    pub next: usize,
}

// Writes the line of the record at an offset, with the number that the record is to have, to the start of `text`; nothing, where the
// trace ends. Refused with 2: room for LINE_ROOM bytes is asked for whatever the line. [15.9]
#[tactic(auto, using(std::proofs::lemmas::Bool::Decides::nat_tests), unfolding(crate::specs::Report::reported_at, crate::specs::Report::line_at))]
pub fn line_at(
    trace: &[u8],
    offset: usize,
    number: usize,
    text: &mut [u8],
) -> Result<Option<Line>, Refusal>
    ensures answer { result ≡ reported_at trace.now offset number (length text.old) }
    ensures memory { text.new ≡ after (reported_numbers result) (line_at trace.now offset number) text.old }
{
    if text.len() < LINE_ROOM {
        return Err(Refusal::RoomShort);
    }
    let mut line = Text::new(text);
    let next = match records::record_at(trace, offset) {
        Ok(None) => return Ok(None),
        Ok(Some(record)) => {
            // The same line stands in `record_at`: a call for it would be one more public call.
            let (Record::Payload(body) | Record::Field(body)) = record;
            let start = offset + 1;
            let next = start + body;
            writing::coded(number, record, &trace[start..next], &mut line);
            next
        }
        Err(refusal) => {
            // A refusal has no result, so that it is of no matter which bytes are lent for one.
            writing::line(number, b'-', Err(refusal), trace, &mut line);
            trace.len()
        }
    };
    Ok(Some(Line {
        length: line.length(),
        next,
    }))
}
