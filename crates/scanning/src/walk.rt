// Reading the bits of a line from the left: the first problem met is the answer.
ghost use Rattle.std.specs.Prelude.{◌<◌};
ghost use Rattle.reading.specs.Scan.{scanned};
ghost use Rattle.scanning.specs.Steps.{Reads};

use crate::reader::Reader;
use crate::seen::Seen;
use crate::{field_end, fields, places, seen};
use reading::Reading;
use refusals::Refusal;

// What is seen of the whole line, field by field and bit by bit.
pub(crate) fn along(line: &[u8], reading: Reading) -> Result<Seen, Refusal>
    ensures { Reads result (scanned reading line.now) }
{
    let mut fields = fields::of(reading);
    let mut seen = seen::NOTHING;
    // Left by a label, as document 01 wants it.
    'line: {
        // By its place: the fields behind it get their widths as IDE and the DLC are read. And read in place: where it is copied first, or
        // handed on whole, a call takes some 100 instructions more, and reading the empty payload in the long form misses its bar.
        for i in 0..fields.len() {
            seen.end = seen.place + fields[i].width as usize;
            seen.stop = places::least(seen.end, line.len());
            // No `for`: a bit takes the stuff bit before it along, and puts the stop further off.
            while seen.place < seen.stop {
                let reader = Reader { line, seen };
                seen = match reader.next(fields[i].rule, fields[i].most) {
                    Ok(next) => next,
                    Err(refusal) => break 'line Err(refusal),
                };
            }
            let last = fields[i].last;
            seen = match field_end::judge(&mut fields, last, seen) {
                Ok(next) => next,
                Err(refusal) => break 'line Err(refusal),
            };
        }
        if seen.place < line.len() {
            break 'line Err(Refusal::LineLength(seen.place));
        }
        Ok(seen)
    }
}
