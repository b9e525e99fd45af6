// The records of a trace: one byte of kind, then a body whose length the kind fixes.
//
// No call here is one of std, as min and ? are: demands/Linked, `record-at-linked`, needs the code of each, and std gives none out.
#![tactic(auto)]

ghost use Rattle.std.specs.Prelude.{◌≡◌};
ghost use Rattle.records.specs.Records.{record_at};

mod kinds;

use refusals::Refusal;

// As many bytes of a trace as count. [14.3]
pub const MOST_BYTES: usize = 65536;

// A record, with the length of its body, which follows the kind byte. [14.1]
#[derive(Clone, Copy, PartialEq, Eq, Debug)]
pub enum Record {
    Payload(usize),
    Field(usize),
}

// Reads the record at an offset; nothing stands at the trace's end. Bytes behind the first MOST_BYTES are as if absent. Refused with 14,
// which ends the reading: kind unknown, or body cut. Trace and offset come apart, as document 02 has them. [14.3, 14.4, 14.6]
#[tactic(auto, using(std::proofs::lemmas::Bool::Decides::nat_tests), unfolding(crate::specs::Records::record_at))]
pub fn record_at(trace: &[u8], offset: usize) -> Result<Option<Record>, Refusal>
    ensures { result ≡ record_at trace.now offset }
{
    let length = trace.len();
    // `min` calls std.
    let end = if length < MOST_BYTES {
        length
    } else {
        MOST_BYTES
    };
    if end <= offset {
        return Ok(None);
    }
    let Some(record) = kinds::of(trace[offset]) else {
        return Err(Refusal::Record(offset));
    };
    let (Record::Payload(body) | Record::Field(body)) = record;
    if end - offset - 1 < body {
        return Err(Refusal::Record(offset));
    }
    Ok(Some(record))
}
