// What a field shows once its last bit is read.
ghost use Rattle.std.specs.Prelude.{◌≡◌, ◌*◌, ◌%◌, ◌≤◌, ◌<◌};
ghost use Rattle.scanning.specs.Rows.{with_width};
ghost use Rattle.scanning.specs.Steps.{twice, form_read, form_fields, header_read, field_read, crc_read, last_told, fields_told, field_end, fields_end};

use crate::fields::{DATA, FIXED_BITS, Field, LOW_BITS, Last};
use crate::seen::Seen;
use refusals::Refusal;

// Refused with 11 where the line ends within the field; behind IDE with 13, at the place of RTR or SRR; behind the DLC with 3 and behind
// the CRC with 12, each at its last bit. That a bit was read is asked here, and not kept by Seen, which begins at place 0.
//
// The fields stand beside what is seen: they are changed where they are, and a new `seen` is given.
#[tactic(auto, using(std::proofs::lemmas::Bool::Decides::nat_tests), unfolding(crate::specs::Steps::field_end, crate::specs::Steps::fields_end))]
pub(crate) fn judge(fields: &mut [Field; 10], last: Last, seen: Seen) -> Result<Seen, Refusal>
    requires { (0 < seen.end) × (last ≡ Last.Form → 3 ≤ seen.end) }
    ensures answer { result ≡ field_end last seen }
    ensures memory { fields.new ≡ fields_end last seen fields.old }
{
    if seen.place < seen.end {
        return Err(Refusal::LineLength(seen.place));
    }
    // Most fields tell nothing: with that asked for by itself, before the others, reading the empty payload in the long form meets its bar.
    if matches!(last, Last::Nothing) {
        return Ok(seen);
    }
    told(fields, last, seen)
}

// What its last bit tells.
fn told(fields: &mut [Field; 10], last: Last, seen: Seen) -> Result<Seen, Refusal>
    requires { (0 < seen.place) × (last ≡ Last.Form → 3 ≤ seen.place) }
    ensures answer { result ≡ last_told last seen }
    ensures memory { fields.new ≡ fields_told last seen fields.old }
{
    match last {
        Last::Nothing => Ok(seen),
        Last::Form => form(fields, seen),
        Last::Header => header(fields, seen),
        Last::Data => data(seen),
        Last::Check => check(seen),
    }
}

// The bit before IDE must be the same. If it is not, IDE starts a run, or a stuff bit between the two does.
#[tactic(auto, using(std::proofs::lemmas::Bool::Decides::nat_tests), unfolding(crate::specs::Steps::form_read))]
fn form(fields: &mut [Field; 10], seen: Seen) -> Result<Seen, Refusal>
    requires { 3 ≤ seen.place }
    ensures answer { result ≡ form_read seen }
    ensures memory { fields.new ≡ form_fields seen fields.old }
{
    let ide = (seen.number % 2) as u8;
    fields[LOW_BITS].width = 18 * ide;
    fields[FIXED_BITS].width = 1 + 2 * ide;
    if twice(seen.number) {
        return Ok(seen);
    }
    if twice(seen.raw) {
        return Err(Refusal::FixedBit(seen.place - 3));
    }
    Err(Refusal::FixedBit(seen.place - 2))
}

// Whether the last two bits of a number are the same.
#[tactic(auto, using(std::proofs::lemmas::Bool::Decides::nat_tests), unfolding(crate::specs::Steps::twice))]
fn twice(number: u64) -> bool
    ensures { result ≡ twice number }
{
    // 00 and 11 alone give 1 and 0.
    (number % 4 + 1) % 4 < 2
}

// The DLC tells how many bits the data have.
#[tactic(auto, using(std::proofs::lemmas::Bool::Decides::nat_tests), unfolding(crate::specs::Steps::header_read))]
fn header(fields: &mut [Field; 10], seen: Seen) -> Result<Seen, Refusal>
    requires { 0 < seen.place }
    ensures answer { result ≡ header_read seen }
    ensures memory { fields.new ≡ with_width 5 (8 * (seen.number % 16)) fields.old }
{
    let n = seen.number % 16;
    fields[DATA].width = (8 * n) as u8;
    if n == 1 || 8 < n {
        return Err(Refusal::FieldLength(seen.place - 1));
    }
    Ok(Seen {
        number: 0,
        header: seen.number,
        ..seen
    })
}

// The data field is kept, and the CRC's bits begin a number of their own. As where `header` ends, but another field of Seen is set: which
// one cannot be handed in.
#[tactic(auto, unfolding(crate::specs::Steps::field_read))]
fn data(seen: Seen) -> Result<Seen, Refusal>
    ensures { result ≡ field_read seen }
{
    Ok(Seen {
        number: 0,
        field: seen.number,
        ..seen
    })
}

// The CRC must be that of the header and the data field.
#[tactic(auto, using(std::proofs::lemmas::Bool::Decides::nat_tests), unfolding(crate::specs::Steps::crc_read))]
fn check(seen: Seen) -> Result<Seen, Refusal>
    requires { 0 < seen.place }
    ensures { result ≡ crc_read seen }
{
    if seen.number == crc::of_frame(seen.header, seen.field) {
        return Ok(seen);
    }
    Err(Refusal::Crc(seen.place - 1))
}
