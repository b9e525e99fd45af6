// The archive for C: exports the calls of prushgoli under their names and with their clauses, and does nothing else: a crate is an archive
// or a library that others can cite. A slice passes as pointer and length.
#![tactic(auto)]

ghost use Rattle.std.specs.Prelude.{◌≡◌, length};
ghost use Rattle.refusals.specs.Table.{answer_numbers};
ghost use Rattle.refusals.specs.After.{after};
ghost use Rattle.field.specs.Field.{field_of};
ghost use Rattle.field.specs.Encode.{encode_answer};
ghost use Rattle.decoding.specs.Decode.{decode_answer, payload_of};
ghost use Rattle.wire.specs.Identifier.{identifier_of};
ghost use Rattle.wire.specs.Answers.{payload_line, make_answer, length_answer, bounds_answer, bounds_numbers};
ghost use Rattle.line.specs.Read.{acknowledged, own, read_answer, payload_in, line_numbers};
ghost use Rattle.prushgoli.specs.Packing.{pack};

// Codes a payload into a field.
#[unsafe(no_mangle)]
pub extern "C" fn prushgoli_encode(payload: &[u8], field: &mut [u8]) -> u64
    ensures answer { result ≡ pack (answer_numbers (encode_answer payload.now (length field.old))) }
    ensures memory { field.new ≡ after (answer_numbers (encode_answer payload.now (length field.old))) (field_of payload.now) field.old }
{
    prushgoli::prushgoli_encode(payload, field)
}

// Decodes a field into its payload.
#[unsafe(no_mangle)]
pub extern "C" fn prushgoli_decode(field: &[u8], payload: &mut [u8]) -> u64
    ensures answer { result ≡ pack (answer_numbers (decode_answer field.now (length payload.old))) }
    ensures memory { payload.new ≡ after (answer_numbers (decode_answer field.now (length payload.old))) (payload_of field.now) payload.old }
{
    prushgoli::prushgoli_decode(field, payload)
}

// The length of the frame of an identifier and a payload.
#[unsafe(no_mangle)]
pub extern "C" fn prushgoli_frame_length(identifier: u32, payload: &[u8]) -> u64
    ensures { result ≡ pack (answer_numbers (length_answer (identifier_of identifier) payload.now)) }
{
    prushgoli::prushgoli_frame_length(identifier, payload)
}

// The bounds of the length of every frame of an identifier and a size.
#[unsafe(no_mangle)]
pub extern "C" fn prushgoli_frame_bounds(identifier: u32, size: usize) -> u64
    ensures { result ≡ pack (bounds_numbers (bounds_answer (identifier_of identifier) size)) }
{
    prushgoli::prushgoli_frame_bounds(identifier, size)
}

// Makes the line of the frame of an identifier and a payload.
#[unsafe(no_mangle)]
pub extern "C" fn prushgoli_make_frame(identifier: u32, payload: &[u8], line: &mut [u8]) -> u64
    ensures answer { result ≡ pack (answer_numbers (make_answer (identifier_of identifier) payload.now (length line.old))) }
    ensures memory { line.new ≡ after (answer_numbers (make_answer (identifier_of identifier) payload.now (length line.old))) (payload_line (identifier_of identifier) payload.now) line.old }
{
    prushgoli::prushgoli_make_frame(identifier, payload, line)
}

// Reads a line from a live bus: the identifier and the payload of its frame.
#[unsafe(no_mangle)]
pub extern "C" fn prushgoli_read_line(line: &[u8], payload: &mut [u8]) -> u64
    ensures answer { result ≡ pack (line_numbers (read_answer acknowledged line.now (length payload.old))) }
    ensures memory { payload.new ≡ after (line_numbers (read_answer acknowledged line.now (length payload.old))) (payload_in acknowledged line.now) payload.old }
{
    prushgoli::prushgoli_read_line(line, payload)
}

// Reads a line of our own maker, in whose ACK slot 0 or 1 may stand.
#[unsafe(no_mangle)]
pub extern "C" fn prushgoli_read_own_line(line: &[u8], payload: &mut [u8]) -> u64
    ensures answer { result ≡ pack (line_numbers (read_answer own line.now (length payload.old))) }
    ensures memory { payload.new ≡ after (line_numbers (read_answer own line.now (length payload.old))) (payload_in own line.now) payload.old }
{
    prushgoli::prushgoli_read_own_line(line, payload)
}
