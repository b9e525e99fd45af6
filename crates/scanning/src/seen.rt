// What is kept of a line while it is read. `stop` and `end` come first, where a refusal lies in a Result: each field sets them anew, so
// that reading takes fewer instructions than with others there.
#[derive(Clone, Copy)]
pub(crate) struct Seen {
    // Where reading stops in the present field: at its end, or at the line's where that comes first.
    pub stop: usize,
    // The place behind the last bit of the present field, if no more stuff bits come.
    pub end: usize,
    // The place of the next bit.
    pub place: usize,
    // The bits read last, stuff bits too, to the last CRC bit: the five lowest show whether a stuff bit is due.
    pub raw: u64,
    // The bits of the present part, without stuff bits: of the header, of the data field, or of the CRC.
    pub number: u64,
    // The header and the data field, once they are read.
    pub header: u64,
    pub field: u64,
}

// No run reaches in from before the start of frame, which must be 0: before it stands a 1.
pub(crate) const NOTHING: Seen = Seen {
    stop: 0,
    end: 0,
    place: 0,
    raw: 1,
    number: 0,
    header: 0,
    field: 0,
};
