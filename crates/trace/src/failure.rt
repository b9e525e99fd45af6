// What the program says where a read or a write fails.
use std::io::Write;
use std::{io, str};

// Longer than what the system says of any error.
const ROOM: usize = 512;

// Writes a line: what failed, a colon, and what the system says of it, without the number that std puts behind that.
pub(crate) fn write(rt: &impl Eprint, what: &str, error: io::Error) {
    let mut room = [0u8; ROOM];
    let _ = write!(&mut room[..], "{error}");
    let whole = str::from_utf8(&room).unwrap_or("");
    let said = match whole.split_once(" (os error ") {
        Some((said, _)) => said,
        None => whole.trim_end_matches('\0'),
    };
    let _ = eprintln!(rt; "{what}: {said}");
}
