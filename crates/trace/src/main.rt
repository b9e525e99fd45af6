// Reads a trace from standard input, at most 65,536 bytes of it, and writes the report over it to standard output.
// What else there is to say goes to standard error.
#![tactic(auto)]

ghost use Rattle.std.specs.Prelude.{◌≤◌, length};

mod failure;
mod usage;

use records::MOST_BYTES;
use report::LINE_ROOM;
use std::env::{Env, FillError};
use std::io;
use std::io::{ErrorKind, Read};
use std::process::ExitCode;

// What a shell tells of a program that the system ends at a pipe with no reader.
const NO_READER: u8 = 141;

fn main(rt: HostRuntime) -> ExitCode {
    if has_argument(&rt) {
        usage::write(&rt);
        return ExitCode::SUCCESS;
    }
    let mut bytes = [0u8; MOST_BYTES];
    let (count, goes_on) = read_full(&mut rt.stdin(), &mut bytes);
    warn(&rt, goes_on);
    match write_report(&rt, &bytes[..count]) {
        Ok(()) => ExitCode::SUCCESS,
        Err(error) if error.kind() == ErrorKind::BrokenPipe => ExitCode::from(NO_READER),
        Err(error) => {
            failure::write(&rt, "trace: the report cannot be written", error);
            ExitCode::SUCCESS
        }
    }
}

fn has_argument(rt: &impl Env) -> bool {
    let mut text = [0u8; 1];
    !matches!(rt.arg(1, &mut text), Err(FillError::NotPresent))
}

// Reads until these bytes are full, and then asks whether there is one more; or until the input ends or a read fails. Answers how many
// bytes it read, and whether the input goes on behind them.
// By hand, since std's read_exact does not say how many bytes it read before one failed, and read_to_end takes a Vec, which has no bound.
fn read_full<R: Read>(input: &mut R, bytes: &mut [u8]) -> (usize, io::Result<bool>)
    ensures { result.0 ≤ length bytes.old }
{
    let mut count = 0;
    while count < bytes.len() {
        match input.read(&mut bytes[count..]) {
            Ok(0) => return (count, Ok(false)),
            Ok(n) => count += n,
            Err(error) => return (count, Err(error)),
        }
    }
    (count, input.read(&mut [0u8; 1]).map(|n| n != 0))
}

// Says that the trace goes on behind the bytes that were read, or that a read failed. This comes before the report: where nobody reads
// that any more, the program ends.
fn warn(rt: &impl Eprint, goes_on: io::Result<bool>) {
    match goes_on {
        Ok(false) => {}
        Ok(true) => {
            let _ = rt.eprintln(
                "trace: standard input has more than 65,536 bytes; the report is of the first 65,536",
            );
        }
        Err(error) => failure::write(rt, "trace: standard input cannot be read to its end", error),
    }
}

// Writes the line of each record, from the first on, to the report's end; or stops where a line cannot be written. The number is counted
// by hand: with a `for` over 1.. the line would have to be asked for, and the loop left, in its body.
fn write_report(rt: &impl Print, trace: &[u8]) -> io::Result<()> {
    let mut text = [0u8; LINE_ROOM];
    let mut offset = 0;
    let mut number = 1;
    while let Ok(Some(line)) = report::line_at(trace, offset, number, &mut text) {
        rt.write_all(&text[..line.length])?;
        offset = line.next;
        number += 1;
    }
    Ok(())
}
