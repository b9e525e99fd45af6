// What the program says where it is started with an argument.
pub(crate) fn write(rt: &impl Eprint) {
    let text = "\
usage: prushgoli-trace <FILE        (in the sources: make run TRACE=FILE)

Reads a trace from standard input, at most 65,536 bytes of it, and writes a
report to standard output. A trace is a row of records: a byte of kind, then a
body. Kinds 10 to 18 (hex) have a payload of 0 to 8 bytes, kinds 20 to 29 a data
field of 0 to 9 bytes. For each record the report has a line: its number; E
(payload, encoded) or D (field, decoded); the number of the refusal, 0 for none;
its place; the resulting bytes in hex, or - for none. At a record of unknown
kind, or one whose body is cut, the line has -, 14, and the offset of the kind
byte, and the report ends. All else that is to be said goes to standard error.

Bytes in hex go through prushgoli-hex first:
echo 11 F0 | prushgoli-hex | prushgoli-trace   writes   1 E 0 0 EA55
";
    let _ = rt.eprint(text);
}
