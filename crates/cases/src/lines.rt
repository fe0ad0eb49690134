// Lines of worked cases. A line is copied, or it is a row, which asks the library and is answered.
use crate::row;
use crate::row::Buffers;
use std::io;
use std::io::Write;

// Answers the line that has a number.
pub(crate) fn answer<W: Write>(
    out: &mut W,
    number: u64,
    line: &[u8],
    buffers: &mut Buffers,
) -> io::Result<()> {
    if let [] | [b'#', ..] = line {
        return copy(out, line);
    }
    match row::answer(out, line, buffers) {
        Some(answered) => answered,
        None => refuse(out, number),
    }
}

fn copy<W: Write>(out: &mut W, line: &[u8]) -> io::Result<()> {
    out.write_all(line)?;
    out.write_all(b"\n")
}

pub(crate) fn refuse<W: Write>(out: &mut W, number: u64) -> io::Result<()> {
    writeln!(out, "error in line {number}")
}
