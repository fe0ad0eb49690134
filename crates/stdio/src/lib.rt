// Lines of input, and items of a line of output.
#![tactic(auto)]

ghost use Rattle.std.specs.Prelude.{◌≡◌, ◌≤◌, IfOk, IfSome, OnErr, length};

mod print;

pub use print::{Numbers, Runs};
use std::io;
use std::io::Read;

const NEWLINE: u8 = b'\n';

// A line has more bytes than the buffer that it is read into.
#[derive(Clone, Copy, Debug, PartialEq, Eq)]
pub struct TooLong;

// One byte for each read, so that nothing of the input is kept between lines.
fn next_byte<R: Read>(input: &mut R) -> io::Result<Option<u8>> {
    input.bytes().next().transpose()
}

// Stores a byte of a line, if there is room for it.
fn put(line: &mut [u8], at: usize, byte: u8) {
    if at < line.len() {
        line[at] = byte;
    }
}

// The length of a line of `size` bytes, of which the first are in a buffer.
fn length_in(line: &[u8], size: usize) -> Result<usize, TooLong>
    ensures { IfOk result (λ len. len ≤ length line.now) }
{
    if size > line.len() {
        return Err(TooLong);
    }
    Ok(size)
}

// Reads the next line into a buffer, without its newline, and gives its length; `None` where the input has ended. A line
// that is longer than the buffer is read to its end. Nothing says that a line ends, so its bytes are counted. Where a read
// fails, the buffer may hold a part of the line. The answer is a length and no part of the buffer, since the clause
// `failed` speaks of the buffer after the call, which a borrowed part would hide.
pub fn read_line<R: Read>(
    input: &mut R,
    line: &mut [u8],
) -> io::Result<Option<Result<usize, TooLong>>>
    ensures found { IfOk result (λ found. IfSome found (λ read. IfOk read (λ len. len ≤ length line.new))) }
    ensures failed { OnErr result (length line.new ≡ length line.old) }
{
    for size in 0..usize::MAX {
        match next_byte(input)? {
            None if size == 0 => return Ok(None),
            None | Some(NEWLINE) => return Ok(Some(length_in(line, size))),
            Some(byte) => put(line, size, byte),
        }
    }
    Ok(None)
}
