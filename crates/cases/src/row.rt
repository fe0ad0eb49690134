// Rows, by their words.
use calls::{choice, step};
use queries::{message, seconds};
use scan::{BYTES, split_word};
use std::io;
use std::io::Write;

// Room for the bytes of a row, of which a step has two groups. It is made once, and not for every row.
#[derive(Drop)]
pub(crate) struct Buffers {
    first: [u8; BYTES],
    second: [u8; BYTES],
}

pub(crate) const EMPTY: Buffers = Buffers {
    first: [0; BYTES],
    second: [0; BYTES],
};

// Answers the row that a line is; `None` where it is not understood. A row is answered where it is read, since bytes are understood
// in a lent buffer, and a row that owned them would be moved with all its room.
pub(crate) fn answer<W: Write>(
    out: &mut W,
    line: &[u8],
    buffers: &mut Buffers,
) -> Option<io::Result<()>> {
    let (word, row) = split_word(line);
    match word {
        b"seconds" => Some(seconds::Row::read(row)?.answer(out)),
        b"suites" => Some(choice::Row::read(row)?.answer(out)),
        b"message" => Some(message::LentRow::read(row, &mut buffers.first)?.answer(out)),
        b"step" => {
            let row = step::LentRow::read(row, &mut buffers.first, &mut buffers.second)?;
            Some(row.answer(out))
        }
        _ => None,
    }
}
