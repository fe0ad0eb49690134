// Rows `message`: the bytes of one message.
ghost use Rattle.std.specs.Prelude.{◌≤◌, IfSome, length};

use arrayvec::ArrayVec;
use capi::menhotrac_read;
use scan::{BYTES, Groups};
use std::io;
use std::io::Write;
use stdio::Numbers;

// A row that owns the bytes, so that it can be kept.
#[derive(Debug, PartialEq, Eq, Drop)]
pub struct Row {
    message: ArrayVec<u8, BYTES>,
}

// A row whose bytes lie in a lent buffer, so that it is small and can be handed on.
#[derive(Debug, PartialEq, Eq, Drop)]
pub struct LentRow<'a> {
    message: &'a [u8],
}

impl Row {
    // What follows the word; `None` where it is not understood.
    pub fn read(text: &[u8]) -> Option<Row> {
        let mut message = [0; BYTES];
        let row = LentRow::read(text, &mut message)?;
        Some(Row {
            message: ArrayVec::try_from(row.message).unwrap(),
        })
    }

    pub fn answer<W: Write>(&self, out: &mut W) -> io::Result<()> {
        let row = LentRow {
            message: self.message.as_slice(),
        };
        row.answer(out)
    }
}

impl<'a> LentRow<'a> {
    // What follows the word, its bytes in a buffer; `None` where it is not understood.
    pub fn read(text: &[u8], message: &'a mut [u8]) -> Option<LentRow<'a>>
        ensures { IfSome result (λ row. length row.message.now ≤ length message.old) }
    {
        let mut groups = Groups::new(text);
        let row = LentRow {
            message: groups.next()?.bytes(message)?,
        };
        groups.next().is_none().then_some(row)
    }

    pub fn answer<W: Write>(&self, out: &mut W) -> io::Result<()> {
        let mut provers = [0; 16];
        let mut verifiers = [0; 16];
        let read = menhotrac_read(self.message, &mut provers, &mut verifiers);
        write!(out, "message {} {} {}", read.refusal, read.number, read.bit)?;
        write!(out, " {} {}", read.provers, read.verifiers)?;
        write!(out, " {} {}", read.place, read.size)?;
        writeln!(out, " ;{} ;{}", Numbers(&provers), Numbers(&verifiers))
    }
}

#[cfg(test)]
mod tests {
    use super::*;
    use std::test::Fail;

    // A hello with two prover suites and one verifier suite. The row stands in stdin of the program `cases`, and its answer in stdout.
    const HELLO: &[u8] = b" 0a0b 0a020708 12020703 1a0103";

    #[test]
    fn owned_row_is_kept_and_answered(rt: HostRuntime) -> Result<(), Fail> {
        let row = Row::read(HELLO).ok_or("not understood")?;
        assert!(rt; row == Row::read(HELLO).ok_or("not understood")?);
        let mut out: ArrayVec<u8, 256> = ArrayVec::new();
        row.answer(&mut out)?;
        let answer =
            b"message 0 1 0 2 1 4 2 ; 7 3 0 0 0 0 0 0 0 0 0 0 0 0 0 0 ; 3 0 0 0 0 0 0 0 0 0 0 0 0 0 0 0\n";
        assert_eq!(rt; out.as_slice(), answer.as_slice());
        Ok(())
    }

    // Thirteen bytes in a buffer that has room for just as many, and in one a byte smaller.
    #[test]
    fn lent_row_needs_room_for_its_bytes(rt: HostRuntime) {
        assert!(rt; LentRow::read(HELLO, &mut [0; 13]).is_some());
        assert!(rt; LentRow::read(HELLO, &mut [0; 12]).is_none());
    }

    // The most bytes of a group, and one more.
    #[test]
    fn owned_row_has_room_for_the_most_bytes(rt: HostRuntime) {
        assert!(rt; Row::read(b" 32768*00").is_some());
        assert!(rt; Row::read(b" 32769*00").is_none());
    }
}
