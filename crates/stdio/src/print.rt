// Items of a line, each of which stands after a blank.
use std::fmt;

// Each number as an item.
#[derive(Clone, Copy, Debug, PartialEq, Eq)]
pub struct Numbers<'a>(pub &'a [u32]);

impl fmt::Display for Numbers<'_> {
    fn fmt<W: fmt::Write>(&self, f: &mut fmt::Formatter<W>) -> fmt::Result {
        for number in self.0 {
            write!(f, " {number}")?;
        }
        Ok(())
    }
}

// Each longest run of equal bytes as COUNT*BYTE, the byte in hexadecimal.
#[derive(Clone, Copy, Debug, PartialEq, Eq)]
pub struct Runs<'a>(pub &'a [u8]);

impl fmt::Display for Runs<'_> {
    fn fmt<W: fmt::Write>(&self, f: &mut fmt::Formatter<W>) -> fmt::Result {
        for run in self.0.chunk_by(|one, next| one == next) {
            write!(f, " {}*{:02x}", run.len(), run[0])?;
        }
        Ok(())
    }
}
