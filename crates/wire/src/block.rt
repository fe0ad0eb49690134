// A length-delimited part.
ghost use Rattle.std.specs.Prelude.{◌≡◌};
ghost use Rattle.wire.specs.Layout.{block_at};
ghost use Rattle.wire.specs.Parts.{block_of};

use crate::Place;
use fault::Refusal;

// Where bytes lie in those that were lent.
#[derive(Clone, Copy, Debug, PartialEq, Eq)]
pub struct Span {
    pub place: usize,
    pub size: usize,
}

impl Place<'_> {
    // The length-delimited part at the place. It does not run past the end of the bytes.
    pub fn block(self) -> Result<Span, Refusal>
        ensures { block_of result ≡ block_at self.entry.bytes.now self.entry.at }
    {
        let length = self.number()?;
        let size = length.value as usize;
        if self.bytes.len() - length.next < size {
            return Err(Refusal::EndsTooSoon);
        }
        Ok(Span {
            place: length.next,
            size,
        })
    }
}
