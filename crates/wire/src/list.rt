// A packed list of suites.
ghost use Rattle.std.specs.Prelude.{◌≡◌, [], IfOk};
ghost use Rattle.wire.specs.Bytes.{list_from};
ghost use Rattle.wire.specs.Lists.{padded};
ghost use Rattle.wire.specs.Parts.{Holds, Stored, packed_at, packed_of};

use crate::Place;
use fault::Refusal;

const MAX_ENTRIES: usize = 16;

// How many suites were read, with the place after the list. The suites stand in an array that is lent, as the C interface lends it.
#[derive(Clone, Copy, Debug, PartialEq, Eq)]
pub struct Packed {
    pub count: usize,
    pub next: usize,
}

// The entries from `start` to the end of the bytes, written to `suites`, which holds zeros. The loop goes over places: where
// the next entry stands is known when this one is read. A seventeenth entry has a refusal of its own, so they are counted.
fn entries(bytes: &[u8], start: usize, suites: &mut [u32; 16]) -> Result<Packed, Refusal>
    requires { suites.old ≡ padded [] }
    ensures suites_after { packed_of result suites.new ≡ list_from bytes.now start }
    ensures stored { IfOk result (λ list. Holds list.count suites.new) }
{
    let mut count = 0;
    let mut at = start;
    while at < bytes.len() {
        let suite = Place { bytes, at }.entry()?;
        if count == MAX_ENTRIES {
            return Err(Refusal::TooManySuites);
        }
        suites[count] = suite.value;
        count += 1;
        at = suite.next;
    }
    Ok(Packed {
        count,
        next: bytes.len(),
    })
}

impl Place<'_> {
    // The packed list at the place, written to `suites` with zeros behind it. After a fault `suites` holds zeros.
    pub fn packed(self, suites: &mut [u32; 16]) -> Result<Packed, Refusal>
        ensures suites_after { packed_of result suites.new ≡ packed_at self.entry.bytes.now self.entry.at }
        ensures stored { Stored result suites.new }
    {
        *suites = [0; 16];
        let part = self.block()?;
        let end = part.place + part.size;
        let list = entries(&self.bytes[..end], part.place, suites);
        if list.is_err() {
            *suites = [0; 16];
        }
        list
    }
}
