// A varint: seven bits a byte, the lowest first.
ghost use Rattle.std.specs.Prelude.{◌≡◌, cond, ◌≤◌, ◌+◌, ltb, length};
ghost use Rattle.wire.specs.Varint.{value, fault, said, number_from, number_at, bit_at};
ghost use Rattle.wire.specs.Bytes.{SaidBy};
ghost use Rattle.wire.specs.Parts.{number_of};

use crate::Place;
use fault::Refusal;

// The lowest byte that announces another.
const MORE: u64 = 128;

const LARGEST_BIT: u32 = 1;

// So many bytes say less than 2^63; one more may not fit 64 bits.
const SAFE_WIDTH: usize = 9;

// With any bit of a tenth byte a number does not fit.
const LARGEST_TENTH: u8 = 0;

// So many bytes say every number of 32 bits.
const SHORT_WIDTH: usize = 5;

// A number with the place after it.
#[derive(Clone, Copy, Debug, PartialEq, Eq)]
pub struct Varint {
    pub value: u32,
    pub next: usize,
}

// What the first bytes say: a value, and how many of them say it; the bytes end too soon; or each of the first announces more,
// with what they say so far.
#[derive(Clone, Copy, Debug, PartialEq, Eq)]
enum Said {
    Value(u64, usize),
    Cut,
    More(u64),
}

fn fitting(number: u64, next: usize) -> Result<Varint, Refusal>
    ensures { number_of result ≡ cond (ltb 4294967295 number) (fault 24) (value number next) }
{
    match u32::try_from(number) {
        Ok(value) => Ok(Varint { value, next }),
        Err(_) => Err(Refusal::NumberTooLarge),
    }
}

// What the first `most` bytes say.
fn first_bytes(bytes: &[u8], most: usize) -> Said
    requires { most ≤ 9 }
    ensures { SaidBy most result bytes.now }
{
    let mut low: u64 = 0;
    let mut scale: u64 = 1;
    for (at, byte) in bytes.iter().enumerate() {
        if at == most {
            return Said::More(low);
        }
        let byte = u64::from(*byte);
        if byte < MORE {
            return Said::Value(low + scale * byte, at + 1);
        }
        low += scale * (byte - MORE);
        scale *= MORE;
    }
    Said::Cut
}

// A number of any length, from its bytes on; `place` is that of the first. With any bit of a tenth byte it is too large.
fn long_number(bytes: &[u8], place: usize) -> Result<Varint, Refusal>
    requires { place + length bytes.now ≤ 18446744073709551615 }
    ensures { number_of result ≡ number_from place (said 10 bytes.now) }
{
    match first_bytes(bytes, SAFE_WIDTH) {
        Said::Value(number, width) => fitting(number, place + width),
        Said::Cut => Err(Refusal::EndsTooSoon),
        Said::More(low) => {
            if bytes[SAFE_WIDTH] > LARGEST_TENTH {
                return Err(Refusal::NumberTooLarge);
            }
            fitting(low, place + 10)
        }
    }
}

impl Place<'_> {
    // The number at the place. Most keys and lengths are said by one byte or two, and these are read without a call.
    pub fn number(self) -> Result<Varint, Refusal>
        ensures { number_of result ≡ number_at self.entry.bytes.now self.entry.at }
    {
        let Place { bytes, at } = self;
        if at >= bytes.len() {
            return Err(Refusal::EndsTooSoon);
        }
        let first = u64::from(bytes[at]);
        if first < MORE {
            return Ok(Varint {
                value: first as u32,
                next: at + 1,
            });
        }
        if bytes.len() - at > 1 {
            let second = u64::from(bytes[at + 1]);
            if second < MORE {
                return Ok(Varint {
                    value: (first - MORE + MORE * second) as u32,
                    next: at + 2,
                });
            }
        }
        long_number(&bytes[at..], at)
    }

    // The same of an entry of a list, which may well have five bytes: where these are there, the compiler can leave out the
    // tests for the end. Each answer is opened by `?` and made anew: passed on whole, its case is tested twice in every turn
    // of the loop.
    pub(crate) fn entry(self) -> Result<Varint, Refusal>
        requires { self.at ≤ length self.bytes.now }
        ensures { number_of result ≡ number_at self.entry.bytes.now self.entry.at }
    {
        if self.bytes.len() - self.at < SHORT_WIDTH {
            let entry = self.number()?;
            return Ok(entry);
        }
        match first_bytes(&self.bytes[self.at..], SHORT_WIDTH) {
            Said::Value(number, width) => {
                let entry = fitting(number, self.at + width)?;
                Ok(entry)
            }
            Said::Cut => Err(Refusal::EndsTooSoon),
            Said::More(_) => {
                let entry = long_number(&self.bytes[self.at..], self.at)?;
                Ok(entry)
            }
        }
    }

    // The bit at the place.
    pub fn bit(self) -> Result<Varint, Refusal>
        ensures { number_of result ≡ bit_at self.entry.bytes.now self.entry.at }
    {
        let bit = self.number()?;
        if bit.value > LARGEST_BIT {
            return Err(Refusal::NumberTooLarge);
        }
        Ok(bit)
    }
}
