// Bytes in hexadecimal, two digits a byte, and as COUNT*BYTE.
ghost use Rattle.std.specs.Prelude.{◌<◌, ◌≤◌, IfSome, length};

use crate::decimal::parse;
use crate::row::Group;

// The most bytes of a group of a row. A buffer of another size has room for as many as its own.
pub const BYTES: usize = 32_768;

// The value of a hexadecimal digit in lower case; `to_digit` of `char` takes upper case too.
fn digit(byte: u8) -> Option<u8>
    ensures { IfSome result (λ value. value < 16) }
{
    match byte {
        b'0'..=b'9' => Some(byte - b'0'),
        b'a'..=b'f' => Some(byte - b'a' + 10),
        _ => None,
    }
}

fn pair(high: u8, low: u8) -> Option<u8> {
    Some(digit(high)? * 16 + digit(low)?)
}

// Writes the bytes of digits, of which there must be an even number, and gives how many they are.
fn write_digits(room: &mut [u8], digits: &[u8]) -> Option<usize>
    ensures { IfSome result (λ count. count ≤ length room.old) }
{
    let (pairs, odd) = digits.as_chunks::<2>();
    if !odd.is_empty() || pairs.len() > room.len() {
        return None;
    }
    for (byte, [high, low]) in room.iter_mut().zip(pairs) {
        *byte = pair(*high, *low)?;
    }
    Some(pairs.len())
}

// Writes the bytes of a piece, COUNT*BYTE or digits, and gives how many they are.
fn write_piece(room: &mut [u8], piece: &[u8]) -> Option<usize>
    ensures { IfSome result (λ count. count ≤ length room.old) }
{
    let [count @ .., b'*', high, low] = piece else {
        return write_digits(room, piece);
    };
    let byte = pair(*high, *low)?;
    let count = parse::<u32>(count)? as usize;
    room.get_mut(..count)?.fill(byte);
    Some(count)
}

impl Group<'_> {
    // The bytes of the pieces, one after the other, in a buffer that is lent, if it has room for all.
    pub fn bytes(self, buffer: &mut [u8]) -> Option<&mut [u8]>
        ensures { IfSome result (λ bytes. length bytes.now ≤ length buffer.old) }
    {
        let mut len: usize = 0;
        for piece in self.items() {
            len = len.checked_add(write_piece(buffer.get_mut(len..)?, piece)?)?;
        }
        buffer.get_mut(..len)
    }
}
