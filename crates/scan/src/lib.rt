// What stands in a line of text: a word, and after it groups of items. Groups stand between `;`, items between blanks.
//
// Any bytes may be given. What is not understood gives `None`.
#![tactic(auto)]

ghost use Rattle.std.specs.Prelude.{◌≡◌, ◌≢◌, ◌<◌, ◌++◌, length, slice_index};

mod decimal;
mod hexadecimal;
mod row;

pub use hexadecimal::BYTES;
pub use row::{Group, Groups, Items};

const BLANK: u8 = b' ';

// The bytes before the first blank, and those from it on.
pub fn split_word(line: &[u8]) -> (&[u8], &[u8])
    ensures whole { line.now ≡ result.0.now ++ result.1.now }
    ensures begun { 0 < length line.now → slice_index line.now 0 ≢ BLANK → 0 < length result.0.now }
{
    let end = line.iter().position(|byte| *byte == BLANK);
    line.split_at(end.unwrap_or(line.len()))
}
