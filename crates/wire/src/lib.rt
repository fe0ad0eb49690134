// The public wire format of Protocol Buffers in lent bytes: numbers, length-delimited parts and packed lists.
#![tactic(auto)]

mod block;
mod list;
mod varint;

pub use crate::block::Span;
pub use crate::list::Packed;
pub use crate::varint::Varint;

// A place of lent bytes. Its methods read what stands there, and give a refusal where it lies past the end.
#[derive(Clone, Copy, Debug, PartialEq, Eq)]
pub struct Place<'a> {
    pub bytes: &'a [u8],
    pub at: usize,
}
