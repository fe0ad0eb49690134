// A note of the events that lock in each open state, which its edges then needn't repeat.
use crate::cells::{FIRST_OPEN, LAST_OPEN, locks};
use crate::names::Event;
use std::io::Write;
use std::{fmt, io};
use table::{codes, states};

// The look of what locks: grey, so that the rest stands out.
pub(crate) const GREY: &str = "color=gray60 fontcolor=gray35";

#[derive(Clone, Copy)]
struct Locking;

impl fmt::Display for Locking {
    fn fmt<W: fmt::Write>(&self, f: &mut fmt::Formatter<W>) -> fmt::Result {
        for code in codes::UPPER_START_HANDSHAKE..=codes::ACK_TIMEOUT {
            if locks(code) {
                write!(f, "{}\\l", Event(code))?;
            }
        }
        Ok(())
    }
}

pub(crate) fn draw<W: Write>(out: &mut W) -> io::Result<()> {
    write!(
        out,
        "  note [shape=note style=filled fillcolor=gray95 {GREY}"
    )?;
    write!(
        out,
        " label=\"Each of states {FIRST_OPEN} to {LAST_OPEN} also locks at:\\l"
    )?;
    writeln!(out, "{Locking}\"];")?;
    writeln!(out, "  note -> {} [{GREY}];", states::CLOSED_LOCKED)
}
