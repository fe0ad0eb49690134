// The events that lead from a state to a state, a line for each, in the label of an edge or, where the state stays, of a node.
use crate::cells::{Flags, Transition, is_marked};
use crate::names::Event;
use std::fmt;
use table::codes;

#[derive(Clone, Copy)]
pub(crate) struct Lines {
    pub(crate) from: u32,
    pub(crate) to: u32,
}

impl Lines {
    fn transition(self, code: u32, held: bool) -> Transition {
        Transition {
            from: self.from,
            to: self.to,
            code,
            held,
        }
    }

    pub(crate) fn is_empty(self) -> bool {
        !(codes::UPPER_START_HANDSHAKE..=codes::ACK_TIMEOUT).any(|code| {
            self.transition(code, true).is_shown() || self.transition(code, false).is_shown()
        })
    }

    // A node's label is a table, for its bold name. In an edge's label the space keeps the text clear of the edge.
    fn ends(self) -> (&'static str, &'static str) {
        if self.from == self.to {
            ("    <TR><TD ALIGN=\"LEFT\">", "</TD></TR>\n")
        } else {
            (" ", "\\l")
        }
    }

    fn line<W: fmt::Write>(self, f: &mut fmt::Formatter<W>, transition: Transition) -> fmt::Result {
        let (start, end) = self.ends();
        let event = Event(transition.code);
        write!(f, "{start}{event}{}", condition(transition))?;
        // Document 01's "7/8": the ack flag is set while a block waits for its acknowledgement.
        match transition.flags() {
            Flags::Clear => write!(f, ",{end}{start}   without a waiting block")?,
            Flags::Set => write!(f, ",{end}{start}   with a waiting block")?,
            Flags::Neither | Flags::Either => {}
        }
        write!(f, "{end}")
    }
}

impl fmt::Display for Lines {
    fn fmt<W: fmt::Write>(&self, f: &mut fmt::Formatter<W>) -> fmt::Result {
        let (start, end) = self.ends();
        if self.from == self.to && !self.is_empty() {
            write!(f, "{start}stays at:{end}")?;
        }
        for code in codes::UPPER_START_HANDSHAKE..=codes::ACK_TIMEOUT {
            for held in [true, false] {
                let transition = self.transition(code, held);
                if transition.is_shown() {
                    self.line(f, transition)?;
                }
            }
        }
        Ok(())
    }
}

// Document 01 has "13 good" and "13 bad", and of a hello only the condition itself.
fn condition(transition: Transition) -> &'static str {
    if !is_marked(transition.from, transition.code) {
        return "";
    }
    match (transition.code, transition.held) {
        (codes::SC_DAT, true) => " good",
        (codes::SC_DAT, false) => " bad",
        (_, true) => " passes",
        (_, false) => " fails",
    }
}
