// What the drawing asks of the published table. States, codes and the ack flag are numbers, as `table::next_state` takes them.
use table::{next_state, states};

// The states between the closed ones, in each of which the same events lock.
pub(crate) const FIRST_OPEN: u32 = states::WAIT_FOR_HELLO;

pub(crate) const LAST_OPEN: u32 = states::WAIT_FOR_ACK;

fn is_open(state: u32) -> bool {
    (FIRST_OPEN..=LAST_OPEN).contains(&state)
}

// The values of the ack flag at which an event leads to a state.
#[derive(Clone, Copy, PartialEq, Eq)]
pub(crate) enum Flags {
    Neither,
    Clear,
    Set,
    Either,
}

// An event by its code, from a state to a state, where the event's condition holds or doesn't.
#[derive(Clone, Copy)]
pub(crate) struct Transition {
    pub(crate) from: u32,
    pub(crate) to: u32,
    pub(crate) code: u32,
    pub(crate) held: bool,
}

impl Transition {
    pub(crate) fn flags(self) -> Flags {
        match (self.leads_with(0), self.leads_with(1)) {
            (true, true) => Flags::Either,
            (true, false) => Flags::Clear,
            (false, true) => Flags::Set,
            (false, false) => Flags::Neither,
        }
    }

    fn leads_with(self, flag: u32) -> bool {
        next_state(self.from, flag, self.code, self.held) == Some(self.to)
    }

    // A condition that isn't asked has one line, and what the note says of all states isn't said again.
    pub(crate) fn is_shown(self) -> bool {
        let is_new = if self.held {
            !self.is_noted()
        } else {
            is_asked(self.from, self.code)
        };
        is_new && self.flags() != Flags::Neither
    }

    fn is_noted(self) -> bool {
        self.to == states::CLOSED_LOCKED && is_open(self.from) && locks(self.code)
    }
}

// Whether the event's condition decides what follows.
fn is_asked(from: u32, code: u32) -> bool {
    [0, 1].iter().any(|flag| next_state(from, *flag, code, true)
        != next_state(from, *flag, code, false))
}

// Whether a condition that is asked and doesn't hold leads somewhere, too: both outcomes then need a mark.
pub(crate) fn is_marked(from: u32, code: u32) -> bool {
    is_asked(from, code)
        && [0, 1]
            .iter()
            .any(|flag| next_state(from, *flag, code, false).is_some())
}

// Whether the event locks in each of states 1 to 8.
pub(crate) fn locks(code: u32) -> bool {
    (FIRST_OPEN..=LAST_OPEN).all(|from| {
        let locking = Transition {
            from,
            to: states::CLOSED_LOCKED,
            code,
            held: true,
        };
        locking.flags() == Flags::Either
    })
}
