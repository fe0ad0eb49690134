// The protocol of a connection as definitions: what a call gives, and what holds of any list of calls (`specs`, `proofs`).
// The code that computes it is the crate `connection`; here are the types that definitions and code share.
#![tactic(auto)]

ghost use Rattle.std.specs.Prelude.{◌≡◌};
ghost use Rattle.protocol.specs.Sheet.{actions_in, slots_of};

pub mod orders;
pub mod refusals;

use record::Connection;

// What the host is to do: document 01's order sheet. The numbers are in `orders`. A slot that says nothing holds 0, since any sixteen numbers
// are a sheet that a host in C may hold.
#[derive(Clone, Copy, Debug, PartialEq, Eq)]
pub struct Actions {
    pub message: u32,
    // Orders to the drivers.
    pub prover: u32,
    pub verifier: u32,
    // Orders to the timers.
    pub h: u32,
    pub hp: u32,
    pub hv: u32,
    pub dat: u32,
    pub ra: u32,
    pub ack: u32,
    // The length of the DAT timer, where it starts.
    pub dat_seconds: u32,
    // The bit of a DATA or ACK.
    pub bit: u32,
    // Document 01's hand-up: whether the payload goes to the application.
    pub deliver: bool,
    // The chosen suites, where the connection opens.
    pub verifier_suite: u32,
    pub prover_suite: u32,
    // The slice that the payload is a part of, and the payload's length.
    pub payload_slice: u32,
    pub payload_len: u32,
}

// What became of an event. It has three cases, where a `Result` has two.
#[derive(Clone, Copy, Debug, PartialEq, Eq)]
pub enum Answer {
    Handled,
    Ignored,
    Refused(u32),
}

// What a step gives back.
#[derive(Clone, Copy, Debug, PartialEq, Eq)]
pub struct Outcome {
    pub answer: Answer,
    pub connection: Connection,
    pub actions: Actions,
}

// The order sheet that sixteen numbers are.
impl From<&[u32; 16]> for Actions {
    ghost from_gives = { λ slots actions. actions ≡ actions_in slots.now };

    fn from(slots: &[u32; 16]) -> Actions {
        Actions {
            message: slots[0],
            prover: slots[1],
            verifier: slots[2],
            h: slots[3],
            hp: slots[4],
            hv: slots[5],
            dat: slots[6],
            ra: slots[7],
            ack: slots[8],
            dat_seconds: slots[9],
            bit: slots[10],
            deliver: slots[11] == 1,
            verifier_suite: slots[12],
            prover_suite: slots[13],
            payload_slice: slots[14],
            payload_len: slots[15],
        }
    }
}

// The slots of an order sheet.
impl From<Actions> for [u32; 16] {
    ghost from_gives = { λ actions slots. slots ≡ slots_of actions };

    fn from(actions: Actions) -> [u32; 16] {
        [
            actions.message,
            actions.prover,
            actions.verifier,
            actions.h,
            actions.hp,
            actions.hv,
            actions.dat,
            actions.ra,
            actions.ack,
            actions.dat_seconds,
            actions.bit,
            u32::from(actions.deliver),
            actions.verifier_suite,
            actions.prover_suite,
            actions.payload_slice,
            actions.payload_len,
        ]
    }
}
