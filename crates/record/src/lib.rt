// The record of a connection.
#![tactic(auto)]

ghost use Rattle.std.specs.Prelude.{◌≡◌};
ghost use Rattle.record.specs.Numbers.{numbers_of, record_in};
ghost use Rattle.record.specs.WellFormed as spec;

use table::states;

// The record of a connection. Its fields are numbers, since a host may lend any twelve: `well_formed` tests them. A tag is 0 when
// its driver or timer is off, else the number of the handled event that started it.
#[derive(Clone, Copy, Debug, Default, PartialEq, Eq)]
pub struct Connection {
    pub state: u32,
    // Document 01's ack flag: 1 while a block waits for its acknowledgement.
    pub awaiting_ack: u32,
    pub next_send_bit: u32,
    pub expected_bit: u32,
    pub cached_len: u32,
    // The number of handled events.
    pub handled: u32,
    // Tags. The prover's is also its timer HP's, the verifier's also HV's.
    pub h: u32,
    pub prover: u32,
    pub verifier: u32,
    pub dat: u32,
    pub ra: u32,
    pub ack: u32,
}

// The record of a new connection.
pub fn fresh() -> Connection
    ensures { result ≡ spec.fresh }
{
    cleared(states::CLOSED_UNLOCKED, 0)
}

// A record with a state and a number, all else 0.
pub fn cleared(state: u32, handled: u32) -> Connection
    ensures { result ≡ spec.cleared state handled }
{
    Connection {
        state,
        handled,
        ..Connection::default()
    }
}

// The record that twelve numbers are.
impl From<&[u32; 12]> for Connection {
    ghost from_gives = { λ numbers connection. connection ≡ record_in numbers.now };

    fn from(numbers: &[u32; 12]) -> Connection {
        Connection {
            state: numbers[0],
            awaiting_ack: numbers[1],
            next_send_bit: numbers[2],
            expected_bit: numbers[3],
            cached_len: numbers[4],
            handled: numbers[5],
            h: numbers[6],
            prover: numbers[7],
            verifier: numbers[8],
            dat: numbers[9],
            ra: numbers[10],
            ack: numbers[11],
        }
    }
}

// The numbers of a record.
impl From<Connection> for [u32; 12] {
    ghost from_gives = { λ connection numbers. numbers ≡ numbers_of connection };

    fn from(connection: Connection) -> [u32; 12] {
        [
            connection.state,
            connection.awaiting_ack,
            connection.next_send_bit,
            connection.expected_bit,
            connection.cached_len,
            connection.handled,
            connection.h,
            connection.prover,
            connection.verifier,
            connection.dat,
            connection.ra,
            connection.ack,
        ]
    }
}
