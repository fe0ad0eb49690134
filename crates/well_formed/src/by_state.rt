// What number, flag, bits and tags of a well-formed record are in each state.
ghost use Rattle.std.specs.Prelude.{◌≡◌, ◌&&◌, T, eqb, leb};
ghost use Rattle.record.specs.WellFormed.{fits_state};
ghost use Rattle.well_formed.specs.Tag.{on_just, tags_fit};

use record::Connection;
use table::states;

// Which tags are on.
#[derive(Clone, Copy)]
struct Tags {
    h: bool,
    prover: bool,
    verifier: bool,
    dat: bool,
    ra: bool,
    ack: bool,
}

const NONE: Tags = Tags {
    h: false,
    prover: false,
    verifier: false,
    dat: false,
    ra: false,
    ack: false,
};

const H: Tags = Tags { h: true, ..NONE };

const H_PROVER: Tags = Tags { prover: true, ..H };

const DAT_VERIFIER: Tags = Tags {
    dat: true,
    verifier: true,
    ..NONE
};

const DAT_BOTH: Tags = Tags {
    prover: true,
    ..DAT_VERIFIER
};

const DAT_RA: Tags = Tags {
    dat: true,
    ra: true,
    ..NONE
};

const DAT_RA_PROVER: Tags = Tags {
    prover: true,
    ..DAT_RA
};

const DAT_RA_ACK: Tags = Tags {
    ack: true,
    ..DAT_RA
};

// Whether number, flag, bits and tags are those of the state. Each state has its constants: a test for each tag, by the set of states in
// which it is on, was tried, and a step took 40 instructions more.
pub(crate) fn fits_state(c: Connection) -> bool
    requires { T (leb c.state 9) }
    ensures { result ≡ fits_state c.state c }
{
    let state = c.state;
    match state {
        states::CLOSED_UNLOCKED => (c.handled == 0) & fits_closed(NONE, c),
        states::WAIT_FOR_HELLO => fits_closed(H, c),
        states::WAIT_FOR_RA => tags_fit(DAT_BOTH, c),
        states::WAIT_FOR_RA_PROVER => tags_fit(DAT_RA_PROVER, c),
        states::WAIT_FOR_RA_VERIFIER => tags_fit(DAT_VERIFIER, c),
        states::WAIT_FOR_DAT_AND_RA => tags_fit(H_PROVER, c),
        states::WAIT_FOR_DAT_AND_RA_VERIFIER => tags_fit(H, c),
        states::ESTABLISHED => (c.awaiting_ack == 0) & tags_fit(DAT_RA, c),
        states::WAIT_FOR_ACK => (c.awaiting_ack == 1) & tags_fit(DAT_RA_ACK, c),
        _ => fits_closed(NONE, c),
    }
}

// Whether bits and flag are 0, and just these tags are on.
fn fits_closed(on: Tags, c: Connection) -> bool
    ensures { result ≡ ((eqb c.next_send_bit 0 && eqb c.expected_bit 0) && (eqb c.awaiting_ack 0 && tags_fit on c)) }
{
    ((c.next_send_bit == 0) & (c.expected_bit == 0)) & ((c.awaiting_ack == 0) & tags_fit(on, c))
}

// Whether just these tags are on.
fn tags_fit(on: Tags, c: Connection) -> bool
    ensures { result ≡ tags_fit on c }
{
    on_just(on.h, c.h)
        & on_just(on.prover, c.prover)
        & on_just(on.verifier, c.verifier)
        & on_just(on.dat, c.dat)
        & on_just(on.ra, c.ra)
        & on_just(on.ack, c.ack)
}

fn on_just(runs: bool, tag: u32) -> bool
    ensures { result ≡ on_just runs tag }
{
    runs == (tag != 0)
}
