// The published table of the transport layer: which state follows an event.
#![tactic(auto, unfolding(crate::specs::Table::cell))]

ghost use Rattle.std.specs.Prelude.{◌≡◌, true, false};
ghost use Rattle.table.specs.Cell.{cell_of, following};
ghost use Rattle.table.specs.Table.{cell, settled};
ghost use Rattle.table.specs.Report.{reported};

pub mod codes;
pub mod states;

// A cell of the table.
#[derive(Clone, Copy, Debug, PartialEq, Eq)]
enum Cell {
    // The state that follows.
    To(u32),
    // Document 01's "7/8": WAIT_FOR_ACK if the ack flag is set, else ESTABLISHED.
    Branch,
    // Document 01's "-".
    Ignored,
}

// The state that follows, `None` where the event is ignored. The state is a number, since the promise is for any number.
pub fn next_state(state: u32, awaiting_ack: u32, code: u32, held: bool) -> Option<u32>
    ensures { result ≡ following (settled awaiting_ack (cell state code held)) }
{
    match follow(state, code, held) {
        Cell::To(next) => Some(next),
        Cell::Branch if awaiting_ack == 1 => Some(states::WAIT_FOR_ACK),
        Cell::Branch => Some(states::ESTABLISHED),
        Cell::Ignored => None,
    }
}

// The table's cell.
fn follow(state: u32, code: u32, held: bool) -> Cell
    ensures { result ≡ cell_of (cell state code held) }
{
    if held {
        when_held(state, code)
    } else {
        when_not(state, code)
    }
}

// Where the condition doesn't hold: a hello that fails and a bad token lock.
fn when_not(state: u32, code: u32) -> Cell
    ensures { result ≡ cell_of (cell state code false) }
{
    match code {
        codes::SC_HELLO => failed_hello(state),
        codes::SC_DAT => bad_token(state),
        _ => Cell::Ignored,
    }
}

fn failed_hello(state: u32) -> Cell
    ensures { result ≡ cell_of (cell state 11 false) }
{
    match state {
        states::WAIT_FOR_HELLO => Cell::To(states::CLOSED_LOCKED),
        _ => Cell::Ignored,
    }
}

fn bad_token(state: u32) -> Cell
    ensures { result ≡ cell_of (cell state 13 false) }
{
    match state {
        states::WAIT_FOR_DAT_AND_RA | states::WAIT_FOR_DAT_AND_RA_VERIFIER => Cell::To(
            states::CLOSED_LOCKED,
        ),
        _ => Cell::Ignored,
    }
}

// Where the condition holds. Each state has its row, with the events that lock in every open state among them.
fn when_held(state: u32, code: u32) -> Cell
    ensures { result ≡ cell_of (cell state code true) }
{
    match state {
        states::CLOSED_UNLOCKED => in_closed_unlocked(code),
        states::WAIT_FOR_HELLO => in_wait_for_hello(code),
        states::WAIT_FOR_RA => in_wait_for_ra(code),
        states::WAIT_FOR_RA_PROVER => in_wait_for_ra_prover(code),
        states::WAIT_FOR_RA_VERIFIER => in_wait_for_ra_verifier(code),
        states::WAIT_FOR_DAT_AND_RA => in_wait_for_dat_and_ra(code),
        states::WAIT_FOR_DAT_AND_RA_VERIFIER => in_wait_for_dat_and_ra_verifier(code),
        states::ESTABLISHED => in_established(code),
        states::WAIT_FOR_ACK => in_wait_for_ack(code),
        _ => Cell::Ignored,
    }
}

// What follows a driver's report: OK leads on, FAILED locks, a message stays.
fn report(code: u32, ok: Cell, stay: Cell) -> Cell
    ensures { result ≡ reported code ok stay }
{
    match code {
        codes::RA_VERIFIER_OK | codes::RA_PROVER_OK => ok,
        codes::RA_VERIFIER_FAILED | codes::RA_PROVER_FAILED => Cell::To(states::CLOSED_LOCKED),
        _ => stay,
    }
}

fn in_closed_unlocked(code: u32) -> Cell
    ensures { result ≡ cell_of (cell 0 code true) }
{
    match code {
        codes::UPPER_START_HANDSHAKE => Cell::To(states::WAIT_FOR_HELLO),
        _ => Cell::Ignored,
    }
}

fn in_wait_for_hello(code: u32) -> Cell
    ensures { result ≡ cell_of (cell 1 code true) }
{
    match code {
        codes::SC_HELLO => Cell::To(states::WAIT_FOR_RA),
        codes::UPPER_CLOSE | codes::SC_ERROR | codes::SC_CLOSE | codes::HANDSHAKE_TIMEOUT => {
            Cell::To(states::CLOSED_LOCKED)
        }
        _ => Cell::Ignored,
    }
}

fn in_wait_for_ra(code: u32) -> Cell
    ensures { result ≡ cell_of (cell 2 code true) }
{
    match code {
        codes::RA_VERIFIER_OK..=codes::RA_VERIFIER_MSG => {
            report(
                code,
                Cell::To(states::WAIT_FOR_RA_PROVER),
                Cell::To(states::WAIT_FOR_RA),
            )
        }
        codes::RA_PROVER_OK..=codes::RA_PROVER_MSG => {
            report(
                code,
                Cell::To(states::WAIT_FOR_RA_VERIFIER),
                Cell::To(states::WAIT_FOR_RA),
            )
        }
        codes::SC_DAT_EXPIRED..=codes::SC_RE_RA => Cell::To(states::WAIT_FOR_RA),
        codes::SC_ACK => Cell::To(states::WAIT_FOR_RA),
        codes::DAT_TIMEOUT => Cell::To(states::WAIT_FOR_DAT_AND_RA),
        codes::UPPER_CLOSE | codes::SC_ERROR | codes::SC_CLOSE | codes::HANDSHAKE_TIMEOUT => {
            Cell::To(states::CLOSED_LOCKED)
        }
        _ => Cell::Ignored,
    }
}

fn in_wait_for_ra_prover(code: u32) -> Cell
    ensures { result ≡ cell_of (cell 3 code true) }
{
    match code {
        codes::UPPER_RE_RA | codes::RA_TIMEOUT => Cell::To(states::WAIT_FOR_RA),
        codes::RA_PROVER_OK..=codes::RA_PROVER_MSG => {
            report(code, Cell::Branch, Cell::To(states::WAIT_FOR_RA_PROVER))
        }
        codes::SC_DAT_EXPIRED | codes::SC_RE_RA => Cell::To(states::WAIT_FOR_RA_PROVER),
        codes::SC_RA_VERIFIER | codes::SC_ACK => Cell::To(states::WAIT_FOR_RA_PROVER),
        codes::DAT_TIMEOUT => Cell::To(states::WAIT_FOR_DAT_AND_RA),
        codes::UPPER_CLOSE | codes::SC_ERROR | codes::SC_CLOSE | codes::HANDSHAKE_TIMEOUT => {
            Cell::To(states::CLOSED_LOCKED)
        }
        _ => Cell::Ignored,
    }
}

fn in_wait_for_ra_verifier(code: u32) -> Cell
    ensures { result ≡ cell_of (cell 4 code true) }
{
    match code {
        codes::RA_VERIFIER_OK..=codes::RA_VERIFIER_MSG => {
            report(code, Cell::Branch, Cell::To(states::WAIT_FOR_RA_VERIFIER))
        }
        codes::SC_DAT_EXPIRED | codes::SC_RE_RA => Cell::To(states::WAIT_FOR_RA),
        codes::SC_RA_PROVER | codes::SC_ACK => Cell::To(states::WAIT_FOR_RA_VERIFIER),
        codes::DAT_TIMEOUT => Cell::To(states::WAIT_FOR_DAT_AND_RA_VERIFIER),
        codes::UPPER_CLOSE | codes::SC_ERROR | codes::SC_CLOSE | codes::HANDSHAKE_TIMEOUT => {
            Cell::To(states::CLOSED_LOCKED)
        }
        _ => Cell::Ignored,
    }
}

fn in_wait_for_dat_and_ra(code: u32) -> Cell
    ensures { result ≡ cell_of (cell 5 code true) }
{
    match code {
        codes::RA_PROVER_OK..=codes::RA_PROVER_MSG => report(
            code,
            Cell::To(states::WAIT_FOR_DAT_AND_RA_VERIFIER),
            Cell::To(states::WAIT_FOR_DAT_AND_RA),
        ),
        codes::SC_DAT => Cell::To(states::WAIT_FOR_RA),
        codes::SC_DAT_EXPIRED | codes::SC_RE_RA => Cell::To(states::WAIT_FOR_DAT_AND_RA),
        codes::SC_RA_VERIFIER | codes::SC_ACK => Cell::To(states::WAIT_FOR_DAT_AND_RA),
        codes::UPPER_CLOSE | codes::SC_ERROR | codes::SC_CLOSE | codes::HANDSHAKE_TIMEOUT => {
            Cell::To(states::CLOSED_LOCKED)
        }
        _ => Cell::Ignored,
    }
}

fn in_wait_for_dat_and_ra_verifier(code: u32) -> Cell
    ensures { result ≡ cell_of (cell 6 code true) }
{
    match code {
        codes::SC_DAT => Cell::To(states::WAIT_FOR_RA_VERIFIER),
        codes::SC_DAT_EXPIRED | codes::SC_RE_RA => Cell::To(states::WAIT_FOR_DAT_AND_RA),
        codes::SC_ACK => Cell::To(states::WAIT_FOR_DAT_AND_RA_VERIFIER),
        codes::UPPER_CLOSE | codes::SC_ERROR | codes::SC_CLOSE | codes::HANDSHAKE_TIMEOUT => {
            Cell::To(states::CLOSED_LOCKED)
        }
        _ => Cell::Ignored,
    }
}

fn in_established(code: u32) -> Cell
    ensures { result ≡ cell_of (cell 7 code true) }
{
    match code {
        codes::UPPER_SEND_DATA => Cell::To(states::WAIT_FOR_ACK),
        codes::UPPER_RE_RA | codes::RA_TIMEOUT => Cell::To(states::WAIT_FOR_RA_VERIFIER),
        codes::SC_DAT_EXPIRED | codes::SC_RE_RA => Cell::To(states::WAIT_FOR_RA_PROVER),
        codes::SC_DATA => Cell::To(states::ESTABLISHED),
        codes::DAT_TIMEOUT => Cell::To(states::WAIT_FOR_DAT_AND_RA_VERIFIER),
        codes::UPPER_CLOSE | codes::SC_ERROR | codes::SC_CLOSE | codes::HANDSHAKE_TIMEOUT => {
            Cell::To(states::CLOSED_LOCKED)
        }
        _ => Cell::Ignored,
    }
}

fn in_wait_for_ack(code: u32) -> Cell
    ensures { result ≡ cell_of (cell 8 code true) }
{
    match code {
        codes::UPPER_RE_RA | codes::RA_TIMEOUT => Cell::To(states::WAIT_FOR_RA_VERIFIER),
        codes::SC_DAT_EXPIRED | codes::SC_RE_RA => Cell::To(states::WAIT_FOR_RA_PROVER),
        codes::SC_DATA | codes::ACK_TIMEOUT => Cell::To(states::WAIT_FOR_ACK),
        codes::SC_ACK => Cell::To(states::ESTABLISHED),
        codes::DAT_TIMEOUT => Cell::To(states::WAIT_FOR_DAT_AND_RA_VERIFIER),
        codes::UPPER_CLOSE | codes::SC_ERROR | codes::SC_CLOSE | codes::HANDSHAKE_TIMEOUT => {
            Cell::To(states::CLOSED_LOCKED)
        }
        _ => Cell::Ignored,
    }
}
