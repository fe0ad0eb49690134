// The test whether a record is well formed, as document 01 lists it and request #102 amends it: the ranges of its fields, no tag
// above the number, and what each state asks.
#![tactic(auto)]

ghost use Rattle.std.specs.Prelude.{◌≡◌};
ghost use Rattle.record.specs.WellFormed as spec;
ghost use Rattle.record.specs.Limits.{limits};

mod by_state;

use crate::by_state::fits_state;
use record::Connection;
use table::states;

// The most bytes of a cached block.
const MAX_CACHED: u32 = 4096;

// Whether a record is well formed.
#[tactic(auto, unfolding(record::specs::WellFormed::well_formed))]
pub fn well_formed(connection: Connection) -> bool
    ensures { result ≡ spec.well_formed limits connection }
{
    if !(fields_fit(connection) & tags_at_most(connection.handled, connection)) {
        return false;
    }
    fits_state(connection)
}

// The ranges of state, flag, bits and length, and no length without the flag.
fn fields_fit(c: Connection) -> bool
    ensures { result ≡ spec.fields_fit limits c }
{
    (c.state <= states::CLOSED_LOCKED)
        & (c.awaiting_ack <= 1)
        & (c.next_send_bit <= 1)
        & (c.expected_bit <= 1)
        & (c.cached_len <= MAX_CACHED)
        & ((c.cached_len == 0) | (c.awaiting_ack != 0))
}

// No tag above the number.
fn tags_at_most(number: u32, c: Connection) -> bool
    ensures { result ≡ spec.tags_at_most number c }
{
    (c.h <= number)
        & (c.prover <= number)
        & (c.verifier <= number)
        & (c.dat <= number)
        & (c.ra <= number)
        & (c.ack <= number)
}
