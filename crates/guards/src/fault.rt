// The faults for which a call is refused before the table is looked at.
ghost use Rattle.std.specs.Prelude.{◌≡◌, ◌∷◌, [], ◌++◌};
ghost use Rattle.guards.specs.Numbered.{refusal_numbered};
ghost use Rattle.protocol.specs.Faults.{first_fault, early_faults};
ghost use Rattle.protocol.specs.Refusal.{ill_formed};
ghost use Rattle.record.specs.Limits.{limits};

use event::{Input, timers};
use protocol::refusals;
use record::Connection;
use table::codes;
use well_formed::well_formed;

const MAX_BIT: u32 = 1;

// The lowest refusal from 1 to 7 whose fault is present.
pub fn lowest_fault(connection: Connection, code: u32, input: Input) -> Option<u32>
    ensures { result ≡ refusal_numbered (first_fault 1 (early_faults code input ++ (ill_formed limits connection ∷ []))) }
{
    if code > codes::ACK_TIMEOUT {
        return Some(refusals::UNKNOWN_CODE);
    }
    if input.timer > timers::HV {
        return Some(refusals::UNKNOWN_TIMER);
    }
    if input.bit > MAX_BIT {
        return Some(refusals::WRONG_BIT);
    }
    if input.payload_too_long {
        return Some(refusals::PAYLOAD_TOO_LONG);
    }
    if input.cache_too_short {
        return Some(refusals::CACHE_TOO_SHORT);
    }
    if input.suites.too_long {
        return Some(refusals::LIST_TOO_LONG);
    }
    if !well_formed(connection) {
        return Some(refusals::NOT_WELL_FORMED);
    }
    None
}
